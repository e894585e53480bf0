// The choice at a root that is no within (`synth_seq_match` of the source). Each pass keeps one alternative after the other in work and
// looks at it there. So no expression is stored, and nothing is written into the output before its size is known.
//
// Example: `a[*1:2]` has two alternatives. The passes find no misplaced Empty, count 1 register and 12 words, write
// `a0 any seq0`, then `a0 any`, then `r0 a0 any and any or`, and end the match.
#![tactic(auto)]

ghost use Rattle.std.specs.Prelude.{◌≡◌, ◌+◌, ◌≤◌, length};
ghost use Rattle.words.specs.Written.{Wrote};
ghost use Rattle.expand.specs.ByNumber.{alternatives_of};
ghost use Rattle.sizes.specs.Sizes.{Countable, most_words};
ghost use Rattle.alternative.specs.Keeping.{Keepable, Ended};
ghost use Rattle.choice.specs.RootText.{bool_of, lone_in, kept_root_text, kept_root_size};
ghost use Rattle.choice.specs.ChoiceWords.{all_stores, closing, match_words, choice_words, survey_of, Numberable};

use meaning::{Refusal, word};
use term::Alternative;

// The atom of a Bool term.
#[tactic(auto, unfolding(crate::specs::RootText::bool_of))]
fn bool_of(x: meaning::SeqTerm) -> Option<u32>
    ensures { result ≡ bool_of x }
{
    match x {
        meaning::SeqTerm::Bool(a) => Some(a),
        _ => None,
    }
}

// The atom of a kept alternative that is a lone unguarded Bool.
#[tactic(auto, unfolding(crate::specs::RootText::lone_in, words::specs::Choice::pick))]
fn lone_in(y: Alternative<'_>) -> Option<u32>
    ensures { result ≡ lone_in y.entry.work.now y.entry.kept }
{
    if y.kept.steps == 1 && y.kept.guard == y.kept.end {
        return bool_of(y.step(0).term);
    }
    None
}

// Puts the match of a kept alternative at the root: the bare atom, or the alternative's text. `next` is the register after its last.
fn root_text(y: Alternative<'_>, next: u32, out: &mut [u32], at: usize) -> usize
    requires { Ended y.work.now y.kept next × (at + length (kept_root_text y.work.now y.kept) ≤ length out.old) }
    ensures { Wrote out.old out.new at result (kept_root_text y.entry.work.now y.entry.kept) }
{
    match lone_in(y) {
        Some(a) => words::put(out, at, word::ATOM + a),
        None => alternative::text(y, next, out, at),
    }
}

// How many words a kept alternative takes at the root: its assignments and its match there.
#[tactic(auto, using(crate::proofs::RootTexts::root_sizes))]
fn root_size(y: Alternative<'_>) -> u64
    requires { Countable y.work.now y.kept }
    ensures value { result ≡ kept_root_size y.entry.work.now y.entry.kept }
    ensures small { result ≤ most_words }
{
    let z = alternative::size(y);
    match lone_in(y) {
        Some(_) => z.stores + 1,
        None => z.stores + z.text,
    }
}

// How many words stand behind the i-th text of so many.
#[tactic(auto, unfolding(crate::specs::ChoiceWords::closing, words::specs::Choice::pick))]
fn closing_length(count: u32, i: u32) -> u64
    ensures value { result ≡ length (closing count i) }
    ensures small { result ≤ 2 }
{
    match (count, i) {
        (1, _) => 0,
        (_, 0) => 1,
        _ => 2,
    }
}

// Puts the words behind the i-th text of so many, which join it to the texts before.
fn close(count: u32, i: u32, out: &mut [u32], at: usize) -> usize
    requires { at + length (closing count i) ≤ length out.old }
    ensures { Wrote out.old out.new at result (closing count i) }
{
    match (count, i) {
        (1, _) => at,
        (_, 0) => words::put(out, at, word::ANY),
        _ => words::copied(&[word::ANY, word::OR], out, at),
    }
}

// The passes have only `for` and `keep` in common: a closure for the rest would say in clauses of its own what it adds or writes.

// The first pass: refusal 12 of the lowest alternative that it falls on, or the registers of all of them.
pub fn surveyed(t: &[u32], outline: &[u32], n: u32, work: &mut [u32]) -> Result<u64, Refusal>
    requires { Keepable t.now outline.now n 0 (length work.old) }
    ensures { result ≡ survey_of (alternatives_of t.now n) }
{
    let mut total = 0;
    for i in 0..outline::count_of(outline, n) {
        let kept = alternative::keep(t, outline, n, i, 0, work, 0);
        let y = Alternative { work, kept };
        if !pipeline::steps_fit(y) {
            return Err(Refusal::MisplacedEmpty(i));
        }
        total += alternative::registers(y);
    }
    Ok(total)
}

// The second pass: how many words there are, in 64 bits. They are as many from any register on.
pub fn word_count(t: &[u32], outline: &[u32], n: u32, work: &mut [u32]) -> u64
    requires { Numberable t.now outline.now n 0 (length work.old) }
    ensures { result ≡ length (choice_words (alternatives_of t.now n) 0) }
{
    let count = outline::count_of(outline, n);
    let mut total = 1;
    for i in 0..count {
        let kept = alternative::keep(t, outline, n, i, 0, work, 0);
        let y = Alternative { work, kept };
        total += root_size(y) + closing_length(count, i);
    }
    total
}

// The third pass: all assignments, from the front of the output on.
fn put_stores(
    t: &[u32],
    outline: &[u32],
    n: u32,
    first: u32,
    work: &mut [u32],
    out: &mut [u32],
) -> usize
    requires { Numberable t.now outline.now n first (length work.old) × (length (all_stores (alternatives_of t.now n) first) ≤ length out.old) }
    ensures { Wrote out.old out.new 0 result (all_stores (alternatives_of t.now n) first) }
{
    let mut p = 0;
    let mut r = first;
    for i in 0..outline::count_of(outline, n) {
        let kept = alternative::keep(t, outline, n, i, r, work, 0);
        let y = Alternative { work, kept };
        p = pipeline::stores(y, out, p);
        r = alternative::next_register(y);
    }
    p
}

// The fourth pass: the match.
fn put_match(
    t: &[u32],
    outline: &[u32],
    n: u32,
    first: u32,
    work: &mut [u32],
    out: &mut [u32],
    at: usize,
) -> usize
    requires { Numberable t.now outline.now n first (length work.old) × (at + length (match_words (alternatives_of t.now n) first) ≤ length out.old) }
    ensures { Wrote out.old out.new at result (match_words (alternatives_of t.now n) first) }
{
    let count = outline::count_of(outline, n);
    let mut p = at;
    let mut r = first;
    for i in 0..count {
        let kept = alternative::keep(t, outline, n, i, r, work, 0);
        let y = Alternative { work, kept };
        let next = alternative::next_register(y);
        p = root_text(y, next, out, p);
        p = close(count, i, out, p);
        r = next;
    }
    words::put(out, p, word::MATCH)
}

// The third and the fourth pass: the whole listing, from the front of the output on; how many words it has.
pub fn write(
    t: &[u32],
    outline: &[u32],
    n: u32,
    first: u32,
    work: &mut [u32],
    out: &mut [u32],
) -> usize
    requires { Numberable t.now outline.now n first (length work.old) × (length (choice_words (alternatives_of t.now n) first) ≤ length out.old) }
    ensures { Wrote out.old out.new 0 result (choice_words (alternatives_of t.now n) first) }
{
    let at = put_stores(t, outline, n, first, work, out);
    put_match(t, outline, n, first, work, out, at)
}
