// A pair of a root within: one alternative of seq1 beside one of seq2 (`window_len`, and the inner half of `synth_within`). Both are kept in
// work; every text is written from there, and no expression is stored.
//
// Example: in `a within (b ##1 c)` the window of a is 1 and that of b ##1 c is 2, so that the pair takes one further delay: it
// stores `a0 any seq1`, and its text is `r0 a2 any and a0 any r1 or and`.
#![tactic(auto)]

ghost use Rattle.std.specs.Prelude.{◌≡◌, ◌∷◌, ◌+◌, ◌*◌, ◌≤◌, length};
ghost use Rattle.words.specs.Written.{Wrote};
ghost use Rattle.meaning.specs.Root.{window_len, hop_length};
ghost use Rattle.term.specs.Keeping.{steps_of, Whole};
ghost use Rattle.step_text.specs.Text.{and_word};
ghost use Rattle.sizes.specs.Sizes.{most_store_words, most_words};
ghost use Rattle.alternative.specs.Keeping.{Ended};
ghost use Rattle.pair.specs.Pairs.{delay_texts, joining, slide_store_words, slid_text_words, kept_pair_registers, kept_pair_stores, kept_pair_text, Slid, PlacedPair, Marked, longest_window, most_pair_registers};
ghost use Rattle.pair.specs.Sizes.{pair_size_of, longest_text, longest_pair_text};

use meaning::word;
use term::Alternative;

// An alternative of seq1 and one of seq2, and by how many further delays the first may end before the second.
#[derive(Clone, Copy)]
pub struct Pair {
    pub one: term::Kept,
    pub two: term::Kept,
    pub delays: u64,
}

// Where the next pair goes on: its place in the output, and its first register.
#[derive(Clone, Copy)]
pub struct Mark {
    pub place: usize,
    pub register: u32,
}

// The ticks of a hop.
fn hop_length(h: meaning::SeqHop) -> u64
    ensures value { result ≡ hop_length h }
    ensures small { result ≤ 4294967295 }
{
    match h {
        meaning::SeqHop::Fixed(d) => u64::from(d),
        meaning::SeqHop::AtLeast(_) => 0,
    }
}

// The ticks of a kept alternative of Bool terms and fixed hops, summed exactly: the sum can pass 2^32.
pub fn window_len(y: Alternative<'_>) -> u64
    ensures value { result ≡ window_len (steps_of y.entry.work.now y.entry.kept) }
    ensures small { result ≤ longest_window }
{
    let mut total: u64 = 1;
    for k in 1..y.kept.steps {
        total += hop_length(y.step(k).hop);
    }
    total
}

// The registers of a pair: those of seq1's alternative, and one for each further delay.
#[tactic(auto, unfolding(crate::specs::Pairs::kept_pair_registers))]
pub fn registers(work: &[u32], pair: Pair) -> u64
    requires { Whole work.now pair.one × (pair.delays ≤ longest_window) }
    ensures value { result ≡ kept_pair_registers work.now pair }
    ensures small { result ≤ most_pair_registers }
{
    let one = Alternative {
        work,
        kept: pair.one,
    };
    alternative::registers(one) + pair.delays
}

// Puts the assignments of d delays of a kept alternative's text, from register r on, which is the one behind its own.
fn slide_stores(y: Alternative<'_>, r: u32, d: u32, out: &mut [u32], at: usize) -> usize
    requires { Slid y.work.now y.kept r d × (at + length (slide_store_words y.work.now y.kept r d) ≤ length out.old) }
    ensures { Wrote out.old out.new at result (slide_store_words y.entry.work.now y.entry.kept r d) }
{
    if d == 0 {
        return at;
    }
    let a = alternative::text(y, r, out, at);
    let b = words::put(out, a, word::SEQ + r);
    pipeline::delays(&[], r + 1, d - 1, out, b)
}

// Puts the assignments of a pair: those of seq1's alternative, then of its further delays.
pub fn stores(work: &[u32], pair: Pair, out: &mut [u32], at: usize) -> Mark
    requires { PlacedPair work.now pair × (at + length (kept_pair_stores work.now pair) ≤ length out.old) }
    ensures { Marked out.old out.new at result (kept_pair_stores work.now pair) (pair.one.register + kept_pair_registers work.now pair) }
{
    let one = Alternative {
        work,
        kept: pair.one,
    };
    let d = pair.delays as u32;
    let r = alternative::next_register(one);
    let a = pipeline::stores(one, out, at);
    Mark {
        place: slide_stores(one, r, d, out, a),
        register: r + d,
    }
}

// Puts d registers from r on, each ORed to what stands before it.
fn ored(r: u32, d: u32, out: &mut [u32], at: usize) -> usize
    requires { (r + d ≤ 65536) × (at + 2 * d ≤ length out.old) }
    ensures { Wrote out.old out.new at result (delay_texts r d) }
{
    let mut p = at;
    for register in r..r + d {
        p = words::copied(&[word::REGISTER + register, word::OR], out, p);
    }
    p
}

// Puts the text of a kept alternative, and each of d registers from r on, the one behind its own, ORed to it.
fn slid_text(y: Alternative<'_>, r: u32, d: u32, out: &mut [u32], at: usize) -> usize
    requires { Slid y.work.now y.kept r d × (at + length (slid_text_words y.work.now y.kept r d) ≤ length out.old) }
    ensures { Wrote out.old out.new at result (slid_text_words y.entry.work.now y.entry.kept r d) }
{
    let a = alternative::text(y, r, out, at);
    ored(r, d, out, a)
}

// Puts the end of a pair's text: ANDed to seq2's, and ORed to the pairs before, of which so many words stand there.
fn closed(before: usize, out: &mut [u32], at: usize) -> usize
    requires { at + length (and_word ∷ joining before) ≤ length out.old }
    ensures { Wrote out.old out.new at result (and_word ∷ joining before) }
{
    let a = words::put(out, at, word::AND);
    if before == 0 {
        return a;
    }
    words::put(out, a, word::OR)
}

// Puts the text of a pair, behind so many words of the pairs before it. Seq2's registers end before `begin`.
pub fn text(work: &[u32], pair: Pair, begin: u32, before: usize, out: &mut [u32], at: usize) -> Mark
    requires { Ended work.now pair.two begin × PlacedPair work.now pair × (at + length (kept_pair_text work.now pair before) ≤ length out.old) }
    ensures { Marked out.old out.new at result (kept_pair_text work.now pair before) (pair.one.register + kept_pair_registers work.now pair) }
{
    let one = Alternative {
        work,
        kept: pair.one,
    };
    let two = Alternative {
        work,
        kept: pair.two,
    };
    let d = pair.delays as u32;
    let r = alternative::next_register(one);
    let a = alternative::text(two, begin, out, at);
    let b = slid_text(one, r, d, out, a);
    Mark {
        place: closed(before, out, b),
        register: r + d,
    }
}

// The words of a pair with d further delays, from those of seq1's alternative and of the text of seq2's.
#[tactic(auto, using(crate::proofs::Sizes::delayed_stores_fit, crate::proofs::Sizes::delayed_stores_small), unfolding(crate::specs::Sizes::pair_size_of))]
pub fn size(own: sizes::Size, two: u64, d: u64) -> sizes::Size
    requires { (own.text ≤ longest_text) × (own.stores ≤ most_store_words) × (two ≤ longest_text) × (d ≤ 65536) }
    ensures value { result ≡ pair_size_of own two d }
    ensures small { (result.text ≤ longest_pair_text) × (result.stores ≤ most_words) }
{
    sizes::Size {
        text: two + (own.text + (2 * d + 2)),
        stores: own.stores + sizes::delays(0, d, own.text),
    }
}
