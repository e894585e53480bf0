// One alternative's stores (`synth_seq_pipeline`), written from its stored steps straight into the output.
// Every text that a store needs is written anew from the steps, so no expression is kept.
//
// Example: the steps Bool(0), Bool(1) after Fixed(2) give a0 any seq0 r0 seq1.
#![tactic(auto)]

ghost use Rattle.std.specs.Prelude.{◌≡◌, false, [], ◌∷◌, ◌++◌, ◌+◌, ◌-◌, ◌≤◌, ◌<◌, length};
ghost use Rattle.words.specs.Written.{Wrote};
ghost use Rattle.meaning.specs.Expression.{seq, arm};
ghost use Rattle.meaning.specs.Refusals.{fixed_from_1, empties_fit, steps_fit};
ghost use Rattle.meaning.specs.declared.SeqHop.TheVariants.{AtLeast};
ghost use Rattle.term.specs.Keeping.{steps_from, steps_of, Whole};
ghost use Rattle.step_text.specs.Text.{register_word, or_word, store_word, hop_registers};
ghost use Rattle.current.specs.Text.{registers_before, most_registers};
ghost use Rattle.current.specs.Walk.{text_before, Ready, Placed};
ghost use Rattle.pipeline.specs.Fit.{hop_fits};
ghost use Rattle.pipeline.specs.Stores.{delay_store_words, more_delays, late_latch_words, hop_stores_at, step_store_words, later_store_words, alternative_store_words};

use meaning::word;
use term::Alternative;

// `seq_delay_reg`: register r takes the one before, with the guard.
fn delay(guard: &[u32], r: u32, out: &mut [u32], at: usize) -> usize
    requires { (0 < r) × (r < 65536) × (at + (2 + length guard.now) ≤ length out.old) }
    ensures { Wrote out.old out.new at result (register_word (r - 1) ∷ (guard.now ++ (store_word seq r ∷ []))) }
{
    let p = words::put(out, at, word::REGISTER + (r - 1));
    let next = words::copied(guard, out, p);
    words::put(out, next, word::SEQ + r)
}

// d delays, from register r on: each takes the register before it, with the guard.
pub fn delays(guard: &[u32], r: u32, d: u32, out: &mut [u32], at: usize) -> usize
    requires { (0 < r) × (r + d ≤ 65536) × (at + length (more_delays guard.now r d) ≤ length out.old) }
    ensures { Wrote out.old out.new at result (more_delays guard.now r d) }
{
    let mut p = at;
    for i in 0..d {
        p = delay(guard, r + i, out, p);
    }
    p
}

// d delays of the text before the k-th step, from its first register r on, with the guard.
fn fixed(
    y: Alternative<'_>,
    guard: &[u32],
    k: usize,
    r: u32,
    d: u32,
    out: &mut [u32],
    at: usize,
) -> usize
    requires { Ready y.work.now y.kept k r × (0 < k) × (r + d ≤ 65536) × (at + length (delay_store_words guard.now r d (text_before y.work.now y.kept k r)) ≤ length out.old) }
    ensures { Wrote out.old out.new at result (delay_store_words guard.now r d (text_before y.entry.work.now y.entry.kept k r)) }
{
    if d == 0 {
        return at;
    }
    let p = current::before(y, k, r, out, at);
    let next = words::put(out, p, word::SEQ + r);
    delays(guard, r + 1, d - 1, out, next)
}

// The latch of an "at least 0" or "at least 1".
fn latch(y: Alternative<'_>, k: usize, r: u32, out: &mut [u32], at: usize) -> usize
    requires { Ready y.work.now y.kept k r × (0 < k) × (r < 65536) × (at + (3 + length (text_before y.work.now y.kept k r)) ≤ length out.old) }
    ensures { Wrote out.old out.new at result (register_word r ∷ (text_before y.entry.work.now y.entry.kept k r ++ (or_word ∷ store_word arm r ∷ []))) }
{
    let p = words::put(out, at, word::REGISTER + r);
    let next = current::before(y, k, r, out, p);
    words::copied(&[word::OR, word::ARM + r], out, next)
}

// The latch after m - 1 delays.
fn late_latch(y: Alternative<'_>, k: usize, r: u32, m: u32, out: &mut [u32], at: usize) -> usize
    requires { Ready y.work.now y.kept k r × (0 < k) × (2 ≤ m) × (r + m ≤ 65536) × (at + (4 + length (delay_store_words [] r (m - 1) (text_before y.work.now y.kept k r))) ≤ length out.old) }
    ensures { Wrote out.old out.new at result (delay_store_words [] r (m - 1) (text_before y.entry.work.now y.entry.kept k r) ++ late_latch_words r m) }
{
    let p = fixed(y, &[], k, r, m - 1, out, at);
    words::copied(
        &[
            word::REGISTER + (r + m - 1),
            word::REGISTER + (r + m - 2),
            word::OR,
            word::ARM + (r + m - 1),
        ],
        out,
        p,
    )
}

// The stores of the k-th step's hop.
fn hop_over(
    y: Alternative<'_>,
    k: usize,
    r: u32,
    h: meaning::SeqHop,
    out: &mut [u32],
    at: usize,
) -> usize
    requires { Ready y.work.now y.kept k r × (0 < k) × (r + hop_registers h ≤ 65536) × (at + length (hop_stores_at y.work.now y.kept k r h) ≤ length out.old) }
    ensures { Wrote out.old out.new at result (hop_stores_at y.entry.work.now y.entry.kept k r h) }
{
    match h {
        meaning::SeqHop::Fixed(d) => fixed(y, y.guard(), k, r, d, out, at),
        meaning::SeqHop::AtLeast(m) if m < 2 => latch(y, k, r, out, at),
        meaning::SeqHop::AtLeast(m) => late_latch(y, k, r, m, out, at),
    }
}

// The stores of the k-th step, a later one.
fn later(y: Alternative<'_>, k: usize, r: u32, out: &mut [u32], at: usize) -> usize
    requires { Ready y.work.now y.kept k r × (0 < k) × (at + length (step_store_words y.work.now y.kept k r) ≤ length out.old) }
    ensures { Wrote out.old out.new at result (step_store_words y.entry.work.now y.entry.kept k r) }
{
    let s = y.step(k);
    let q = step_text::term_register(s, r);
    let p = hop_over(y, k, r, step_text::reach(s), out, at);
    if step_text::term_registers(s.term) == 0 {
        return p;
    }
    fsm::apply_term(y, k, r, s.term, q, out, p)
}

// The stores of the steps after the first.
fn laters(y: Alternative<'_>, out: &mut [u32], at: usize) -> usize
    requires { Placed y.work.now y.kept × (at + length (later_store_words y.work.now y.kept) ≤ length out.old) }
    ensures { Wrote out.old out.new at result (later_store_words y.entry.work.now y.entry.kept) }
{
    let mut p = at;
    let mut r = current::register_after(y, 0, y.kept.register);
    for k in 1..y.kept.steps {
        p = later(y, k, r, out, p);
        r = current::register_after(y, k, r);
    }
    p
}

// All stores of a kept alternative: the first term's, which constant one activates, then the later steps'.
pub fn stores(y: Alternative<'_>, out: &mut [u32], at: usize) -> usize
    requires { Placed y.work.now y.kept × (at + length (alternative_store_words y.work.now y.kept) ≤ length out.old) }
    ensures { Wrote out.old out.new at result (alternative_store_words y.entry.work.now y.entry.kept) }
{
    let s = y.step(0);
    let r = y.kept.register;
    let p = fsm::apply_term(y, 0, r, s.term, r, out, at);
    laters(y, out, p)
}

// Whether a hop is "fixed >= 1".
fn fixed_from_one(h: meaning::SeqHop) -> bool
    ensures { result ≡ fixed_from_1 h }
{
    matches!(h, meaning::SeqHop::Fixed(d) if 0 < d)
}

// Whether a hop fits between its terms, of which Empty is told.
#[tactic(auto, unfolding(crate::specs::Fit::hop_fits, words::specs::Choice::pick))]
fn hop_fits(before: bool, after: bool, h: meaning::SeqHop) -> bool
    ensures { result ≡ hop_fits before after h }
{
    !(before || after) || fixed_from_one(h)
}

// Refusal 12 of the steps after the first, which is not Empty.
fn empties_fit(y: Alternative<'_>) -> bool
    ensures { result ≡ empties_fit false (steps_from y.entry.work.now y.entry.kept 1 (y.entry.kept.steps - 1)) }
{
    let mut before = false;
    for k in 1..y.kept.steps {
        let s = y.step(k);
        let after = step_text::is_empty(s.term);
        if !hop_fits(before, after, s.hop) {
            return false;
        }
        before = after;
    }
    true
}

// Refusal 12's test of an alternative: no Empty that leads, or that has a hop before or behind it which is not fixed from 1 on.
#[tactic(auto, using(crate::proofs::Fit::lead_misplaced, crate::proofs::Fit::lead_fits))]
pub fn steps_fit(y: Alternative<'_>) -> bool
    ensures { result ≡ steps_fit (steps_of y.entry.work.now y.entry.kept) }
{
    let s = y.step(0);
    !step_text::is_empty(s.term) && empties_fit(y)
}

// The registers of a kept alternative's first `count` steps. Refusal 13 needs a sum, so that a hop of 4,294,967,294 is one addition.
#[tactic(auto, using(crate::proofs::Fit::summing))]
pub fn registers(y: Alternative<'_>, count: usize) -> u64
    requires { count ≤ y.kept.steps }
    ensures value { result ≡ registers_before y.entry.work.now y.entry.kept count }
    ensures small { result ≤ most_registers }
{
    // No chain: neither the value nor the bound of its sum is proved without laws about its items.
    let mut sum = 0;
    for k in 0..count {
        sum += current::registers_at(y, k);
    }
    sum
}
