// The current expression of an alternative, written from its stored steps straight into the output: no expression is ever kept.
// What each step adds is written by `step_text`; here is the walk over the steps.
//
// Example: the steps Bool(0), Bool(1) after AtLeast(0) give the words r0 a0 any or a1 any and.
#![tactic(auto)]

ghost use Rattle.std.specs.Prelude.{◌≡◌, false, ◌+◌, ◌-◌, ◌≤◌, ◌<◌, length};
ghost use Rattle.words.specs.Written.{Wrote};
ghost use Rattle.current.specs.Text.{registers_at, text_at, activation_at};
ghost use Rattle.current.specs.Walk.{goes_on, base_text, suffixes_after, text_before, Piece, Ready, Tail};

use meaning::word;
use term::Alternative;

// The registers of the k-th step; the first step's hop is never taken.
#[tactic(auto, unfolding(crate::specs::Text::registers_at, step_text::specs::Text::step_registers))]
pub fn registers_at(y: Alternative<'_>, k: usize) -> u64
    requires { k < y.kept.steps }
    ensures value { result ≡ registers_at y.entry.work.now y.entry.kept k }
    ensures small { result ≤ 8589934591 }
{
    let s = y.step(k);
    let own = step_text::term_registers(s.term);
    if k == 0 {
        own
    } else {
        step_text::hop_registers(step_text::reach(s)) + own
    }
}

// Whether the text after the k-th step holds the text before it.
#[tactic(auto, using(words::specs::Choice::tests), unfolding(crate::specs::Walk::goes_on))]
fn goes_on(y: Alternative<'_>, k: usize) -> bool
    requires { k < y.kept.steps }
    ensures { result ≡ goes_on y.entry.work.now y.entry.kept k }
{
    if k == 0 {
        return false;
    }
    let s = y.step(k);
    step_text::hop_keeps(step_text::reach(s)) && step_text::term_keeps(s.term)
}

// The text after the k-th step where it does not hold the text before it.
// A step's number and its first register are two arguments, here and below, since the crates above call these functions so.
#[tactic(auto, using(step_text::proofs::Parts::parts), unfolding(crate::specs::Walk::base_text, crate::specs::Walk::goes_on, crate::specs::Text::registers_at))]
fn base(y: Alternative<'_>, k: usize, r: u32, out: &mut [u32], at: usize) -> usize
    requires { Piece y.work.now y.kept k r × (goes_on y.work.now y.kept k ≡ false) × (at + length (base_text y.work.now y.kept k r) ≤ length out.old) }
    ensures { Wrote out.old out.new at result (base_text y.entry.work.now y.entry.kept k r) }
{
    let s = y.step(k);
    if k == 0 {
        return step_text::first(y, s.term, r, out, at);
    }
    step_text::step_base(y, s, r, out, at)
}

// The first register of the step after the k-th, whose own is r.
pub fn register_after(y: Alternative<'_>, k: usize, r: u32) -> u32
    requires { (k < y.kept.steps) × (r + registers_at y.work.now y.kept k ≤ 65536) }
    ensures { result ≡ r + registers_at y.entry.work.now y.entry.kept k }
{
    r + registers_at(y, k) as u32
}

// The suffixes of the steps after the k-th, whose first register is r, up to the j-th.
fn suffixes(y: Alternative<'_>, k: usize, r: u32, j: usize, out: &mut [u32], at: usize) -> usize
    requires { Tail y.work.now y.kept k r j × (at + length (suffixes_after y.work.now y.kept k r (j - k)) ≤ length out.old) }
    ensures { Wrote out.old out.new at result (suffixes_after y.entry.work.now y.entry.kept k r (j - k)) }
{
    let mut p = at;
    let mut register = r;
    for i in k..j {
        register = register_after(y, i, register);
        p = step_text::step_suffix(y.step(i + 1), register, out, p);
    }
    p
}

// The first register of the step before the k-th, whose own is r.
fn register_before(y: Alternative<'_>, k: usize, r: u32) -> u32
    requires { (k < y.kept.steps) × (0 < k) × (registers_at y.work.now y.kept (k - 1) ≤ r) }
    ensures { result ≡ r - registers_at y.entry.work.now y.entry.kept (k - 1) }
{
    r - registers_at(y, k - 1) as u32
}

// The text after the j-th step, whose first register is r: back to the last step that begins anew, and forth again.
#[tactic(auto, using(crate::proofs::Walk::back))]
pub fn current(y: Alternative<'_>, j: usize, r: u32, out: &mut [u32], at: usize) -> usize
    requires { Ready y.work.now y.kept j r × (at + length (text_at y.work.now y.kept j r) ≤ length out.old) }
    ensures { Wrote out.old out.new at result (text_at y.entry.work.now y.entry.kept j r) }
{
    let mut k = j;
    let mut register = r;
    let mut p = at;
    while goes_on(y, k) {
        p = step_text::step_prefix(y.step(k), register, out, p);
        register = register_before(y, k, register);
        k -= 1;
    }
    let next = base(y, k, register, out, p);
    suffixes(y, k, register, j, out, next)
}

// The text before the k-th step, whose first register is r.
#[tactic(auto, using(crate::proofs::Walk::registers_less))]
pub fn before(y: Alternative<'_>, k: usize, r: u32, out: &mut [u32], at: usize) -> usize
    requires { Ready y.work.now y.kept k r × (0 < k) × (at + length (text_before y.work.now y.kept k r) ≤ length out.old) }
    ensures { Wrote out.old out.new at result (text_before y.entry.work.now y.entry.kept k r) }
{
    let register = register_before(y, k, r);
    current(y, k - 1, register, out, at)
}

// What starts the k-th term, whose step's first register is r: constant one, or the text after its hop.
#[tactic(auto, using(step_text::proofs::Parts::parts), unfolding(crate::specs::Text::activation_at, crate::specs::Text::registers_at, step_text::specs::Text::hop_text, step_text::specs::Text::step_registers))]
pub fn activation(y: Alternative<'_>, k: usize, r: u32, out: &mut [u32], at: usize) -> usize
    requires { Ready y.work.now y.kept k r × (at + length (activation_at y.work.now y.kept k r) ≤ length out.old) }
    ensures { Wrote out.old out.new at result (activation_at y.entry.work.now y.entry.kept k r) }
{
    if k == 0 {
        return words::put(out, at, word::ONE);
    }
    let h = step_text::reach(y.step(k));
    if step_text::hop_keeps(h) {
        let p = step_text::hop_prefix(h, r, out, at);
        let next = before(y, k, r, out, p);
        return step_text::hop_suffix(h, out, next);
    }
    step_text::hop_base(y, h, r, out, at)
}
