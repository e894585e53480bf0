// What one step adds to an alternative's text: the words of its hop and of its term, each of which keeps the text before it, between
// a prefix and a suffix, or begins anew; and how many registers both take.
//
// Example: after `a`, the step `##2 b` begins anew with r1, and adds a1 any and; it takes two registers.
#![tactic(auto)]

ghost use Rattle.std.specs.Prelude.{◌≡◌, false, ◌++◌, ◌+◌, ◌≤◌, length};
ghost use Rattle.words.specs.Written.{Wrote};
ghost use Rattle.term.specs.Keeping.{guard_of};
ghost use Rattle.meaning.specs.Refusals.{is_empty};
ghost use Rattle.step_text.specs.Text.{before_empty, reach, at_least_one, hop_registers, term_registers, step_registers, hop_keeps, term_keeps, hop_prefix, hop_suffix, term_prefix, term_suffix, hop_base, term_base, lead_text, step_prefix, step_suffix, step_base, BeginsAnew, TermFits, StepFits};

use meaning::{SeqHop, SeqStep, SeqTerm, word};
use term::Alternative;

// Whether the term is Empty, which is no machine and has no text of its own.
pub fn is_empty(x: SeqTerm) -> bool
    ensures { result ≡ is_empty x }
{
    matches!(x, SeqTerm::Empty)
}

// The hop into an Empty: one delay less, and none for a hop that refusal 12 rules out.
#[tactic(auto, unfolding(crate::specs::Text::before_empty))]
fn before_empty(h: SeqHop) -> SeqHop
    ensures { result ≡ before_empty h }
{
    match h {
        SeqHop::Fixed(d) => SeqHop::Fixed(d.saturating_sub(1)),
        SeqHop::AtLeast(_) => SeqHop::Fixed(0),
    }
}

// The hop that a later step takes.
#[tactic(auto, using(words::specs::Choice::tests), unfolding(crate::specs::Text::reach))]
pub fn reach(s: SeqStep) -> SeqHop
    ensures { result ≡ reach s }
{
    if is_empty(s.term) {
        before_empty(s.hop)
    } else {
        s.hop
    }
}

// A count of 0 is taken as 1.
#[tactic(auto, unfolding(crate::specs::Text::at_least_one, words::specs::Choice::pick))]
pub fn at_least_one(k: u32) -> u32
    ensures { result ≡ at_least_one k }
{
    k.max(1)
}

// The registers of a hop, in 64 bits: a hop and a term can both be near 2^32.
#[tactic(auto, unfolding(crate::specs::Text::hop_registers))]
pub fn hop_registers(h: SeqHop) -> u64
    ensures value { result ≡ hop_registers h }
    ensures small { result ≤ 4294967295 }
{
    match h {
        SeqHop::Fixed(d) => u64::from(d),
        SeqHop::AtLeast(m) => u64::from(at_least_one(m)),
    }
}

// The registers of a term: one a match or tick, and the extension of a nonconsecutive one.
#[tactic(auto, unfolding(crate::specs::Text::term_registers))]
pub fn term_registers(x: SeqTerm) -> u64
    ensures value { result ≡ term_registers x }
    ensures small { result ≤ 4294967296 }
{
    match x {
        SeqTerm::Bool(_) | SeqTerm::Empty => 0,
        SeqTerm::Goto(_, k) | SeqTerm::ConsecAtLeast(_, k) => u64::from(at_least_one(k)),
        SeqTerm::Nonconsec(_, k) => u64::from(at_least_one(k)) + 1,
    }
}

// The first register of a later step's term, r being the step's own.
#[tactic(auto, unfolding(crate::specs::Text::step_registers))]
pub fn term_register(s: SeqStep, r: u32) -> u32
    requires { r + step_registers s ≤ 65536 }
    ensures { result ≡ r + hop_registers (reach s) }
{
    r + hop_registers(reach(s)) as u32
}

// Whether the text after a hop holds the text before it.
#[tactic(auto, unfolding(crate::specs::Text::hop_keeps))]
pub fn hop_keeps(h: SeqHop) -> bool
    ensures { result ≡ hop_keeps h }
{
    matches!(h, SeqHop::Fixed(0) | SeqHop::AtLeast(0))
}

// Whether the text after a term holds its activation.
#[tactic(auto, unfolding(crate::specs::Text::term_keeps))]
pub fn term_keeps(x: SeqTerm) -> bool
    ensures { result ≡ term_keeps x }
{
    match x {
        SeqTerm::Bool(_) | SeqTerm::Empty => true,
        SeqTerm::Goto(_, k) | SeqTerm::Nonconsec(_, k) | SeqTerm::ConsecAtLeast(_, k) => k < 2,
    }
}

// What stands in front of the text that a hop keeps: the latch of an "at least 0".
#[tactic(auto, using(words::proofs::Laws::nothing_written), unfolding(crate::specs::Text::hop_prefix))]
pub fn hop_prefix(h: SeqHop, r: u32, out: &mut [u32], at: usize) -> usize
    requires { (at + length (hop_prefix r h) ≤ length out.old) × (r + hop_registers h ≤ 65536) }
    ensures { Wrote out.old out.new at result (hop_prefix r h) }
{
    match h {
        SeqHop::Fixed(_) => at,
        SeqHop::AtLeast(_) => words::put(out, at, word::REGISTER + r),
    }
}

// What stands behind the text that a hop keeps: the `or` of an "at least 0" and its latch.
#[tactic(auto, using(words::proofs::Laws::nothing_written), unfolding(crate::specs::Text::hop_suffix))]
pub fn hop_suffix(h: SeqHop, out: &mut [u32], at: usize) -> usize
    requires { at + length (hop_suffix h) ≤ length out.old }
    ensures { Wrote out.old out.new at result (hop_suffix h) }
{
    match h {
        SeqHop::Fixed(_) => at,
        SeqHop::AtLeast(_) => words::put(out, at, word::OR),
    }
}

// The text after a hop that begins anew: its last register, guarded after a fixed hop.
#[tactic(auto, using(crate::proofs::Parts::parts), unfolding(crate::specs::Text::hop_base, crate::specs::Text::hop_keeps, crate::specs::Text::hop_registers, crate::specs::Text::at_least_one, words::specs::Choice::pick))]
pub fn hop_base(y: Alternative<'_>, h: SeqHop, r: u32, out: &mut [u32], at: usize) -> usize
    requires { (at + length (hop_base (guard_of y.work.now y.kept) r h) ≤ length out.old) × (r + hop_registers h ≤ 65536) × (hop_keeps h ≡ false) }
    ensures { Wrote out.old out.new at result (hop_base (guard_of y.entry.work.now y.entry.kept) r h) }
{
    match h {
        SeqHop::Fixed(d) => {
            let next = words::put(out, at, word::REGISTER + (r + d - 1));
            words::copied(y.guard(), out, next)
        }
        SeqHop::AtLeast(m) => words::put(out, at, word::REGISTER + (r + m - 1)),
    }
}

// What stands in front of the activation that a term keeps.
// The term and its first register are two arguments, here and below, since the crates above call these functions so.
#[tactic(auto, using(words::proofs::Laws::nothing_written), unfolding(crate::specs::Text::term_prefix))]
pub fn term_prefix(x: SeqTerm, r: u32, out: &mut [u32], at: usize) -> usize
    requires { (at + length (term_prefix r x) ≤ length out.old) × TermFits r x }
    ensures { Wrote out.old out.new at result (term_prefix r x) }
{
    match x {
        SeqTerm::Goto(b, _) | SeqTerm::Nonconsec(b, _) => words::copied(
            &[word::ATOM + b, word::ANY, word::REGISTER + r],
            out,
            at,
        ),
        SeqTerm::Bool(_) | SeqTerm::ConsecAtLeast(_, _) | SeqTerm::Empty => at,
    }
}

// What stands behind the activation that a term keeps.
#[tactic(auto, using(words::proofs::Laws::nothing_written), unfolding(crate::specs::Text::term_suffix))]
pub fn term_suffix(x: SeqTerm, r: u32, out: &mut [u32], at: usize) -> usize
    requires { (at + length (term_suffix r x) ≤ length out.old) × TermFits r x }
    ensures { Wrote out.old out.new at result (term_suffix r x) }
{
    match x {
        SeqTerm::Bool(a) => words::copied(&[word::ATOM + a, word::ANY, word::AND], out, at),
        SeqTerm::Goto(_, _) => words::copied(&[word::OR, word::AND], out, at),
        SeqTerm::Nonconsec(b, _) => words::copied(
            &[
                word::OR,
                word::AND,
                word::REGISTER + (r + 1),
                word::ATOM + b,
                word::ANY,
                word::NOT,
                word::AND,
                word::OR,
            ],
            out,
            at,
        ),
        SeqTerm::ConsecAtLeast(b, _) => words::copied(
            &[
                word::REGISTER + r,
                word::OR,
                word::ATOM + b,
                word::ANY,
                word::AND,
            ],
            out,
            at,
        ),
        SeqTerm::Empty => at,
    }
}

// The text after a machine of two registers or more, which begins anew.
#[tactic(auto, unfolding(crate::specs::Text::term_base, crate::specs::Text::term_keeps, crate::specs::Text::term_registers, crate::specs::Text::at_least_one, words::specs::Choice::pick))]
pub fn term_base(x: SeqTerm, r: u32, out: &mut [u32], at: usize) -> usize
    requires { (at + length (term_base r x) ≤ length out.old) × (term_keeps x ≡ false) × TermFits r x }
    ensures { Wrote out.old out.new at result (term_base r x) }
{
    match x {
        SeqTerm::Bool(_) | SeqTerm::Empty => at,
        SeqTerm::Goto(b, k) => words::copied(
            &[
                word::ATOM + b,
                word::ANY,
                word::REGISTER + (r + k - 1),
                word::AND,
            ],
            out,
            at,
        ),
        SeqTerm::Nonconsec(b, k) => words::copied(
            &[
                word::ATOM + b,
                word::ANY,
                word::REGISTER + (r + k - 1),
                word::AND,
                word::REGISTER + (r + k),
                word::ATOM + b,
                word::ANY,
                word::NOT,
                word::AND,
                word::OR,
            ],
            out,
            at,
        ),
        SeqTerm::ConsecAtLeast(b, k) => words::copied(
            &[
                word::REGISTER + (r + k - 2),
                word::REGISTER + (r + k - 1),
                word::OR,
                word::ATOM + b,
                word::ANY,
                word::AND,
            ],
            out,
            at,
        ),
    }
}

// The text of the first term: a machine is activated by constant one.
#[tactic(auto, using(crate::proofs::Parts::parts), unfolding(crate::specs::Text::lead_text, crate::specs::Text::term_text))]
fn lead(x: SeqTerm, r: u32, out: &mut [u32], at: usize) -> usize
    requires { (at + length (lead_text r x) ≤ length out.old) × TermFits r x }
    ensures { Wrote out.old out.new at result (lead_text r x) }
{
    match x {
        SeqTerm::Bool(a) => words::copied(&[word::ATOM + a, word::ANY], out, at),
        SeqTerm::Empty => words::put(out, at, word::ZERO),
        _ if term_keeps(x) => {
            let p = term_prefix(x, r, out, at);
            let next = words::put(out, p, word::ONE);
            term_suffix(x, r, out, next)
        }
        _ => term_base(x, r, out, at),
    }
}

// The first step: its term, then the guard.
#[tactic(auto, using(crate::proofs::Parts::parts))]
pub fn first(y: Alternative<'_>, x: SeqTerm, r: u32, out: &mut [u32], at: usize) -> usize
    requires { (at + length (lead_text r x ++ guard_of y.work.now y.kept) ≤ length out.old) × TermFits r x }
    ensures { Wrote out.old out.new at result (lead_text r x ++ guard_of y.entry.work.now y.entry.kept) }
{
    let next = lead(x, r, out, at);
    words::copied(y.guard(), out, next)
}

// A later step's prefix: its term's, then its hop's.
#[tactic(auto, using(crate::proofs::Parts::parts), unfolding(crate::specs::Text::step_prefix, crate::specs::Text::step_registers))]
pub fn step_prefix(s: SeqStep, r: u32, out: &mut [u32], at: usize) -> usize
    requires { (at + length (step_prefix r s) ≤ length out.old) × StepFits r s }
    ensures { Wrote out.old out.new at result (step_prefix r s) }
{
    let next = term_prefix(s.term, term_register(s, r), out, at);
    hop_prefix(reach(s), r, out, next)
}

// A later step's suffix: its hop's, then its term's.
#[tactic(auto, using(crate::proofs::Parts::parts), unfolding(crate::specs::Text::step_suffix, crate::specs::Text::step_registers))]
pub fn step_suffix(s: SeqStep, r: u32, out: &mut [u32], at: usize) -> usize
    requires { (at + length (step_suffix r s) ≤ length out.old) × StepFits r s }
    ensures { Wrote out.old out.new at result (step_suffix r s) }
{
    let next = hop_suffix(reach(s), out, at);
    term_suffix(s.term, term_register(s, r), out, next)
}

// A later step whose text begins anew, with its hop or with its term.
// Its branches stand in `lead` and in crate `fsm` too: a closure for what lies between prefix and suffix would take a longer clause.
#[tactic(auto, using(crate::proofs::Parts::parts), unfolding(crate::specs::Text::step_base, crate::specs::Text::step_registers))]
pub fn step_base(y: Alternative<'_>, s: SeqStep, r: u32, out: &mut [u32], at: usize) -> usize
    requires { (at + length (step_base (guard_of y.work.now y.kept) r s) ≤ length out.old) × BeginsAnew s × StepFits r s }
    ensures { Wrote out.old out.new at result (step_base (guard_of y.entry.work.now y.entry.kept) r s) }
{
    let q = term_register(s, r);
    if term_keeps(s.term) {
        let p = term_prefix(s.term, q, out, at);
        let next = hop_base(y, reach(s), r, out, p);
        return term_suffix(s.term, q, out, next);
    }
    term_base(s.term, q, out, at)
}
