// The three machines of sva_fsm.rs: the stores of goto, nonconsecutive and "at least" repetition, written over their activation.
// The k-th step's first register is r, the first of its term q.
//
// Example: `b[->2]` stores r0 1 or a1 any not and, then a1 any r0 1 or and a1 any not r1 and or.
#![tactic(auto)]

ghost use Rattle.std.specs.Prelude.{◌≡◌, [], ◌∷◌, ◌+◌, ◌-◌, ◌≤◌, ◌<◌, length};
ghost use Rattle.words.specs.Written.{Wrote};
ghost use Rattle.step_text.specs.Text.{register_word, at_least_one, TermFits};
ghost use Rattle.current.specs.Text.{activation_at};
ghost use Rattle.current.specs.Walk.{Ready};
ghost use Rattle.fsm.specs.Stores.{goto_first, goto_end, goto_second, goto_stage, goto_store_words, match_text, nonconsec_store_words, run_stage, run_top, run_store_words, term_store_words, Started};

use meaning::{SeqTerm, word};
use term::Alternative;

// What counts matches: the atom that it counts, how often, and its first register.
#[derive(Clone, Copy)]
struct Machine {
    atom: u32,
    count: u32,
    register: u32,
}

// A machine and the step whose term it is: the k-th, whose first register is r.
#[derive(Clone, Copy)]
struct Start {
    machine: Machine,
    k: usize,
    r: u32,
}

// A register of a machine, and the atom that the machine counts: each is small enough for a word.
#[derive(Clone, Copy)]
struct Stage {
    atom: u32,
    register: u32,
    ghost small: { (atom < 65536) × (register < 65536) },
}

impl Machine {
    // The i-th register.
    fn stage(self, i: u32) -> Stage
        requires { (self.atom < 65536) × (self.register + i < 65536) }
        ensures atom { result.atom ≡ self.atom }
        ensures register { result.register ≡ self.register + i }
    {
        Stage {
            atom: self.atom,
            register: self.register + i,
        }
    }
}

impl Stage {
    // What stands behind avail_{s-1} in (b & avail_{s-1}) | (~b & reg_s), reg_s being this register.
    fn goto_end(self, out: &mut [u32], at: usize) -> usize
        requires { at + 8 ≤ length out.old }
        ensures { Wrote out.old out.new at result (goto_end self.atom self.register) }
    {
        words::copied(
            &[
                word::AND,
                word::ATOM + self.atom,
                word::ANY,
                word::NOT,
                word::REGISTER + self.register,
                word::AND,
                word::OR,
                word::GTO + self.register,
            ],
            out,
            at,
        )
    }

    // A later register of a goto, over the register before it.
    fn goto_later(self, out: &mut [u32], at: usize) -> usize
        requires { (0 < self.register) × (at + 11 ≤ length out.old) }
        ensures { Wrote out.old out.new at result (goto_stage self.atom self.register (register_word (self.register - 1) ∷ [])) }
    {
        let p = words::copied(
            &[
                word::ATOM + self.atom,
                word::ANY,
                word::REGISTER + (self.register - 1),
            ],
            out,
            at,
        );
        self.goto_end(out, p)
    }

    // What stands behind prior in prior & b, this register of a run; and then the register, which is prior for the next one.
    fn run_stage(self, out: &mut [u32], at: usize) -> usize
        requires { at + 5 ≤ length out.old }
        ensures { Wrote out.old out.new at result (run_stage self.atom self.register) }
    {
        words::copied(
            &[
                word::ATOM + self.atom,
                word::ANY,
                word::AND,
                word::CRL + self.register,
                word::REGISTER + self.register,
            ],
            out,
            at,
        )
    }

    // What stands behind prior in (prior | reg) & b, reg being this register, the top one of a run, which also holds itself.
    fn run_top(self, out: &mut [u32], at: usize) -> usize
        requires { at + 6 ≤ length out.old }
        ensures { Wrote out.old out.new at result (run_top self.atom self.register) }
    {
        words::copied(
            &[
                word::REGISTER + self.register,
                word::OR,
                word::ATOM + self.atom,
                word::ANY,
                word::AND,
                word::CRL + self.register,
            ],
            out,
            at,
        )
    }
}

impl Start {
    // The first register of a goto: avail_0 & ~b, avail_0 being reg_0 | act.
    #[tactic(auto, using(step_text::proofs::Parts::parts))]
    fn goto_first(self, y: Alternative<'_>, out: &mut [u32], at: usize) -> usize
        requires { Started y.work.now y.kept self.k self.r self.machine 0 × (at + (7 + length (activation_at y.work.now y.kept self.k self.r)) ≤ length out.old) }
        ensures { Wrote out.old out.new at result (goto_first self.machine (activation_at y.entry.work.now y.entry.kept self.k self.r)) }
    {
        let m = self.machine;
        let p = words::put(out, at, word::REGISTER + m.register);
        let next = current::activation(y, self.k, self.r, out, p);
        words::copied(
            &[
                word::OR,
                word::ATOM + m.atom,
                word::ANY,
                word::NOT,
                word::AND,
                word::GTO + m.register,
            ],
            out,
            next,
        )
    }

    // The second register of a goto, over avail_0.
    fn goto_second(self, y: Alternative<'_>, out: &mut [u32], at: usize) -> usize
        requires { Started y.work.now y.kept self.k self.r self.machine 1 × (at + (12 + length (activation_at y.work.now y.kept self.k self.r)) ≤ length out.old) }
        ensures { Wrote out.old out.new at result (goto_second self.machine (activation_at y.entry.work.now y.entry.kept self.k self.r)) }
    {
        let m = self.machine;
        let p = words::copied(
            &[word::ATOM + m.atom, word::ANY, word::REGISTER + m.register],
            out,
            at,
        );
        let next = current::activation(y, self.k, self.r, out, p);
        let end = words::put(out, next, word::OR);
        m.stage(1).goto_end(out, end)
    }

    // `goto_fsm`: a register a match; a count of 0 is taken as 1.
    #[tactic(auto, using(crate::proofs::Laws::stages))]
    fn goto_fsm(self, y: Alternative<'_>, out: &mut [u32], at: usize) -> usize
        requires { Started y.work.now y.kept self.k self.r self.machine (self.machine.count - 1) × (at + length (goto_store_words self.machine (activation_at y.work.now y.kept self.k self.r)) ≤ length out.old) }
        ensures { Wrote out.old out.new at result (goto_store_words self.machine (activation_at y.entry.work.now y.entry.kept self.k self.r)) }
    {
        let m = self.machine;
        let next = self.goto_first(y, out, at);
        if m.count < 2 {
            return next;
        }
        let mut p = self.goto_second(y, out, next);
        for i in 2..m.count {
            p = m.stage(i).goto_later(out, p);
        }
        p
    }

    // The text after a nonconsecutive machine: what it matches.
    #[tactic(auto, using(step_text::proofs::Parts::parts), unfolding(step_text::specs::Text::term_text, step_text::specs::Text::term_registers))]
    fn matched(self, y: Alternative<'_>, out: &mut [u32], at: usize) -> usize
        requires { Started y.work.now y.kept self.k self.r self.machine (at_least_one self.machine.count) × (at + length (match_text self.machine (activation_at y.work.now y.kept self.k self.r)) ≤ length out.old) }
        ensures { Wrote out.old out.new at result (match_text self.machine (activation_at y.entry.work.now y.entry.kept self.k self.r)) }
    {
        let m = self.machine;
        let x = SeqTerm::Nonconsec(m.atom, m.count);
        if step_text::term_keeps(x) {
            let p = step_text::term_prefix(x, m.register, out, at);
            let next = current::activation(y, self.k, self.r, out, p);
            return step_text::term_suffix(x, m.register, out, next);
        }
        step_text::term_base(x, m.register, out, at)
    }

    // `nonconsec_fsm`: the goto, then its extension, ext <= cur.
    #[tactic(auto, using(step_text::proofs::Parts::parts, step_text::proofs::Laws::at_least_itself), unfolding(crate::specs::Stores::nonconsec_store_words))]
    fn nonconsec_fsm(self, y: Alternative<'_>, out: &mut [u32], at: usize) -> usize
        requires { Started y.work.now y.kept self.k self.r self.machine (at_least_one self.machine.count) × (at + length (nonconsec_store_words self.machine (activation_at y.work.now y.kept self.k self.r)) ≤ length out.old) }
        ensures { Wrote out.old out.new at result (nonconsec_store_words self.machine (activation_at y.entry.work.now y.entry.kept self.k self.r)) }
    {
        let stages = step_text::at_least_one(self.machine.count);
        let p = self.goto_fsm(y, out, at);
        let next = self.matched(y, out, p);
        words::put(out, next, word::NCX + (self.machine.register + stages))
    }

    // `consec_run_fsm`: a register a tick; a count of 0 is taken as 1. The activation is prior for the first one.
    #[tactic(auto, using(crate::proofs::Laws::runs))]
    fn consec_run_fsm(self, y: Alternative<'_>, out: &mut [u32], at: usize) -> usize
        requires { Started y.work.now y.kept self.k self.r self.machine (self.machine.count - 1) × (at + length (run_store_words self.machine (activation_at y.work.now y.kept self.k self.r)) ≤ length out.old) }
        ensures { Wrote out.old out.new at result (run_store_words self.machine (activation_at y.entry.work.now y.entry.kept self.k self.r)) }
    {
        let m = self.machine;
        let top = m.count.saturating_sub(1);
        let mut p = current::activation(y, self.k, self.r, out, at);
        for i in 0..top {
            p = m.stage(i).run_stage(out, p);
        }
        m.stage(top).run_top(out, p)
    }
}

// The stores of the k-th term x, whose first register is q.
#[tactic(auto, using(words::proofs::Laws::nothing_written, step_text::proofs::Laws::at_least_some, step_text::proofs::Laws::at_least_itself), unfolding(crate::specs::Stores::term_store_words, step_text::specs::Text::term_registers))]
pub fn apply_term(
    y: Alternative<'_>,
    k: usize,
    r: u32,
    x: SeqTerm,
    q: u32,
    out: &mut [u32],
    at: usize,
) -> usize
    requires { Ready y.work.now y.kept k r × TermFits q x × (at + length (term_store_words q x (activation_at y.work.now y.kept k r)) ≤ length out.old) }
    ensures { Wrote out.old out.new at result (term_store_words q x (activation_at y.entry.work.now y.entry.kept k r)) }
{
    let start = |atom, count| Start {
        machine: Machine {
            atom,
            count,
            register: q,
        },
        k,
        r,
    };
    match x {
        SeqTerm::Goto(b, count) => start(b, count).goto_fsm(y, out, at),
        SeqTerm::Nonconsec(b, count) => start(b, count).nonconsec_fsm(y, out, at),
        SeqTerm::ConsecAtLeast(b, count) => start(b, count).consec_run_fsm(y, out, at),
        SeqTerm::Bool(_) | SeqTerm::Empty => at,
    }
}
