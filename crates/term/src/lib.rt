// An alternative kept in a lent slice: its steps, five words each (the term's tag, atom and count, then the hop's tag and length), then its
// guard. It is handed on as one thing, `Alternative`, with the slice that it stands in.
//
// Example: Bool(7) reached by AtLeast(2) is the words 1, 7, 0, 1, 2; `step` reads it back.
#![tactic(auto)]

ghost use Rattle.std.specs.Prelude.{◌≡◌, [], ◌∷◌, ◌+◌, ◌<◌, ◌≤◌, length};
ghost use Rattle.words.specs.Written.{Wrote};
ghost use Rattle.term.specs.Steps.{term_tag, term_atom, term_count, hop_tag, hop_ticks, term_from, hop_from, step_words, step_at};
ghost use Rattle.term.specs.Keeping.{step_of, guard_of, Whole};

use meaning::{SeqHop, SeqStep, SeqTerm};

// Where an alternative stands in work: its steps begin at `from`, so many of them; its guard, closed by its `and`, stands from `guard` up to
// `end`; its registers are numbered from `register` on.
#[derive(Clone, Copy)]
pub struct Kept {
    pub from: usize,
    pub steps: usize,
    pub guard: usize,
    pub end: usize,
    pub register: u32,
}

// A term as three words: its kind's number, its atom and its count, each 0 where there is none.
// A kind is a number there, since lent memory holds words alone; `term_from` reads the same numbers.
fn term_words(x: SeqTerm) -> [u32; 3]
    ensures { result ≡ term_tag x ∷ term_atom x ∷ term_count x ∷ [] }
{
    match x {
        SeqTerm::Empty => [0, 0, 0],
        SeqTerm::Bool(a) => [1, a, 0],
        SeqTerm::Goto(b, k) => [2, b, k],
        SeqTerm::Nonconsec(b, k) => [3, b, k],
        SeqTerm::ConsecAtLeast(b, k) => [4, b, k],
    }
}

#[tactic(auto, unfolding(crate::specs::Steps::term_from, words::specs::Choice::pick))]
fn term_from(tag: u32, atom: u32, count: u32) -> SeqTerm
    ensures { result ≡ term_from tag atom count }
{
    match tag {
        1 => SeqTerm::Bool(atom),
        2 => SeqTerm::Goto(atom, count),
        3 => SeqTerm::Nonconsec(atom, count),
        4 => SeqTerm::ConsecAtLeast(atom, count),
        _ => SeqTerm::Empty,
    }
}

// A hop as two words: its kind's number and its length. `hop_from` reads the same numbers.
fn hop_words(h: SeqHop) -> [u32; 2]
    ensures { result ≡ hop_tag h ∷ hop_ticks h ∷ [] }
{
    match h {
        SeqHop::Fixed(d) => [0, d],
        SeqHop::AtLeast(m) => [1, m],
    }
}

#[tactic(auto, unfolding(crate::specs::Steps::hop_from, words::specs::Choice::pick))]
fn hop_from(tag: u32, length: u32) -> SeqHop
    ensures { result ≡ hop_from tag length }
{
    match tag {
        0 => SeqHop::Fixed(length),
        _ => SeqHop::AtLeast(length),
    }
}

// Puts the step's five words from the place on; the next place.
#[tactic(auto, unfolding(crate::specs::Steps::step_words))]
pub fn store(out: &mut [u32], at: usize, s: SeqStep) -> usize
    requires { at + 5 ≤ length out.old }
    ensures { Wrote out.old out.new at result (step_words s) }
{
    let [kind, atom, count] = term_words(s.term);
    let [hop, ticks] = hop_words(s.hop);
    words::copied(&[kind, atom, count, hop, ticks], out, at)
}

// The step that stands at the place.
#[tactic(auto, unfolding(crate::specs::Steps::step_at))]
fn load(s: &[u32], at: usize) -> SeqStep
    requires { at + 5 ≤ length s.now }
    ensures { result ≡ step_at s.now at }
{
    SeqStep {
        term: term_from(s[at], s[at + 1], s[at + 2]),
        hop: hop_from(s[at + 3], s[at + 4]),
    }
}

// A kept alternative, and the work that it stands in.
#[derive(Clone, Copy)]
pub struct Alternative<'a> {
    pub work: &'a [u32],
    pub kept: Kept,
    ghost whole: { Whole work.now kept },
}

impl<'a> Alternative<'a> {
    // Its k-th step.
    pub fn step(self, k: usize) -> SeqStep
        requires { k < self.kept.steps }
        ensures { result ≡ step_of self.entry.work.now self.entry.kept k }
    {
        load(self.work, self.kept.from + k * 5)
    }

    // The words of its guard.
    #[tactic(auto, unfolding(crate::specs::Keeping::guard_of))]
    pub fn guard(self) -> &'a [u32]
        ensures { result.now ≡ guard_of self.entry.work.now self.entry.kept }
    {
        &self.work[self.kept.guard..self.kept.end]
    }
}
