// One alternative of a node, kept in work as one thing, and what it adds to the listing: registers, assignments and a text. The choice
// at the root and the pairs of a within are both made of these. Alternatives are numbered and never stored together: each pass keeps one
// after the other and looks at it there, so that no expression is ever stored.
//
// Example: the second alternative of `a[*1:2]` is kept as the ten words of a and a after 1. It has one register, stores `a0 any seq0`, and its
// text is `r0 a0 any and`.
#![tactic(auto)]

ghost use Rattle.std.specs.Prelude.{◌≡◌, ◌+◌, ◌≤◌, ◌<◌, length};
ghost use Rattle.words.specs.Written.{Wrote};
ghost use Rattle.current.specs.Text.{registers_before, most_registers};
ghost use Rattle.current.specs.Walk.{Placed};
ghost use Rattle.sizes.specs.Sizes.{Countable, most_words};
ghost use Rattle.expand.specs.ByNumber.{alternatives_of};
ghost use Rattle.alternative.specs.Keeping.{chosen, Keepable, Keeps, Ended, kept_text, kept_size};

use term::Alternative;

// Keeps the i-th alternative of node n in work, from the place on: its steps, then its guard. Its registers begin with r.
pub fn keep(
    t: &[u32],
    outline: &[u32],
    n: u32,
    i: u32,
    r: u32,
    work: &mut [u32],
    at: usize,
) -> term::Kept
    requires { Keepable t.now outline.now n at (length work.old) × (i < length (alternatives_of t.now n)) }
    ensures { Keeps (chosen t.now n i) r work.old work.new at result }
{
    let guard = expand::alternative(t, outline, n, i, meaning::SeqHop::Fixed(0), work, at);
    let end = guards::guard_words(t, outline, n, i, work, guard);
    term::Kept {
        from: at,
        steps: (guard - at) / 5,
        guard,
        end,
        register: r,
    }
}

// How many registers a kept alternative has.
pub fn registers(y: Alternative<'_>) -> u64
    ensures value { result ≡ registers_before y.entry.work.now y.entry.kept y.entry.kept.steps }
    ensures small { result ≤ most_registers }
{
    pipeline::registers(y, y.kept.steps)
}

// The register after a kept alternative's last.
pub fn next_register(y: Alternative<'_>) -> u32
    requires { Placed y.work.now y.kept }
    ensures { result ≡ y.entry.kept.register + registers_before y.entry.work.now y.entry.kept y.entry.kept.steps }
{
    y.kept.register + registers(y) as u32
}

// Puts the text of a kept alternative, which stands after its last step; `next` is the register after its last.
pub fn text(y: Alternative<'_>, next: u32, out: &mut [u32], at: usize) -> usize
    requires { Ended y.work.now y.kept next × (at + length (kept_text y.work.now y.kept) ≤ length out.old) }
    ensures { Wrote out.old out.new at result (kept_text y.entry.work.now y.entry.kept) }
{
    let last = y.kept.steps - 1;
    let r = next - current::registers_at(y, last) as u32;
    current::current(y, last, r, out, at)
}

// How many words a kept alternative's text and its assignments have.
#[tactic(auto, using(crate::proofs::Laws::sized, crate::proofs::Laws::sized_small))]
pub fn size(y: Alternative<'_>) -> sizes::Size
    requires { Countable y.work.now y.kept }
    ensures value { result ≡ kept_size y.entry.work.now y.entry.kept }
    ensures small { result.text + result.stores ≤ most_words }
{
    sizes::sizes(y)
}
