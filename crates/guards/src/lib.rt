// The guard of the i-th alternative of a node, written into lent work as postfix words: an AND tree, the left operand's guard,
// then the right one's, then `and` if there are both. At the top it is closed by the `and` with the expression that it guards.
//
// Example: the guard of `(c throughout (d throughout a))[*2]` is a3 any a2 any and a3 any a2 any and and, closed by one more and.
#![tactic(auto)]

ghost use Rattle.std.specs.Prelude.{[], ◌∷◌, ◌+◌, ◌≤◌, ◌<◌, length};
ghost use Rattle.words.specs.Written.{Wrote};
ghost use Rattle.meaning.specs.Listing.{word};
ghost use Rattle.expand.specs.ByNumber.{alternatives_of, copies_of, OutlinedNumber, OutlinedCopies};
ghost use Rattle.guards.specs.GuardText.{guard_text, closed_guard, joining};

use meaning::{kind, operation};

// Puts the word of an operation with its argument.
fn put_operation(out: &mut [u32], at: usize, operation: u32, argument: u32) -> usize
    requires { (at < length out.old) × (operation < 16) × (argument < 65536) }
    ensures { Wrote out.old out.new at result (word operation argument ∷ []) }
{
    words::put(out, at, operation * operation::UNIT + argument)
}

// Puts a condition reduced by OR.
fn put_condition(out: &mut [u32], at: usize, atom: u32) -> usize
    requires { (at + 2 ≤ length out.old) × (atom < 65536) }
    ensures { Wrote out.old out.new at result (word 1 atom ∷ word 5 0 ∷ []) }
{
    let any = put_operation(out, at, operation::ATOM, atom);
    put_operation(out, any, operation::ANY, 0)
}

// Joins two guards, the first written before `middle` and the second before `end`.
fn join_guards(out: &mut [u32], from: usize, middle: usize, end: usize) -> usize
    requires { end + length (joining from middle end) ≤ length out.old }
    ensures { Wrote out.old out.new end result (joining from middle end) }
{
    if from == middle || middle == end {
        return end;
    }
    put_operation(out, end, operation::AND, 0)
}

// Puts the guard of alternative i of node n from the place on, without a closing `and`; the next place. The outline tells where
// there is none to be looked for.
#[cycle(bare_guard_guard_text_repeated_guard)]
fn guard_text(t: &[u32], outline: &[u32], n: u32, i: u32, work: &mut [u32], at: usize) -> usize
    requires { OutlinedNumber t.now outline.now n i × (at + length (guard_text (alternatives_of t.now n) i) ≤ length work.old) }
    ensures { Wrote work.old work.new at result (guard_text (alternatives_of t.now n) i) }
{
    if outline::flag_of(outline, n) == 0 {
        return at;
    }
    bare_guard(t, outline, outline::bare_of(outline, n), i, work, at)
}

// Puts the guard of alternative i of node n, which is no [*1], as `guard_text` does. The match is not shared with `expand::alternative`: a hop is
// handed down there, and guards are joined on the way up here.
#[cycle(bare_guard_guard_text_repeated_guard)]
fn bare_guard(t: &[u32], outline: &[u32], n: u32, i: u32, work: &mut [u32], at: usize) -> usize
    requires { OutlinedNumber t.now outline.now n i × (at + length (guard_text (alternatives_of t.now n) i) ≤ length work.old) }
    ensures { Wrote work.old work.new at result (guard_text (alternatives_of t.now n) i) }
{
    let v = tree::read(t, n);
    match v.kind {
        kind::DELAY => {
            let s = expand::delay_parts(outline, v, i);
            let middle = guard_text(t, outline, v.p, s.left, work, at);
            let end = guard_text(t, outline, v.q, s.right, work, middle);
            join_guards(work, at, middle, end)
        }
        kind::THROUGHOUT => {
            let middle = guard_text(t, outline, v.q, i, work, at);
            let end = put_condition(work, middle, v.p);
            join_guards(work, at, middle, end)
        }
        _ if expand::made_of_copies(v, i) => {
            let s = expand::copies_block(outline, v, i);
            repeated_guard(t, outline, v.p, s.later, s.index, work, at)
        }
        _ => at,
    }
}

// Puts the guard of alternative i of k + 1 copies of node n, each joined to those before it.
#[cycle(bare_guard_guard_text_repeated_guard)]
fn repeated_guard(
    t: &[u32],
    outline: &[u32],
    n: u32,
    k: u32,
    i: u32,
    work: &mut [u32],
    at: usize,
) -> usize
    requires { OutlinedCopies t.now outline.now n k i × (at + length (guard_text (copies_of (alternatives_of t.now n) k) i) ≤ length work.old) }
    ensures { Wrote work.old work.new at result (guard_text (copies_of (alternatives_of t.now n) k) i) }
{
    let mut middle = at;
    for later in (0..=k).rev() {
        let number = expand::copy_number(outline, n, i, later);
        let end = guard_text(t, outline, n, number, work, middle);
        middle = join_guards(work, at, middle, end);
    }
    middle
}

// Puts the guard of alternative i of node n from the place on, closed by its `and` if there is one; the next place.
pub fn guard_words(t: &[u32], outline: &[u32], n: u32, i: u32, work: &mut [u32], at: usize) -> usize
    requires { OutlinedNumber t.now outline.now n i × (at + length (closed_guard (alternatives_of t.now n) i) ≤ length work.old) }
    ensures { Wrote work.old work.new at result (closed_guard (alternatives_of t.now n) i) }
{
    if outline::flag_of(outline, n) == 0 {
        return at;
    }
    let end = guard_text(t, outline, n, i, work, at);
    if at == end {
        return end;
    }
    put_operation(work, end, operation::AND, 0)
}
