// What is judged before a recording is matched (SPECIFICATION, "Refusals"): refusals 1, 2, 3 and 6 of the tree, 17 of the rows, 18 of the room, in this
// order. Nothing is written.
//
// Example: the words of `a ##1 b` with rows of width 1 are answered BadRows, which is 17 at 0: atom 1 stands in no row.
#![tactic(auto)]

ghost use Rattle.std.specs.Prelude.{◌≡◌, ◌+◌, ◌*◌, ◌≤◌, ◌<◌, length};
ghost use Rattle.meaning.specs.Tree.{nodes};
ghost use Rattle.meaning.specs.Tick.{all_bits};
ghost use Rattle.meaning.specs.Refusals.{lowest_failing};
ghost use Rattle.meaning.specs.Answers.{formed};
ghost use Rattle.meaning.specs.Lowerable.{FormedTable};
ghost use Rattle.recording.specs.Refusals.{over_an_atom, judged_tree, in_the_row, all_in_the_row, good_rows, room_enough, judged};

use meaning::{Refusal, kind};

// The most nodes of a tree, and the most ticks of a recording.
const NODES: usize = 64;

const TICKS: usize = 256;

// 6, of node n: whether a goto or nonconsecutive repetition stands over an atom.
#[tactic(auto, unfolding(crate::specs::Refusals::over_an_atom, words::specs::Choice::pick))]
fn over_an_atom(tree: &[u32], n: u32) -> bool
    requires { FormedTable tree.now × (n < nodes tree.now) }
    ensures { result ≡ over_an_atom tree.now n }
{
    let v = tree::read(tree, n);
    match v.kind {
        kind::GOTO | kind::NONCONSECUTIVE => tree::read(tree, v.p).kind == kind::ATOM,
        _ => true,
    }
}

// The lowest node that 6 refuses.
fn lowest_not_over_an_atom(tree: &[u32], count: u32) -> Result<(), Refusal>
    requires { FormedTable tree.now × (count ≤ nodes tree.now) }
    ensures { result ≡ lowest_failing Refusal.NotOverAnAtom (over_an_atom tree.now) count 0 formed }
{
    for n in 0..count {
        if !over_an_atom(tree, n) {
            return Err(Refusal::NotOverAnAtom(n));
        }
    }
    Ok(())
}

// 1, 2, 3 and 6 of the tree, in this order.
#[tactic(auto, unfolding(crate::specs::Refusals::judged_tree, crate::specs::Refusals::and_then, words::specs::Choice::pick))]
fn judged_tree(tree: &[u32]) -> Result<(), Refusal>
    ensures { result ≡ judged_tree tree.now }
{
    let count = tree.len() / 5;
    if count > NODES {
        return Err(Refusal::Malformed(0));
    }
    tree::checked(tree)?;
    lowest_not_over_an_atom(tree, count as u32)
}

// Whether the atom or the condition of node n stands in the row.
#[tactic(auto, unfolding(crate::specs::Refusals::in_the_row, words::specs::Choice::pick))]
fn in_the_row(tree: &[u32], width: usize, n: u32) -> bool
    requires { (n * 5 + 5 ≤ length tree.now) × (n < 4096) }
    ensures { result ≡ in_the_row tree.now width n }
{
    let v = tree::read(tree, n);
    !tree::is_atom(tree::columns(v.kind).p) || (v.p as usize) < width
}

// Whether the atom or the condition of every node stands in the row.
fn all_in_the_row(tree: &[u32], width: usize, count: u32) -> bool
    requires { (count * 5 ≤ length tree.now) × (count ≤ 4096) }
    ensures { result ≡ all_in_the_row tree.now width count }
{
    (0..count).all(|n| in_the_row(tree, width, n))
}

// Whether every byte is 0 or 1.
fn are_bits(bytes: &[u8]) -> bool
    ensures { result ≡ all_bits bytes.now }
{
    bytes.iter().all(|byte| *byte <= 1)
}

// 17: whether the rows are so many ticks of bits, and the tree's atoms stand in them.
#[tactic(auto, unfolding(crate::specs::Refusals::good_rows, words::specs::Choice::pick))]
fn good_rows(tree: &[u32], rows: &[u8], width: usize) -> bool
    requires { nodes tree.now ≤ 64 }
    ensures { result ≡ good_rows tree.now rows.now width }
{
    width != 0
        && rows.len() % width == 0
        && rows.len() / width <= TICKS
        && are_bits(rows)
        && all_in_the_row(tree, width, (tree.len() / 5) as u32)
}

// 18: whether there is a byte of answers for each tick, and a table of work for each node.
#[tactic(auto, unfolding(crate::specs::Refusals::room_enough, words::specs::Choice::pick))]
fn room_enough(tree: &[u32], ticks: usize, answers: usize, work: usize) -> bool
    requires { (nodes tree.now ≤ 64) × (ticks ≤ 256) }
    ensures { result ≡ room_enough tree.now ticks answers work }
{
    let side = ticks + 1;
    ticks <= answers && tree.len() / 5 * (side * side) <= work
}

// The lowest refusal in its order, or the ticks.
#[tactic(auto, unfolding(crate::specs::Refusals::judged, crate::specs::Refusals::judged_rows, words::specs::Choice::pick))]
pub fn judged(
    tree: &[u32],
    rows: &[u8],
    width: usize,
    answers: usize,
    work: usize,
) -> Result<usize, Refusal>
    ensures { result ≡ judged tree.now rows.now width answers work }
{
    judged_tree(tree)?;
    if !good_rows(tree, rows, width) {
        return Err(Refusal::BadRows);
    }
    let ticks = rows.len() / width;
    if !room_enough(tree, ticks, answers, work) {
        return Err(Refusal::LentTooShort);
    }
    Ok(ticks)
}
