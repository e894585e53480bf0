// The assertions, as sequence trees of five words a node, and their listings. A match is an alarm.
//
// Example: assertion 1 is `hot_in ##2 kept`: a hot pixel came in, and two ticks later a pixel leaves as it came.
ghost use Rattle.std.specs.Prelude.{◌≡◌, ◌+◌, ◌≤◌, length, replicate};
ghost use Rattle.words.specs.Written.{Wrote};
ghost use Rattle.frame.specs.Assertions.{node, words_in, tree_of, listed};

use crate::atoms::{BAD_IN, GOOD_IN, HOT_IN, IN_ROW, KEPT, REPLACED, ROW_START, WRONG};
use meaning::kind;

// 1: hot_in ##2 kept. A hot pixel leaves as it came.
const HOT_KEPT: [[u32; 5]; 3] = [
    [kind::ATOM, HOT_IN, 0, 0, 0],
    [kind::ATOM, KEPT, 0, 0, 0],
    [kind::DELAY, 0, 1, 2, 2],
];

// 2: good_in ##2 replaced. A pixel is replaced that is not defective.
const GOOD_REPLACED: [[u32; 5]; 3] = [
    [kind::ATOM, GOOD_IN, 0, 0, 0],
    [kind::ATOM, REPLACED, 0, 0, 0],
    [kind::DELAY, 0, 1, 2, 2],
];

// 3: in_row throughout (bad_in ##2 wrong). A defective pixel whose row goes on while it stays leaves with another value than
// its row and the one above give.
const WRONG_IN_ROW: [[u32; 5]; 4] = [
    [kind::ATOM, BAD_IN, 0, 0, 0],
    [kind::ATOM, WRONG, 0, 0, 0],
    [kind::DELAY, 0, 1, 2, 2],
    [kind::THROUGHOUT, IN_ROW, 2, 0, 0],
];

// 4: row_start within (bad_in ##2 wrong). The same of a pixel during whose stay a row begins: columns 0, 750 and 751.
const WRONG_AT_START: [[u32; 5]; 5] = [
    [kind::ATOM, ROW_START, 0, 0, 0],
    [kind::ATOM, BAD_IN, 0, 0, 0],
    [kind::ATOM, WRONG, 0, 0, 0],
    [kind::DELAY, 1, 2, 2, 2],
    [kind::WITHIN, 0, 3, 0, 0],
];

// Puts the nodes from the front on; how many words they are.
fn planted(nodes: &[[u32; 5]], tree: &mut [u32]) -> usize
    requires { length (words_in nodes.now) ≤ length tree.old }
    ensures { Wrote tree.old tree.new 0 result (words_in nodes.now) }
{
    let mut words = 0;
    for &[kind, p, q, min, max] in nodes {
        words = words::copied(&[kind, p, q, min, max], tree, words);
    }
    words
}

// The tree of an assertion; how many words it has.
fn tree_of(number: u32, tree: &mut [u32]) -> usize
    requires { 25 ≤ length tree.old }
    ensures { Wrote tree.old tree.new 0 result (tree_of number) }
{
    match number {
        1 => planted(&HOT_KEPT, tree),
        2 => planted(&GOOD_REPLACED, tree),
        3 => planted(&WRONG_IN_ROW, tree),
        _ => planted(&WRONG_AT_START, tree),
    }
}

// The lowering of a tree; how many words its listing has. A tree that is refused has none, which no tick takes.
fn lowered(tree: &[u32], work: &mut [u32], out: &mut [u32]) -> usize
    ensures wrote { Wrote out.old out.new 0 result (listed tree.now (length work.old) (length out.old)) }
    ensures cleared { work.new ≡ replicate (length work.old) 0 }
{
    match lower::lower(tree, work, out) {
        Ok(listing) => listing.words,
        Err(_) => 0,
    }
}

// The listing of an assertion; how many words it has.
pub fn listing(number: u32, work: &mut [u32], out: &mut [u32]) -> usize
    ensures wrote { Wrote out.old out.new 0 result (listed (tree_of number) (length work.old) (length out.old)) }
    ensures cleared { work.new ≡ replicate (length work.old) 0 }
{
    let mut tree = [0u32; 25];
    let words = tree_of(number, &mut tree);
    lowered(&tree[..words], work, out)
}
