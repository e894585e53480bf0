// The i-th alternative of a node, written into lent work. Alternatives are numbered and never stored: the number alone says
// which alternatives of the operands it is made of, so that a recursion on the node number writes its steps in order. How many
// alternatives each operand has is read from the outline, which the walk made.
//
// Example: alternative 3 of `a[*1:2] ##[3:4] b` is Bool(a), Bool(a) after Fixed(1), Bool(b) after Fixed(4).
#![tactic(auto)]

ghost use Rattle.std.specs.Prelude.{◌≡◌, ◌+◌, ◌-◌, ◌/◌, ◌≤◌, ◌<◌, length};
ghost use Rattle.words.specs.Written.{Wrote};
ghost use Rattle.outline.specs.Outline.{count_in};
ghost use Rattle.expand.specs.ByNumber.{alternatives_of, copies_of, alternative_words, hop_at, parts_of, delay_parts, copies_count, block_of, empties, copies_block, is_copies, single_term, copy_number, DelayCounted, CopiesCounted, OperandInside, OutlinedNumber, OutlinedCopies};

use meaning::{Node, SeqHop, SeqStep, SeqTerm, kind};

// What an alternative of a delay is made of: its hop, and the numbers of the left's and the right's alternative.
#[derive(Clone, Copy)]
pub struct Parts {
    pub hop: SeqHop,
    pub left: u32,
    pub right: u32,
}

// Where an alternative of a repetition stands: how many copies follow the first, and its number among those of as many.
#[derive(Clone, Copy)]
pub struct Block {
    pub later: u32,
    pub index: u32,
}

// The k-th hop of a delay.
#[tactic(auto, using(words::specs::Choice::tests), unfolding(crate::specs::ByNumber::hop_at))]
fn kth_hop(v: Node, k: u32) -> SeqHop
    requires { v.min + k < 4294967296 }
    ensures { result ≡ hop_at v.min v.max k }
{
    if v.max == tree::UNLIMITED {
        SeqHop::AtLeast(v.min)
    } else {
        SeqHop::Fixed(v.min + k)
    }
}

// The number of a delay's alternative taken apart: the hop varies slowest, then the left, then the right.
#[tactic(auto, unfolding(crate::specs::ByNumber::parts_of))]
fn take_apart(v: Node, i: u32, a: u32, b: u32) -> Parts
    requires { (0 < a) × (0 < b) × (v.min + i / b / a < 4294967296) }
    ensures { result ≡ parts_of v.min v.max i a b }
{
    Parts {
        hop: kth_hop(v, i / b / a),
        left: i / b % a,
        right: i % b,
    }
}

// Whether a repetition has an Empty alternative in front: 1 or 0.
#[tactic(auto, unfolding(crate::specs::ByNumber::empties, words::specs::Choice::pick))]
fn empty_count(min: u32) -> u32
    ensures { result ≡ empties min }
{
    u32::from(min == 0)
}

// The alternatives of k + 1 copies, of an operand that has a.
#[tactic(auto, using(crate::proofs::Arithmetic::counting))]
fn count_copies(a: u32, k: u32) -> u32
    requires { (0 < a) × (copies_count a k ≤ 256) }
    ensures { result ≡ copies_count a k }
{
    a * a.pow(k)
}

// The block in which number i stands, the first being that of k + 1 copies.
#[tactic(auto, using(crate::proofs::Arithmetic::finding))]
fn find_block(a: u32, k: u32, more: u32, i: u32) -> Block
    requires { (0 < a) × (a ≤ 256) × (copies_count a k ≤ 256) × (k ≤ 256) × (more ≤ 256) × (i ≤ 256) }
    ensures { result ≡ block_of a k more i }
{
    let mut p = count_copies(a, k);
    let mut index = i;
    for later in k..k + more {
        if index < p {
            return Block { later, index };
        }
        index -= p;
        p *= a;
    }
    Block {
        later: k + more,
        index,
    }
}

// Whether alternative i of the node is made of copies of its operand.
#[tactic(auto, using(words::specs::Choice::tests), unfolding(crate::specs::ByNumber::is_copies))]
pub fn made_of_copies(v: Node, i: u32) -> bool
    ensures { result ≡ is_copies v i }
{
    outline::is_repeated(v) && empty_count(v.min) <= i
}

// What alternative i of the delay v is made of. Number 0 is made of those of number 0, which needs no division: what has one
// alternative is passed quickly.
#[tactic(auto, using(crate::proofs::Outlines::zero_parts), unfolding(crate::specs::ByNumber::delay_parts))]
pub fn delay_parts(outline: &[u32], v: Node, i: u32) -> Parts
    requires { DelayCounted outline.now v i }
    ensures { result ≡ delay_parts outline.now v i }
{
    if i == 0 {
        return Parts {
            hop: kth_hop(v, 0),
            left: 0,
            right: 0,
        };
    }
    let a = outline::count_of(outline, v.p);
    let b = outline::count_of(outline, v.q);
    take_apart(v, i, a, b)
}

// Where alternative i of the repetition v stands, past its Empty.
#[tactic(auto, unfolding(crate::specs::ByNumber::copies_block))]
pub fn copies_block(outline: &[u32], v: Node, i: u32) -> Block
    requires { CopiesCounted outline.now v i }
    ensures { result ≡ copies_block outline.now v i }
{
    let a = outline::count_of(outline, v.p);
    let k = v.min.saturating_sub(1);
    find_block(a, k, v.max - k - 1, i - empty_count(v.min))
}

// Which alternative of node n stands, in alternative i of several copies, in the copy that `later` copies follow. In number 0 it is
// number 0, which needs no division.
#[tactic(auto, using(crate::proofs::Outlines::copy_numbers))]
pub fn copy_number(outline: &[u32], n: u32, i: u32, later: u32) -> u32
    requires { (n < length outline.now) × (0 < count_in outline.now n) × (copies_count (count_in outline.now n) later ≤ 256) }
    ensures { result ≡ copy_number (count_in outline.now n) i later }
{
    if i == 0 {
        return 0;
    }
    let a = outline::count_of(outline, n);
    if later == 0 {
        return i % a;
    }
    i / count_copies(a, later - 1) % a
}

// The one term of alternative i of a node, other than an atom, that has none of an operand's alternatives in it.
#[tactic(auto, using(words::specs::Choice::tests), unfolding(crate::specs::ByNumber::single_term))]
fn single_term(t: &[u32], v: Node, i: u32) -> SeqTerm
    requires { OperandInside t.now v × (v.kind ≡ 1 → ⊥) }
    ensures { result ≡ single_term t.now v i }
{
    let b = tree::read(t, v.p);
    match v.kind {
        kind::GOTO => SeqTerm::Goto(b.p, v.min),
        kind::NONCONSECUTIVE => SeqTerm::Nonconsec(b.p, v.min),
        _ if i < empty_count(v.min) => SeqTerm::Empty,
        _ => SeqTerm::ConsecAtLeast(b.p, v.min.max(1)),
    }
}

// Puts the steps of alternative i of node n from the place on, the first reached by h; the next place.
#[cycle(alternative_bare_alternative_repeated)]
pub fn alternative(
    t: &[u32],
    outline: &[u32],
    n: u32,
    i: u32,
    h: SeqHop,
    work: &mut [u32],
    at: usize,
) -> usize
    requires { OutlinedNumber t.now outline.now n i × (at + length (alternative_words h (alternatives_of t.now n) i) ≤ length work.old) }
    ensures { Wrote work.old work.new at result (alternative_words h (alternatives_of t.now n) i) }
{
    bare_alternative(t, outline, outline::bare_of(outline, n), i, h, work, at)
}

// Puts the steps of alternative i of node n, which is no [*1], as `alternative` does. Atoms are the most, and asked for first.
// The hop is handed down: the left operand takes h, the right one the delay's own, so that nothing is patched.
#[cycle(alternative_bare_alternative_repeated)]
fn bare_alternative(
    t: &[u32],
    outline: &[u32],
    n: u32,
    i: u32,
    h: SeqHop,
    work: &mut [u32],
    at: usize,
) -> usize
    requires { OutlinedNumber t.now outline.now n i × (at + length (alternative_words h (alternatives_of t.now n) i) ≤ length work.old) }
    ensures { Wrote work.old work.new at result (alternative_words h (alternatives_of t.now n) i) }
{
    let v = tree::read(t, n);
    match v.kind {
        kind::ATOM => {
            let term = SeqTerm::Bool(v.p);
            term::store(work, at, SeqStep { term, hop: h })
        }
        kind::DELAY => {
            let s = delay_parts(outline, v, i);
            let middle = alternative(t, outline, v.p, s.left, h, work, at);
            alternative(t, outline, v.q, s.right, s.hop, work, middle)
        }
        kind::THROUGHOUT => alternative(t, outline, v.q, i, h, work, at),
        _ if made_of_copies(v, i) => {
            let s = copies_block(outline, v, i);
            repeated(t, outline, v.p, s.later, s.index, h, work, at)
        }
        _ => {
            let term = single_term(t, v, i);
            term::store(work, at, SeqStep { term, hop: h })
        }
    }
}

// Puts the steps of alternative i of k + 1 copies of node n, one after the other: each after the first is reached by Fixed(1).
// The loop is not shared with `guards::repeated_guard`: they have only the copy's number in common, and a closure's contract would say all the rest again.
#[cycle(alternative_bare_alternative_repeated)]
fn repeated(
    t: &[u32],
    outline: &[u32],
    n: u32,
    k: u32,
    i: u32,
    h: SeqHop,
    work: &mut [u32],
    at: usize,
) -> usize
    requires { OutlinedCopies t.now outline.now n k i × (at + length (alternative_words h (copies_of (alternatives_of t.now n) k) i) ≤ length work.old) }
    ensures { Wrote work.old work.new at result (alternative_words h (copies_of (alternatives_of t.now n) k) i) }
{
    let mut hop = h;
    let mut place = at;
    for later in (0..=k).rev() {
        let number = copy_number(outline, n, i, later);
        place = alternative(t, outline, n, number, hop, work, place);
        hop = SeqHop::Fixed(1);
    }
    place
}
