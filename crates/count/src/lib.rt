// The walk from the root, which counts alternatives and entries before anything is built: refusals 4 to 11, number and
// place (SPECIFICATION, "Refusals"). What it counts at a node it notes in the outline, which is read when alternatives are written.
//
// Example: `a ##[0:255] b` counts 256 alternatives and 512 entries; of `a ##[0:256] b` the walk answers TooManyAlternatives(2).
#![tactic(auto)]

ghost use Rattle.std.specs.Prelude.{◌≡◌, true, ◌+◌, ◌*◌, ◌≤◌, ◌<◌, length, OnOk};
ghost use Rattle.words.specs.Choice.{pick};
ghost use Rattle.meaning.specs.Tree.{node_at, tree_at, nodes, root};
ghost use Rattle.meaning.specs.Refusals.{walk, walk_root, room_of};
ghost use Rattle.meaning.specs.Lowerable.{FormedTable};
ghost use Rattle.outline.specs.Outline.{noted, Notes, KnownRoot};
ghost use Rattle.count.specs.Capped.{nothing, capped, Small, product, sum, times, copied, summed, with_empty, not_plain, guarded_each};
ghost use Rattle.count.specs.Nodes.{Countable, IsWithin, OperandsKnown, WordsOf, Answerable, Unvisited, limit, delay_counts, consec_counts, repeated, covered, over_node, unvisited, unrepeated, answer, left_of, visits, operand_at, fits_within, paired};

use meaning::{Counts, Node, Refusal, kind};

// No alternative; one with nothing in it, which joined with others leaves them as they are; one of a Bool term; one of any other term.
const NOTHING: Counts = Counts {
    alternatives: 0,
    entries: 0,
    plain: true,
    guarded: false,
};

const NEUTRAL: Counts = Counts {
    alternatives: 1,
    ..NOTHING
};

const BOOL_TERM: Counts = Counts {
    entries: 1,
    ..NEUTRAL
};

const OTHER_TERM: Counts = Counts {
    plain: false,
    ..BOOL_TERM
};

// Counts that stop behind their bounds, 256 and 65,536.
#[tactic(auto, unfolding(crate::specs::Capped::capped, words::specs::Choice::pick))]
fn capped(alternatives: u64, entries: u64, plain: bool, guarded: bool) -> Counts
    ensures { result ≡ capped alternatives entries plain guarded }
{
    let many = 256 < alternatives;
    Counts {
        alternatives: alternatives.min(257) as u32,
        entries: if many { 0 } else { entries.min(65537) as u32 },
        plain,
        guarded,
    }
}

// Every left with every right, for one hop. Here and in `sum` the flags are joined without a branch: with `&&` and `||` a level of the walk takes half
// as many instructions again.
#[tactic(auto, unfolding(crate::specs::Capped::product, words::specs::Choice::pick))]
fn product(l: Counts, r: Counts) -> Counts
    requires { Small l × Small r }
    ensures { result ≡ product l r }
{
    let a = u64::from(l.alternatives);
    let b = u64::from(r.alternatives);
    capped(
        a * b,
        u64::from(l.entries) * b + a * u64::from(r.entries),
        l.plain & r.plain,
        l.guarded | r.guarded,
    )
}

// One list of alternatives after another.
#[tactic(auto, unfolding(crate::specs::Capped::sum, words::specs::Choice::pick))]
fn sum(l: Counts, r: Counts) -> Counts
    requires { Small l × Small r }
    ensures { result ≡ sum l r }
{
    capped(
        u64::from(l.alternatives) + u64::from(r.alternatives),
        u64::from(l.entries) + u64::from(r.entries),
        l.plain & r.plain,
        l.guarded | r.guarded,
    )
}

// A list of alternatives once for each of several hops: multiplied, not counted out.
#[tactic(auto, unfolding(crate::specs::Capped::times))]
fn times(hops: u64, c: Counts) -> Counts
    requires { (hops ≤ 4294967296) × Small c }
    ensures { result ≡ times hops c }
{
    capped(
        hops * u64::from(c.alternatives),
        hops * u64::from(c.entries),
        c.plain,
        c.guarded,
    )
}

// k + 1 copies of the base.
fn copied(base: Counts, k: u32) -> Counts
    requires { Small base }
    ensures { result ≡ copied base base k }
{
    let mut copies = base;
    for _i in 0..k {
        copies = product(copies, base);
    }
    copies
}

// The first copies, then one copy more, and so on, count times.
fn summed(base: Counts, first: Counts, count: u32) -> Counts
    requires { Small base × Small first }
    ensures { result ≡ summed base nothing first count }
{
    let mut total = NOTHING;
    let mut copies = first;
    for _i in 0..count {
        total = sum(total, copies);
        copies = product(copies, base);
    }
    total
}

// With the Empty of a minimum of 0.
#[tactic(auto, unfolding(crate::specs::Capped::with_empty, words::specs::Choice::pick))]
fn with_empty(min: u32, c: Counts) -> Counts
    requires { Small c }
    ensures { result ≡ with_empty min c }
{
    if min == 0 {
        return sum(OTHER_TERM, c);
    }
    c
}

// Reached by an "at least" hop, a right operand is no longer plain.
fn not_plain(c: Counts) -> Counts
    ensures { result ≡ not_plain c }
{
    Counts { plain: false, ..c }
}

// 10 and 11 at node n. Here and below the room and the node stay two numbers, as in every definition that decides by them.
#[tactic(auto, unfolding(crate::specs::Nodes::limit, words::specs::Choice::pick))]
fn limited(room: u32, n: u32, c: Counts) -> Result<Counts, Refusal>
    ensures { result ≡ limit room n c }
{
    if 256 < c.alternatives {
        return Err(Refusal::TooManyAlternatives(n));
    }
    if room < c.entries {
        return Err(Refusal::TooManyEntries(n));
    }
    Ok(c)
}

// A delay of operands that one hop joins to c: one "at least" hop for $, else each fixed hop from min to max.
#[tactic(auto, unfolding(crate::specs::Nodes::delay_counts, words::specs::Choice::pick))]
fn delay_counts(v: Node, c: Counts) -> Counts
    requires { (v.min ≤ v.max) × Small c }
    ensures { result ≡ delay_counts v c }
{
    if v.max == tree::UNLIMITED {
        return not_plain(c);
    }
    times(u64::from(v.max - v.min) + 1, c)
}

// max(m,1) up to n copies.
#[tactic(auto, using(crate::proofs::Bounds::copied_is_small, crate::proofs::Bounds::summed_is_small), unfolding(crate::specs::Nodes::consec_counts, words::specs::Choice::pick))]
fn consec_counts(v: Node, s: Counts) -> Counts
    requires { (v.min ≤ v.max) × Small s }
    ensures { result ≡ consec_counts v s }
{
    let k = v.min.saturating_sub(1);
    with_empty(v.min, summed(s, copied(s, k), v.max - k))
}

// 5 of a finite [*], then 10 and 11.
#[tactic(auto, unfolding(crate::specs::Nodes::repeated, words::specs::Choice::pick))]
fn repeated(room: u32, n: u32, v: Node, s: Counts) -> Result<Counts, Refusal>
    requires { (v.min ≤ v.max) × Small s }
    ensures { result ≡ repeated room n v s }
{
    if 256 < v.max {
        return Err(Refusal::CountTooHigh(n));
    }
    limited(room, n, consec_counts(v, s))
}

// One guard atom more for each alternative.
#[tactic(auto, unfolding(crate::specs::Capped::guarded_each))]
fn guarded_each(c: Counts) -> Counts
    requires { Small c }
    ensures { result ≡ guarded_each c }
{
    let alternatives = u64::from(c.alternatives);
    let entries = u64::from(c.entries) + alternatives;
    capped(alternatives, entries, c.plain, true)
}

// 7, then 10 and 11.
#[tactic(auto, unfolding(crate::specs::Nodes::covered, words::specs::Choice::pick))]
fn covered(room: u32, n: u32, s: Counts) -> Result<Counts, Refusal>
    requires { Small s }
    ensures { result ≡ covered room n s }
{
    if !s.plain {
        return Err(Refusal::ThroughoutNotPlain(n));
    }
    limited(room, n, guarded_each(s))
}

// 5 and 6 of the kinds 4, 5 and [*m:$], then 10 and 11; the operand is read for its kind only.
#[tactic(auto, unfolding(crate::specs::Nodes::over_node, words::specs::Choice::pick))]
fn over_node(room: u32, n: u32, v: Node, under: Node) -> Result<Counts, Refusal>
    ensures { result ≡ over_node room n v under }
{
    if 256 < v.min {
        return Err(Refusal::CountTooHigh(n));
    }
    if under.kind != kind::ATOM {
        return Err(Refusal::NotOverAnAtom(n));
    }
    limited(room, n, with_empty(v.min, OTHER_TERM))
}

// 8, and the kinds whose operand is not visited: atom, goto, nonconsecutive, [*0] and [*m:$].
#[tactic(auto, unfolding(crate::specs::Nodes::unvisited, words::specs::Choice::pick))]
fn unvisited(t: &[u32], n: u32, room: u32, v: Node) -> Result<Counts, Refusal>
    requires { Unvisited t.now n v }
    ensures { result ≡ unvisited room n v (node_at t.now v.p) }
{
    match v.kind {
        kind::WITHIN => Err(Refusal::WithinBelowRoot(n)),
        kind::ATOM => limited(room, n, BOOL_TERM),
        kind::CONSECUTIVE if v.max == 0 => limited(room, n, OTHER_TERM),
        _ => over_node(room, n, v, tree::read(t, v.p)),
    }
}

// The answer of a node that is no finite [*] other than [*0], from the counts of its visited operands.
#[tactic(auto, unfolding(crate::specs::Nodes::unrepeated, words::specs::Choice::pick))]
fn unrepeated(t: &[u32], n: u32, room: u32, v: Node, c: Counts) -> Result<Counts, Refusal>
    requires { WordsOf t.now n v × Small c }
    ensures { result ≡ unrepeated room n v (node_at t.now v.p) c }
{
    match v.kind {
        kind::DELAY => limited(room, n, delay_counts(v, c)),
        kind::THROUGHOUT => covered(room, n, c),
        _ => unvisited(t, n, room, v),
    }
}

// The answer of node n from the counts of its visited operands, joined by one hop; its word is noted.
#[tactic(auto, using(crate::proofs::Leaves::few_repeated, crate::proofs::Leaves::few_unrepeated), unfolding(crate::specs::Nodes::answer, crate::specs::Nodes::left_of, outline::specs::Outline::is_repeated, outline::specs::Outline::bare_in, words::specs::Choice::pick))]
fn answered(t: &[u32], n: u32, room: u32, c: Counts, outline: &mut [u32]) -> Result<Counts, Refusal>
    requires { Answerable t.now outline.old n × Small c }
    ensures value { result ≡ answer room n (node_at t.now n) (node_at t.now (node_at t.now n).p) c }
    ensures kept { outline.new ≡ noted outline.old n (left_of outline.old n (node_at t.now n)) result }
{
    let v = tree::read(t, n);
    if outline::is_repeated(v) {
        let bare = outline::bare_copies(outline, v, n);
        return outline::noted(outline, n, bare, repeated(room, n, v, c));
    }
    outline::noted(outline, n, n, unrepeated(t, n, room, v, c))
}

// How many operands of node n are visited: both of a delay, that of a throughout or of a finite [*] other than [*0].
#[tactic(auto, unfolding(crate::specs::Nodes::visits, words::specs::Choice::pick))]
fn visits(t: &[u32], n: u32) -> u32
    requires { (n * 5 + 5 ≤ length t.now) × (n < 4096) }
    ensures { result ≡ visits (node_at t.now n) }
{
    let v = tree::read(t, n);
    match v.kind {
        kind::DELAY => 2,
        kind::THROUGHOUT => 1,
        _ => u32::from(outline::is_repeated(v)),
    }
}

// The k-th operand of node n that is visited, from 0 on: left before right.
#[tactic(auto, unfolding(crate::specs::Nodes::operand_at, words::specs::Choice::pick))]
fn operand(t: &[u32], n: u32, k: u32) -> u32
    requires { (n * 5 + 5 ≤ length t.now) × (n < 4096) }
    ensures { result ≡ operand_at (node_at t.now n) k }
{
    let v = tree::read(t, n);
    if k == 1 || v.kind == kind::THROUGHOUT {
        return v.q;
    }
    v.p
}

// The walk below node n, the node included. By recursion on the node number: operands are lower. The operands are walked from one
// place, and the node is read again behind each, so that a level of the tree keeps few words on the stack.
pub fn walked(
    t: &[u32],
    n: u32,
    room: u32,
    depth: u32,
    outline: &mut [u32],
) -> Result<Counts, Refusal>
    requires { Countable t.now n room depth × (nodes t.now ≤ length outline.old) }
    ensures value { result ≡ walk room depth (tree_at t.now n) }
    ensures noted { OnOk result (Notes t.now n outline.old outline.new) }
{
    if 256 < depth {
        return Err(Refusal::TooDeep(n));
    }
    let mut c = NEUTRAL;
    for k in 0..visits(t, n) {
        let s = walked(t, operand(t, n, k), room, depth + 1, outline)?;
        c = product(c, s);
    }
    answered(t, n, room, c, outline)
}

// 9 of one operand of a root within.
#[tactic(auto, unfolding(words::specs::Choice::pick))]
fn fits_within(c: Counts) -> bool
    ensures { result ≡ fits_within c }
{
    c.plain && !c.guarded
}

// 9, then 10 by the product and 11 by the sum: all pairs count, whether or not seq1 fits into seq2.
#[tactic(auto, unfolding(crate::specs::Nodes::paired, words::specs::Choice::pick))]
fn paired(room: u32, n: u32, x: Counts, y: Counts) -> Result<Counts, Refusal>
    requires { Small x × Small y }
    ensures { result ≡ paired room n x y }
{
    if !(fits_within(x) && fits_within(y)) {
        return Err(Refusal::WithinNotPlain(n));
    }
    let pairs = u64::from(x.alternatives) * u64::from(y.alternatives);
    let entries = u64::from(x.entries) + u64::from(y.entries);
    limited(room, n, capped(pairs, entries, true, false))
}

// One entry for each full 16 words of work, at most 65,536.
#[tactic(auto, unfolding(meaning::specs::Refusals::room_of, words::specs::Choice::pick))]
fn room_of(work: usize) -> u32
    ensures { result ≡ room_of work }
{
    (work / 16).min(65536) as u32
}

// The walk of a root within: both operands, which have depth 1 too, and then their pairs.
fn walked_within(t: &[u32], n: u32, room: u32, outline: &mut [u32]) -> Result<Counts, Refusal>
    requires { IsWithin t.now n room × (nodes t.now ≤ length outline.old) }
    ensures value { result ≡ walk_root room (tree_at t.now n) }
    ensures known { OnOk result (OperandsKnown t.now outline.new n) }
{
    let v = tree::read(t, n);
    let x = walked(t, v.p, room, 1, outline)?;
    let y = walked(t, v.q, room, 1, outline)?;
    paired(room, n, x, y)
}

// The walk from the root, which alone may be a within.
pub fn walked_root(t: &[u32], work: usize, outline: &mut [u32]) -> Result<Counts, Refusal>
    requires { FormedTable t.now × (nodes t.now ≤ length outline.old) }
    ensures value { result ≡ walk_root (room_of work) (root t.now) }
    ensures known { OnOk result (KnownRoot t.now outline.new) }
{
    let room = room_of(work);
    let n = (t.len() / 5 - 1) as u32;
    if tree::read(t, n).kind == kind::WITHIN {
        return walked_within(t, n, room, outline);
    }
    walked(t, n, room, 1, outline)
}
