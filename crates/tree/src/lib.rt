// A table of words read node by node, and its checks: refusals 1, 2 and 3, each with the lowest node (SPECIFICATION, "The tree").
//
// Example: the words 1,0,0,0,0, 1,1,0,0,0, 2,0,1,1,1 are three nodes that pass; with 2,0,0,1,1 for the last, node 0 is
// used twice and node 1 not at all, so that `checked` answers NotUsedOnce(0).
#![tactic(auto)]

ghost use Rattle.std.specs.Prelude.{◌≡◌, ℕ, true, ◌+◌, ◌*◌, ◌≤◌, ◌<◌, length};
ghost use Rattle.meaning.specs.Tree.{node_at};
ghost use Rattle.meaning.specs.Kinds.{row, columns, is_atom, limit, formed_span, in_order};
ghost use Rattle.meaning.specs.Refusals.{lowest_failing, formed_node, range_node, table};
ghost use Rattle.meaning.specs.Answers.{formed};
ghost use Rattle.tree.specs.Checks.{AnswersAs, Checkable};
ghost use Rattle.tree.specs.Uses.{use_if, use_operands, used_by, OperandsWithin, AllOperandsWithin};

use meaning::{Part, Refusal, Span, kind};

// The five words of node n.
#[tactic(auto, unfolding(meaning::specs::Tree::node_at))]
pub fn read(t: &[u32], n: u32) -> meaning::Node
    requires { (n * 5 + 5 ≤ length t.now) × (n < 4096) }
    ensures { result ≡ node_at t.now n }
{
    let i = n as usize * 5;
    meaning::Node {
        kind: t[i],
        p: t[i + 1],
        q: t[i + 2],
        min: t[i + 3],
        max: t[i + 4],
    }
}

// SPECIFICATION, "The tree": "4,294,967,295 stands for $, no upper end, and only max may hold it".
pub const UNLIMITED: u32 = 4294967295;

fn row(p: Part, q: Part, span: Span) -> meaning::Columns
    ensures { result ≡ row p q span }
{
    meaning::Columns { p, q, span }
}

// The specification's table of kinds: what p and q are, and what min and max are. A kind that the specification does not know uses no word.
// A kind stays a number: refusal 1 tells unknown ones apart, and the definitions of a tree read it as one.
// Two kinds of one row have an arm each: with one arm for both, an atom, which uses no operand, takes 12 instructions in place of 7 where uses are
// counted.
#[tactic(auto, unfolding(meaning::specs::Kinds::columns, words::specs::Choice::pick))]
pub fn columns(kind: u32) -> meaning::Columns
    ensures { result ≡ columns kind }
{
    match kind {
        kind::ATOM => row(Part::Atom, Part::Unused, Span::Unused),
        kind::DELAY => row(Part::Operand, Part::Operand, Span::Range),
        kind::CONSECUTIVE => row(Part::Operand, Part::Unused, Span::Range),
        kind::GOTO => row(Part::Operand, Part::Unused, Span::Count),
        kind::NONCONSECUTIVE => row(Part::Operand, Part::Unused, Span::Count),
        kind::THROUGHOUT => row(Part::Atom, Part::Operand, Span::Unused),
        kind::WITHIN => row(Part::Operand, Part::Operand, Span::Unused),
        _ => row(Part::Unused, Part::Unused, Span::Unused),
    }
}

// What p or q of node n stays below: an unused word is 0, an operand is lower, an atom is small.
fn limit(n: u32, part: Part) -> u32
    ensures { result ≡ limit n part }
{
    match part {
        Part::Unused => 1,
        Part::Operand => n,
        Part::Atom => 65536,
    }
}

// Whether min and max may hold these words: "unused word filled", "min is $".
#[tactic(auto, unfolding(words::specs::Choice::pick))]
fn formed_span(span: Span, min: u32, max: u32) -> bool
    ensures { result ≡ formed_span span min max }
{
    match span {
        Span::Unused => (min == 0) & (max == 0),
        Span::Range | Span::Count => min < UNLIMITED,
    }
}

// 1, of node n: "an unknown kind, a word that its kind does not use and that is not 0, an atom or condition above 65,535, ..". All is asked at once:
// tests that stop at the first which fails take up to three tenths more instructions a node.
#[tactic(auto, unfolding(meaning::specs::Refusals::formed_node, words::specs::Choice::pick))]
fn formed_node(n: u32, v: meaning::Node) -> bool
    ensures { result ≡ formed_node n v }
{
    let is = columns(v.kind);
    matches!(v.kind, kind::ATOM..=kind::WITHIN)
        & (v.p < limit(n, is.p))
        & (v.q < limit(n, is.q))
        & formed_span(is.span, v.min, v.max)
}

// Whether a range is in order, and a count exact and from 1.
#[tactic(auto, unfolding(words::specs::Choice::pick))]
fn in_order(span: Span, min: u32, max: u32) -> bool
    ensures { result ≡ in_order span min max }
{
    match span {
        Span::Unused => true,
        Span::Range => min <= max,
        Span::Count => min == max && 0 < min,
    }
}

// 3: "a delay or [*] has a min above its max; a [->] or [=] has a min other than its max, or 0".
#[tactic(auto, unfolding(meaning::specs::Refusals::range_node))]
fn range_node(v: meaning::Node) -> bool
    ensures { result ≡ range_node v }
{
    in_order(columns(v.kind).span, v.min, v.max)
}

// Whether a word names an atom.
pub fn is_atom(part: Part) -> bool
    ensures { result ≡ is_atom part }
{
    part == Part::Atom
}

// One use more of node k, if it is one; 2 stands for any number above 1.
#[tactic(auto, unfolding(crate::specs::Uses::use_if, words::specs::Choice::pick))]
fn use_if(used: &mut [u8], operand: bool, k: u32)
    requires { operand ≡ true → k < length used.old }
    ensures { used.new ≡ use_if used.old operand k }
{
    let i = k as usize;
    if operand && used[i] < 2 {
        used[i] += 1;
    }
}

// The uses that node v makes of its operands.
#[tactic(auto, unfolding(crate::specs::Uses::use_operands))]
fn use_operands(used: &mut [u8], v: meaning::Node)
    requires { OperandsWithin (length used.old) v }
    ensures { used.new ≡ use_operands used.old v }
{
    let is = columns(v.kind);
    use_if(used, is.p == Part::Operand, v.p);
    use_if(used, is.q == Part::Operand, v.q);
}

// The uses that count nodes make, one byte for each node used.
#[tactic(auto, unfolding(crate::specs::Uses::used_by))]
fn count_uses(used: &mut [u8], t: &[u32], count: u32)
    requires { AllOperandsWithin (length used.old) t.now count }
    ensures { used.new ≡ used_by t.now count used.old }
{
    for n in 0..count {
        use_operands(used, read(t, n));
    }
}

// The refusal of the lowest of count nodes that fails the test.
fn lowest_failing<R: Fn(u32) -> Refusal, F: Fn(u32) -> bool>(
    refused: R,
    count: u32,
    passes: F,
) -> Result<(), Refusal>
    requires refusal { (n : ℕ) → n < count → R.pre refused n }
    requires test { (n : ℕ) → n < count → F.pre passes n }
    ensures { (refusal : _) (test : _) → AnswersAs count (R.post refused) refusal → AnswersAs count (F.post passes) test → result ≡ lowest_failing refusal test count 0 formed }
{
    for n in 0..count {
        if !passes(n) {
            return Err(refused(n));
        }
    }
    Ok(())
}

// 1, 2 and 3 over the count nodes of a table, in this order, with uses counted in cleared bytes.
fn checked_in(used: &mut [u8], t: &[u32], count: u32) -> Result<(), Refusal>
    requires { Checkable t.now used.old count }
    ensures { result ≡ table t.now }
{
    lowest_failing(Refusal::Malformed, count, |n| formed_node(n, read(t, n)))?;
    count_uses(used, t, count);
    lowest_failing(Refusal::NotUsedOnce, count - 1, |n| used[n as usize] == 1)?;
    lowest_failing(Refusal::OutOfOrder, count, |n| range_node(read(t, n)))
}

// 1, 2 and 3 over the whole table. Few trees need as many bytes as a tree may have nodes, and these take long to clear beside a small
// tree.
#[tactic(auto, unfolding(meaning::specs::Refusals::table, words::specs::Choice::pick))]
pub fn checked(t: &[u32]) -> Result<(), Refusal>
    ensures { result ≡ table t.now }
{
    if t.len() % 5 != 0 || t.is_empty() || t.len() > 20480 {
        return Err(Refusal::Malformed(0));
    }
    let count = (t.len() / 5) as u32;
    if count <= 64 {
        let mut used = [0u8; 64];
        return checked_in(&mut used, t, count);
    }
    let mut used = [0u8; 4096];
    checked_in(&mut used, t, count)
}
