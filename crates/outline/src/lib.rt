// The outline of a tree: one word a node, put by the walk and read by whatever writes alternatives.
//
// Example: the word of `a throughout b`, node 1, is 1 + 512 * (1 + 4096 * 1): one alternative, nothing left out, a guard.
#![tactic(auto)]

ghost use Rattle.std.specs.Prelude.{◌≡◌, ◌+◌, ◌<◌, ◌≤◌, length, IfOk};
ghost use Rattle.words.specs.Choice.{pick};
ghost use Rattle.meaning.specs.Tree.{finite};
ghost use Rattle.outline.specs.Outline.{is_repeated, is_once, counted_word, count_in, bare_in, flag_in, noted};

use meaning::{Counts, Node, Refusal, kind};

// A word is a count of alternatives, plus `NODE` times a node, plus `GUARD` where there is a guard.
const NODE: u32 = 512;

const GUARD: u32 = 2097152;

// Whether v is a finite [*] other than [*0]: of the repetitions, it alone is made of its operand's alternatives.
#[tactic(auto, unfolding(crate::specs::Outline::is_repeated, words::specs::Choice::pick))]
pub fn is_repeated(v: Node) -> bool
    ensures { result ≡ is_repeated v }
{
    v.kind == kind::CONSECUTIVE && v.max != 0 && v.max != tree::UNLIMITED
}

// How many alternatives node n has, by the outline.
#[tactic(auto, unfolding(crate::specs::Outline::count_in))]
pub fn count_of(outline: &[u32], n: u32) -> u32
    requires { n < length outline.now }
    ensures { result ≡ count_in outline.now n }
{
    outline[n as usize] % NODE
}

// The node that is left of node n without the [*1] over it, by the outline.
#[tactic(auto, unfolding(crate::specs::Outline::bare_in))]
pub fn bare_of(outline: &[u32], n: u32) -> u32
    requires { n < length outline.now }
    ensures { result ≡ bare_in outline.now n }
{
    outline[n as usize] / NODE % 4096
}

// 1 where one of node n's alternatives has a guard, else 0, by the outline.
#[tactic(auto, unfolding(crate::specs::Outline::flag_in))]
pub fn flag_of(outline: &[u32], n: u32) -> u32
    requires { n < length outline.now }
    ensures { result ≡ flag_in outline.now n }
{
    outline[n as usize] / GUARD
}

// What is left of the finite repetition n, whose words are v: of a [*1], what is left of its operand.
#[tactic(auto, unfolding(crate::specs::Outline::is_once, words::specs::Choice::pick))]
pub fn bare_copies(outline: &[u32], v: Node, n: u32) -> u32
    requires { v.p < length outline.now }
    ensures { result ≡ pick (is_once v.min (finite v.max)) (bare_in outline.now v.p) n }
{
    if v.min == 1 && v.max == 1 {
        return bare_of(outline, v.p);
    }
    n
}

// The word of what was counted at a node of which `bare` is left.
#[tactic(auto, unfolding(crate::specs::Outline::counted_word, words::specs::Choice::pick))]
fn counted_word(c: Counts, bare: u32) -> u32
    requires { (c.alternatives ≤ 256) × (bare < 4096) }
    ensures { result ≡ counted_word c bare }
{
    c.alternatives + NODE * bare + GUARD * u32::from(c.guarded)
}

// Notes the word of node n where its alternatives were counted; the answer as it came.
#[tactic(auto, unfolding(crate::specs::Outline::noted, words::specs::Written::written))]
pub fn noted(
    outline: &mut [u32],
    n: u32,
    bare: u32,
    answer: Result<Counts, Refusal>,
) -> Result<Counts, Refusal>
    requires { (n < length outline.old) × (bare < 4096) × IfOk answer (λ c. c.alternatives ≤ 256) }
    ensures value { result ≡ answer }
    ensures written { outline.new ≡ noted outline.old n bare answer }
{
    if let Ok(c) = answer {
        outline[n as usize] = counted_word(c, bare);
    }
    answer
}
