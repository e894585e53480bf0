// Lowering, whole: a tree's words to a listing's words, or a refusal with its place. Any slices, of any lengths, get their answer. Every
// refusal is handed up as it was found, the output is written only when nothing can be refused any more, and work is cleared once, after its
// last use.
//
// Example: the words of `a ##1 b` with 32 words of work and 8 of output give a listing of 1 register and 8 words, 2 deep; with 7 of output, OutputTooShort.
#![tactic(auto)]

ghost use Rattle.std.specs.Prelude.{◌≡◌, ◌+◌, ◌≤◌, ltb, length, take};
ghost use Rattle.words.specs.Written.{Wrote};
ghost use Rattle.meaning.specs.Answers.{formed};
ghost use Rattle.meaning.specs.Tree.{nodes};
ghost use Rattle.meaning.specs.Refusals.{table};
ghost use Rattle.meaning.specs.Lower.{words_of};
ghost use Rattle.meaning.specs.Lowerable.{FormedTable};
ghost use Rattle.lower.specs.Answers.{Lowers, Answers, Finishes};
ghost use Rattle.lower.specs.Stages.{register_count, survey_root, root_of, Placed, Rooted};

use meaning::{Listing, Refusal, kind};

// What the root is: a within, whose operands are paired, or a node of another kind, whose alternatives are chosen from.
#[derive(Clone, Copy)]
enum Root {
    Within { one: u32, two: u32 },
    Other(u32),
}

// The root of a table, asked for its kind once for all passes.
#[tactic(auto, unfolding(crate::specs::Stages::root_of, crate::specs::Stages::root_by, words::specs::Choice::pick))]
fn root_of(tree: &[u32]) -> Root
    requires { FormedTable tree.now }
    ensures { result ≡ root_of tree.now }
{
    let n = (tree.len() / 5 - 1) as u32;
    let v = tree::read(tree, n);
    if v.kind == kind::WITHIN {
        Root::Within { one: v.p, two: v.q }
    } else {
        Root::Other(n)
    }
}

// A tree that the walk counted, with the outline that it noted and the root.
#[derive(Clone, Copy)]
struct Walked<'a> {
    tree: &'a [u32],
    outline: &'a [u32],
    root: Root,
}

impl Walked<'_> {
    // The first pass: 12, which never falls on a within, or all registers.
    fn registers(&self, work: &mut [u32]) -> Result<u64, Refusal>
        requires { Rooted self.now.tree.now self.now.outline.now self.now.root (length work.old) }
        ensures { result ≡ survey_root self.now.tree.now }
    {
        match self.root {
            Root::Within { one, two } => {
                let registers = within::registers(self.tree, self.outline, one, two, work);
                Ok(registers)
            }
            Root::Other(n) => choice::surveyed(self.tree, self.outline, n, work),
        }
    }

    // The second pass: how many words the listing has, from any register on.
    fn word_count(&self, work: &mut [u32]) -> u64
        requires { Rooted self.now.tree.now self.now.outline.now self.now.root (length work.old) × (register_count self.now.tree.now ≤ 65536) }
        ensures { result ≡ length (words_of self.now.tree.now 0) }
    {
        match self.root {
            Root::Within { one, two } => {
                within::word_count(self.tree, self.outline, one, two, work)
            }
            Root::Other(n) => choice::word_count(self.tree, self.outline, n, work),
        }
    }

    // The third pass: puts the listing in front of the output, and says how many words it has.
    fn write(&self, first: u32, work: &mut [u32], out: &mut [u32]) -> usize
        requires { Rooted self.now.tree.now self.now.outline.now self.now.root (length work.old) × (first + register_count self.now.tree.now ≤ 65536) × (length (words_of self.now.tree.now first) ≤ length out.old) }
        ensures { Wrote out.old out.new 0 result (words_of self.now.tree.now first) }
    {
        match self.root {
            Root::Within { one, two } => {
                within::write(self.tree, self.outline, one, two, first, work, out)
            }
            Root::Other(n) => choice::write(self.tree, self.outline, n, first, work, out),
        }
    }

    // Past 12 and 13, of so many registers: 14, or the listing. Its deepest stack is counted over the words that are written.
    fn listed(
        &self,
        first: u32,
        registers: u64,
        work: &mut [u32],
        out: &mut [u32],
    ) -> Result<Listing, Refusal>
        requires { Rooted self.now.tree.now self.now.outline.now self.now.root (length work.old) × Placed self.now.tree.now first registers }
        ensures { Finishes self.now.tree.now first out.old result out.new }
    {
        if (out.len() as u64) < self.word_count(work) {
            return Err(Refusal::OutputTooShort);
        }
        let words = self.write(first, work, out);
        let deepest = listing::deepest(&out[..words]);
        Ok(Listing {
            registers: registers as usize,
            words,
            deepest,
        })
    }

    // 12, 13, 14, or the listing.
    fn lowered(&self, first: u32, work: &mut [u32], out: &mut [u32]) -> Result<Listing, Refusal>
        requires { Rooted self.now.tree.now self.now.outline.now self.now.root (length work.old) }
        ensures { Finishes self.now.tree.now first out.old result out.new }
    {
        let registers = self.registers(work)?;
        if too_many(first, registers) {
            return Err(Refusal::TooManyRegisters);
        }
        self.listed(first, registers, work, out)
    }
}

// 13: whether the last register's number would be too large for a word.
fn too_many(first: u32, registers: u64) -> bool
    ensures { result ≡ ltb 65536 (first + registers) }
{
    65536 < registers.saturating_add(u64::from(first))
}

// A table that passed its checks: the walk, which notes the outline as it counts, then what comes behind it.
fn walked_root(
    tree: &[u32],
    first: u32,
    outline: &mut [u32],
    work: &mut [u32],
    out: &mut [u32],
) -> Result<Listing, Refusal>
    requires { (table tree.now ≡ formed) × (nodes tree.now ≤ length outline.old) }
    ensures { Answers tree.now first (length work.old) out.old result out.new }
{
    count::walked_root(tree, work.len(), outline)?;
    let walked = Walked {
        tree,
        outline,
        root: root_of(tree),
    };
    walked.lowered(first, work, out)
}

// Every refusal in the specification's order, or the listing; work is left as the last alternative stands in it. Few trees need an outline of as many words
// as a tree may have nodes, and clearing these takes longer than lowering a small one.
fn answered(tree: &[u32], first: u32, work: &mut [u32], out: &mut [u32]) -> Result<Listing, Refusal>
    ensures { Answers tree.now first (length work.old) out.old result out.new }
{
    tree::checked(tree)?;
    if tree.len() <= 320 {
        return walked_root(tree, first, &mut [0; 64], work, out);
    }
    walked_root(tree, first, &mut [0; 4096], work, out)
}

// Lowering with registers numbered from `first` on.
pub fn lower_from(
    tree: &[u32],
    first: u32,
    work: &mut [u32],
    out: &mut [u32],
) -> Result<Listing, Refusal>
    ensures { Lowers tree.now first work.old out.old result work.new out.new }
{
    let answer = answered(tree, first, work, out);
    work.fill(0);
    answer
}

// The public entry point: registers are numbered from 0 on.
pub fn lower(tree: &[u32], work: &mut [u32], out: &mut [u32]) -> Result<Listing, Refusal>
    ensures { Lowers tree.now 0 work.old out.old result work.new out.new }
{
    lower_from(tree, 0, work, out)
}
