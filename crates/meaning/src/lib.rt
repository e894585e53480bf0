// The plain types that the definitions and the code share, the numbers of kinds and operations, and the refusals. What the types mean is in
// specs/, and demand 3 about them is in proofs/Demand3.antt.
//
// Example: `a ##1 b` is the table 1,0,0,0,0, 1,1,0,0,0, 2,0,1,1,1, three nodes, read as `Node`s. It has one alternative of
// two steps, Bool(0) and Bool(1), the second reached by Fixed(1).
#![tactic(auto)]

pub mod kind;
pub mod operation;
mod refusal;
pub mod word;

pub use refusal::{Fault, Refusal, TickRefusal};

// Five words of a tree table.
#[derive(Clone, Copy)]
pub struct Node {
    pub kind: u32,
    pub p: u32,
    pub q: u32,
    pub min: u32,
    pub max: u32,
}

// What p or q of a node is, by the node's kind.
#[derive(Clone, Copy, PartialEq, Eq)]
pub enum Part {
    Unused,
    Operand,
    Atom,
}

// What min and max of a node are together, by the node's kind.
#[derive(Clone, Copy, PartialEq, Eq)]
pub enum Span {
    Unused,
    Range,
    Count,
}

// A row of the specification's table of kinds.
#[derive(Clone, Copy)]
pub struct Columns {
    pub p: Part,
    pub q: Part,
    pub span: Span,
}

// A term of an alternative: the atom, and the count of a repetition.
#[derive(Clone, Copy)]
pub enum SeqTerm {
    Bool(u32),
    Goto(u32, u32),
    Nonconsec(u32, u32),
    ConsecAtLeast(u32, u32),
    Empty,
}

// The ticks from the term before.
#[derive(Clone, Copy)]
pub enum SeqHop {
    Fixed(u32),
    AtLeast(u32),
}

// A term and the hop that reaches it: the source's pair.
#[derive(Clone, Copy)]
pub struct SeqStep {
    pub term: SeqTerm,
    pub hop: SeqHop,
}

// What the walk counts of a node: its alternatives, their terms and guard atoms together, whether each is made of
// Bool terms and fixed hops alone, and whether one has a guard.
#[derive(Clone, Copy)]
pub struct Counts {
    pub alternatives: u32,
    pub entries: u32,
    pub plain: bool,
    pub guarded: bool,
}

// What lowering made of a tree: how many registers and words, and how deep a stack.
#[derive(Clone, Copy, PartialEq, Eq)]
pub struct Listing {
    pub registers: usize,
    pub words: usize,
    pub deepest: usize,
}

// What an operation takes from the stack and leaves on it.
#[derive(Clone, Copy)]
pub struct Row {
    pub takes: u32,
    pub leaves: u32,
}
