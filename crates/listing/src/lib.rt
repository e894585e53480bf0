// What reads a listing word by word: the table of fourteen rows, the step of the check, the check that is refusal 21, and the deepest stack.
//
// The step takes what is counted of the words so far and the next word, and gives what is counted with that word, or that it does not fit. It
// reads no slice, so that the words may come from anywhere: the check and the tick feed it.
//
// Example: a0 any seq0 r0 a1 any and match passes the check, and its deepest stack is 2. Without its last word it is
// faulty at place 7, the word count.
#![tactic(auto)]

ghost use Rattle.std.specs.Prelude.{◌≡◌, ◌+◌, ◌-◌, ◌^◌, ◌≤◌, ◌<◌, max};
ghost use Rattle.words.specs.Choice.{pick};
ghost use Rattle.meaning.specs.Listing.{operation, word, row_of, height as height_of, is_store, registers as registers_of, deepest as deepest_of};
ghost use Rattle.meaning.specs.Check.{check};
ghost use Rattle.listing.specs.Operands.{OperandFound, OperandsFound};
ghost use Rattle.listing.specs.Step.{Small, reach as reach_of, tallied as tallied_of, noted, ended as ended_of};

use meaning::{Fault, operation, word};

// A value on the stack.
const LEAF: meaning::Row = meaning::Row {
    takes: 0,
    leaves: 1,
};

// A change of the top.
const UNARY: meaning::Row = meaning::Row {
    takes: 1,
    leaves: 1,
};

// Two values to one.
const BINARY: meaning::Row = meaning::Row {
    takes: 2,
    leaves: 1,
};

// The value off the stack.
const STORE: meaning::Row = meaning::Row {
    takes: 1,
    leaves: 0,
};

// Operations 1 to 14: atom, register, zero, one; any, not; and, or; seq, arm, gto, ncx, crl, match.
const ROWS: [meaning::Row; 14] = [
    LEAF, LEAF, LEAF, LEAF, UNARY, UNARY, BINARY, BINARY, STORE, STORE, STORE, STORE, STORE, STORE,
];

// What is counted of the words so far: the stores, the stack's height and its deepest, one more than the highest atom and than the
// highest register named (0 where none is).
#[derive(Clone, Copy)]
pub struct Tally {
    pub stores: usize,
    pub height: usize,
    pub deepest: usize,
    pub atoms: usize,
    pub named: usize,
}

// The tally before the first word.
pub const NOTHING: Tally = Tally {
    stores: 0,
    height: 0,
    deepest: 0,
    atoms: 0,
    named: 0,
};

// What the operation takes from the stack and leaves on it. The compiled code lays the table out anew at each look-up, so a caller that knows the
// operation, or its kind, asks for a constant's row, which costs nothing at run time.
#[tactic(auto, unfolding(meaning::specs::Listing::row_of, meaning::specs::Listing::rows))]
pub fn row(o: u32) -> meaning::Row
    requires { (1 ≤ o) × (o ≤ 14) }
    ensures { result ≡ row_of o }
{
    ROWS[(o - 1) as usize]
}

// The row of the word's operation: operations of one kind have one row, so that a constant's is asked for.
#[tactic(auto, using(crate::proofs::Laws::kinds))]
fn row_of_word(w: u32) -> meaning::Row
    requires { (1 ≤ operation w) × (operation w ≤ 14) }
    ensures { result ≡ row_of (operation w) }
{
    if w < word::ANY {
        return row(operation::ATOM);
    }
    if w < word::AND {
        return row(operation::ANY);
    }
    if w < word::SEQ {
        return row(operation::AND);
    }
    row(operation::SEQ)
}

// Whether the word is a register's store.
#[tactic(auto, using(crate::proofs::NotedWord::no_store_below, crate::proofs::NotedWord::a_store_below))]
pub fn is_store(w: u32) -> bool
    ensures { result ≡ is_store w }
{
    word::SEQ <= w && w < word::MATCH
}

// The stack's height after a word of this row.
pub fn moved(height: usize, row: meaning::Row) -> usize
    requires { (row.takes ≤ height) × (height < 2 ^ 63) }
    ensures { result ≡ height - row.takes + row.leaves }
{
    height - row.takes as usize + row.leaves as usize
}

// The stack's height after the word, which finds what it takes. Each kind moves it by a constant's row, since a row that is handed on as a value
// takes half as long again, at every word of a listing.
#[tactic(auto, using(crate::proofs::Laws::kinds))]
fn height_with(height: usize, w: u32) -> usize
    requires { (OperandFound height w) × (height < 2 ^ 63) }
    ensures { result ≡ height_of height w }
{
    if w < word::ANY {
        return moved(height, row(operation::ATOM));
    }
    if w < word::AND {
        return moved(height, row(operation::ANY));
    }
    if w < word::SEQ {
        return moved(height, row(operation::AND));
    }
    moved(height, row(operation::SEQ))
}

// One more than the argument of a word of this operation, else 0.
#[tactic(auto, unfolding(words::specs::Choice::pick))]
fn reach(o: u32, w: u32) -> usize
    requires { o ≤ 14 }
    ensures { result ≡ reach_of o w }
{
    if w / operation::UNIT == o {
        return (w % operation::UNIT) as usize + 1;
    }
    0
}

// The tally with all that the word adds to it.
#[tactic(auto, unfolding(crate::specs::Step::tallied, words::specs::Choice::pick))]
fn tallied(s: Tally, w: u32) -> Tally
    requires { (OperandFound s.height w) × Small s }
    ensures { result ≡ tallied_of s w }
{
    let height = height_with(s.height, w);
    Tally {
        stores: s.stores + usize::from(is_store(w)),
        height,
        deepest: s.deepest.max(height),
        atoms: s.atoms.max(reach(operation::ATOM, w)),
        named: s.named.max(reach(operation::REGISTER, w)),
    }
}

// An atom or a register, whose number is below 65,536, and a register's below the count too.
#[tactic(auto, using(crate::proofs::NotedWord::noted_words))]
fn note_name(count: usize, s: Tally, w: u32) -> Option<Tally>
    requires { (w < word 3 0) × Small s }
    ensures { result ≡ noted count s w }
{
    if w < word::ATOM {
        return None;
    }
    if 65536 <= w % operation::UNIT {
        return None;
    }
    if w < word::REGISTER {
        return Some(tallied(s, w));
    }
    if count <= (w % operation::UNIT) as usize {
        return None;
    }
    Some(tallied(s, w))
}

// Operations 3 to 8, which have no argument and find what they take.
#[tactic(auto, using(crate::proofs::NotedWord::noted_words))]
fn note_plain(count: usize, s: Tally, w: u32) -> Option<Tally>
    requires { (word 3 0 ≤ w) × (w < word 9 0) × Small s }
    ensures { result ≡ noted count s w }
{
    if w % operation::UNIT != 0 {
        return None;
    }
    let row = row_of_word(w);
    if s.height < row.takes as usize {
        return None;
    }
    Some(tallied(s, w))
}

// Operations from 9 on: a store of the next register, at height 1. The match fits only as the last word.
#[tactic(auto, using(crate::proofs::NotedWord::noted_words))]
fn note_store(count: usize, s: Tally, w: u32) -> Option<Tally>
    requires { (word 9 0 ≤ w) × Small s }
    ensures { result ≡ noted count s w }
{
    if word::MATCH <= w {
        return None;
    }
    if s.height != 1 {
        return None;
    }
    let a = (w % operation::UNIT) as usize;
    if a != s.stores {
        return None;
    }
    if 65536 <= a {
        return None;
    }
    Some(tallied(s, w))
}

// One step of the check: a word that is not the last, behind those of the tally, where register numbers are below the count. The kinds are told
// by where their words lie, and each has its own call of `tallied`: so a caller's loop becomes one test for each kind, with nothing counted
// that the kind does not change.
pub fn note(count: usize, s: Tally, w: u32) -> Option<Tally>
    requires { Small s }
    ensures { result ≡ noted count s w }
{
    if w < word::ZERO {
        return note_name(count, s, w);
    }
    if w < word::SEQ {
        return note_plain(count, s, w);
    }
    note_store(count, s, w)
}

// Whether the word may be the last: the match with no argument, and one value on the stack.
#[tactic(auto, unfolding(crate::specs::Step::ended, words::specs::Choice::pick))]
pub fn ended(s: Tally, w: u32) -> bool
    ensures { result ≡ ended_of s w }
{
    w == word::MATCH && s.height == 1
}

// The registers of a slice: its stores, wherever they stand.
#[tactic(auto, using(crate::proofs::Laws::all_are_counted))]
fn registers(listing: &[u32]) -> usize
    ensures { result ≡ registers_of listing.now }
{
    let mut stores = 0;
    for &w in listing {
        stores += usize::from(is_store(w));
    }
    stores
}

// Refusal 21: the first faulty word, or the word count where the listing ends early. The stores of the whole slice are
// counted first, since they decide which registers may be named.
#[tactic(auto, using(crate::proofs::OnePass::passes))]
pub fn checked(listing: &[u32]) -> Result<(), Fault>
    ensures { result ≡ check listing.now }
{
    let count = registers(listing);
    let mut s = NOTHING;
    for (at, &w) in listing.iter().enumerate() {
        if ended(s, w) {
            let next = at + 1;
            if next < listing.len() {
                return Err(Fault { place: next });
            }
            return Ok(());
        }
        s = note(count, s, w).ok_or(Fault { place: at })?;
    }
    Err(Fault {
        place: listing.len(),
    })
}

// The deepest stack that any expression reaches.
#[tactic(auto, using(crate::proofs::Laws::deepens))]
pub fn deepest(listing: &[u32]) -> usize
    requires { OperandsFound 0 listing.now }
    ensures { result ≡ deepest_of listing.now }
{
    let mut deepest: usize = 0;
    let mut height: usize = 0;
    for &w in listing {
        height = height_with(height, w);
        deepest = deepest.max(height);
    }
    deepest
}
