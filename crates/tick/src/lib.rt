// One tick of a listing: refusals 21 to 23, then every store's value from the registers and atoms before the tick.
//
// It runs at every tick of a simulation, so a good listing is read twice and no more: once to check it, by the step of `listing`, and to gather
// what it wants of the lent slices, once to evaluate it. Only a listing that the first pass does not let through is checked again, by
// `listing::checked`, which counts the stores first and so knows the place of the first fault.
//
// Example: a0 any seq0 r0 a1 any and match with r0 = 1 and atoms 0, 1 answers bit 1 and leaves 0 in register 0.
#![tactic(auto)]

ghost use Rattle.std.specs.Prelude.{◌≡◌, false, ◌*◌, ◌+◌, ◌-◌, ◌^◌, ◌≤◌, ◌<◌, max, ltb, length, get_or, set};
ghost use Rattle.words.specs.Choice.{pick};
ghost use Rattle.meaning.specs.Check.{check};
ghost use Rattle.meaning.specs.Tick.{all_bits};
ghost use Rattle.meaning.specs.Answers.{described, faulty};
ghost use Rattle.listing.specs.Step.{Undescribed};
ghost use Rattle.tick.specs.Survey.{wanted as wanted_of, lacking, surveyed};
ghost use Rattle.tick.specs.Stack.{Lent, value_of, Applicable, Applied, Ready, Evaluated};
ghost use Rattle.tick.specs.Stepped.{Stepped};

use meaning::{TickRefusal, operation, word};

// What a described listing wants: so many registers and atoms, so deep a stack, and each atom that it names a bit.
#[derive(Clone, Copy)]
struct Wanted {
    registers: usize,
    atoms: usize,
    deepest: usize,
    bits: bool,
}

// Whether the atoms named are bits, this one included; one that is not lent is no byte above 1.
#[tactic(auto, unfolding(words::specs::Choice::pick))]
fn bits_with(bits: bool, atoms: &[u8], a: usize) -> bool
    ensures { result ≡ pick (ltb 1 (get_or atoms.now a 0)) false bits }
{
    atoms.get(a).is_none_or(|byte| *byte <= 1) && bits
}

// The place of the first fault of a listing that has one, by the exact check.
fn fault(listing: &[u32]) -> usize
    requires { Undescribed listing.now }
    ensures { faulty result ≡ check listing.now }
{
    listing::checked(listing).unwrap_err().place
}

// The pass: each word once, and the last apart, so that only that one is compared with the match; nothing where refusal 21 applies. A register
// may be named before its store is seen, so the highest is compared at the end.
fn survey(listing: &[u32], atoms: &[u8]) -> Option<Wanted>
    ensures { result ≡ surveyed listing.now atoms.now }
{
    let (&last, before) = listing.split_last()?;
    let mut s = listing::NOTHING;
    let mut bits = true;
    for &w in before {
        s = listing::note(65536, s, w)?;
        // A word that fits and lies here is an atom: the step's own test, so that the compiled loop makes it once.
        if w < word::REGISTER {
            bits = bits_with(bits, atoms, (w % operation::UNIT) as usize);
        }
    }
    if !listing::ended(s, last) || s.stores < s.named {
        return None;
    }
    Some(Wanted {
        registers: s.stores,
        atoms: s.atoms,
        deepest: s.deepest,
        bits,
    })
}

// Whether each byte is 0 or 1: the highest decides, so that the loop has no exit and the compiler takes many bytes at once.
fn are_bits(bytes: &[u8]) -> bool
    ensures { result ≡ all_bits bytes.now }
{
    bytes.iter().fold(0, |highest: u8, byte| highest.max(*byte)) <= 1
}

// Puts the value of a word of this row where the first that it takes stood; the height after.
fn put(stack: &mut [u8], height: usize, row: meaning::Row, x: u8) -> usize
    requires { (row.takes ≤ height) × (height < 2 ^ 63) × (height - row.takes < length stack.old) }
    ensures { (result ≡ height - row.takes + row.leaves) × (stack.new ≡ set stack.old (height - row.takes) x) }
{
    stack[height - row.takes as usize] = x;
    listing::moved(height, row)
}

// The value that operations 1 to 4 put on the stack.
#[tactic(auto, unfolding(crate::specs::Stack::value_of, words::specs::Choice::pick))]
fn value(w: u32, cur: &[u8], atoms: &[u8]) -> u8
    requires { Lent (length cur.now) (length atoms.now) w }
    ensures { result ≡ value_of cur.now atoms.now w }
{
    let a = (w % operation::UNIT) as usize;
    match w / operation::UNIT {
        operation::ATOM => atoms[a],
        operation::REGISTER => cur[a],
        operation::ZERO => 0,
        _ => 1,
    }
}

// A word of an expression, operations 1 to 8, on the stack, each kind by its row; the height after. A `match` would be compiled into a table of
// jumps, which takes longer at every word.
#[tactic(auto, using(crate::proofs::AppliedWord::applies))]
fn apply(w: u32, cur: &[u8], atoms: &[u8], stack: &mut [u8], height: usize) -> usize
    requires { Applicable (length cur.now) (length atoms.now) stack.old height w }
    ensures { Applied cur.now atoms.now stack.old stack.new height w result }
{
    let o = w / operation::UNIT;
    if o < operation::ANY {
        return put(
            stack,
            height,
            listing::row(operation::ATOM),
            value(w, cur, atoms),
        );
    }
    if o == operation::ANY {
        return listing::moved(height, listing::row(operation::ANY));
    }
    let y = stack[height - 1];
    if o < operation::AND {
        return put(stack, height, listing::row(operation::NOT), 1 - y);
    }
    let x = stack[height - 2];
    if o == operation::AND {
        return put(stack, height, listing::row(operation::AND), x & y);
    }
    put(stack, height, listing::row(operation::OR), x.max(y))
}

// Register r of `next` takes its value; the register after it.
fn store(next: &mut [u8], register: usize, bit: u8) -> usize
    requires { register < length next.old }
    ensures { (result ≡ register + 1) × (next.new ≡ set next.old register bit) }
{
    next[register] = bit;
    register + 1
}

// The second pass: every store's value into `next`, and the match bit. A store and the match stand at height 1, so that
// their value is the stack's first.
fn evaluate(listing: &[u32], cur: &[u8], atoms: &[u8], next: &mut [u8], stack: &mut [u8]) -> u8
    requires { Ready listing.now cur.now atoms.now next.old stack.old }
    ensures { Evaluated listing.now cur.now atoms.now next.old next.new result }
{
    let mut stores = 0;
    let mut height = 0;
    for &w in listing {
        let o = w / operation::UNIT;
        if o < operation::SEQ {
            height = apply(w, cur, atoms, stack, height);
        } else {
            let bit = stack[0];
            if o == operation::MATCH {
                return bit;
            }
            stores = store(next, stores, bit);
            height = listing::moved(height, listing::row(operation::SEQ));
        }
    }
    // Not reached: a described listing has its match.
    0
}

// Refusal 22: whether `cur`, `next`, atoms or stack, of these lengths, is too short.
#[tactic(auto, unfolding(crate::specs::Survey::lacking, words::specs::Choice::pick))]
fn lacks(wanted: Wanted, cur: usize, atoms: usize, next: usize, stack: usize) -> bool
    ensures { result ≡ lacking wanted cur atoms next stack }
{
    cur < wanted.registers
        || next < wanted.registers
        || atoms < wanted.atoms
        || stack < wanted.deepest
}

// A tick of a described listing, whose wants are known: 22, 23, then the evaluation.
fn step(
    listing: &[u32],
    cur: &[u8],
    atoms: &[u8],
    next: &mut [u8],
    stack: &mut [u8],
    wanted: Wanted,
) -> Result<u8, TickRefusal>
    requires { (check listing.now ≡ described) × (wanted ≡ wanted_of listing.now atoms.now) }
    ensures { Stepped listing.now cur.now atoms.now next.old next.new stack.old stack.new result }
{
    if lacks(wanted, cur.len(), atoms.len(), next.len(), stack.len()) {
        return Err(TickRefusal::LentTooShort);
    }
    if !wanted.bits || !are_bits(&cur[..wanted.registers]) {
        return Err(TickRefusal::NotBits);
    }
    let bit = evaluate(listing, cur, atoms, next, stack);
    stack.fill(0);
    Ok(bit)
}

// One tick of the registers: `cur` before it, `next` after it. The specification's `now` is called `cur` here, since `now` is a word of
// contracts.
pub fn tick(
    listing: &[u32],
    cur: &[u8],
    atoms: &[u8],
    next: &mut [u8],
    stack: &mut [u8],
) -> Result<u8, TickRefusal>
    ensures { Stepped listing.now cur.now atoms.now next.old next.new stack.old stack.new result }
{
    let Some(wanted) = survey(listing, atoms) else {
        return Err(TickRefusal::NotDescribed(fault(listing)));
    };
    step(listing, cur, atoms, next, stack, wanted)
}
