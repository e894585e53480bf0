// Runs listings, good and faulty, and writes what the check and the tick answer and what the lent slices hold afterwards;
// the file `stdout` has what the specification says to each. A line for each case: `next` holds 7s and the stack 9s before the tick, so that a
// refusal shows 7s and 9s, and a tick shows the registers' new values with 7s past them, and a stack of zeros.
//
// Example: `r0 match seq0: faulty 2, refused 21 2, next 777, stack 99`.
#![tactic(auto)]

use meaning::{Fault, TickRefusal, word};

// The listing's tokens as words.
const A0: u32 = word::ATOM;

const A1: u32 = word::ATOM + 1;

const R0: u32 = word::REGISTER;

const R1: u32 = word::REGISTER + 1;

const R2: u32 = word::REGISTER + 2;

const R3: u32 = word::REGISTER + 3;

const R4: u32 = word::REGISTER + 4;

const ZERO: u32 = word::ZERO;

const ONE: u32 = word::ONE;

const ANY: u32 = word::ANY;

const NOT: u32 = word::NOT;

const AND: u32 = word::AND;

const OR: u32 = word::OR;

const SEQ0: u32 = word::SEQ;

const SEQ1: u32 = word::SEQ + 1;

const ARM1: u32 = word::ARM + 1;

const GTO2: u32 = word::GTO + 2;

const NCX3: u32 = word::NCX + 3;

const CRL4: u32 = word::CRL + 4;

const MATCH: u32 = word::MATCH;

fn say_byte(byte: u8) {
    io::print_decimal(1, u64::from(byte));
}

fn say_bytes(bytes: &[u8]) {
    for &byte in bytes {
        say_byte(byte);
    }
}

// A word of the line and a number behind it.
fn say_number(word: &[u8], n: u64) {
    io::write_all(1, word);
    io::print_decimal(1, n);
}

fn say_checked(checked: Result<(), Fault>) {
    match checked {
        Ok(()) => {
            io::write_all(1, b": described");
        }
        Err(fault) => say_number(b": faulty ", fault.place as u64),
    }
}

fn say_ticked(ticked: Result<u8, TickRefusal>) {
    match ticked {
        Ok(bit) => say_number(b", match ", u64::from(bit)),
        Err(refusal) => {
            say_number(b", refused ", u64::from(refusal.number()));
            say_number(b" ", refusal.place() as u64);
        }
    }
}

// One case, on one line.
fn case(name: &[u8], words: &[u32], cur: &[u8], atoms: &[u8], next: &mut [u8], stack: &mut [u8]) {
    io::write_all(1, name);
    say_checked(listing::checked(words));
    say_ticked(tick::tick(words, cur, atoms, next, stack));
    io::write_all(1, b", next ");
    say_bytes(next);
    io::write_all(1, b", stack ");
    say_bytes(stack);
    io::write_all(1, b"\n");
}

// Listings as described. A store reads the registers before the tick.
fn described() {
    case(
        b"1 not not match",
        &[ONE, NOT, NOT, MATCH],
        &[],
        &[],
        &mut [7, 7],
        &mut [9, 9],
    );
    lent_well(b"0 match", &[ZERO, MATCH]);
    lent_well(b"a ##1 b", &[A0, ANY, SEQ0, R0, A1, ANY, AND, MATCH]);
    lent_well(b"two registers swapped", &[R1, SEQ0, R0, SEQ1, R0, MATCH]);
    case(
        b"every operation",
        &[
            A0, ANY, SEQ0, A1, NOT, ARM1, R0, R1, AND, GTO2, R2, R3, OR, NCX3, ZERO, ONE, OR, CRL4,
            R4, R0, AND, MATCH,
        ],
        &[1, 0, 1, 0, 1],
        &[1, 1],
        &mut [7, 7, 7, 7, 7, 7],
        &mut [9, 9, 9],
    );
}

// What is not named, or lies past the registers, may be any byte.
fn any_byte() {
    case(
        b"a byte 2 as atom 1, not named",
        &[A0, MATCH],
        &[],
        &[1, 2],
        &mut [],
        &mut [9],
    );
    case(
        b"a byte 2 past the registers",
        &[A0, SEQ0, R0, MATCH],
        &[1, 2],
        &[0],
        &mut [7, 7],
        &mut [9],
    );
    lent_well(b"atom 65535, not lent", &[A0 + 65535, MATCH]);
}

// A listing on slices that suit any of the listings below.
fn lent_well(name: &[u8], words: &[u32]) {
    case(name, words, &[0, 1], &[1, 0], &mut [7, 7, 7], &mut [9, 9]);
}

// 21: the listing's end, and its operations.
fn unknown_operations() {
    lent_well(b"no word", &[]);
    lent_well(b"no match", &[A0, ANY, SEQ0, R0, A1, ANY, AND]);
    lent_well(b"operation 0", &[A0, 5, MATCH]);
    lent_well(b"operation 15", &[A0, 251658240, MATCH]);
    lent_well(b"operation 255", &[4294967295, MATCH]);
}

// 21: arguments.
fn unfit_arguments() {
    lent_well(b"atom 65536", &[A0 + 65536, MATCH]);
    lent_well(b"zero with an argument", &[ZERO + 1, MATCH]);
    lent_well(b"any with an argument", &[A0, ANY + 1, MATCH]);
    lent_well(b"match with an argument", &[A0, MATCH + 1]);
}

// 21: registers and stores; all stores count, so that a register may be named before its own.
fn unfit_registers() {
    lent_well(b"r0 with no store", &[R0, MATCH]);
    lent_well(b"r1 with one store", &[A0, SEQ0, R1, MATCH]);
    lent_well(b"r1 before its store", &[R1, SEQ0, A0, SEQ1, R0, MATCH]);
    lent_well(b"stores out of order", &[A0, SEQ1, A0, SEQ0, R0, MATCH]);
    lent_well(b"a store twice", &[A0, SEQ0, A0, SEQ0, R0, MATCH]);
}

// 21: operands.
fn unbalanced() {
    lent_well(b"not of nothing", &[NOT, MATCH]);
    lent_well(b"and of one", &[A0, AND, MATCH]);
    lent_well(b"a store of nothing", &[SEQ0, A0, MATCH]);
    lent_well(b"a match of nothing", &[MATCH]);
    lent_well(b"left over at a store", &[A0, A1, SEQ0, R0, MATCH]);
    lent_well(b"left over at the match", &[A0, A1, MATCH]);
}

// 21: what follows the match; and the first of two faults.
fn not_the_end() {
    lent_well(b"r0 match seq0", &[R0, MATCH, SEQ0]);
    lent_well(b"a word after the match", &[A0, MATCH, A0]);
    lent_well(b"a match after the match", &[A0, MATCH, MATCH]);
    lent_well(b"two faults", &[A0, AND, 5, MATCH]);
}

// 22, on `a ##1 b`: one register, two atoms, two places of the stack.
fn too_short() {
    let words = [A0, ANY, SEQ0, R0, A1, ANY, AND, MATCH];
    case(
        b"now too short",
        &words,
        &[],
        &[0, 1],
        &mut [7],
        &mut [9, 9],
    );
    case(
        b"next too short",
        &words,
        &[1],
        &[0, 1],
        &mut [],
        &mut [9, 9],
    );
    case(
        b"atoms too short",
        &words,
        &[1],
        &[0],
        &mut [7],
        &mut [9, 9],
    );
    case(
        b"stack too short",
        &words,
        &[1],
        &[0, 1],
        &mut [7],
        &mut [9],
    );
}

// 23, on the same; and that 21 comes before 22 and 23, and 22 before 23.
fn above_one() {
    let words = [A0, ANY, SEQ0, R0, A1, ANY, AND, MATCH];
    case(
        b"register 0 a byte 2",
        &words,
        &[2],
        &[0, 1],
        &mut [7],
        &mut [9, 9],
    );
    case(
        b"atom 1 a byte 2",
        &words,
        &[1],
        &[0, 2],
        &mut [7],
        &mut [9, 9],
    );
    case(
        b"a byte 2, and no stack",
        &words,
        &[2],
        &[2, 2],
        &mut [7],
        &mut [],
    );
    case(
        b"nothing lent, and no match",
        &[A0, A1, AND],
        &[],
        &[],
        &mut [],
        &mut [],
    );
    case(
        b"a byte 2, and no match",
        &[A0, A1, AND],
        &[2],
        &[2, 2],
        &mut [7],
        &mut [9, 9],
    );
}

fn main() {
    described();
    any_byte();
    unknown_operations();
    unfit_arguments();
    unfit_registers();
    unbalanced();
    not_the_end();
    too_short();
    above_one();
}
