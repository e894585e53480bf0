// Looks up the registers of some listings, and one more that each does not have, and prints the words found in hexadecimal:
// two digits of operation, six of argument. What is expected stands in the file `stdout`.
//
// Example: for `a ##1 b` it prints `0 = 01000000 05000000 09000000`, the words a0 any seq0, and `1 =`, since there is no
// register 1.
#![tactic(auto)]

// `a ##1 b`: a0 any seq0 r0 a1 any and match.
const DELAY: [u32; 8] = [
    0x0100_0000,
    0x0500_0000,
    0x0900_0000,
    0x0200_0000,
    0x0100_0001,
    0x0500_0000,
    0x0700_0000,
    0x0e00_0000,
];

// `a within (b ##1 c)`: a1 any seq0 a0 any seq1 r0 a2 any and a0 any r1 or and match.
const WITHIN: [u32; 16] = [
    0x0100_0001,
    0x0500_0000,
    0x0900_0000,
    0x0100_0000,
    0x0500_0000,
    0x0900_0001,
    0x0200_0000,
    0x0100_0002,
    0x0500_0000,
    0x0700_0000,
    0x0100_0000,
    0x0500_0000,
    0x0200_0001,
    0x0800_0000,
    0x0700_0000,
    0x0e00_0000,
];

// A register of each tag: zero seq0 r1 a0 any or arm1 one gto2 r0 not ncx3 r4 r0 and crl4 zero match.
const TAGS: [u32; 18] = [
    0x0300_0000,
    0x0900_0000,
    0x0200_0001,
    0x0100_0000,
    0x0500_0000,
    0x0800_0000,
    0x0a00_0001,
    0x0400_0000,
    0x0b00_0002,
    0x0200_0000,
    0x0600_0000,
    0x0c00_0003,
    0x0200_0004,
    0x0200_0000,
    0x0700_0000,
    0x0d00_0004,
    0x0300_0000,
    0x0e00_0000,
];

// `a`: a0 match.
const ALONE: [u32; 2] = [0x0100_0000, 0x0e00_0000];

// Faulty, since the match is missing: a0 any seq0.
const ENDS_EARLY: [u32; 3] = [0x0100_0000, 0x0500_0000, 0x0900_0000];

// Faulty, since a word follows the match: zero seq0 r0 match one.
const WORD_AFTER: [u32; 5] = [
    0x0300_0000,
    0x0900_0000,
    0x0200_0000,
    0x0e00_0000,
    0x0400_0000,
];

// Faulty, since the first store is not 0: zero seq1 zero seq0 r0 match.
const OUT_OF_ORDER: [u32; 6] = [
    0x0300_0000,
    0x0900_0001,
    0x0300_0000,
    0x0900_0000,
    0x0200_0000,
    0x0e00_0000,
];

fn show_word(word: u32) {
    io::write_all(1, b" ");
    io::print_hex(1, u64::from(word), 8);
}

// One line: the register and the words that drive it.
fn show(listing: &[u32], register: u32) {
    let part = stretch::stretch(listing, register);
    io::print_decimal(1, u64::from(register));
    io::write_all(1, b" =");
    for &word in part {
        show_word(word);
    }
    io::write_all(1, b"\n");
}

// A title, and a line for each register below the count.
fn show_all(title: &[u8], listing: &[u32], count: u32) {
    io::write_all(1, title);
    for register in 0..count {
        show(listing, register);
    }
}

fn main() {
    show_all(b"a ##1 b\n", &DELAY, 2);
    show_all(b"a within (b ##1 c)\n", &WITHIN, 3);
    show_all(b"one register of each tag\n", &TAGS, 6);
    show_all(b"a\n", &ALONE, 1);
    show_all(b"no match\n", &ENDS_EARLY, 1);
    show_all(b"a word after the match\n", &WORD_AFTER, 1);
    show_all(b"stores out of order\n", &OUT_OF_ORDER, 2);
    show_all(b"no words\n", &ALONE[..0], 1);
}
