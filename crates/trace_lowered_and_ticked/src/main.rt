// The trace row of SPECIFICATION, "Cases": `a ##1 b[->2]` with a at tick 0 and b at 1, 3 and 4 matches at 3 only. The tree is lowered, and the words that
// were written are ticked from registers at zero; a line for each tick has what the atoms were and the answer.
//
// Example: `tick 3: a 0, b 1, match 1`.
#![tactic(auto)]

use meaning::TickRefusal;

// Node 0 is a, 1 is b, 2 is node 1 [->2], and 3 is node 0 ##1 node 2.
const TREE: [u32; 20] = [1, 0, 0, 0, 0, 1, 1, 0, 0, 0, 4, 1, 0, 2, 2, 2, 0, 2, 1, 1];

// A word of the line and a number behind it.
fn say_number(word: &[u8], n: u64) {
    io::write_all(1, word);
    io::print_decimal(1, n);
}

fn say_answer(answer: Result<u8, TickRefusal>) {
    match answer {
        Ok(bit) => say_number(b", match ", u64::from(bit)),
        Err(refusal) => {
            say_number(b", refused ", u64::from(refusal.number()));
            say_number(b" ", refusal.place() as u64);
        }
    }
}

// One tick with the two atoms, from the registers before it; the registers after it.
fn ticked(listing: &[u32], cur: [u8; 3], tick: u64, a: u8, b: u8) -> [u8; 3] {
    let mut next = [0u8; 3];
    let mut stack = [0u8; 3];
    let atoms = [a, b];
    say_number(b"tick ", tick);
    say_number(b": a ", u64::from(a));
    say_number(b", b ", u64::from(b));
    say_answer(tick::tick(listing, &cur, &atoms, &mut next, &mut stack));
    io::write_all(1, b"\n");
    next
}

// a at tick 0, b at 1, 3 and 4.
fn trace(listing: &[u32]) {
    say_number(b"a ##1 b[->2], words ", listing.len() as u64);
    io::write_all(1, b"\n");
    let at_1 = ticked(listing, [0, 0, 0], 0, 1, 0);
    let at_2 = ticked(listing, at_1, 1, 0, 1);
    let at_3 = ticked(listing, at_2, 2, 0, 0);
    let at_4 = ticked(listing, at_3, 3, 0, 1);
    ticked(listing, at_4, 4, 0, 1);
}

// The lowering of the tree, as a part of the output. A refused tree would have no words, which no tick takes.
fn lowered<'a>(work: &mut [u32], out: &'a mut [u32]) -> &'a [u32] {
    match lower::lower(&TREE, work, out) {
        Ok(listing) => out.get(..listing.words).unwrap_or(&[]),
        Err(_) => &[],
    }
}

fn main() {
    let mut work = [0u32; 64];
    let mut out = [0u32; 64];
    trace(lowered(&mut work, &mut out));
}
