// Trees, read as text, lowered and answered as text: the cases of docs/SPECIFICATION.md, every kind of term after every kind of hop, every
// refusal, and some three hundred trees that `recorded` in compare/ writes. A new case takes two lines and no proof.
//
// The file `stdin` has a case's name, and below it decimal numbers with blanks between them: the words of work and of output that are
// lent, at most 1,052,672 and 164,224, and the tree's words, five a node. Empty lines and lines that begin with # are skipped. The
// file `stdout` has the name and the text that the listing program prints. Listings there were made by the original's `synth_seq_match`,
// compiled as it is; the refusals' numbers and places are those of "Refusals" in docs/SPECIFICATION.md. What is lent is filled before, and a
// line more says what is not as promised afterwards.
//
// Example: `a ##1 b` and below it `32 8  1 0 0 0 0  1 1 0 0 0  2 0 1 1 1` print the name, `ok 1 8 2`, `seq 0 = a0 any` and
// `match = r0 a1 any and`, a line each.
#![tactic(auto)]

ghost use Rattle.std.specs.Prelude.{◌≤◌, length};

use meaning::{Listing, Refusal};

// What lent words are filled with: not zero, and no word of a listing.
const FILLED: u32 = 0x5a5a_5a5a;

// Whether the word stands at every place: what differs is gathered, so that the loop has no exit and the compiler takes many words at once.
fn only(word: u32, words: &[u32]) -> bool {
    words
        .iter()
        .fold(0, |differing: u32, held| differing | (*held ^ word))
        == 0
}

// Says what is not as promised: work is all zero, the output past the words written is as it was, and the words written are a listing as
// described.
fn inspect(words: usize, work: &[u32], out: &[u32])
    requires { words ≤ length out.now }
{
    if !only(0, work) {
        io::write_all(1, b"work left filled\n");
    }
    if !only(FILLED, &out[words..]) {
        io::write_all(1, b"output changed\n");
    }
    if words != 0 && listing::checked(&out[..words]).is_err() {
        io::write_all(1, b"listing not as described\n");
    }
}

// A number, and what stands behind it.
fn say(number: usize, end: &[u8]) {
    io::print_decimal(1, number as u64);
    io::write_all(1, end);
}

// The first line of a listing's text.
fn say_counts(listing: Listing) {
    io::write_all(1, b"ok ");
    say(listing.registers, b" ");
    say(listing.words, b" ");
    say(listing.deepest, b"\n");
}

// The answer's text; of a listing that is too long for the page, its first line.
fn show(answer: Result<Listing, Refusal>, out: &[u32]) {
    let mut page = [0u8; 524416];
    match (text::text(answer, out, &mut page), answer) {
        (Some(end), _) => {
            io::write_all(1, &page[..end]);
        }
        (None, Ok(listing)) => say_counts(listing),
        (None, Err(_)) => {}
    }
}

// A tree's answer, shown once what was lent has been looked at.
fn lowered(tree: &[u32], work: &mut [u32], out: &mut [u32]) {
    let answer = lower::lower(tree, work, out);
    let words = text::words_listed(answer);
    if out.len() < words {
        io::write_all(1, b"listing longer than the output\n");
    } else {
        inspect(words, work, out);
        show(answer, out);
    }
}

// A case's numbers, with the work and the output that it asks for, as far as there are. The numbers have room for 4,097 nodes, one more
// than a tree may have.
fn replay_tree(line: &[u8], work: &mut [u32], out: &mut [u32]) {
    let mut numbers = [0u32; 20487];
    let count = cases::numbers(line, &mut numbers);
    let [work_asked, out_asked, tree @ ..] = &numbers[..count] else {
        io::write_all(1, b"no tree\n");
        return;
    };
    let work_end = cases::lesser(*work_asked, work.len());
    let out_end = cases::lesser(*out_asked, out.len());
    lowered(tree, &mut work[..work_end], &mut out[..out_end]);
}

// A case's numbers, with work for more entries than are ever taken, and the output for the longest listing of the cases.
fn replay_filled(line: &[u8]) {
    let mut work = [FILLED; 1052672];
    let mut out = [FILLED; 164224];
    replay_tree(line, &mut work, &mut out);
}

fn main() {
    let mut input = [0u8; 1572864];
    let count = io::read_full(0, &mut input);
    replay::each_case(&input[..count], replay_filled);
}
