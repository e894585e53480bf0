// Recordings, read as text and matched: every kind of node, empty runs on both sides of every hop, throughout and within inside other
// nodes, every refusal from both sides of its limit, and of every two which comes first. A new case takes two lines and no proof.
//
// The file `stdin` has a case's name, and below it decimal numbers with blanks between them: the width of a row, the bytes of answers and
// of work that are lent, at most 512 and 262,144, and the tree's words, five a node; then a bar, and behind it the rows, a digit a byte,
// at most 1,024. Empty lines and lines that begin with # are skipped. The file `stdout` has the name, and `ok` with the ticks and below it
// the answers, a digit a tick, or `refused` with number and place. The answers there were worked out from SPECIFICATION, "What a match is", as sets
// of runs. What is lent is filled before, and a line more says what is not as promised afterwards.
//
// Example: `a ##1 b` and below it `2 2 27  1 0 0 0 0  1 1 0 0 0  2 0 1 1 1 | 10 01` print the name, `ok 2` and `01`, a line each.
#![tactic(auto)]

ghost use Rattle.std.specs.Prelude.{◌≤◌, length};

use meaning::Refusal;

// What lent bytes are filled with: neither 0 nor 1.
const FILLED: u8 = 0x5a;

// Puts the values of a text's digits from the front of `bytes` on, as many as there is room for; how many these are.
fn digits(text: &[u8], bytes: &mut [u8]) -> usize
    ensures { result ≤ length bytes.new }
{
    let mut count = 0;
    for byte in text {
        if byte.is_ascii_digit() && count < bytes.len() {
            bytes[count] = *byte - b'0';
            count += 1;
        }
    }
    count
}

// Says so where it is not as promised: that work is all zero, and the answers past the ticks are as they were.
fn inspect(ticks: usize, answers: &[u8], work: &[u8])
    requires { ticks ≤ length answers.now }
{
    if work.iter().any(|byte| *byte != 0) {
        io::write_all(1, b"work left filled\n");
    }
    if answers[ticks..].iter().any(|byte| *byte != FILLED) {
        io::write_all(1, b"later answers changed\n");
    }
}

// A number, and what stands behind it.
fn say(number: u64, end: &[u8]) {
    io::print_decimal(1, number);
    io::write_all(1, end);
}

// The answers, which are one digit each if they are as promised, and the line's end.
fn say_answers(answers: &[u8]) {
    for answer in answers {
        io::print_decimal(1, u64::from(*answer));
    }
    io::write_all(1, b"\n");
}

// The text of what was answered, once what was lent has been looked at.
fn show(answer: Result<usize, Refusal>, answers: &[u8], work: &[u8]) {
    match answer {
        Ok(ticks) if ticks <= answers.len() => {
            inspect(ticks, answers, work);
            io::write_all(1, b"ok ");
            say(ticks as u64, b"\n");
            say_answers(&answers[..ticks]);
        }
        Ok(_) => {
            io::write_all(1, b"more ticks than answers\n");
        }
        Err(refusal) => {
            inspect(0, answers, work);
            io::write_all(1, b"refused ");
            say(u64::from(refusal.number()), b" ");
            say(u64::from(refusal.place()), b"\n");
        }
    }
}

// A case matched, and its answer shown.
fn matched(tree: &[u32], rows: &[u8], width: u32, answers: &mut [u8], work: &mut [u8]) {
    let answer = matches::matches(tree, rows, width as usize, answers, work);
    show(answer, answers, work);
}

// A case's numbers and rows, with the answers and the work that it asks for, as far as there are. The numbers have room for 65 nodes, one
// more than a tree may have.
fn replay_case(line: &[u8], rows: &mut [u8], answers: &mut [u8], work: &mut [u8]) {
    let mut numbers = [0u32; 328];
    let bar = cases::until(line, 0, b'|');
    let count = cases::numbers(&line[..bar], &mut numbers);
    let rows_end = digits(&line[bar..], rows);
    let [width, answers_asked, work_asked, tree @ ..] = &numbers[..count] else {
        io::write_all(1, b"no tree\n");
        return;
    };
    let answers_end = cases::lesser(*answers_asked, answers.len());
    let work_end = cases::lesser(*work_asked, work.len());
    matched(
        tree,
        &rows[..rows_end],
        *width,
        &mut answers[..answers_end],
        &mut work[..work_end],
    );
}

// A case, with work for 64 nodes over 63 ticks, or for three over 256.
fn replay_filled(line: &[u8]) {
    let mut rows = [0u8; 1024];
    let mut answers = [FILLED; 512];
    let mut work = [FILLED; 262144];
    replay_case(line, &mut rows, &mut answers, &mut work);
}

fn main() {
    let mut input = [0u8; 262144];
    let count = io::read_full(0, &mut input);
    replay::each_case(&input[..count], replay_filled);
}
