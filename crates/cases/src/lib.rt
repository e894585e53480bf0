// Cases read from text: where a line or a part of it ends, the decimal numbers of a line, and a size that a case asks for.
//
// Example: of the line "12 x7 5" the numbers are 12, 7 and 5; a byte that is no digit is skipped.
#![tactic(auto)]

ghost use Rattle.std.specs.Prelude.{◌≡◌, ◌-◌, ◌≤◌, ◌==◌, min, length, take};
ghost use Rattle.std.specs.List.{position};
ghost use Rattle.words.specs.Written.{Wrote};
ghost use Rattle.cases.specs.Lines.{next_place, with_digit, number_of, numbers_of_word, numbers_of};

// Where the byte first stands.
fn place_of(byte: u8, bytes: &[u8]) -> Option<usize>
    ensures { result ≡ position (λ b. b == byte) bytes.now }
{
    bytes.iter().position(|b| *b == byte)
}

// Where the byte next stands from the place on, or the text's end.
pub fn until(text: &[u8], from: usize, byte: u8) -> usize
    requires { from ≤ length text.now }
    ensures value { result ≡ next_place text.now from byte }
    ensures inside { (from ≤ result) × (result ≤ length text.now) }
{
    match place_of(byte, &text[from..]) {
        Some(passed) => from + passed,
        None => text.len(),
    }
}

// A number with one more digit, at most 4,294,967,295. Any other byte changes nothing.
#[tactic(auto, using(words::specs::Choice::pick_true, words::specs::Choice::pick_false, std::proofs::lemmas::Bool::Decides::nat_tests), unfolding(crate::specs::Lines::with_digit))]
fn with_digit(value: u32, byte: u8) -> u32
    ensures { result ≡ with_digit value byte }
{
    match byte {
        b'0'..=b'9' => value
            .saturating_mul(10)
            .saturating_add(u32::from(byte - b'0')),
        _ => value,
    }
}

// The number that the digits of a word write.
#[tactic(auto, using(crate::proofs::Laws::number_folds))]
fn number(word: &[u8]) -> u32
    ensures { result ≡ number_of word.now }
{
    word.iter().fold(0, |value, byte| with_digit(value, *byte))
}

// Puts the number of a word at the place, if the word has bytes and there is room; the next place.
#[tactic(auto, using(crate::proofs::Laws::adding))]
fn add(word: &[u8], out: &mut [u32], place: usize) -> usize
    requires { place ≤ length out.old }
    ensures { Wrote out.old out.new place result (take (length out.old - place) (numbers_of_word word.now)) }
{
    if word.is_empty() || out.len() <= place {
        place
    } else {
        words::put(out, place, number(word))
    }
}

// Puts the numbers of a line into `out`, from its front on, as many as there is room for; how many these are.
pub fn numbers(line: &[u8], out: &mut [u32]) -> usize
    ensures wrote { Wrote out.old out.new 0 result (take (length out.old) (numbers_of line.now)) }
    ensures inside { result ≤ length out.new }
{
    let mut count = 0;
    let mut from = 0;
    while from < line.len() {
        let end = until(line, from, b' ');
        count = add(&line[from..end], out, count);
        from = end + 1;
    }
    count
}

// The lesser of two: a size that is asked for, and what there is.
pub fn lesser(asked: u32, most: usize) -> usize
    ensures { result ≡ min asked most }
{
    (asked as usize).min(most)
}
