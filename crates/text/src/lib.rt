// The text of an answer, written into a lent page of bytes, or that the page has no room for it.
//
// Example: for `a ##1 b` it is "ok 1 8 2", "seq 0 = a0 any" and "match = r0 a1 any and", a line each.
#![tactic(auto)]

ghost use Rattle.std.specs.Prelude.{◌≡◌, [], ◌∷◌, ◌+◌, ◌*◌, ◌/◌, ◌≤◌, length, nat_le};
ghost use Rattle.std.specs.List.{position};
ghost use Rattle.words.specs.Written.{Wrote};
ghost use Rattle.text.specs.Text.{digits, decimal, decimal_then, token_text, tag_text, line_start_text, tokens_text, line_text};
ghost use Rattle.text.specs.Text.{lines_text, first_line_text, words_listed, answer_text};
ghost use Rattle.text.specs.Page.{has_room, Prints};

use meaning::{Listing, Refusal, operation};

// The number in decimal, of at most so many digits: those in front first, then the last.
#[tactic(auto, using(crate::proofs::Laws::parts))]
fn number(n: u64, most: u32, out: &mut [u8], at: usize) -> usize
    requires { at + most ≤ length out.old }
    ensures { Wrote out.old out.new at result (digits most n) }
{
    if most == 0 {
        at
    } else if n < 10 {
        words::put(out, at, b'0' + n as u8)
    } else {
        let next = number(n / 10, most - 1, out, at);
        words::put(out, next, b'0' + (n % 10) as u8)
    }
}

// A number and a byte behind it: a space or the line's end.
#[tactic(auto, using(crate::proofs::Laws::parts))]
fn number_then(n: u64, end: u8, out: &mut [u8], at: usize) -> usize
    requires { at + 21 ≤ length out.old }
    ensures { Wrote out.old out.new at result (decimal_then end n) }
{
    let next = number(n, 20, out, at);
    words::put(out, next, end)
}

// A byte and a number behind it: an atom, a register, or a store's register.
#[tactic(auto, using(crate::proofs::Laws::parts))]
fn then_number(byte: u8, n: u32, out: &mut [u8], at: usize) -> usize
    requires { at + 21 ≤ length out.old }
    ensures { Wrote out.old out.new at result (byte ∷ decimal n) }
{
    let next = words::put(out, at, byte);
    number(u64::from(n), 20, out, next)
}

// The token of a word that is no store.
#[tactic(auto, using(crate::proofs::Laws::parts), unfolding(crate::specs::Text::token_text))]
fn token(w: u32, out: &mut [u8], at: usize) -> usize
    requires { at + 21 ≤ length out.old }
    ensures { Wrote out.old out.new at result (token_text w) }
{
    match w / operation::UNIT {
        operation::ATOM => then_number(b'a', w % operation::UNIT, out, at),
        operation::REGISTER => then_number(b'r', w % operation::UNIT, out, at),
        operation::ZERO => words::copied(b"0", out, at),
        operation::ONE => words::copied(b"1", out, at),
        operation::ANY => words::copied(b"any", out, at),
        operation::NOT => words::copied(b"not", out, at),
        operation::AND => words::copied(b"and", out, at),
        _ => words::copied(b"or", out, at),
    }
}

// The tag of a store's operation.
#[tactic(auto, using(words::specs::Choice::tests), unfolding(crate::specs::Text::tag_text))]
fn tag(o: u32) -> &'static [u8; 3]
    ensures { result.now ≡ tag_text o }
{
    match o {
        operation::SEQ => b"seq",
        operation::ARM => b"arm",
        operation::GTO => b"gto",
        operation::NCX => b"ncx",
        _ => b"crl",
    }
}

// What stands before the tokens of a line.
#[tactic(auto, using(crate::proofs::Laws::parts), unfolding(crate::specs::Text::line_start_text))]
fn line_start(w: u32, out: &mut [u8], at: usize) -> usize
    requires { at + 26 ≤ length out.old }
    ensures { Wrote out.old out.new at result (line_start_text w) }
{
    match w / operation::UNIT {
        operation::MATCH => words::copied(b"match =", out, at),
        store => {
            let tagged = words::copied(tag(store), out, at);
            let numbered = then_number(b' ', w % operation::UNIT, out, tagged);
            words::copied(b" =", out, numbered)
        }
    }
}

// The tokens of an expression, a space before each.
#[tactic(auto, using(crate::proofs::Laws::parts))]
fn tokens(expression: &[u32], out: &mut [u8], at: usize) -> usize
    requires { at + 22 * length expression.now ≤ length out.old }
    ensures { Wrote out.old out.new at result (tokens_text expression.now) }
{
    let mut next = at;
    for w in expression {
        let spaced = words::put(out, next, b' ');
        next = token(*w, out, spaced);
    }
    next
}

// The line of an expression and the word that ends it.
#[tactic(auto, using(crate::proofs::Laws::parts), unfolding(crate::specs::Text::line_text))]
fn line(expression: &[u32], store: u32, out: &mut [u8], at: usize) -> usize
    requires { at + 22 * length expression.now + 27 ≤ length out.old }
    ensures { Wrote out.old out.new at result (line_text expression.now store) }
{
    let started = line_start(store, out, at);
    let listed = tokens(expression, out, started);
    words::put(out, listed, b'\n')
}

// Where the first store or match stands.
fn expression_end(listing: &[u32]) -> Option<usize>
    ensures { result ≡ position (λ w. nat_le 9 (w / 16777216)) listing.now }
{
    listing
        .iter()
        .position(|w| operation::SEQ <= *w / operation::UNIT)
}

// A line for each store, and for the match.
fn lines(listing: &[u32], out: &mut [u8], at: usize) -> usize
    requires { at + 27 * length listing.now ≤ length out.old }
    ensures { Wrote out.old out.new at result (lines_text [] listing.now) }
{
    let mut next = at;
    let mut rest = listing;
    while let Some(end) = expression_end(rest) {
        next = line(&rest[..end], rest[end], out, next);
        rest = &rest[end + 1..];
    }
    next
}

// The counts, or the refusal.
#[tactic(auto, using(crate::proofs::Laws::parts), unfolding(crate::specs::Text::first_line_text))]
fn first_line(answer: Result<Listing, Refusal>, out: &mut [u8]) -> usize
    requires { 66 ≤ length out.old }
    ensures { Wrote out.old out.new 0 result (first_line_text answer) }
{
    match answer {
        Ok(listing) => {
            let ok = words::copied(b"ok ", out, 0);
            let counted = number_then(listing.registers as u64, b' ', out, ok);
            let measured = number_then(listing.words as u64, b' ', out, counted);
            number_then(listing.deepest as u64, b'\n', out, measured)
        }
        Err(refusal) => {
            let refused = words::copied(b"refused ", out, 0);
            let numbered = number_then(u64::from(refusal.number()), b' ', out, refused);
            number_then(u64::from(refusal.place()), b'\n', out, numbered)
        }
    }
}

// The whole text of an answer, from the front of `out` on; how many bytes it has. The listing stands in front of `listing`.
#[tactic(auto, using(crate::proofs::ListingLines::whole), unfolding(crate::specs::Text::words_listed, crate::specs::Text::answer_text))]
fn whole_text(answer: Result<Listing, Refusal>, listing: &[u32], out: &mut [u8]) -> usize
    requires { (words_listed answer ≤ length listing.now) × (128 + 32 * words_listed answer ≤ length out.old) }
    ensures { Wrote out.old out.new 0 result (answer_text answer listing.now) }
{
    let next = first_line(answer, out);
    match answer {
        Ok(listed) => lines(&listing[..listed.words], out, next),
        Err(_) => next,
    }
}

// How many words of the output are the listing.
#[tactic(auto, unfolding(crate::specs::Text::words_listed))]
pub fn words_listed(answer: Result<Listing, Refusal>) -> usize
    ensures { result ≡ words_listed answer }
{
    answer.map_or(0, |listing| listing.words)
}

// Whether so many words stand in a listing of such a length, and a page of such a length has room for their text.
#[tactic(auto, using(crate::proofs::Laws::choices), unfolding(crate::specs::Page::has_room))]
fn has_room(words: usize, listed: usize, page: usize) -> bool
    ensures { result ≡ has_room words listed page }
{
    words <= listed && 128 <= page && words <= (page - 128) / 32
}

// The text of an answer, whose listing stands in front of `listing`, from the front of `page` on: how many bytes it has, or nothing, for want
// of room.
#[tactic(auto, using(crate::proofs::Laws::choices), unfolding(crate::specs::Page::has_room, crate::specs::Page::room_for, crate::specs::Page::printed, crate::specs::Page::page_after))]
pub fn text(answer: Result<Listing, Refusal>, listing: &[u32], page: &mut [u8]) -> Option<usize>
    ensures { Prints answer listing.now page.old result page.new }
{
    let words = words_listed(answer);
    if has_room(words, listing.len(), page.len()) {
        Some(whole_text(answer, listing, page))
    } else {
        None
    }
}
