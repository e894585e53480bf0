// A tree's words, or the bytes that hold them, to the text of what they lower to, with 16,384 words each of work and output.
//
// Example: of `a ##1 b` the page holds "ok 1 8 2", "seq 0 = a0 any" and "match = r0 a1 any and", a line each; of three bytes
// it holds "refused 1 0".
#![tactic(auto)]

ghost use Rattle.std.specs.Prelude.{◌≤◌, Err, length};
ghost use Rattle.meaning.specs.Lower.{lower};
ghost use Rattle.meaning.specs.declared.refusal.Refusal.TheVariants.{Malformed};
ghost use Rattle.text.specs.Text.{words_listed, answer_text};
ghost use Rattle.lowered_text.specs.Page.{page_text, input_answer, input_text, Shows};

use meaning::{Listing, Refusal};

// An answer whose text stands in front of a page, and how many bytes the text has.
#[derive(Clone, Copy)]
pub struct Shown {
    pub answer: Result<Listing, Refusal>,
    pub end: usize,
}

// The text of an answer that has room, whose listing stands in front of `listing`.
#[tactic(auto, using(crate::proofs::Laws::showing), unfolding(text::specs::Page::printed, text::specs::Page::page_after, text::specs::Page::room_for, text::specs::Page::has_room))]
fn show(answer: Result<Listing, Refusal>, listing: &[u32], page: &mut [u8; 524416]) -> Shown
    requires { (words_listed answer ≤ length listing.now) × (words_listed answer ≤ 16384) }
    ensures shows { Shows answer (answer_text answer listing.now) page.old result page.new }
    ensures inside { result.end ≤ length page.new }
{
    let end = text::text(answer, listing, page).unwrap();
    Shown { answer, end }
}

// What a tree lowers to, and its text, from the front of `page` on.
pub fn print(tree: &[u32], page: &mut [u8; 524416]) -> Shown
    ensures shows { Shows (lower tree.now 16384 16384 0) (page_text tree.now) page.old result page.new }
    ensures inside { result.end ≤ length page.new }
{
    let mut work = [0u32; 16384];
    let mut out = [0u32; 16384];
    let answer = lower::lower(tree, &mut work, &mut out);
    show(answer, &out, page)
}

// The same of the tree whose words the bytes hold. More than 40,960 bytes, or a piece of a word, are no tree.
#[tactic(auto, using(crate::proofs::Laws::no_tree), unfolding(text::specs::Text::words_listed, crate::specs::Page::input_answer, crate::specs::Page::input_text, crate::specs::Page::of_input))]
pub fn print_input(input: &[u8], page: &mut [u8; 524416]) -> Shown
    ensures shows { Shows (input_answer input.now) (input_text input.now) page.old result page.new }
    ensures inside { result.end ≤ length page.new }
{
    if 40960 < input.len() || input.len() % 4 != 0 {
        return show(Err(Refusal::Malformed(0)), &[], page);
    }
    let mut tree = [0u32; 10240];
    let count = little_endian::read(input, &mut tree);
    print(&tree[..count], page)
}
