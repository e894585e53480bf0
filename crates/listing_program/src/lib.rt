// The listing program, whole: a tree's words, little-endian, from standard input; the text of what they lower to, or of the refusal, to
// standard output; and the status with which it ends. `sva_list` is the program: its `main` hands the number to the system.
//
// Example: of the 60 bytes of `a ##1 b` it prints "ok 1 8 2", "seq 0 = a0 any" and "match = r0 a1 any and", a line each; its status is 0.
#![tactic(auto)]

ghost use Rattle.std.specs.Prelude.{◌≡◌, ◌⊎◌, ◌≤◌};
ghost use Rattle.listing_program.specs.Status.{status_of};

use meaning::{Listing, Refusal};
use std::env::Env;

// The status of an answer: 0 of a listing, 1 of a refusal.
#[tactic(auto, unfolding(crate::specs::Status::status_of))]
pub fn status_of(answer: Result<Listing, Refusal>) -> u32
    ensures { result ≡ status_of answer }
{
    match answer {
        Ok(_) => 0,
        Err(_) => 1,
    }
}

// The text of the tree whose words the bytes hold.
fn print(rt: &(impl Print + Eprint), input: &[u8]) -> u32
    ensures { result ≤ 2 }
{
    let mut page = [0u8; 524416];
    let shown = lowered_text::print_input(input, &mut page);
    tool::put_out(
        rt,
        &page[..shown.end],
        b"sva_list: standard output",
        status_of(shown.answer),
    )
}

// The text of the tree on standard input. One byte more than a tree may have is read, so that a longer input is seen to be longer.
fn list(rt: &(impl Input + Print + Eprint)) -> u32
    ensures { result ≤ 2 }
{
    let mut input = [0u8; 40961];
    match tool::read(rt, &mut input) {
        Ok(length) => print(rt, &input[..length]),
        Err(why) => {
            tool::tell(rt, b"sva_list: standard input", why);
            tool::FAILED
        }
    }
}

// What it does and how it ends, for one who asks.
fn help(rt: &(impl Print + Eprint)) -> u32
    ensures { (result ≡ 0) ⊎ (result ≡ 2) }
{
    tool::put_out(
        rt,
        b"usage: sva_list [--help] < TREE\n\nPrints the registers and the match that a tree of SVA sequences lowers to. TREE is words of four bytes, the lowest first,\nfive words a node: kind, p, q, min, max.\n\nstatus 0: a listing; 1: a refusal; 2: the input or the output failed, or the command line is unknown\n",
        b"sva_list: standard output",
        0,
    )
}

// The whole program, by what its command line asks for; its status.
pub fn sva_list_main(rt: &(impl Env + Input + Print + Eprint)) -> u32
    ensures { result ≤ 2 }
{
    match tool::asked(rt) {
        tool::Request::Work => list(rt),
        tool::Request::Help => help(rt),
        tool::Request::Unknown => tool::put_usage(rt, b"usage: sva_list [--help] < TREE\n"),
    }
}
