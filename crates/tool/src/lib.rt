// What makes a program a tool: what its command line asks for, its input read whole or a failure told, its output counted as written
// once every byte is out, and the status with which it ends.
//
// Example: of `sva_list --help` the command line has two words, the second of which is "--help"; that is Request::Help.
#![tactic(auto)]

ghost use Rattle.std.specs.Prelude.{◌≡◌, ◌⊎◌, is_ok, length};
ghost use Rattle.tool.specs.Request.{asked_by, status_after};
ghost use Rattle.tool.specs.Moved.{Within};

use std::env::{Env, FillError};
use std::io::{Error, ErrorKind, Read};
use std::{fmt, io};

// What a command line asks for.
#[derive(Clone, Copy)]
pub enum Request {
    Work,
    Help,
    Unknown,
}

// The status where the input or the output failed, or the command line is unknown.
pub const FAILED: u32 = 2;

// How often a call is made again that a signal interrupts.
const PATIENCE: u32 = 1000000;

// Bytes shown as text, and U+FFFD in the place of those that are none.
#[derive(Drop)]
struct Shown<'a>(&'a [u8]);

impl fmt::Display for Shown<'_> {
    fn fmt<W: fmt::Write>(&self, f: &mut fmt::Formatter<W>) -> fmt::Result {
        for chunk in self.0.utf8_chunks() {
            f.write_str(chunk.valid())?;
            if !chunk.invalid().is_empty() {
                f.write_str("\u{FFFD}")?;
            }
        }
        Ok(())
    }
}

// What a command line of so many words asks for, the program's name among them, of which `first` is the one behind the name.
#[tactic(auto, using(crate::proofs::Laws::asking), unfolding(crate::specs::Request::asked_by))]
pub fn asked_by(words: usize, first: &[u8]) -> Request
    ensures { result ≡ asked_by words first.now }
{
    match words {
        0 | 1 => Request::Work,
        2 if first == b"--help".as_slice() => Request::Help,
        _ => Request::Unknown,
    }
}

// Whether the program's own command line has a word at the place.
fn has_word(env: &impl Env, place: usize) -> bool {
    let mut first = [0u8; 1];
    !matches!(env.arg(place, &mut first), Err(FillError::NotPresent))
}

// How many words the program's own command line has, or 3 where it has more.
fn word_count(env: &impl Env) -> usize {
    for place in 0..3 {
        if !has_word(env, place) {
            return place;
        }
    }
    3
}

// What the program's own command line asks for. A word that is longer than "--help" is taken for an empty one.
pub fn asked(env: &impl Env) -> Request {
    let mut first = [0u8; 6];
    let length = env.arg(1, &mut first).unwrap_or(0);
    asked_by(word_count(env), &first[..length])
}

// Makes a call of the system, and makes it again while a signal interrupts it before it moves a byte.
fn patiently<F: FnMut() -> io::Result<usize>>(mut call: F) -> io::Result<usize>
    requires { F.IsAlwaysCallable call }
{
    for _ in 1..PATIENCE {
        match call() {
            Err(why) if why.kind() == ErrorKind::Interrupted => {}
            got => return got,
        }
    }
    call()
}

// Some bytes of the input, at the front of `part`; none at its end.
fn read_some<R: Read>(input: &mut R, part: &mut [u8]) -> io::Result<usize>
    ensures { Within result (length part.new) }
{
    let most = part.len();
    let count = patiently(|| input.read(part))?;
    Ok(count.min(most))
}

// Standard input up to its end, or as much of it as `room` holds, at the front of `room`.
pub fn read(rt: &impl Input, room: &mut [u8]) -> io::Result<usize>
    ensures { Within result (length room.new) }
{
    let mut input = rt.reader();
    let mut done = 0;
    while done < room.len() {
        let count = read_some(&mut input, &mut room[done..])?;
        if count == 0 {
            break;
        }
        done += count;
    }
    Ok(done)
}

// Some bytes from the front of `part` on, to standard output.
fn write_some(rt: &impl Print, part: &[u8]) -> io::Result<usize>
    ensures { Within result (length part.now) }
{
    let count = patiently(|| rt.write_some(part))?;
    Ok(count.min(part.len()))
}

// All of the text to standard output: `Ok` once every byte is out. Where it fails, the bytes before the failure are out.
pub fn write(rt: &impl Print, text: &[u8]) -> io::Result<()> {
    let mut done = 0;
    while done < text.len() {
        match write_some(rt, &text[done..])? {
            0 => return Err(Error::from(ErrorKind::WriteZero)),
            count => done += count,
        }
    }
    Ok(())
}

// The status with which a program ends: its own where its output is out.
#[tactic(auto, using(words::specs::Choice::tests), unfolding(crate::specs::Request::status_after))]
pub fn status_after(written: bool, status: u32) -> u32
    ensures { result ≡ status_after written status }
{
    if written { status } else { FAILED }
}

// A line on standard error: what failed, and why.
pub fn tell(rt: &impl Eprint, what: &[u8], why: Error) {
    let what = Shown(what);
    let _ = eprintln!(rt; "{what}: {why}");
}

// The status with which a program ends, by what its output came to; a line on standard error, which `output` begins, where it failed.
pub fn ended(rt: &impl Eprint, written: io::Result<()>, output: &[u8], status: u32) -> u32
    ensures { result ≡ status_after (is_ok written) status }
{
    if let Err(why) = written {
        tell(rt, output, why);
    }
    status_after(written.is_ok(), status)
}

// The text to standard output, and the status; a line on standard error, which `output` begins, where it fails.
#[tactic(auto, using(crate::proofs::Laws::ends_so))]
pub fn put_out(rt: &(impl Print + Eprint), text: &[u8], output: &[u8], status: u32) -> u32
    ensures { (result ≡ status) ⊎ (result ≡ 2) }
{
    ended(rt, write(rt, text), output, status)
}

// How the program is started, on standard error, for a command line that is unknown.
pub fn put_usage(rt: &impl Eprint, usage: &[u8]) -> u32
    ensures { result ≡ 2 }
{
    let usage = Shown(usage);
    let _ = eprint!(rt; "{usage}");
    FAILED
}
