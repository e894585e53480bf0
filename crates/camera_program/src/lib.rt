// A guide camera whose bad pixels are replaced, watched by lowered assertions: the frame is read with the map as made, with
// rows and columns transposed, and with one entry lost, and each assertion says where it raised its first alarm. As with the
// listing program, a library has the whole of it, with the status with which it ends.
//
// Where the output fails, nothing more is said, and no frame is watched for it.
#![tactic(auto)]

ghost use Rattle.std.specs.Prelude.{◌≡◌, ◌⊎◌};
ghost use Rattle.correction.specs.Map.{Reached};

use sensor::Loaded;
use std::env::Env;
use std::io::Error;

// A number in decimal.
fn say_decimal(rt: &impl Print, number: u64) -> Result<(), Error> {
    let mut digits = [0u8; 20];
    let count = io::decimal(number, &mut digits);
    tool::write(rt, &digits[..count])
}

// A text, and a number behind it.
fn say_number(rt: &impl Print, text: &[u8], number: u32) -> Result<(), Error> {
    tool::write(rt, text)?;
    say_decimal(rt, number as u64)
}

// Which map it is.
fn say_map(rt: &impl Print, loaded: Loaded) -> Result<(), Error> {
    match loaded {
        Loaded::AsMade => tool::write(rt, b"map as made: "),
        Loaded::Transposed => tool::write(rt, b"rows and columns transposed: "),
        Loaded::OneLost => tool::write(rt, b"one entry lost: "),
    }
}

// An alarm at a tick is of the pixel that came in two ticks before.
fn say_alarm(rt: &impl Print, tick: u32) -> Result<(), Error> {
    say_number(rt, b" first at tick ", tick)?;
    if tick < correction::DELAY {
        return Ok(());
    }
    let came = tick - correction::DELAY;
    say_number(rt, b", row ", correction::row_of(came))?;
    say_number(rt, b", column ", correction::column_of(came))
}

// What an assertion said, without its map.
fn say_verdict(rt: &impl Print, number: u32, verdict: frame::Verdict) -> Result<(), Error> {
    match verdict {
        frame::Verdict::Quiet => {
            say_number(rt, b"no alarm ", number)?;
            say_number(rt, b" in ", frame::TICKS)?;
            tool::write(rt, b" ticks")
        }
        frame::Verdict::Alarm(tick) => {
            say_number(rt, b"alarm ", number)?;
            say_alarm(rt, tick)
        }
        frame::Verdict::Refused => say_number(rt, b"refused assertion ", number),
    }
}

// One line: what an assertion said of a map.
fn report(
    rt: &impl Print,
    loaded: Loaded,
    number: u32,
    verdict: frame::Verdict,
) -> Result<(), Error> {
    say_map(rt, loaded)?;
    say_verdict(rt, number, verdict)?;
    tool::write(rt, b"\n")
}

// Every assertion over a frame with the map.
fn judge(rt: &impl Print, loaded: Loaded, map: &[u32]) -> Result<(), Error>
    requires { Reached map.now 0 0 }
{
    for number in 1..=frame::ASSERTIONS {
        report(rt, loaded, number, frame::watched(map, number))?;
    }
    Ok(())
}

// Every assertion with a map that is in order.
#[tactic(auto, using(correction::proofs::MapLaws::nothing_reached))]
fn judge_ordered(rt: &impl Print, loaded: Loaded, map: &[u32]) -> Result<(), Error> {
    if !correction::in_order(map) {
        return tool::write(rt, b" entries, not in order\n");
    }
    tool::write(rt, b" entries\n")?;
    judge(rt, loaded, map)
}

// A map, loaded and looked at before it is used.
fn inspect(rt: &impl Print, loaded: Loaded) -> Result<(), Error> {
    let mut room = [0u32; 512];
    let count = sensor::load(loaded, &mut room);
    say_map(rt, loaded)?;
    say_decimal(rt, count as u64)?;
    judge_ordered(rt, loaded, &room[..count])
}

// The three maps, one after the other.
fn inspect_each(rt: &impl Print) -> Result<(), Error> {
    inspect(rt, Loaded::AsMade)?;
    inspect(rt, Loaded::Transposed)?;
    inspect(rt, Loaded::OneLost)
}

// All that there is to say of the three maps, and the status.
#[tactic(auto, using(tool::proofs::Laws::ends_so))]
fn watch(rt: &(impl Print + Eprint)) -> u32
    ensures { (result ≡ 0) ⊎ (result ≡ 2) }
{
    tool::ended(rt, inspect_each(rt), b"camera: standard output", 0)
}

// What it does and how it ends, for one who asks.
fn help(rt: &(impl Print + Eprint)) -> u32
    ensures { (result ≡ 0) ⊎ (result ≡ 2) }
{
    tool::put_out(
        rt,
        b"usage: camera [--help]\n\nReads a frame of a guide camera with three maps of its bad pixels, and says of four assertions where each raised its\nfirst alarm.\n\nstatus 0: all is printed; 2: the output failed, or the command line is unknown\n",
        b"camera: standard output",
        0,
    )
}

// The whole program, by what its command line asks for; its status.
pub fn camera_main(rt: &(impl Env + Print + Eprint)) -> u32
    ensures { (result ≡ 0) ⊎ (result ≡ 2) }
{
    let asked = tool::asked(rt);
    match asked {
        tool::Request::Work => watch(rt),
        tool::Request::Help => help(rt),
        tool::Request::Unknown => tool::put_usage(rt, b"usage: camera [--help]\n"),
    }
}
