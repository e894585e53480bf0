// A frame that is read, corrected and watched, tick by tick, by assertions that are lowered and ticked.
//
// Example: with an entry of the map lost, `watched` answers an alarm of assertion 1 two ticks after that pixel came in.
#![tactic(auto)]

mod assertions;
mod atoms;

ghost use Rattle.std.specs.Prelude.{◌≡◌, length};
ghost use Rattle.correction.specs.Map.{Reached};
ghost use Rattle.frame.specs.Watched.{pixel_of, verdict_on, verdict_of};
ghost use Rattle.frame.specs.Advanced.{Advanced};

// A frame, and the ticks until its last pixel has left.
pub const TICKS: u32 = sensor::FRAME + correction::DELAY;

// How many assertions there are; their numbers begin at 1.
pub const ASSERTIONS: u32 = 4;

// What an assertion said of a frame: nothing, its first alarm's tick, or that a tick refused.
#[derive(Clone, Copy)]
pub enum Verdict {
    Quiet,
    Alarm(u32),
    Refused,
}

// What the sensor reads at a tick; 0 after the frame.
fn coming_in(tick: u32) -> u8
    ensures { result ≡ pixel_of tick }
{
    if sensor::FRAME <= tick {
        return 0;
    }
    sensor::read(correction::row_of(tick), correction::column_of(tick))
}

// One tick of a listing; its registers are then in `cur`.
fn advance(
    listing: &[u32],
    cur: &mut [u8],
    atoms: &[u8; 8],
    next: &mut [u8],
    stack: &mut [u8],
) -> Result<u8, meaning::TickRefusal>
    requires { length cur.old ≡ length next.old }
    ensures { Advanced listing.now cur.old cur.new atoms.now next.old next.new stack.old stack.new result }
{
    let ticked = tick::tick(listing, cur, atoms, next, stack);
    cur.copy_from_slice(next);
    ticked
}

// A listing over a whole frame with the map, from registers at zero.
fn watch(map: &[u32], listing: &[u32]) -> Verdict
    requires { Reached map.now 0 0 }
    ensures { result ≡ verdict_on map.now listing.now }
{
    let mut rows = [0u8; 1504];
    let mut cur = [0u8; 64];
    let mut next = [0u8; 64];
    let mut stack = [0u8; 64];
    let mut reached = 0;
    for tick in 0..TICKS {
        let pixel = coming_in(tick);
        let given = correction::step(map, &mut rows, tick, reached, pixel);
        let atoms = atoms::at(tick, pixel, given.leaving);
        let Ok(bit) = advance(listing, &mut cur, &atoms, &mut next, &mut stack) else {
            return Verdict::Refused;
        };
        if bit == 1 {
            return Verdict::Alarm(tick);
        }
        reached = given.reached;
    }
    Verdict::Quiet
}

// What the assertion of that number says of a frame with the map.
pub fn watched(map: &[u32], number: u32) -> Verdict
    requires { Reached map.now 0 0 }
    ensures { result ≡ verdict_of map.now number }
{
    let mut work = [0u32; 1024];
    let mut out = [0u32; 256];
    let words = assertions::listing(number, &mut work, &mut out);
    watch(map, &out[..words])
}
