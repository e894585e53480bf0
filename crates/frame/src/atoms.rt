// What the assertions watch: the atoms of a tick, a byte each, 0 or 1. They are asked of the sensor and of what leaves; no map
// plays a part.
//
// Example: at tick 352 with the map transposed, row 0, column 350 leaves as it came: KEPT and WRONG are 1.
ghost use Rattle.std.specs.Prelude.{◌≡◌, ◌<◌};
ghost use Rattle.frame.specs.Atoms.{bit_of, coming_atoms, wrong_at, going_atoms, atoms_at};

// The pixel that comes in is hot.
pub const HOT_IN: u32 = 0;

// The sensor is not defective at the pixel that comes in; it is.
pub const GOOD_IN: u32 = 1;

pub const BAD_IN: u32 = 2;

// A row begins at the tick; none does.
pub const ROW_START: u32 = 3;

pub const IN_ROW: u32 = 4;

// The pixel that leaves was replaced; it is as it came.
pub const REPLACED: u32 = 5;

pub const KEPT: u32 = 6;

// The pixel that leaves has another value than its row and the one above give.
pub const WRONG: u32 = 7;

// A fact as an atom.
#[tactic(auto, unfolding(crate::specs::Atoms::bit_of, words::specs::Choice::pick))]
fn bit(fact: bool) -> u8
    ensures { result ≡ bit_of fact }
{
    u8::from(fact)
}

// The atoms of the pixel that comes in; none does after the frame.
fn coming(tick: u32, pixel: u8) -> [u8; 3]
    ensures { result ≡ coming_atoms tick pixel }
{
    if sensor::FRAME <= tick {
        return [0, 0, 0];
    }
    let defective = sensor::defective(correction::row_of(tick), correction::column_of(tick));
    [bit(sensor::hot(pixel)), bit(!defective), bit(defective)]
}

// Whether a value is not the one that is to leave of the pixel that came in at the tick.
fn wrong(tick: u32, value: u8) -> u8
    requires { tick < 360960 }
    ensures { result ≡ wrong_at tick value }
{
    bit(value != sensor::expected(correction::row_of(tick), correction::column_of(tick)))
}

// The atoms of the pixel that leaves two ticks after it came in: replaced, kept, wrong.
fn going(tick: u32, leaving: correction::Leaving) -> [u8; 3]
    requires { tick < 360962 }
    ensures { result ≡ going_atoms tick leaving }
{
    if tick < correction::DELAY {
        return [0, 0, 0];
    }
    let came_in = tick - correction::DELAY;
    match leaving {
        correction::Leaving::Nothing => [0, 0, 0],
        correction::Leaving::Kept(value) => [0, 1, wrong(came_in, value)],
        correction::Leaving::Replaced(value) => [1, 0, wrong(came_in, value)],
    }
}

// The atoms of a tick, by their numbers.
pub fn at(tick: u32, pixel: u8, leaving: correction::Leaving) -> [u8; 8]
    requires { tick < 360962 }
    ensures { result ≡ atoms_at tick pixel leaving }
{
    let i = coming(tick, pixel);
    let o = going(tick, leaving);
    let start = correction::column_of(tick) == 0;
    [i[0], i[1], i[2], bit(start), bit(!start), o[0], o[1], o[2]]
}
