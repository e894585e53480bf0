// The correction of a camera's bad pixels, one pixel a tick. A frame of 752 columns comes in row by row; the pixel that comes in
// at a tick leaves two ticks later, and leaves replaced if the map names it.
//
// The map has one word a pixel, its row times 65,536 plus its column, in the order in which the pixels come in. So the lookup
// looks at one entry a tick: the first that was not reached yet.
//
// Example: with the one entry 65538 the pixel of row 1, column 2 comes in at tick 754 and leaves at tick 756 as the mean of
// row 1, column 1 and row 0, column 2.
#![tactic(auto)]

ghost use Rattle.std.specs.Prelude.{◌≡◌, ◌+◌, ◌-◌, ◌*◌, ◌/◌, ◌<◌, length};
ghost use Rattle.correction.specs.Map.{entry_of, tick_of, ordered, Reached, LookedUp};
ghost use Rattle.correction.specs.Rows.{row_of, column_of, place_of, pixel_at, replacement_by, Left, Stepped};

// The columns of a row, and so the ticks that a row takes.
pub const COLUMNS: u32 = 752;

// The ticks that a pixel stays: one for its lookup, one for its replacement.
pub const DELAY: u32 = 2;

// The bytes that keep two rows: the even one, then the odd one.
const TWO_ROWS: u32 = 1504;

// What a tick lets out: nothing yet, a pixel as it came in, or its replacement.
#[derive(Clone, Copy)]
pub enum Leaving {
    Nothing,
    Kept(u8),
    Replaced(u8),
}

// What a tick gives, and how many entries of the map were reached after it.
#[derive(Clone, Copy)]
pub struct Output {
    pub leaving: Leaving,
    pub reached: usize,
}

// The word that names a pixel.
pub fn entry_of(row: u32, column: u32) -> u32
    requires { (row < 65536) × (column < 65536) }
    ensures { result ≡ entry_of row column }
{
    row * 65536 + column
}

// The row of the pixel that comes in at a tick.
pub fn row_of(tick: u32) -> u32
    ensures { result ≡ row_of tick }
{
    tick / COLUMNS
}

// The column of the pixel that comes in at a tick.
pub fn column_of(tick: u32) -> u32
    ensures { result ≡ column_of tick }
{
    tick % COLUMNS
}

// The tick at which the pixel of an entry comes in.
fn tick_of(entry: u32) -> u32
    ensures { (result ≡ tick_of entry) × (result < 65536 * 753) }
{
    entry / 65536 * COLUMNS + entry % 65536
}

// Whether every entry has a column of the frame and comes in later than the one before it.
pub fn in_order(map: &[u32]) -> bool
    ensures { result ≡ ordered 0 map.now }
{
    let mut from = 0;
    for &entry in map {
        if COLUMNS <= entry % 65536 {
            return false;
        }
        let tick = tick_of(entry);
        if tick < from {
            return false;
        }
        from = tick + 1;
    }
    true
}

// How many entries are reached with the pixel of a row and a column, where the map names it: the entry that was not reached yet is its word, or
// none is.
fn lookup(map: &[u32], reached: usize, row: u32, column: u32) -> Option<usize>
    requires { (row < 65536) × (column < 752) × (Reached map.now reached (row * 752 + column)) }
    ensures { LookedUp map.now reached row column result }
{
    if reached < map.len() && map[reached] == entry_of(row, column) {
        return Some(reached + 1);
    }
    None
}

// Where the pixel of a tick stands in the two rows.
fn place(tick: u32) -> usize
    ensures { result ≡ place_of tick }
{
    (tick % TWO_ROWS) as usize
}

// The mean of two pixels, rounded down.
pub fn mean(x: u8, y: u8) -> u8
    ensures { result ≡ (x + y) / 2 }
{
    ((u32::from(x) + u32::from(y)) / 2) as u8
}

// What the rows hold for the pixel of a tick.
fn kept(rows: &[u8], tick: u32) -> u8
    requires { length rows.now ≡ 1504 }
    ensures { result ≡ pixel_at rows.now tick }
{
    rows[place(tick)]
}

// What replaces the pixel of a tick: the mean of its neighbour in the row and of the pixel above it, as they left; at the
// frame's edge the one of the two that is there; in the first corner 0.
#[tactic(auto, using(words::specs::Choice::tests, crate::proofs::RowLaws::mean_of), unfolding(crate::specs::Rows::replacement_by))]
fn replacement(rows: &[u8], tick: u32, row: u32, column: u32) -> u8
    requires { (length rows.now ≡ 1504) × (row ≡ row_of tick) × (column ≡ column_of tick) }
    ensures { result ≡ replacement_by rows.now tick row column }
{
    if column == 0 {
        if row == 0 {
            return 0;
        }
        return kept(rows, tick - COLUMNS);
    }
    if row == 0 {
        return kept(rows, tick - 1);
    }
    mean(kept(rows, tick - 1), kept(rows, tick - COLUMNS))
}

// Lets out the pixel that came in at the tick: looked up by its row and column, and kept in the rows as it leaves.
fn leave(map: &[u32], rows: &mut [u8], tick: u32, reached: usize) -> Output
    requires { (length rows.old ≡ 1504) × (tick < 65536 * 752) × (Reached map.now reached tick) }
    ensures { Left map.now rows.old rows.new tick result }
{
    let row = row_of(tick);
    let column = column_of(tick);
    let Some(after) = lookup(map, reached, row, column) else {
        return Output {
            leaving: Leaving::Kept(kept(rows, tick)),
            reached,
        };
    };
    let pixel = replacement(rows, tick, row, column);
    rows[place(tick)] = pixel;
    Output {
        leaving: Leaving::Replaced(pixel),
        reached: after,
    }
}

// One tick: a pixel comes in, and the one of two ticks before leaves.
pub fn step(map: &[u32], rows: &mut [u8], tick: u32, reached: usize, pixel: u8) -> Output
    requires { (length rows.old ≡ 1504) × (tick < 65536 * 752) × (Reached map.now reached (tick - 2)) }
    ensures { Stepped map.now rows.old rows.new tick pixel result }
{
    rows[place(tick)] = pixel;
    if tick < DELAY {
        return Output {
            leaving: Leaving::Nothing,
            reached,
        };
    }
    leave(map, rows, tick - DELAY, reached)
}
