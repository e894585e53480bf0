// The sensor of a synthetic guide camera of 752 columns by 480 rows, and the maps of its defects. What it sees and where it is
// defective are functions of the row and the column alone, so that the assertions can ask the sensor itself, and no map.
//
// Example: row 240, column 100 is ordinary and reads 20 + 60 + 12; a defective pixel reads 255.
#![tactic(auto)]

ghost use Rattle.std.specs.Prelude.{◌≡◌, ◌<◌, ◌≤◌, length};
ghost use Rattle.words.specs.Written.{Wrote};
ghost use Rattle.sensor.specs.Sensor.{sky_at, single_at, cluster_at, defective_at, reads_at, is_hot, expected_at};
ghost use Rattle.sensor.specs.Maps.{has_entry, entry_for, row_entries, entries_of, as_fit};

use correction::COLUMNS;

// The rows of a frame.
pub const ROWS: u32 = 480;

// The ticks of a frame, one pixel each.
pub const FRAME: u32 = ROWS * COLUMNS;

// A pixel above this is hot; the sky is below it.
const HOT: u8 = 240;

// The defect whose entry is lost.
const LOST_ROW: u32 = 62;

const LOST_COLUMN: u32 = 121;

// How a map came to be loaded.
#[derive(Clone, Copy)]
pub enum Loaded {
    AsMade,
    Transposed,
    OneLost,
}

// The sky: brighter downwards, and half as fast to the right, so that it differs from its transpose.
fn sky(row: u32, column: u32) -> u8
    requires { (row < 480) × (column < 752) }
    ensures { result ≡ sky_at row column }
{
    (20 + row / 4 + column / 8) as u8
}

// Single defects, spread over the whole frame, its edges too.
fn single(row: u32, column: u32) -> bool
    requires { (row < 480) × (column < 752) }
    ensures { result ≡ single_at row column }
{
    (row * 29 + row / 16 * 101 + column * 307 + column / 32 * 31) % 937 == 5
}

// Sixteen neighbours, four by four.
#[tactic(auto, using(words::specs::Choice::tests), unfolding(crate::specs::Sensor::cluster_at))]
fn cluster(row: u32, column: u32) -> bool
    ensures { result ≡ cluster_at row column }
{
    60 <= row && row <= 63 && 120 <= column && column <= 123
}

// Whether the sensor is defective there. Nothing outside the frame is.
#[tactic(auto, using(words::specs::Choice::tests), unfolding(crate::specs::Sensor::defective_at))]
pub fn defective(row: u32, column: u32) -> bool
    ensures { result ≡ defective_at row column }
{
    row < ROWS && column < COLUMNS && (cluster(row, column) || single(row, column))
}

// What the sensor reads.
#[tactic(auto, using(words::specs::Choice::tests), unfolding(crate::specs::Sensor::reads_at))]
pub fn read(row: u32, column: u32) -> u8
    requires { (row < 480) × (column < 752) }
    ensures { result ≡ reads_at row column }
{
    if defective(row, column) {
        return 255;
    }
    sky(row, column)
}

// Whether a pixel is too bright to be sky.
pub fn hot(pixel: u8) -> bool
    ensures { result ≡ is_hot pixel }
{
    HOT < pixel
}

// What is to leave, from the sensor alone: the sky; in a defect the mean of what is to leave on its left in the row and above
// it, at the frame's edge the one of the two that is there, and in the first corner 0.
pub fn expected(row: u32, column: u32) -> u8
    requires { (row < 480) × (column < 752) }
    ensures { result ≡ expected_at row column }
{
    if !defective(row, column) {
        return sky(row, column);
    }
    if column == 0 {
        if row == 0 {
            return 0;
        }
        return expected(row - 1, column);
    }
    if row == 0 {
        return expected(row, column - 1);
    }
    correction::mean(expected(row, column - 1), expected(row - 1, column))
}

// Whether a map that was loaded so has an entry for the row and the column.
#[tactic(auto, using(words::specs::Choice::tests), unfolding(crate::specs::Maps::has_entry))]
fn has(loaded: Loaded, row: u32, column: u32) -> bool
    ensures { result ≡ has_entry loaded row column }
{
    match loaded {
        Loaded::AsMade => defective(row, column),
        Loaded::Transposed => defective(column, row),
        Loaded::OneLost => (row != LOST_ROW || column != LOST_COLUMN) && defective(row, column),
    }
}

// Puts the pixel's entry at the place, if the map has one and there is room; the next place.
fn add(loaded: Loaded, map: &mut [u32], place: usize, row: u32, column: u32) -> usize
    requires { (place ≤ length map.old) × (row < 65536) × (column < 65536) }
    ensures { Wrote map.old map.new place result (as_fit map.old place (entry_for loaded row column)) }
{
    if has(loaded, row, column) && place < map.len() {
        return words::put(map, place, correction::entry_of(row, column));
    }
    place
}

// Puts the entries of a row from the place on, as far as there is room; the next place.
fn add_row(loaded: Loaded, map: &mut [u32], place: usize, row: u32) -> usize
    requires { (place ≤ length map.old) × (row < 65536) }
    ensures { Wrote map.old map.new place result (as_fit map.old place (row_entries loaded row 752 0)) }
{
    let mut next = place;
    for column in 0..COLUMNS {
        next = add(loaded, map, next, row, column);
    }
    next
}

// The whole map, as far as there is room; how many entries it has. Transposed, its rows go as far as the sensor's columns.
pub fn load(loaded: Loaded, map: &mut [u32]) -> usize
    ensures wrote { Wrote map.old map.new 0 result (as_fit map.old 0 (entries_of loaded)) }
    ensures inside { result ≤ length map.new }
{
    let mut place = 0;
    for row in 0..COLUMNS {
        place = add_row(loaded, map, place, row);
    }
    place
}
