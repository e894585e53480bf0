// The runs of a delay and of a within, from the tables of their operands: the ends that are reached from one start.
//
// Example: from start 0, with a at tick 0 and b at tick 2, `a ##2 b` reaches the end 3: the right operand may begin at tick 2.
#![tactic(auto)]

ghost use Rattle.std.specs.Prelude.{◌≡◌, ◌≤◌, ◌<◌, length};
ghost use Rattle.runs.specs.Ends.{Gains, In};
ghost use Rattle.runs.specs.Tables.{RunsOf};
ghost use Rattle.joined_runs.specs.Joined.{Ahead, Later, Overlapped, Delayed, Within, Lowest, EndsFrom};

use runs::Table;

// Adds the ends from `low` on, below `high`.
fn fill(row: &mut [u8], low: usize, high: usize)
    requires { high ≤ length row.old }
    ensures { Gains row.old row.new (λ j. (low ≤ j) × (j < high)) }
{
    if low < high {
        row[low..high].fill(1);
    }
}

// Adds where the right operand of a delay of at least one tick may begin, after a run of the left from i on. A delay that leads past the
// last tick leads nowhere, so one of four thousand million ticks costs what a small one does.
fn add_ahead(left: Table, min: u32, max: u32, i: usize, row: &mut [u8])
    requires { (length row.old ≡ left.side) × (i < left.side) }
    ensures { Gains row.old row.new (Ahead (RunsOf left.entry) min max i) }
{
    let ends = left.row(i);
    for k in i..row.len() {
        if ends[k] == 1 {
            let low = k + (min as usize).saturating_sub(1);
            let high = row.len().min(k + max as usize);
            fill(row, low, high);
        }
    }
}

// Adds the ends of a delay of at least one tick, from i on: those that are reached from where the right operand may begin.
fn add_later(left: Table, right: Table, min: u32, max: u32, i: usize, row: &mut [u8])
    requires { (length row.old ≡ left.side) × (length row.old ≡ right.side) × (i < length row.old) × (length row.old ≤ 257) }
    ensures { Gains row.old row.new (Later (RunsOf left.entry) (RunsOf right.entry) min max i) }
{
    let side = row.len();
    let mut starts = [0; runs::SIDE];
    add_ahead(left, min, max, i, &mut starts[..side]);
    runs::reach(right, &starts[..side], i, 0, row);
}

// Adds the ends of ##0 from i on: those that are reached from the last tick of each run of the left that has one, by runs of the right
// that have a tick. The left row is read from its second byte on, so that a run counts at its last tick.
fn add_overlapped(left: Table, right: Table, i: usize, row: &mut [u8])
    requires { (length row.old ≡ left.side) × (length row.old ≡ right.side) × (i < length row.old) }
    ensures { Gains row.old row.new (Overlapped (RunsOf left.entry) (RunsOf right.entry) i) }
{
    runs::reach(right, &left.row(i)[1..], i, 1, row);
}

// Adds the ends of a delay from i on.
pub fn delayed(left: Table, right: Table, min: u32, max: u32, i: usize, row: &mut [u8])
    requires { (length row.old ≡ left.side) × (length row.old ≡ right.side) × (i < length row.old) × (length row.old ≤ 257) }
    ensures { Gains row.old row.new (Delayed (RunsOf left.entry) (RunsOf right.entry) min max i) }
{
    add_later(left, right, min, max, i, row);
    if min == 0 {
        add_overlapped(left, right, i, row);
    }
}

// The lowest end of a row, from `first` on and below `high`; or else `high`.
fn lowest_end(row: &[u8], first: usize, high: usize) -> usize
    requires { high ≤ length row.now }
    ensures { Lowest (λ j. (first ≤ j) × In row.now j) high result }
{
    // A loop, since `find` takes half as long again a byte.
    for j in first..high {
        if row[j] == 1 {
            return j;
        }
    }
    high
}

// The lowest end of a run that begins at i or later; the side of the table where there is none. What begins at the lowest end so far, or
// later, has no lower one.
fn earliest(table: Table, i: usize) -> usize
    ensures { Lowest (EndsFrom (RunsOf table.entry) i) table.entry.side result }
{
    let mut end = table.side;
    for k in i..table.side {
        if end <= k {
            break;
        }
        end = lowest_end(table.row(k), k, end);
    }
    end
}

// Adds the ends of a within from i on: those of the runs of seq2 that a run of seq1 lies in, "An empty run lies inside any".
pub fn inside(one: Table, two: Table, i: usize, row: &mut [u8])
    requires { (length row.old ≡ one.side) × (length row.old ≡ two.side) × (i < length row.old) }
    ensures { Gains row.old row.new (Within (RunsOf one.entry) (RunsOf two.entry) i) }
{
    let end = earliest(one, i);
    runs::add_ends(two.row(i), end, row);
}
