// The runs of a repetition, from the table of its operand: the ends that are reached from one start, copy by copy.
//
// More copies than a recording has ticks change nothing: one of them is empty, and can be left out or put in again. So the lowest count is
// capped there, and a highest one that is not lower is as good as none: from the ends of the lowest all others are then reached in one
// pass. A count of four thousand million costs no more than one of as many copies as there are ticks.
//
// Example: from start 0, with a at the ticks 0 and 1, `a[*1:$]` reaches 1 by one copy, and from there 2.
#![tactic(auto)]

ghost use Rattle.std.specs.Prelude.{◌≡◌, ◌+◌, ◌*◌, ◌≤◌, ◌<◌, length};
ghost use Rattle.runs.specs.Ends.{Gains, In, Reached};
ghost use Rattle.runs.specs.Tables.{RunsOf};
ghost use Rattle.repeated_runs.specs.Repeated.{Repeated, Carries, Last, Onward};

use runs::Table;

// The last count to which copies are made one by one: the lowest one, where the highest is not below the side, and else the highest.
fn last(low: usize, max: u32, side: usize) -> usize
    ensures { Last result low max side }
{
    let max = max as usize;
    if side <= max { low } else { max }
}

// The ends of one copy more, from those of the copies before.
fn once_more(table: Table, first: usize, from: &[u8]) -> [u8; runs::SIDE]
    requires { (length from.now ≡ table.side) × (length from.now ≤ 257) }
    ensures { Carries result (length from.now) (Reached (RunsOf table.entry) from.now first 0) }
{
    let mut to = [0; runs::SIDE];
    runs::reach(table, from, first, 0, &mut to[..from.len()]);
    to
}

// Adds the ends of so many copies, if that is not below the lowest count.
fn add_counted(copies: usize, low: usize, ends: &[u8], i: usize, row: &mut [u8])
    requires { length row.old ≤ length ends.now }
    ensures { Gains row.old row.new (λ j. (low ≤ copies) × (i ≤ j) × In ends.now j) }
{
    if low <= copies {
        runs::add_ends(ends, i, row);
    }
}

// Adds the ends that the table reaches, by one run or more, from the row's own, those from `first` on. Runs go forward, so one pass is
// enough: nothing is added behind it.
fn close(table: Table, first: usize, row: &mut [u8])
    requires { length row.old ≡ table.side }
    ensures { Gains row.old row.new (Onward (RunsOf table.entry) row.old first) }
{
    for k in first..row.len() {
        if row[k] == 1 {
            runs::add_ends(table.row(k), k, row);
        }
    }
}

// Adds the ends of a repetition from i on. Where one copy more reaches the same ends, so does every later one. Where the highest count
// is as good as none, the ends of the lowest are closed.
pub fn repeated(table: Table, min: u32, max: u32, i: usize, row: &mut [u8])
    requires { (length row.old ≡ table.side) × (i < length row.old) × (length row.old ≤ 257) × (min ≤ max) }
    ensures { Gains row.old row.new (Repeated (RunsOf table.entry) min max i) }
{
    let side = row.len();
    let low = (min as usize).min(side);
    let high = last(low, max, side);
    let mut ends = [0; runs::SIDE];
    ends[i] = 1;
    for copies in 0..high {
        add_counted(copies, low, &ends, i, row);
        let next = once_more(table, i, &ends[..side]);
        if ends[..side] == next[..side] {
            break;
        }
        ends = next;
    }
    if side <= max as usize {
        close(table, i, &mut ends[..side]);
    }
    runs::add_ends(&ends, i, row);
}
