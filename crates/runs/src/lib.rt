// Tables of runs and rows of ends, kept as bytes: what is common to all kinds of sequences.
//
// A table over n ticks has n + 1 rows of n + 1 bytes: byte j of row i is 1 where [i, j) is a run. The ends that are reached from one
// start are carried as one row, so that no second table is needed.
//
// Example: from the ends {1} the table of an atom that holds at tick 1 reaches {2}.
#![tactic(auto)]

mod table;

ghost use Rattle.std.specs.Prelude.{◌+◌, ◌≤◌, ◌≡◌, length};
ghost use Rattle.runs.specs.Ends.{Marked, Gains, In, Reached};
ghost use Rattle.runs.specs.Tables.{RunsOf};

pub use table::Table;

// The longest side of a table: that of a recording of 256 ticks.
pub const SIDE: usize = 257;

// 1 for a 1, and else the other byte. A choice without a branch, so that a whole row is added at a time.
fn marked(byte: u8, other: u8) -> u8
    ensures { Marked other result (byte ≡ 1) }
{
    if byte == 1 { 1 } else { other }
}

// Adds the ends of another row, from `first` on.
pub fn add_ends(from: &[u8], first: usize, to: &mut [u8])
    requires { length to.old ≤ length from.now }
    ensures { Gains to.old to.new (λ j. (first ≤ j) × In from.now j) }
{
    // By index, since a `zip` that skips to `first` takes a tenth longer.
    for j in first..to.len() {
        to[j] = marked(from[j], to[j]);
    }
}

// Adds the ends that the table reaches, by runs of at least so many ticks, from the points of a row, those from `first` on.
pub fn reach(table: Table, from: &[u8], first: usize, least: usize, to: &mut [u8])
    requires { (length to.old ≤ table.side) × (length from.now ≤ table.side) × (least ≤ 1) }
    ensures { Gains to.old to.new (Reached (RunsOf table.entry) from.now first least) }
{
    for k in first..from.len() {
        if from[k] == 1 {
            add_ends(table.row(k), k + least, to);
        }
    }
}
