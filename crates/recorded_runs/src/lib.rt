// Recorded ticks, and the runs that are read off them: those of an atom, of its goto and nonconsecutive repetition, and of a throughout.
// The ends that are reached from one start are added to a row.
//
// Example: from start 0, with b at the ticks 1 and 3 of six, `b[->2]` reaches the end 4, and `b[=2]` the ends 4, 5 and 6.
#![tactic(auto)]

ghost use Rattle.std.specs.Prelude.{◌≡◌, ◌+◌, ◌*◌, ◌≤◌, ◌<◌, length};
ghost use Rattle.meaning.specs.Match.{Occurs};
ghost use Rattle.runs.specs.Ends.{Gains};
ghost use Rattle.runs.specs.Tables.{RunsOf};
ghost use Rattle.recorded_runs.specs.Recorded.{trace_of, Covers, Counted, Last, Throughout};

use runs::Table;

// Recorded ticks: ticks times width bytes, a row for each tick and in it a byte for each atom.
#[derive(Clone, Copy)]
pub struct Rows<'a> {
    pub bytes: &'a [u8],
    pub width: usize,
}

impl Rows<'_> {
    // Whether an atom holds at a tick.
    pub fn holds(self, tick: usize, atom: u32) -> bool
        requires { (tick * self.width + self.width ≤ length self.bytes.now) × (atom < self.width) }
        ensures { result ≡ trace_of self.entry tick atom }
    {
        self.bytes[tick * self.width + atom as usize] == 1
    }
}

// Adds the end of an atom's run from i on: the tick after, if it holds.
pub fn occurs(rows: Rows, atom: u32, i: usize, row: &mut [u8])
    requires { Covers rows.bytes.now rows.width (length row.old) × (atom < rows.width) × (i < length row.old) }
    ensures { Gains row.old row.new (Occurs (trace_of rows.entry) atom i) }
{
    if i + 1 < row.len() && rows.holds(i, atom) {
        row[i + 1] = 1;
    }
}

// Adds the ends of b[->count] from i on, or of b[=count] where the run may go on while b is 0: the ticks after the count-th b.
// After one b more there is no end.
pub fn counted(rows: Rows, atom: u32, count: u32, goes_on: bool, i: usize, row: &mut [u8])
    requires { Covers rows.bytes.now rows.width (length row.old) × (atom < rows.width) × (i < length row.old) × (0 < count) }
    ensures { Gains row.old row.new (Counted goes_on (trace_of rows.entry) atom count i) }
{
    let count = count as usize;
    let mut seen = 0;
    for tick in i..row.len() - 1 {
        let here = rows.holds(tick, atom);
        seen += usize::from(here);
        if seen > count {
            return;
        }
        if seen == count && (here || goes_on) {
            row[tick + 1] = 1;
        }
    }
}

// The last end of the runs from i on at every tick of which the atom holds.
fn last_end(rows: Rows, atom: u32, i: usize, side: usize) -> usize
    requires { Covers rows.bytes.now rows.width side × (atom < rows.width) × (i < side) }
    ensures { Last (trace_of rows.entry) atom i side result }
{
    // A loop, since `find` takes a tenth longer a tick.
    for tick in i..side - 1 {
        if !rows.holds(tick, atom) {
            return tick;
        }
    }
    side - 1
}

// Adds the ends from i on of a table's runs at every tick of which the condition holds.
pub fn throughout(table: Table, rows: Rows, condition: u32, i: usize, row: &mut [u8])
    requires { (length row.old ≡ table.side) × Covers rows.bytes.now rows.width (length row.old) × (condition < rows.width) × (i < length row.old) }
    ensures { Gains row.old row.new (Throughout (RunsOf table.entry) (trace_of rows.entry) condition i) }
{
    let last = last_end(rows, condition, i, row.len());
    runs::add_ends(table.row(i), i, &mut row[..=last]);
}
