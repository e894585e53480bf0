// A table of runs that stands somewhere in a slice.
//
// Example: row 1 of the table of side 3 that begins at byte 9 is the bytes 12, 13 and 14.

ghost use Rattle.runs.specs.Ends.{Stands};

// A table: the slice that it stands in, where it begins there, and how many rows it has, and bytes in each.
#[derive(Clone, Copy)]
pub struct Table<'a> {
    pub bytes: &'a [u8],
    pub place: usize,
    pub side: usize,
    pub ghost stands: { Stands bytes.now place side },
}

impl<'a> Table<'a> {
    ghost use Rattle.std.specs.Prelude.{◌≡◌, ◌+◌, ◌*◌, ◌<◌, take, drop};
    ghost use Rattle.runs.specs.Tables.{RunsOf, RowOf};

    // The row of the runs that begin at the tick.
    pub fn row(self, tick: usize) -> &'a [u8]
        requires { tick < self.side }
        ensures bytes { result.now ≡ take self.entry.side (drop (self.entry.place + tick * self.entry.side) self.entry.bytes.now) }
        ensures runs { RowOf (RunsOf self.entry) self.entry.side tick result.now }
    {
        let place = self.place + tick * self.side;
        &self.bytes[place..place + self.side]
    }
}
