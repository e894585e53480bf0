// The caller's own words that drive a register (SPECIFICATION, "Stretch"), found with a reader that holds the listing and its position.
//
// Example: in `a0 any seq0 r0 a1 any and match` the words `a0 any seq0` drive register 0. They are its assignment: an
// expression and the store that ends it.
//
// Functions on a plain slice and a place do the reading. The reader's own functions take it apart and call them, no more.
// `driving` walks with the reader from assignment to assignment, and `stretch`, which others call, has plain parameters.
// `start` is for a caller who cannot be handed a part, and takes its place.
#![tactic(auto)]

ghost use Rattle.std.specs.Prelude.{◌≡◌, [], ◌+◌, length, drop, position, ltb};
ghost use Rattle.words.specs.Choice.{pick};
ghost use Rattle.meaning.specs.Listing.{is_store};
ghost use Rattle.meaning.specs.Check.{stretch as stretch_of, stretch_from};
ghost use Rattle.stretch.specs.Assignment.{assignment_at, another_at};
ghost use Rattle.stretch.specs.Start.{start_from, stretch_start};

// How many words stand before the first store.
fn first_store(words: &[u32]) -> Option<usize>
    ensures { result ≡ position is_store words.now }
{
    words.iter().position(|w| listing::is_store(*w))
}

// How many words from the place on stand before the first store. The part is taken by its place: std's `skip` would pass over each word before it.
fn before_store(listing: &[u32], place: usize) -> Option<usize>
    ensures { result ≡ position is_store (drop place listing.now) }
{
    first_store(listing.get(place..)?)
}

// Whether a word stands at the place, and the assignment that begins there does not drive the register.
fn another_at(listing: &[u32], place: usize, register: u32) -> bool
    ensures { result ≡ another_at listing.now place register }
{
    match before_store(listing, place) {
        Some(words) => listing[place + words] % meaning::operation::UNIT != register,
        None => place < listing.len(),
    }
}

// The place behind the assignment that begins at the place.
fn assignment_end(listing: &[u32], place: usize) -> usize
    ensures { result ≡ place + length (assignment_at listing.now place) }
{
    match before_store(listing, place) {
        Some(words) => place + words + 1,
        None => place.max(listing.len()),
    }
}

// The assignment that begins at the place: a part of the listing.
fn assignment_at(listing: &[u32], place: usize) -> &[u32]
    ensures { result.now ≡ assignment_at listing.now place }
{
    let end = assignment_end(listing, place);
    listing.get(place..end).unwrap_or(&[])
}

// A listing and a position in it.
#[derive(Clone, Copy)]
pub struct Reader<'a> {
    pub listing: &'a [u32],
    pub at: usize,
}

impl<'a> Reader<'a> {
    // At the listing's first word.
    pub fn new(listing: &'a [u32]) -> Reader<'a>
        ensures { (result.listing ≡ listing.entry) × (result.at ≡ 0) }
    {
        Reader { listing, at: 0 }
    }

    // Whether the assignment at the position is not the register's; false at the end.
    pub fn at_another(self, register: u32) -> bool
        ensures { result ≡ another_at self.entry.listing.now self.entry.at register }
    {
        another_at(self.listing, self.at, register)
    }

    // Moved on behind the assignment at the position.
    pub fn next(self) -> Reader<'a>
        ensures { (result.listing ≡ self.entry.listing) × (result.at ≡ self.entry.at + length (assignment_at self.entry.listing.now self.entry.at)) }
    {
        Reader {
            listing: self.listing,
            at: assignment_end(self.listing, self.at),
        }
    }

    // The assignment at the position.
    pub fn assignment(self) -> &'a [u32]
        ensures { result.now ≡ assignment_at self.entry.listing.now self.entry.at }
    {
        assignment_at(self.listing, self.at)
    }
}

// A reader at the assignment that drives the register, in a listing that is as described; at the listing's end where none does.
fn driving<'a>(listing: &'a [u32], register: u32) -> Reader<'a>
    ensures same { result.listing.now ≡ listing.now }
    ensures part { assignment_at listing.now result.at ≡ stretch_from [] listing.now register }
    ensures start { pick (ltb result.at (length listing.now)) result.at 0 ≡ start_from 0 0 listing.now register }
{
    let mut reader = Reader::new(listing);
    while reader.at_another(register) {
        reader = reader.next();
    }
    reader
}

// The words that drive the register, the store included: a part of the caller's own listing. An empty part if the listing
// is not as described, or has no such register.
#[tactic(auto, unfolding(meaning::specs::Check::stretch, meaning::specs::Check::stretch_if))]
pub fn stretch(listing: &[u32], register: u32) -> &[u32]
    ensures { result.now ≡ stretch_of listing.now register }
{
    let Ok(()) = listing::checked(listing) else {
        return &[];
    };
    driving(listing, register).assignment()
}

// The place of the first word that drives the register; 0 where `stretch` is empty.
#[tactic(auto, unfolding(crate::specs::Start::stretch_start, crate::specs::Start::start_if, words::specs::Choice::pick))]
pub fn start(listing: &[u32], register: u32) -> usize
    ensures { result ≡ stretch_start listing.now register }
{
    let Ok(()) = listing::checked(listing) else {
        return 0;
    };
    let start = driving(listing, register).at;
    if start < listing.len() { start } else { 0 }
}
