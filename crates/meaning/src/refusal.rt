// Why a tree, a recording, a listing or a tick is refused (SPECIFICATION, "Refusals"). A refusal that has a place carries it; the others stand at 0.
//
// Example: `a ##[0:256] b`, whose root is node 2, is refused with `TooManyAlternatives(2)`: number 10, place 2.

ghost use Rattle.std.specs.Prelude.{◌≡◌};
ghost use Rattle.meaning.specs.Answers.{number, place, tick_number, tick_place};

// What is wrong with a tree, or with what is lent to lower it or to match it over recorded ticks. Every place is a node's number, but that of
// `MisplacedEmpty` is an alternative's.
#[derive(Clone, Copy, PartialEq, Eq)]
pub enum Refusal {
    Malformed(u32),
    NotUsedOnce(u32),
    OutOfOrder(u32),
    TooDeep(u32),
    CountTooHigh(u32),
    NotOverAnAtom(u32),
    ThroughoutNotPlain(u32),
    WithinBelowRoot(u32),
    WithinNotPlain(u32),
    TooManyAlternatives(u32),
    TooManyEntries(u32),
    MisplacedEmpty(u32),
    TooManyRegisters,
    OutputTooShort,
    BadRows,
    LentTooShort,
}

impl Refusal {
    // The specification's number.
    pub fn number(self) -> u32
        ensures { result ≡ number self }
    {
        match self {
            Refusal::Malformed(_) => 1,
            Refusal::NotUsedOnce(_) => 2,
            Refusal::OutOfOrder(_) => 3,
            Refusal::TooDeep(_) => 4,
            Refusal::CountTooHigh(_) => 5,
            Refusal::NotOverAnAtom(_) => 6,
            Refusal::ThroughoutNotPlain(_) => 7,
            Refusal::WithinBelowRoot(_) => 8,
            Refusal::WithinNotPlain(_) => 9,
            Refusal::TooManyAlternatives(_) => 10,
            Refusal::TooManyEntries(_) => 11,
            Refusal::MisplacedEmpty(_) => 12,
            Refusal::TooManyRegisters => 13,
            Refusal::OutputTooShort => 14,
            Refusal::BadRows => 17,
            Refusal::LentTooShort => 18,
        }
    }

    // The specification's place.
    pub fn place(self) -> u32
        ensures { result ≡ place self }
    {
        match self {
            Refusal::Malformed(n)
            | Refusal::NotUsedOnce(n)
            | Refusal::OutOfOrder(n)
            | Refusal::TooDeep(n)
            | Refusal::CountTooHigh(n)
            | Refusal::NotOverAnAtom(n)
            | Refusal::ThroughoutNotPlain(n)
            | Refusal::WithinBelowRoot(n)
            | Refusal::WithinNotPlain(n)
            | Refusal::TooManyAlternatives(n)
            | Refusal::TooManyEntries(n)
            | Refusal::MisplacedEmpty(n) => n,
            Refusal::TooManyRegisters
            | Refusal::OutputTooShort
            | Refusal::BadRows
            | Refusal::LentTooShort => 0,
        }
    }
}

// The first word of a listing that cannot stand where it stands: what the check of a listing finds.
#[derive(Clone, Copy, PartialEq, Eq)]
pub struct Fault {
    pub place: usize,
}

// What is wrong with a tick: the listing, from a word on; what is lent for it; or a byte that is no bit.
#[derive(Clone, Copy, PartialEq, Eq)]
pub enum TickRefusal {
    NotDescribed(usize),
    LentTooShort,
    NotBits,
}

impl TickRefusal {
    // The specification's number.
    pub fn number(self) -> u32
        ensures { result ≡ tick_number self }
    {
        match self {
            TickRefusal::NotDescribed(_) => 21,
            TickRefusal::LentTooShort => 22,
            TickRefusal::NotBits => 23,
        }
    }

    // The specification's place: a word of the listing.
    pub fn place(self) -> usize
        ensures { result ≡ tick_place self }
    {
        match self {
            TickRefusal::NotDescribed(at) => at,
            TickRefusal::LentTooShort | TickRefusal::NotBits => 0,
        }
    }
}
