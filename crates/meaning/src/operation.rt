// The operations of a listing, by number. A word is its operation times `UNIT`, plus its argument.
pub const UNIT: u32 = 16777216;

pub const ATOM: u32 = 1;

pub const REGISTER: u32 = 2;

pub const ZERO: u32 = 3;

pub const ONE: u32 = 4;

pub const ANY: u32 = 5;

pub const NOT: u32 = 6;

pub const AND: u32 = 7;

pub const OR: u32 = 8;

pub const SEQ: u32 = 9;

pub const ARM: u32 = 10;

pub const GTO: u32 = 11;

pub const NCX: u32 = 12;

pub const CRL: u32 = 13;

pub const MATCH: u32 = 14;
