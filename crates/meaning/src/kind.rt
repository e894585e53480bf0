// The kinds of a node, by the number that stands first in its words.
pub const ATOM: u32 = 1;

pub const DELAY: u32 = 2;

pub const CONSECUTIVE: u32 = 3;

pub const GOTO: u32 = 4;

pub const NONCONSECUTIVE: u32 = 5;

pub const THROUGHOUT: u32 = 6;

pub const WITHIN: u32 = 7;
