// The operations of a listing as words with argument 0: a word with another one is such a word plus the argument.
use crate::operation;

pub const ATOM: u32 = operation::ATOM * operation::UNIT;

pub const REGISTER: u32 = operation::REGISTER * operation::UNIT;

pub const ZERO: u32 = operation::ZERO * operation::UNIT;

pub const ONE: u32 = operation::ONE * operation::UNIT;

pub const ANY: u32 = operation::ANY * operation::UNIT;

pub const NOT: u32 = operation::NOT * operation::UNIT;

pub const AND: u32 = operation::AND * operation::UNIT;

pub const OR: u32 = operation::OR * operation::UNIT;

pub const SEQ: u32 = operation::SEQ * operation::UNIT;

pub const ARM: u32 = operation::ARM * operation::UNIT;

pub const GTO: u32 = operation::GTO * operation::UNIT;

pub const NCX: u32 = operation::NCX * operation::UNIT;

pub const CRL: u32 = operation::CRL * operation::UNIT;

pub const MATCH: u32 = operation::MATCH * operation::UNIT;
