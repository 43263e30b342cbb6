//! What the functions answer, as specs/Codes.antt has it.

pub const OK: u32 = 0;

pub const CLOSED: u32 = 1;

pub const IS_OPEN: u32 = 2;

pub const NO_MEMORY: u32 = 3;

pub const BAD_HOLD: u32 = 4;

pub const TRUNCATED: u32 = 5;

pub const NOT_A_BLOCK: u32 = 6;

pub const NO_CLIENT: u32 = 7;

pub const NO_SIDE: u32 = 8;

pub const ABI: u32 = 4;

pub const BAD_UNIT: u32 = 11;

pub const NO_SESSION: u32 = 12;

pub const UNTOLD: u32 = 13;
