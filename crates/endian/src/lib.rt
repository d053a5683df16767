// Bytes: little-endian numbers, signed ones too, and a command's record read, and numbers and parts of a file written into a lent area.
#![tactic(auto)]

pub mod reading;
pub mod writing;

// The most that eight bytes hold: 2^64 - 1.
pub const EIGHT_MOST: u64 = 18446744073709551615;
