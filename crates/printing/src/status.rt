// The statuses that a run ends with.

/// Done.
pub const DONE: u8 = 0;

/// A fault was found in what was to be checked.
pub const FAULT: u8 = 1;

/// The words are refused.
pub const WORDS: u8 = 2;

/// An input is refused.
pub const INPUT: u8 = 3;

/// A read failed, or an input is not there.
pub const READ: u8 = 4;

/// A write failed.
pub const WRITE: u8 = 5;

/// Memory ran out.
pub const MEMORY: u8 = 6;
