//! The limits of names and files.

/// The most bytes that a path or a name has.
pub const LONGEST_PATH: usize = 255;

/// The most bytes that a file has.
pub const LONGEST_FILE: u64 = 1_099_511_627_776;

/// The most bytes that an answer prints as they are; more are printed by their digest.
pub const HEX_LIMIT: usize = 32;
