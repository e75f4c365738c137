//! The sizes of what is kept.

/// The bytes of a block of a file.
pub const BLOCK: usize = 4_096;
