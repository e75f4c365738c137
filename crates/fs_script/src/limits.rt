//! The limits of scripts and of what their lines move.

/// The most bytes of a script.
pub const SCRIPT_LIMIT: usize = 4_194_304;

/// The most lines of a script, the header among them.
pub const LINE_LIMIT: usize = 65_536;

/// The most bytes that one line writes or reads.
pub const TRANSFER_LIMIT: u64 = 16_777_216;

/// The most bytes of a file that its digest in a report is of.
pub const DIGEST_LIMIT: u64 = 16_777_216;

/// The most servers of a job.
pub const SERVER_LIMIT: u64 = 64;

/// The most clients of a job.
pub const CLIENT_LIMIT: u64 = 64;

/// The least bytes of a slot.
pub const LEAST_CHUNK: u64 = 64;

/// The most bytes of a slot.
pub const MOST_CHUNK: u64 = 65_536;

/// The bytes of a slot are a multiple of this.
pub const CHUNK_UNIT: u64 = 8;

/// The most slots of shared memory, of all clients together.
pub const MEMORY_SLOTS: u64 = 65_536;

/// The most bytes in the slots of shared memory, of all clients together.
pub const MEMORY_BYTES: u64 = 268_435_456;

/// The most slots of spill files, of all clients together.
pub const SPILL_SLOTS: u64 = 0;

/// The most bytes in the slots of spill files, of all clients together.
pub const SPILL_BYTES: u64 = 0;
