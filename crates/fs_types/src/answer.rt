//! What a line of a job is answered.

use crate::digest::Digest16;
use crate::number::{Rank, Version};
use crate::short_bytes::ShortBytes;

/// The bytes that a read shows, or their digest where they are more than
/// [`HEX_LIMIT`](crate::HEX_LIMIT).
#[derive(Debug, Drop)]
pub enum Body {
    Hex(ShortBytes),
    Md5(Digest16),
}

/// The answer to one line. A version is the number of the path's journal lines that the answer
/// stands for.
#[derive(Debug, Drop)]
pub enum Answer {
    /// The path was created, opened or committed.
    Done { v: Version },
    /// A write was accepted, and fills this many slots of the client's log.
    Wrote { slots: u32 },
    /// A source of `n` bytes was staged in, and fills this many slots of the client's log.
    Staged { v: Version, n: u64, slots: u32 },
    /// The file has `n` bytes, and is frozen or not.
    Sized { v: Version, n: u64, frozen: bool },
    /// A read shows `n` bytes of the file.
    Shown { v: Version, n: u64, body: Body },
    /// The client hasn't opened the path.
    BadF,
    /// There is a file already.
    Exists { v: Version },
    /// There is no file.
    NoEnt { v: Version },
    /// The file is frozen.
    ReadOnly { v: Version },
    /// The write would end past the longest file.
    TooBig,
    /// The file is longer than what one line moves.
    TooBigAt { v: Version },
    /// The client's log has fewer slots free than the line needs.
    NoSpace { need: u64, free: u64 },
    /// A call on the spill device of this client failed.
    DevFault { rank: Rank },
}
