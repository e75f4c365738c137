//! What a report says of a file after the job.

use crate::digest::Digest16;
use crate::number::Rank;

/// A file at the end of a job.
#[derive(Debug, Drop)]
pub enum FileState {
    /// There is none.
    Gone,
    /// Its length, whether it is frozen, and the digest of its first bytes, as many as a report
    /// says.
    Whole { n: u64, frozen: bool, md5: Digest16 },
    /// Its length and whether it is frozen; a call on the spill device of this client failed as
    /// its bytes were read.
    Unread { n: u64, frozen: bool, rank: Rank },
}
