//! What a report says of a client's log.

use crate::number::Rank;

/// The slots of a client's log at the end of a job.
#[derive(Clone, Copy, Debug, PartialEq, Eq)]
pub struct SlotLine {
    pub rank: Rank,
    /// How many slots hold a piece.
    pub held: u64,
    /// How many slots hold none.
    pub free: u64,
    /// How many calls on its spill device failed.
    pub faults: u64,
}
