//! The failure of a spill device.

use crate::number::Rank;
use thiserror::Error;

/// A call on the spill device of this client failed.
#[derive(Clone, Copy, Debug, Drop, PartialEq, Eq, Error)]
#[error("a call on a device failed")]
pub struct DevFault {
    pub rank: Rank,
}
