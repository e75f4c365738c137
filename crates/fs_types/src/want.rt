//! Want of memory, the one answer that no argument decides.

use std::alloc::{AllocError, AllocFailed};
use thiserror::Error;

/// Memory ran out. What was being changed is as it was, unless the call says otherwise.
#[derive(Clone, Copy, Debug, Drop, PartialEq, Eq, Error)]
#[error("out of memory")]
pub struct Want;

impl From<AllocError> for Want {
    fn from(_e: AllocError) -> Want {
        Want
    }
}

impl<T: Drop> From<AllocFailed<T>> for Want {
    fn from(_e: AllocFailed<T>) -> Want {
        Want
    }
}
