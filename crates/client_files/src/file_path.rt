//! What a client keeps of a path.

use crate::noted::{Noted, UNSEEN};

/// What a client keeps of a path.
#[derive(Clone, Copy, Debug)]
pub struct FilePath {
    /// Whether the client has opened it.
    pub is_open: bool,
    /// The greatest version that was noted, with what was noted there.
    pub noted: Noted,
}

/// What a client keeps of a path on which it did nothing.
pub const UNTOUCHED: FilePath = FilePath {
    is_open: false,
    noted: UNSEEN,
};
