//! What becomes of a replica that is put.

use fs_types::{Replica, Version};

/// What becomes of a replica that is put on a shelf.
#[derive(Debug, Drop)]
pub enum Put<H> {
    /// It stands there now, in place of this one, if one stood there.
    Kept(Option<Replica<H>>),
    /// It is given back: its version is below this one, which is the greater of the path's floor
    /// and the version that stands there.
    Older(Replica<H>, Version),
    /// It is given back: memory ran out.
    Want(Replica<H>),
}
