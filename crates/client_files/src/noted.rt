//! What is known of a path at a version of it.

ghost use Rattle.std.specs.Prelude.{◌≡◌};
ghost use Rattle.client_files.specs.Noted.{later_of};

use fs_types::{Attr, Version};

/// A version of a path with the attributes of its file there.
#[derive(Clone, Copy, Debug, PartialEq, Eq)]
pub struct Noted {
    pub version: Version,
    pub attr: Attr,
}

/// What is known of a path of which nothing was said: it has no file at version 0.
pub const UNSEEN: Noted = Noted {
    version: Version(0),
    attr: Attr {
        exists: false,
        size: 0,
        frozen: false,
    },
};

impl Noted {
    /// The one of the greater version; this one where both are of the same.
    pub(crate) fn later(self, other: Noted) -> Noted
        ensures { result ≡ later_of self other }
    {
        if other.version <= self.version {
            self
        } else {
            other
        }
    }
}
