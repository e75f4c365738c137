//! Whether a client may write a path.

use fs_types::Version;

/// Whether a client may write a path, and if not, why. A version is that of the client's front.
#[derive(Clone, Copy, Debug, PartialEq, Eq)]
pub enum May {
    /// It may.
    Yes,
    /// The client hasn't opened the path.
    BadF,
    /// The path has no file at the front.
    NoEnt(Version),
    /// The file at the front is frozen.
    ReadOnly(Version),
}
