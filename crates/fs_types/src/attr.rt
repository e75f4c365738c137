//! What is told of a file beside its bytes.

/// A file's attributes. Where there is no file its size is 0, and it isn't frozen.
#[derive(Clone, Copy, Debug, PartialEq, Eq)]
pub struct Attr {
    pub exists: bool,
    /// How many bytes it has.
    pub size: u64,
    /// Whether it is frozen, and so can no longer change.
    pub frozen: bool,
}
