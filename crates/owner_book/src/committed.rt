//! The answer to a commit.

use fs_types::{Attr, Version};

/// What a commit made of a path.
#[derive(Debug, Drop)]
pub struct Committed<H> {
    /// The version of the path since the commit.
    pub v: Version,
    /// What is told of its file since the commit.
    pub attr: Attr,
    /// The holds of the pieces of which no byte is left in the file.
    pub dead: Vec<H>,
}
