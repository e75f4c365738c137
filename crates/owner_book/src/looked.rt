//! What a look-up found.

use fs_types::{Attr, Frag, PieceId, Version};

/// What a range of a file is made of.
#[derive(Debug, Drop)]
pub struct Looked<H> {
    /// The version of the path.
    pub v: Version,
    /// What is told of the file.
    pub attr: Attr,
    /// The fragments in the range, cut to it.
    pub frags: Vec<Frag>,
    /// A pin of each piece that the fragments name and whose hold had room for one.
    pub holds: Vec<H>,
    /// The other pieces.
    pub bare: Vec<PieceId>,
}

/// The same of a file, without what is told of its path.
#[derive(Drop)]
pub struct Found<H> {
    pub frags: Vec<Frag>,
    pub holds: Vec<H>,
    pub bare: Vec<PieceId>,
}
