//! What is sent of a file: to its owner, and from its owner to the other servers.

use crate::fragment::Frag;
use crate::number::Version;
use crate::path::Path;

/// What a client adds to a file: fragments, and a hold of each piece that they name.
#[derive(Debug, Drop)]
pub struct Push<H> {
    pub frags: Vec<Frag>,
    pub holds: Vec<H>,
}

/// A whole file at a version: its fragments, and a hold of each piece that they name. The rest of
/// its bytes are zeros.
#[derive(Debug, Drop)]
pub struct Replica<H> {
    pub path: Path,
    pub version: Version,
    /// How many bytes the file has.
    pub size: u64,
    pub frags: Vec<Frag>,
    pub holds: Vec<H>,
}
