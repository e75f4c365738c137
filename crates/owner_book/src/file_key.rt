//! What a file is known by: its gfid and its path together, since two paths may have one gfid. It is
//! hashed by its gfid alone, which is from a digest of the path already.

use indexmap::Equivalent;

/// What a file is known by.
#[derive(Debug, Drop, PartialEq, Eq)]
#[derive_where(Hash)]
pub struct FileKey {
    pub gfid: u64,
    #[derive_where(skip(Hash))]
    pub path: Vec<u8>,
}

/// A file's key, lent for a look-up.
#[derive(Clone, Copy, Debug, PartialEq, Eq)]
#[derive_where(Hash)]
pub struct FileName<'p> {
    pub gfid: u64,
    #[derive_where(skip(Hash))]
    pub path: &'p [u8],
}

impl<'p> Equivalent<FileKey> for FileName<'p> {
    ghost use Rattle.owner_book.specs.Names.{names_key};
    ghost use Rattle.std.specs.Cmp.Rules.{comparing, hashing};
    ghost use Rattle.std.proofs.Common.{rules};

    ghost equivalent = { λ n k. names_key n.gfid n.path.now k };

    ghost respects_hash = { Prim.search (hashing, rules) };

    ghost respects_eq = { Prim.search (comparing, rules) };

    fn equivalent(&self, key: &FileKey) -> bool {
        self.gfid == key.gfid && self.path == key.path.as_slice()
    }
}
