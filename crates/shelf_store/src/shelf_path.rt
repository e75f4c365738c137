//! What a shelf has of one path.

ghost use Rattle.std.specs.Prelude.{◌≡◌, max};
ghost use Rattle.std.specs.Borrow.{sem};
ghost use Rattle.std.specs.Option.{option_copied, option_copied_mut};
ghost use Rattle.shelf_store.specs.Calls.{IsPutThere, below_version, from_version};
ghost use Rattle.shelf_store.specs.Calls.{least, with_floor};
ghost use Rattle.shelf_store.specs.Lends.{lends_there};

use crate::put::Put;
use fs_types::{Replica, Version};

/// What a shelf has of a path.
#[derive(Drop)]
pub struct ShelfPath<H> {
    /// No replica of a version below this one is put there.
    pub floor: Version,
    pub replica: Option<Replica<H>>,
}

impl<H: Drop> ShelfPath<H> {
    // The least version of a replica that may be put there.
    fn least(&self) -> Version
        ensures { result ≡ least self.now }
    {
        match &self.replica {
            Some(replica) if self.floor < replica.version => replica.version,
            _ => self.floor,
        }
    }

    /// Puts a replica there, unless its version is below the floor or below what stands there.
    pub fn put(&mut self, replica: Replica<H>) -> Put<H>
        ensures { IsPutThere replica self.old self.new result }
    {
        let least = self.least();
        if replica.version < least {
            Put::Older(replica, least)
        } else {
            Put::Kept(self.replica.replace(replica))
        }
    }

    /// Raises the floor to a version, unless it is as high. A replica whose version is below the
    /// floor then comes out.
    pub fn drop_below(&mut self, v: Version) -> Option<Replica<H>>
        ensures dropped { self.new ≡ with_floor v self.old }
        ensures out { result ≡ below_version (max self.old.floor v) self.old.replica }
    {
        if self.floor < v {
            self.floor = v;
        }
        match &self.replica {
            Some(replica) if replica.version < self.floor => self.replica.take(),
            _ => None,
        }
    }

    /// The replica, if its version is at least this.
    pub fn get(&self, front: Version) -> Option<&Replica<H>>
        ensures { option_copied result ≡ from_version front self.now.replica }
    {
        match &self.replica {
            Some(replica) if front <= replica.version => Some(replica),
            _ => None,
        }
    }

    /// The replica, to change, if its version is at least this.
    pub fn find(&mut self, front: Version) -> Option<&mut Replica<H>>
        ensures* writes_back { sem 𝓛 (lends_there H.row self.entry result) }
        ensures found { option_copied_mut result ≡ from_version front self.old.replica }
    {
        match &mut self.replica {
            Some(replica) if front <= replica.version => Some(replica),
            _ => None,
        }
    }
}
