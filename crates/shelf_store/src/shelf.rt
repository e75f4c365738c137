//! Replicas by the paths of their files.

ghost use Rattle.std.specs.Prelude.{◌≡◌, ℕ, List, max, IfOk, IsSome, OnErr, OnOk};
ghost use Rattle.std.specs.Map.{lookup};
ghost use Rattle.std.specs.Borrow.{sem};
ghost use Rattle.std.specs.Option.{option_copied, option_copied_mut};
ghost use Rattle.shelf_store.specs.Calls.{Changes, IsAsBefore, IsPut};
ghost use Rattle.shelf_store.specs.Calls.{below_version, from_version, with_floor};
ghost use Rattle.shelf_store.specs.Kept.{floor_in, is_path, path_in, replica_in, untouched};
ghost use Rattle.shelf_store.specs.Lends.{lends_replica};

use crate::put::Put;
use crate::shelf_path::ShelfPath;
use fs_types::{Path, Replica, Version, Want};
use indexmap::IndexMap;
use std::alloc::Global;
use std::marker::Model;

/// Replicas of one owner's files at one server, at most one for each path; and for each path a
/// floor, the version below which none is put there.
#[derive(Drop)]
pub struct Shelf<H> {
    // By the bytes of the path.
    paths: IndexMap<Vec<u8>, ShelfPath<H>>,
}

impl<H> Model for Shelf<H> {
    ghost use Rattle.shelf_store.specs.Kept.{KeptShelf};

    ghost Value = { KeptShelf H };

    ghost view = { λ s. s.paths.entries };
}

impl<H: Drop> Shelf<H> {
    /// A shelf with no replica, and on which every floor is 0.
    #[tactic(auto, unfolding(crate::specs::Kept::path_in))]
    pub fn new(alloc: Global) -> Result<Shelf<H>, Want>
        ensures { IfOk result (λ shelf. (p : List ℕ) → path_in shelf p ≡ untouched) }
    {
        Ok(Shelf {
            paths: IndexMap::new(alloc),
        })
    }

    // Makes a place for a path, unless it has one.
    fn enter(&mut self, alloc: Global, path: &[u8]) -> Result<(), Want>
        ensures there { OnOk result (IsSome (lookup (is_path path.now) self.new)) }
        ensures same { IsAsBefore self.old self.new }
        ensures untouched { OnErr result (path_in self.old path.now ≡ untouched) }
    {
        if self.paths.contains_key(path) {
            return Ok(());
        }
        let untouched = ShelfPath {
            floor: Version(0),
            replica: None,
        };
        self.paths.insert(Vec::from_slice(alloc, path)?, untouched)?;
        Ok(())
    }

    /// Puts a replica on its path, in place of what stands there, unless its version is below the
    /// floor or below the version of what stands there. Memory runs out only where the floor is 0
    /// and no replica stands there. Unless the replica is kept all is as before.
    pub fn put(&mut self, alloc: Global, r: Replica<H>) -> Put<H>
        ensures { IsPut r self.old self.new result }
    {
        if self.enter(alloc, r.path.as_bytes()).is_err() {
            return Put::Want(r);
        }
        let Some(path) = self.paths.get_mut(r.path.as_bytes()) else {
            unreachable!()
        };
        path.put(r)
    }

    /// Raises the floor of a path to a version, if it is lower. A replica whose version is below
    /// the floor then comes out. Memory runs out only where the floor is 0 and no replica stands
    /// there; all is as before then.
    pub fn drop_below(
        &mut self,
        alloc: Global,
        p: &Path,
        v: Version,
    ) -> Result<Option<Replica<H>>, Want>
        ensures dropped { OnOk result
            (Changes self.old self.new p.now (with_floor v (path_in self.old p.now))) }
        ensures out { IfOk result (λ out. out
            ≡ below_version (max (floor_in self.old p.now) v) (replica_in self.old p.now)) }
        ensures same { OnErr result (IsAsBefore self.old self.new) }
        ensures untouched { OnErr result (path_in self.old p.now ≡ untouched) }
    {
        let path = p.as_bytes();
        self.enter(alloc, path)?;
        let Some(kept) = self.paths.get_mut(path) else {
            unreachable!()
        };
        Ok(kept.drop_below(v))
    }

    /// The replica that stands on a path, if its version is at least `front`.
    pub fn get(&self, p: &Path, front: Version) -> Option<&Replica<H>>
        ensures { option_copied result ≡ from_version front (replica_in self.now p.now) }
    {
        match self.paths.get(p.as_bytes()) {
            Some(path) => path.get(front),
            None => None,
        }
    }

    /// The replica that stands on a path, to change, if its version is at least `front`. What is
    /// left behind the reference stands there then; all else stays.
    pub fn find(&mut self, p: &Path, front: Version) -> Option<&mut Replica<H>>
        ensures* writes_back { sem 𝓛 (lends_replica H.row self.entry p.now result) }
        ensures found { option_copied_mut result
            ≡ from_version front (replica_in self.old p.now) }
    {
        match self.paths.get_mut(p.as_bytes()) {
            Some(path) => path.find(front),
            None => None,
        }
    }
}
