//! A value for each of some paths, found by the bytes of the path.

ghost use Rattle.std.specs.Prelude.{◌≡◌, ℕ, List, None, Some, OnErr, OnOk};
ghost use Rattle.std.specs.Borrow.{sem};
ghost use Rattle.std.specs.Option.{option_copied, option_copied_mut};
ghost use Rattle.client_files.specs.PathLends.{lends_value};
ghost use Rattle.client_files.specs.PathMap.{Changes, IsAsBefore, entry_at};

use fs_types::{Path, Want};
use indexmap::IndexMap;
use std::alloc::Global;
use std::marker::Model;

/// A value for each of some paths.
#[derive(Drop)]
pub struct PathMap<T> {
    entries: IndexMap<Vec<u8>, T>,
}

impl<T> Model for PathMap<T> {
    ghost use Rattle.client_files.specs.PathMap.{Entries};

    ghost Value = { Entries T };

    ghost view = { λ m. m.entries.entries };
}

impl<T: Drop> PathMap<T> {
    /// A map that has a value for no path. It takes no memory.
    #[tactic(auto, unfolding(crate::specs::PathMap::entry_at))]
    pub fn new(alloc: Global) -> PathMap<T>
        ensures { (p : List ℕ) → entry_at result p ≡ None }
    {
        PathMap {
            entries: IndexMap::new(alloc),
        }
    }

    /// The value for a path.
    #[tactic(auto, unfolding(crate::specs::PathMap::entry_at))]
    pub fn get(&self, p: &Path) -> Option<&T>
        ensures { option_copied result ≡ entry_at self.now p.now }
    {
        // Where there is nothing yet no path is hashed.
        if self.entries.is_empty() {
            return None;
        }
        self.entries.get(p.as_bytes())
    }

    /// The value for a path, to change. What is left behind the reference is the value then; every
    /// other stays.
    pub fn get_mut(&mut self, p: &Path) -> Option<&mut T>
        ensures* writes_back { sem 𝓛 (lends_value T.row self.entry p.now result) }
        ensures value { option_copied_mut result ≡ entry_at self.old p.now }
    {
        self.entries.get_mut(p.as_bytes())
    }

    /// Sets the value for a path, with a copy of the path's bytes. It is meant for a path that has
    /// none. After want of memory the map is as before.
    pub fn insert(&mut self, alloc: Global, p: &Path, value: T) -> Result<(), Want>
        ensures set { OnOk result
            (Changes (entry_at self.old) (entry_at self.new) p.now (Some value)) }
        ensures same { OnErr result (IsAsBefore (entry_at self.old) (entry_at self.new)) }
    {
        let path = p.as_bytes();
        self.entries.insert(Vec::from_slice(alloc, path)?, value)?;
        Ok(())
    }

    /// Sets the value for a path. Where it has one already, that takes no memory. After want of
    /// memory the map is as before.
    pub fn set(&mut self, alloc: Global, p: &Path, value: T) -> Result<(), Want>
        ensures set { OnOk result
            (Changes (entry_at self.old) (entry_at self.new) p.now (Some value)) }
        ensures same { OnErr result (IsAsBefore (entry_at self.old) (entry_at self.new)) }
    {
        if let Some(there) = self.get_mut(p) {
            *there = value;
            return Ok(());
        }
        self.insert(alloc, p, value)
    }
}
