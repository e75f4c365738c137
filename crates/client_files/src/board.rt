//! What all clients were told of paths.

ghost use Rattle.std.specs.Prelude.{◌≡◌, ℕ, List, IfOk, OnErr, OnOk};
ghost use Rattle.client_files.specs.Kept.{told_in};
ghost use Rattle.client_files.specs.Noted.{unseen};
ghost use Rattle.client_files.specs.PathMap.{Changes, IsAsBefore};

use crate::noted::{Noted, UNSEEN};
use crate::path_map::PathMap;
use fs_types::{Attr, Path, Version, Want};
use std::alloc::Global;
use std::marker::Model;

/// What all clients were told of each path: a version, and the attributes of its file there.
#[derive(Drop)]
pub struct Board {
    told: PathMap<Noted>,
}

impl Model for Board {
    ghost use Rattle.client_files.specs.PathMap.{Entries};
    ghost use Rattle.client_files.specs.declared.noted.Noted.{Noted};

    ghost Value = { Entries Noted };

    ghost view = { λ b. b.told };
}

#[tactic(auto, unfolding(crate::specs::Kept::told_in))]
impl Board {
    /// A board before anything was told.
    pub fn new(alloc: Global) -> Result<Board, Want>
        ensures { IfOk result (λ board. (p : List ℕ) → told_in board p ≡ unseen) }
    {
        Ok(Board {
            told: PathMap::new(alloc),
        })
    }

    /// Tells all clients of a path, in place of what they were told of it before. After want of
    /// memory the board is as before.
    pub fn set(&mut self, alloc: Global, p: &Path, v: Version, a: Attr) -> Result<(), Want>
        ensures told { OnOk result (Changes (told_in self.old) (told_in self.new) p.now
            (record { version = v; attr = a })) }
        ensures same { OnErr result (IsAsBefore (told_in self.old) (told_in self.new)) }
    {
        let told = Noted {
            version: v,
            attr: a,
        };
        self.told.set(alloc, p, told)
    }

    /// What was told last of a path.
    pub(crate) fn told(&self, p: &Path) -> Noted
        ensures { result ≡ told_in self.now p.now }
    {
        match self.told.get(p) {
            Some(told) => *told,
            None => UNSEEN,
        }
    }
}
