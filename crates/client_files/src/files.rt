//! What one client has opened and noted.

ghost use Rattle.std.specs.Prelude.{◌≡◌, ℕ, List, max, IfOk, OnErr, OnOk};
ghost use Rattle.client_files.specs.Kept.{at_front, is_open_in, may_write_in, noted_in, path_in, told_in};
ghost use Rattle.client_files.specs.Kept.{untouched, with_note, with_open};
ghost use Rattle.client_files.specs.PathMap.{Changes, IsAsBefore};

use crate::board::Board;
use crate::file_path::{FilePath, UNTOUCHED};
use crate::may::May;
use crate::noted::Noted;
use crate::path_map::PathMap;
use fs_types::{Attr, Path, Version, Want};
use std::alloc::Global;
use std::marker::Model;

/// The paths that one client has opened, and of each path the greatest version that it noted, with
/// the attributes of its file there.
#[derive(Drop)]
pub struct Files {
    paths: PathMap<FilePath>,
}

impl Model for Files {
    ghost use Rattle.client_files.specs.PathMap.{Entries};
    ghost use Rattle.client_files.specs.declared.file_path.FilePath.{FilePath};

    ghost Value = { Entries FilePath };

    ghost view = { λ f. f.paths };
}

#[tactic(auto, unfolding(crate::specs::Kept::path_in))]
impl Files {
    /// The files of a client that did nothing.
    pub fn new(alloc: Global) -> Result<Files, Want>
        ensures { IfOk result (λ files. (p : List ℕ) → path_in files p ≡ untouched) }
    {
        Ok(Files {
            paths: PathMap::new(alloc),
        })
    }

    fn path(&self, p: &Path) -> FilePath
        ensures { result ≡ path_in self.now p.now }
    {
        match self.paths.get(p) {
            Some(path) => *path,
            None => UNTOUCHED,
        }
    }

    /// What the client knows of a path at its front: the greater of the version that it noted and
    /// that of which all were told, with the attributes of the file there; what it noted, where both
    /// are the same.
    pub fn at_front(&self, b: &Board, p: &Path) -> Noted
        ensures { result ≡ at_front self.now b.now p.now }
    {
        self.path(p).noted.later(b.told(p))
    }

    /// Opens a path. After want of memory all is as before.
    pub fn opened(&mut self, alloc: Global, p: &Path) -> Result<(), Want>
        ensures opened { OnOk result (Changes (path_in self.old) (path_in self.new) p.now
            (with_open (path_in self.old p.now))) }
        ensures same { OnErr result (IsAsBefore (path_in self.old) (path_in self.new)) }
    {
        if let Some(path) = self.paths.get_mut(p) {
            path.is_open = true;
            return Ok(());
        }
        let path = FilePath {
            is_open: true,
            ..UNTOUCHED
        };
        self.paths.insert(alloc, p, path)
    }

    /// Notes a version of a path with the attributes of its file there. Of two versions the greater
    /// is kept with its attributes; where both are the same, what was noted first. After want of
    /// memory all is as before.
    pub fn note(&mut self, alloc: Global, p: &Path, v: Version, a: Attr) -> Result<(), Want>
        ensures noted { OnOk result (Changes (path_in self.old) (path_in self.new) p.now
            (with_note (record { version = v; attr = a }) (path_in self.old p.now))) }
        ensures same { OnErr result (IsAsBefore (path_in self.old) (path_in self.new)) }
    {
        let noted = Noted {
            version: v,
            attr: a,
        };
        if let Some(path) = self.paths.get_mut(p) {
            path.noted = path.noted.later(noted);
            return Ok(());
        }
        let path = FilePath {
            noted: UNTOUCHED.noted.later(noted),
            ..UNTOUCHED
        };
        self.paths.insert(alloc, p, path)
    }

    /// Whether the client has opened a path.
    pub fn is_open(&self, p: &Path) -> bool
        ensures { result ≡ is_open_in self.now p.now }
    {
        self.path(p).is_open
    }

    /// The least version of a path that the client may be shown: the greater of what it noted and
    /// what all were told.
    pub fn front(&self, b: &Board, p: &Path) -> Version
        ensures greater { result
            ≡ max (noted_in self.now p.now).version (told_in b.now p.now).version }
        ensures at_front { result ≡ (at_front self.now b.now p.now).version }
    {
        self.at_front(b, p).version
    }

    /// Whether the client may write a path: it has opened it, and at its front there is a file that
    /// isn't frozen.
    pub fn may_write(&self, b: &Board, p: &Path) -> May
        ensures { result ≡ may_write_in self.now b.now p.now }
    {
        let path = self.path(p);
        if !path.is_open {
            return May::BadF;
        }
        let Noted { version, attr } = path.noted.later(b.told(p));
        if !attr.exists {
            May::NoEnt(version)
        } else if attr.frozen {
            May::ReadOnly(version)
        } else {
            May::Yes
        }
    }
}
