//! The files of a report, by path.

ghost use Rattle.std.specs.Prelude.{◌≡◌, ◌<◌, ◌++◌, [], ◌∷◌, length, slice_get, Some, OnOk, OnErr};

use fs_types::{FileState, Path, Want};
use std::alloc::Global;
use std::marker::Model;

/// A path's file, as a report shows it.
#[derive(Debug, Drop)]
struct FileEntry {
    path: Path,
    state: FileState,
}

/// Files by path. A clause sees the list of paths, each with its file.
#[derive(Debug, Drop)]
pub struct FileList {
    files: Vec<FileEntry>,
}

impl Model for FileList {
    ghost use Rattle.std.specs.Prelude.{ℕ, List};
    ghost use Rattle.fs_types.specs.declared.file_state.FileState.{FileState as State};

    ghost Value = { List (List ℕ × State) };

    ghost use Rattle.fs_report.specs.FileList.{file_entries_of};

    ghost view = { λ f. file_entries_of f.files.items };
}

impl FileList {
    /// No files. It takes no memory.
    pub fn new(alloc: Global) -> FileList
        ensures { result ≡ [] }
    {
        FileList {
            files: Vec::new(alloc),
        }
    }

    /// Adds a file at the end.
    pub fn add(&mut self, p: Path, f: FileState) -> Result<(), Want>
        ensures ok { OnOk result (self.new ≡ self.old ++ (p, f) ∷ []) }
        ensures err { OnErr result (self.new ≡ self.old) }
    {
        self.files.push(FileEntry { path: p, state: f })?;
        Ok(())
    }

    /// How many files there are.
    pub fn len(&self) -> usize
        ensures { result ≡ length self.now }
    {
        self.files.len()
    }

    /// The file at a place, with its path.
    pub fn at(&self, i: usize) -> (&Path, &FileState)
        requires { i < length self.now }
        ensures { slice_get self.now i ≡ Some (result.0.now, result.1.now) }
    {
        let entry = &self.files[i];
        (&entry.path, &entry.state)
    }
}
