//! The journals of a report, by path.

ghost use Rattle.std.specs.Prelude.{◌≡◌, ◌<◌, ◌++◌, [], ◌∷◌, length, slice_get, Some, OnOk, OnErr};
ghost use Rattle.fs_script.specs.Report.{journal_of};

use fs_types::{LineNo, Path, Want};
use std::alloc::Global;
use std::marker::Model;

/// A path's journal: its committing lines, in the owner's order.
#[derive(Debug, Drop)]
struct Journal {
    path: Path,
    lines: Vec<LineNo>,
}

/// Journals by path. A clause sees the list of paths, each with its lines.
#[derive(Debug, Drop)]
pub struct Journals {
    journals: Vec<Journal>,
}

impl Model for Journals {
    ghost use Rattle.std.specs.Prelude.{ℕ, List};

    ghost Value = { List (List ℕ × List ℕ) };

    ghost use Rattle.fs_plain.specs.JournalEntries.{entries_of};

    ghost view = { λ j. entries_of j.journals.items };
}

impl Journals {
    /// No journals. It takes no memory.
    pub fn new(alloc: Global) -> Journals
        ensures { result ≡ [] }
    {
        Journals {
            journals: Vec::new(alloc),
        }
    }

    /// Adds a journal at the end.
    pub fn add(&mut self, p: Path, j: Vec<LineNo>) -> Result<(), Want>
        ensures ok { OnOk result (self.new ≡ self.old ++ (p, j.items) ∷ []) }
        ensures err { OnErr result (self.new ≡ self.old) }
    {
        self.journals.push(Journal { path: p, lines: j })?;
        Ok(())
    }

    /// How many journals there are.
    pub fn len(&self) -> usize
        ensures { result ≡ length self.now }
    {
        self.journals.len()
    }

    /// The journal at a place, with its path.
    pub fn at(&self, i: usize) -> (&Path, &[LineNo])
        requires { i < length self.now }
        ensures { slice_get self.now i ≡ Some (result.0.now, result.1.now) }
    {
        let journal = &self.journals[i];
        (&journal.path, &journal.lines)
    }

    /// The first journal of a path, empty where there is none.
    pub fn of(&self, p: &Path) -> &[LineNo]
        ensures { result.now ≡ journal_of self.now p.now }
    {
        for journal in &self.journals {
            if journal.path.as_bytes() == p.as_bytes() {
                return &journal.lines;
            }
        }
        &[]
    }
}
