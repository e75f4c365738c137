//! A file as its definition has it: none, or bytes and whether it is frozen.

ghost use Rattle.std.specs.Prelude.{◌≡◌, ◌<◌, ◌∷◌, [], false, length, slice_index};
ghost use Rattle.std.specs.Prelude.{None, Some, is_some, OnOk};
ghost use Rattle.fs_types.specs.PlainFile.{is_open_to_change};
ghost use Rattle.fs_script.specs.Payload.{bytes_of};
ghost use Rattle.fs_script.specs.Effect.{as_frozen, cut_to, with_lines};
ghost use Rattle.fs_plain.specs.FileAttributes.{attr_of, bytes_in};

use crate::payload;
use crate::sparse_bytes::SparseBytes;
use fs_script::Script;
use fs_types::{Attr, LineNo, Want};
use std::alloc::Global;
use std::marker::Model;

/// A file that is there.
#[derive(Debug, Drop)]
struct SparseFile {
    bytes: SparseBytes,
    frozen: bool,
}

/// A file, or none. A clause sees none, or the list of its bytes and whether it is frozen.
#[derive(Debug, Drop)]
pub struct PlainFile {
    content: Option<SparseFile>,
}

impl Model for PlainFile {
    ghost use Rattle.std.specs.Prelude.{ℕ};
    ghost use Rattle.fs_types.specs.PlainFile.{File};

    ghost Value = { File ℕ };

    ghost use Rattle.fs_plain.specs.KeptFile.{file_kept};

    ghost view = { λ f. file_kept f.content };
}

impl PlainFile {
    /// No file.
    pub(crate) fn none() -> PlainFile
        ensures { result ≡ None }
    {
        PlainFile { content: None }
    }

    /// An empty file that isn't frozen.
    pub(crate) fn empty(alloc: Global) -> PlainFile
        ensures { result ≡ Some (record { cells = []; frozen = false }) }
    {
        let content = SparseFile {
            bytes: SparseBytes::new(alloc),
            frozen: false,
        };
        PlainFile {
            content: Some(content),
        }
    }

    /// Whether there is a file.
    pub(crate) fn exists(&self) -> bool
        ensures { result ≡ is_some self.now }
    {
        self.content.is_some()
    }

    /// Whether there is a file that isn't frozen.
    pub(crate) fn is_open_to_change(&self) -> bool
        ensures { result ≡ is_open_to_change self.now }
    {
        match &self.content {
            Some(content) => !content.frozen,
            None => false,
        }
    }

    /// Puts what line `n` brings over the file, if it is there.
    pub(crate) fn put_line(&mut self, alloc: Global, s: &Script, n: LineNo) -> Result<(), Want>
        ensures { OnOk result (self.new ≡ with_lines s.now (bytes_of s.now) (n ∷ []) self.old) }
    {
        if let Some(content) = &mut self.content {
            payload::put_line(alloc, s, n, &mut content.bytes)?;
        }
        Ok(())
    }

    /// Cuts the file to `n` bytes, or fills it up with zeros to as many, if it is there.
    pub(crate) fn cut(&mut self, alloc: Global, n: u64) -> Result<(), Want>
        ensures { OnOk result (self.new ≡ cut_to 0 n self.old) }
    {
        if let Some(content) = &mut self.content {
            content.bytes.cut(alloc, n)?;
        }
        Ok(())
    }

    /// Freezes the file, if it is there.
    pub(crate) fn freeze(&mut self)
        ensures { self.new ≡ as_frozen self.old }
    {
        if let Some(content) = &mut self.content {
            content.frozen = true;
        }
    }

    /// Whether there is a file, how long it is, and whether it is frozen.
    pub fn attr(&self) -> Attr
        ensures attr { result ≡ attr_of self.now }
        ensures size { result.size ≡ length (bytes_in self.now) }
    {
        match &self.content {
            Some(content) => Attr {
                exists: true,
                size: content.bytes.len(),
                frozen: content.frozen,
            },
            None => Attr {
                exists: false,
                size: 0,
                frozen: false,
            },
        }
    }

    /// The byte at a place of the file.
    pub fn byte(&self, at: u64) -> u8
        requires { at < length (bytes_in self.now) }
        ensures { result ≡ slice_index (bytes_in self.now) at }
    {
        match &self.content {
            Some(content) => content.bytes.byte(at),
            None => unreachable!(),
        }
    }

    /// How many blocks are kept of its bytes.
    #[cfg(test)]
    pub(crate) fn blocks(&self) -> usize {
        self.content
            .as_ref()
            .map_or(0, |content| content.bytes.blocks())
    }
}
