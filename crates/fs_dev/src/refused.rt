//! The call that a host refused last.

ghost use Rattle.std.specs.Prelude.{◌≡◌};

use fs_types::{LONGEST_PATH, Name};
use std::marker::Model;

/// A name that is kept with no memory of its own. A clause sees the list of its bytes.
#[derive(Debug, Drop)]
pub struct KeptName {
    bytes: [u8; LONGEST_PATH],
    len: usize,
}

impl Model for KeptName {
    ghost use Rattle.std.specs.Prelude.{ℕ, ◌≤◌, List, take};
    ghost use Rattle.fs_types.specs.declared.limits.TheConstants.{LONGEST_PATH};

    ghost Value = { List ℕ };

    ghost view = { λ n. take n.len n.bytes };

    ghost invariant = { λ n. n.len ≤ LONGEST_PATH };
}

impl KeptName {
    pub fn new(name: &Name) -> KeptName
        ensures { result ≡ name.now }
    {
        let text = name.as_bytes();
        let mut bytes = [0; LONGEST_PATH];
        let len = text.len();
        bytes[..len].copy_from_slice(text);
        KeptName { bytes, len }
    }

    pub fn as_bytes(&self) -> &[u8]
        ensures { result.now ≡ self.now }
    {
        &self.bytes[..self.len]
    }
}

/// A call that a host refused, with what it was asked for.
#[derive(Debug, Drop)]
pub enum RefusedCall {
    /// A device of some bytes for a rank.
    Device { rank: u32, bytes: u64 },
    /// A source by its name.
    Source(KeptName),
    /// A sink by its name.
    Sink(KeptName),
    /// A read of the current source.
    Read(KeptName),
    /// A write to the current sink.
    Write(KeptName),
}
