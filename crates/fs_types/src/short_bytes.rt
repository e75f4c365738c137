//! A few bytes that are kept in place, with no memory of their own.

ghost use Rattle.std.specs.Prelude.{◌≡◌, ◌≤◌, length};

use crate::limits::HEX_LIMIT;
use std::marker::Model;

/// At most [`HEX_LIMIT`] bytes. A clause sees the list of them.
#[derive(Debug, Drop)]
pub struct ShortBytes {
    bytes: [u8; HEX_LIMIT],
    len: usize,
}

impl Model for ShortBytes {
    ghost use Rattle.std.specs.Prelude.{ℕ, ◌≤◌, List, take};
    ghost use Rattle.fs_types.specs.declared.limits.TheConstants.{HEX_LIMIT};

    ghost Value = { List ℕ };

    ghost view = { λ s. take s.len s.bytes };

    ghost invariant = { λ s. s.len ≤ HEX_LIMIT };
}

impl ShortBytes {
    /// Keeps the bytes.
    pub fn new(b: &[u8]) -> ShortBytes
        requires { length b.now ≤ HEX_LIMIT }
        ensures { result ≡ b.now }
    {
        let mut bytes = [0; HEX_LIMIT];
        let len = b.len();
        bytes[..len].copy_from_slice(b);
        ShortBytes { bytes, len }
    }

    /// The bytes that are kept.
    pub fn as_bytes(&self) -> &[u8]
        ensures bytes { result.now ≡ self.now }
        ensures short { length result.now ≤ HEX_LIMIT }
    {
        &self.bytes[..self.len]
    }
}
