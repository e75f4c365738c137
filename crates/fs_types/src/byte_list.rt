//! Bytes of any number, as a list.

ghost use Rattle.std.specs.Prelude.{◌≡◌};

use std::marker::Model;

/// Some bytes. A clause sees the list of them.
#[derive(Debug, Drop)]
pub struct ByteList {
    bytes: Vec<u8>,
}

impl Model for ByteList {
    ghost use Rattle.std.specs.Prelude.{ℕ, List};

    ghost Value = { List ℕ };

    ghost view = { λ b. b.bytes.items };
}

impl ByteList {
    /// The bytes as a list.
    pub fn of(bytes: Vec<u8>) -> ByteList
        ensures { result ≡ bytes.items }
    {
        ByteList { bytes }
    }

    /// The bytes.
    pub fn as_slice(&self) -> &[u8]
        ensures { result.now ≡ self.now }
    {
        &self.bytes
    }

    /// The bytes in the memory that they were given in.
    pub fn into_vec(self) -> Vec<u8>
        ensures { result.items ≡ self }
    {
        self.bytes
    }
}
