//! Payloads that are written out in the script.

ghost use Rattle.std.specs.Prelude.{◌≡◌, IfOk};
ghost use Rattle.std.specs.List.{list_all};
ghost use Rattle.fs_script.specs.TextBytes.{AreTextBytes, is_text_byte};

use std::alloc::{AllocError, Global};
use std::marker::Model;

/// Printable bytes, 0x21 to 0x7E, any number of them. A clause sees the list of them.
#[derive(Debug, Drop)]
pub struct TextBytes {
    bytes: Vec<u8>,
}

impl Model for TextBytes {
    ghost use Rattle.std.specs.Prelude.{ℕ, List};
    ghost use Rattle.fs_script.specs.TextBytes.{AreTextBytes};

    ghost Value = { List ℕ };

    ghost view = { λ t. t.bytes.items };

    ghost invariant = { λ t. AreTextBytes t.bytes.items };
}

fn is_text_byte(b: u8) -> bool
    ensures { result ≡ is_text_byte b }
{
    b.is_ascii_graphic()
}

impl TextBytes {
    /// Whether all of the bytes may stand in a script as a payload.
    pub(crate) fn holds(bytes: &[u8]) -> bool
        ensures { result ≡ list_all is_text_byte bytes.now }
    {
        bytes.iter().all(|b| is_text_byte(*b))
    }

    pub(crate) fn from_slice(alloc: Global, bytes: &[u8]) -> Result<TextBytes, AllocError>
        requires { AreTextBytes bytes.now }
        ensures { IfOk result (λ t. t ≡ bytes.now) }
    {
        Ok(TextBytes {
            bytes: Vec::from_slice(alloc, bytes)?,
        })
    }

    pub fn as_bytes(&self) -> &[u8]
        ensures { result.now ≡ self.now }
    {
        &self.bytes
    }
}
