//! Names of the files outside the shared namespace, and their grammar.

ghost use Rattle.std.specs.Prelude.{◌≡◌, IfOk, OnOk, IsErrOf};
ghost use Rattle.std.specs.List.{list_all};
ghost use Rattle.fs_types.specs.NameText.{IsName, is_name, is_name_part};

use crate::limits::LONGEST_PATH;
use crate::path::is_name_character;
use crate::want::Want;
use std::alloc::{AllocError, Global};
use std::marker::Model;
use thiserror::Error;

/// The name of a file that is staged in or out: 1 to 255 bytes, the first not `-`. A clause sees
/// the list of its bytes.
#[derive(Debug, Drop)]
pub struct Name {
    bytes: Vec<u8>,
}

impl Model for Name {
    ghost use Rattle.std.specs.Prelude.{ℕ, List};
    ghost use Rattle.fs_types.specs.NameText.{IsName};

    ghost Value = { List ℕ };

    ghost view = { λ n. n.bytes.items };

    ghost invariant = { λ n. IsName n.bytes.items };
}

/// Why a name could not be made.
#[derive(Clone, Copy, Debug, Drop, PartialEq, Eq, Error)]
pub enum NameFault {
    /// The bytes are outside the grammar of names.
    #[error("not a name")]
    BadName,
    /// Memory ran out.
    #[error("out of memory")]
    Want,
}

fn has_name_parts(text: &[u8]) -> bool
    ensures { result ≡ list_all is_name_part text.now }
{
    text.iter().all(|b| is_name_character(*b) || *b == b'/')
}

fn is_name_text(b: &[u8]) -> bool
    ensures { result ≡ is_name b.now }
{
    !b.is_empty() && b.len() <= LONGEST_PATH && !b.starts_with(b"-") && has_name_parts(b)
}

impl Name {
    /// The name that the bytes spell.
    pub fn read(alloc: Global, b: &[u8]) -> Result<Name, NameFault>
        ensures ok { IfOk result (λ n. n ≡ b.now) }
        ensures in_grammar { OnOk result (IsName b.now) }
        ensures bad { IsErrOf result NameFault.BadName → ¬ (IsName b.now) }
    {
        if !is_name_text(b) {
            return Err(NameFault::BadName);
        }
        match Vec::from_slice(alloc, b) {
            Ok(bytes) => Ok(Name { bytes }),
            Err(_) => Err(NameFault::Want),
        }
    }

    /// The bytes, which are within the grammar.
    pub fn as_bytes(&self) -> &[u8]
        ensures bytes { result.now ≡ self.now }
        ensures in_grammar { IsName self.now }
    {
        &self.bytes
    }

    /// The same name once more.
    pub fn copy(&self, alloc: Global) -> Result<Name, Want>
        ensures { IfOk result (λ n. n ≡ self.now) }
    {
        Ok(Name {
            bytes: Vec::from_slice(alloc, &self.bytes)?,
        })
    }
}
