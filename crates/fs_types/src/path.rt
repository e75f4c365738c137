//! Paths of the shared namespace, and their grammar.

ghost use Rattle.std.specs.Prelude.{◌≡◌, ◌↔◌, IfOk, OnOk, IsTrue, IsErrOf};
ghost use Rattle.std.specs.List.{list_all};
ghost use Rattle.fs_types.specs.PathText.{IsPath, between_slashes, is_component};
ghost use Rattle.fs_types.specs.PathText.{is_name_character, is_path};

use crate::limits::LONGEST_PATH;
use crate::want::Want;
use std::alloc::{AllocError, Global};
use std::marker::Model;
use thiserror::Error;

/// A path of the shared namespace: 10 to 255 bytes that begin with `/unifyfs/`. A clause sees the
/// list of its bytes.
#[derive(Debug, Drop)]
pub struct Path {
    bytes: Vec<u8>,
}

impl Model for Path {
    ghost use Rattle.std.specs.Prelude.{ℕ, List};
    ghost use Rattle.fs_types.specs.PathText.{IsPath};

    ghost Value = { List ℕ };

    ghost view = { λ p. p.bytes.items };

    ghost invariant = { λ p. IsPath p.bytes.items };
}

/// Why a path could not be made.
#[derive(Clone, Copy, Debug, Drop, PartialEq, Eq, Error)]
pub enum PathFault {
    /// The bytes are outside the grammar of paths.
    #[error("not a path")]
    BadPath,
    /// Memory ran out.
    #[error("out of memory")]
    Want,
}

pub(crate) fn is_name_character(b: u8) -> bool
    ensures { result ≡ is_name_character b }
{
    b.is_ascii_alphanumeric() || b == b'.' || b == b'_' || b == b'-'
}

fn has_name_characters(text: &[u8]) -> bool
    ensures { result ≡ list_all is_name_character text.now }
{
    text.iter().all(|b| is_name_character(*b))
}

fn is_component_text(part: &[u8]) -> bool
    ensures { result ≡ is_component part.now }
{
    !part.is_empty()
        && has_name_characters(part)
        && part != b".".as_slice()
        && part != b"..".as_slice()
}

fn are_components(text: &[u8]) -> bool
    ensures { result ≡ list_all is_component (between_slashes text.now) }
{
    text.split(|b| *b == b'/').all(is_component_text)
}

fn is_path_text(b: &[u8]) -> bool
    ensures { result ≡ is_path b.now }
{
    b.len() <= LONGEST_PATH && b.starts_with(b"/unifyfs/") && are_components(&b[9..])
}

impl Path {
    /// The path that the bytes spell.
    pub fn read(alloc: Global, b: &[u8]) -> Result<Path, PathFault>
        ensures ok { IfOk result (λ p. p ≡ b.now) }
        ensures in_grammar { OnOk result (IsPath b.now) }
        ensures bad { IsErrOf result PathFault.BadPath → ¬ (IsPath b.now) }
    {
        if !is_path_text(b) {
            return Err(PathFault::BadPath);
        }
        match Vec::from_slice(alloc, b) {
            Ok(bytes) => Ok(Path { bytes }),
            Err(_) => Err(PathFault::Want),
        }
    }

    /// The bytes, which are within the grammar.
    pub fn as_bytes(&self) -> &[u8]
        ensures bytes { result.now ≡ self.now }
        ensures in_grammar { IsPath self.now }
    {
        &self.bytes
    }

    /// The same path once more.
    pub fn copy(&self, alloc: Global) -> Result<Path, Want>
        ensures { IfOk result (λ p. p ≡ self.now) }
    {
        Ok(Path {
            bytes: Vec::from_slice(alloc, &self.bytes)?,
        })
    }
}
