//! The blocks of a file that are kept, each with a byte that isn't 0.

ghost use Rattle.std.specs.Prelude.{◌≡◌, ℕ, ◌+◌, ◌≤◌, ◌<◌, length, replicate, slice_index};
ghost use Rattle.std.specs.Prelude.{option_copied, IfOk};
ghost use Rattle.fs_plain.specs.Blocks.{PutsBytes, byte_in, is_blank};

use crate::limits::BLOCK;
use fs_types::Want;
use std::alloc::{AllocError, Global};
use std::marker::Model;

/// [`BLOCK`] bytes, not all of them 0. A clause sees the list of them.
#[derive(Debug, Drop)]
pub struct Block {
    bytes: Vec<u8>,
}

impl Model for Block {
    ghost use Rattle.std.specs.Prelude.{ℕ, List};
    ghost use Rattle.fs_plain.specs.Blocks.{IsBlock};

    ghost Value = { List ℕ };

    ghost view = { λ b. b.bytes.items };

    ghost invariant = { λ b. IsBlock b.bytes.items };
}

fn is_blank(bytes: &[u8]) -> bool
    ensures { result ≡ is_blank bytes.now }
{
    bytes.iter().all(|b| *b == 0)
}

fn zeros(alloc: Global) -> Result<Vec<u8>, AllocError>
    ensures { IfOk result (λ v. v.items ≡ replicate BLOCK 0) }
{
    Ok(vec![in alloc; 0u8; BLOCK]?)
}

// The bytes of a block once more, zeros where none is kept.
fn bytes_of(alloc: Global, block: Option<&Block>) -> Result<Vec<u8>, AllocError>
    ensures len { IfOk result (λ v. length v.items ≡ BLOCK) }
    ensures bytes { IfOk result (λ v. (k : ℕ) → slice_index v.items k
        ≡ byte_in (option_copied block.entry) k) }
{
    match block {
        Some(block) => Vec::from_slice(alloc, &block.bytes),
        None => zeros(alloc),
    }
}

// Puts bytes over some of `all`, from place `at` on.
#[tactic(auto, using(crate::proofs::Blocks::part_laws))]
fn put_over(all: &mut [u8], at: usize, bytes: &[u8])
    requires { at + length bytes.now ≤ length all.old }
    ensures { PutsBytes at bytes.now (slice_index all.old) (slice_index all.new) }
{
    all[at..at + bytes.len()].copy_from_slice(bytes);
}

impl Block {
    // The block of these bytes, or `None` where they are zeros alone.
    #[tactic(auto, using(crate::proofs::Blocks::blank))]
    fn of(bytes: Vec<u8>) -> Option<Block>
        requires { length bytes.items ≡ BLOCK }
        ensures { (k : ℕ) → byte_in result k ≡ slice_index bytes.items k }
    {
        if is_blank(&bytes) {
            return None;
        }
        Some(Block { bytes })
    }

    /// A block with `bytes` put over it from place `at` on, or `None` where only zeros are left.
    pub fn with_bytes(
        alloc: Global,
        block: Option<&Block>,
        at: usize,
        bytes: &[u8],
    ) -> Result<Option<Block>, Want>
        requires { at + length bytes.now ≤ BLOCK }
        ensures { IfOk result (λ b. PutsBytes at bytes.now
            (byte_in (option_copied block.entry)) (byte_in b)) }
    {
        let mut all = bytes_of(alloc, block)?;
        put_over(&mut all, at, bytes);
        Ok(Block::of(all))
    }

    /// Byte `i` of the block.
    pub fn byte(&self, i: usize) -> u8
        requires { i < BLOCK }
        ensures { result ≡ slice_index self.now i }
    {
        self.bytes[i]
    }
}
