//! The bytes of a file, most of which may be 0.

ghost use Rattle.std.specs.Prelude.{◌≡◌, ℕ, ◌+◌, ◌/◌, ◌%◌, ◌≤◌, ◌<◌, nat_le, if◌then◌else◌, []};
ghost use Rattle.std.specs.Prelude.{length, slice_index, OnOk, OnErr};
ghost use Rattle.fs_types.specs.Overwrite.{cut, put};
ghost use Rattle.fs_types.specs.declared.limits.TheConstants.{LONGEST_FILE};
ghost use Rattle.fs_plain.specs.Blocks.{KeepsBytesBefore, PutsBytes, byte_at};

use crate::block::Block;
use crate::limits::BLOCK;
use fs_types::{LONGEST_FILE, Want};
use std::alloc::Global;
use std::collections::BTreeMap;
use std::marker::Model;

/// Bytes, of which only blocks with a byte other than 0 are kept. A clause sees the list of them.
#[derive(Debug, Drop)]
pub struct SparseBytes {
    /// How many bytes there are.
    len: u64,
    /// The blocks by number, and no block of zeros alone.
    blocks: BTreeMap<u64, Block>,
}

impl Model for SparseBytes {
    ghost use Rattle.std.specs.Prelude.{ℕ, List};
    ghost use Rattle.fs_plain.specs.Blocks.{first_bytes, AreZerosFrom};

    ghost Value = { List ℕ };

    ghost view = { λ b. first_bytes b.blocks.entries b.len };

    ghost invariant = { λ b. AreZerosFrom b.blocks.entries b.len };
}

// Puts bytes from place `at` on, which lie in one block.
fn put_in_block(
    alloc: Global,
    blocks: &mut BTreeMap<u64, Block>,
    at: u64,
    bytes: &[u8],
) -> Result<(), Want>
    requires { at % BLOCK + length bytes.now ≤ BLOCK }
    ensures ok { OnOk result (PutsBytes at bytes.now
        (byte_at blocks.old.entries) (byte_at blocks.new.entries)) }
    ensures err { OnErr result (blocks.new.entries ≡ blocks.old.entries) }
{
    let number = at / BLOCK as u64;
    let place = (at % BLOCK as u64) as usize;
    match Block::with_bytes(alloc, blocks.get(&number), place, bytes)? {
        Some(block) => {
            blocks.insert(number, block)?;
        }
        None => {
            blocks.remove(&number);
        }
    }
    Ok(())
}

// Drops every block after this one.
fn drop_blocks_after(blocks: &mut BTreeMap<u64, Block>, last: u64)
    ensures { (k : ℕ) → byte_at blocks.new.entries k
        ≡ (if nat_le (k / BLOCK) last then byte_at blocks.old.entries k else 0) }
{
    blocks.retain(|number, _| *number <= last);
}

// Leaves the bytes before place `n`, and zeros from there on.
fn clear_from(alloc: Global, blocks: &mut BTreeMap<u64, Block>, n: u64) -> Result<(), Want>
    ensures ok { OnOk result (KeepsBytesBefore n
        (byte_at blocks.old.entries) (byte_at blocks.new.entries)) }
    ensures err { OnErr result (blocks.new.entries ≡ blocks.old.entries) }
{
    let zeros = [0; BLOCK];
    put_in_block(alloc, blocks, n, &zeros[(n % BLOCK as u64) as usize..])?;
    drop_blocks_after(blocks, n / BLOCK as u64);
    Ok(())
}

impl SparseBytes {
    /// No bytes. It takes no memory.
    pub fn new(alloc: Global) -> SparseBytes
        ensures { result ≡ [] }
    {
        SparseBytes {
            len: 0,
            blocks: BTreeMap::new(alloc),
        }
    }

    /// How many bytes there are.
    #[tactic(auto, using(crate::proofs::Blocks::list_laws))]
    pub fn len(&self) -> u64
        ensures { result ≡ length self.now }
    {
        self.len
    }

    /// The byte at a place.
    #[tactic(auto, using(crate::proofs::Blocks::list_laws))]
    pub fn byte(&self, at: u64) -> u8
        requires { at < length self.now }
        ensures { result ≡ slice_index self.now at }
    {
        match self.blocks.get(&(at / BLOCK as u64)) {
            Some(block) => block.byte((at % BLOCK as u64) as usize),
            None => 0,
        }
    }

    /// Puts bytes that lie in one block over what is there, from place `at` on, with zeros in a
    /// gap before them.
    #[tactic(auto, using(crate::proofs::Blocks::put_laws))]
    pub fn put(&mut self, alloc: Global, at: u64, bytes: &[u8]) -> Result<(), Want>
        requires some { 0 < length bytes.now }
        requires one_block { at % BLOCK + length bytes.now ≤ BLOCK }
        requires within { at + length bytes.now ≤ LONGEST_FILE }
        ensures ok { OnOk result (self.new ≡ put 0 self.old at bytes.now) }
        ensures err { OnErr result (self.new ≡ self.old) }
    {
        put_in_block(alloc, &mut self.blocks, at, bytes)?;
        self.len = self.len.max(at + bytes.len() as u64);
        Ok(())
    }

    /// Leaves the first `n` bytes, with zeros after them where there are fewer.
    #[tactic(auto, using(crate::proofs::Blocks::cut_laws))]
    pub fn cut(&mut self, alloc: Global, n: u64) -> Result<(), Want>
        ensures ok { OnOk result (self.new ≡ cut 0 self.old n) }
        ensures err { OnErr result (self.new ≡ self.old) }
    {
        if n < self.len {
            clear_from(alloc, &mut self.blocks, n)?;
        }
        self.len = n;
        Ok(())
    }

    /// How many blocks are kept.
    #[cfg(test)]
    pub fn blocks(&self) -> usize {
        self.blocks.len()
    }
}
