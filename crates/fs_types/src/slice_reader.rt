//! Readers of pieces whose bytes are in memory.

ghost use Rattle.std.specs.Prelude.{◌≡◌, ℕ, List, true};

use crate::dev_fault::DevFault;
use crate::number::Rank;
use crate::piece_reader::PieceReader;
use std::sync::Wait;

/// A reader of a slice, which never fails.
#[derive(Debug, Drop)]
pub struct SliceReader<'a> {
    bytes: &'a [u8],
    rank: Rank,
}

impl<'a> SliceReader<'a> {
    /// A reader of a piece of this client, whose bytes these are.
    pub fn new(bytes: &'a [u8], rank: Rank) -> SliceReader<'a>
        ensures bytes { result.bytes.now ≡ bytes.now }
        ensures rank { result.rank ≡ rank }
    {
        SliceReader { bytes, rank }
    }
}

impl<'a> PieceReader for SliceReader<'a> {
    ghost Origin = { List ℕ };

    ghost origin = { λ r. r.bytes.now };

    ghost content = { λ r. r.bytes.now };

    ghost is_told = { λ _. true };

    ghost rank = { λ r. r.rank };

    ghost faults = { λ _. 0 };

    fn read<R: Wait>(&mut self, _rt: &R, from: u32, out: &mut [u8]) -> Result<(), DevFault> {
        let start = from as usize;
        out.copy_from_slice(&self.bytes[start..start + out.len()]);
        Ok(())
    }
}
