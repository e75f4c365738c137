//! The lines of a script.

ghost use Rattle.std.specs.Prelude.{◌≡◌, ◌+◌, ◌≤◌, length, take, drop, map};
ghost use Rattle.std.specs.List.{range_with_len};
ghost use Rattle.fs_script.specs.declared.limits.TheConstants.{TRANSFER_LIMIT};
ghost use Rattle.fs_script.specs.Payload.{pattern_byte};

use crate::text_bytes::TextBytes;
use fs_types::{Path, Rank};

/// A line of the script after the header.
#[derive(Debug, Drop)]
pub enum Line {
    /// An empty line or a comment.
    Note,
    /// The end of a phase.
    Barrier,
    Op(OpLine),
}

/// An operation of one client on one path.
#[derive(Debug, Drop)]
pub struct OpLine {
    pub rank: Rank,
    pub path: Path,
    pub op: Op,
}

/// What a client does with a path.
#[derive(Debug, Drop)]
pub enum Op {
    /// Makes an empty file.
    Create,
    /// Opens a file that is there.
    Open,
    /// Writes bytes into the client's own log.
    Write { off: u64, text: Data },
    /// Commits the client's pending writes at the file's owner.
    Sync,
    /// Reads at most `len` bytes from `off` on; where it is `own`, of the file with the client's
    /// pending writes put over it.
    Read { off: u64, len: u64, own: bool },
    /// Asks how long the file is, and whether it is frozen.
    Size,
    /// Commits the client's pending writes, and then cuts the file to `n` bytes or fills it up with
    /// zeros.
    Trunc { n: u64 },
    /// Commits the client's pending writes, and then freezes the file.
    Laminate,
    /// Takes the file away, and drops the client's pending writes.
    Unlink,
}

/// The bytes that a write brings.
#[derive(Debug, Drop)]
pub enum Data {
    /// Written out in the script.
    Text(TextBytes),
    /// Computed from a seed, so many.
    Pattern { seed: u64, len: u32 },
}

/// Byte `i` of the pattern of a seed.
fn pattern_byte(seed: u64, i: u64) -> u8
    requires { i ≤ TRANSFER_LIMIT }
    ensures { result ≡ pattern_byte seed i }
{
    ((seed % 256 + 31 * i + i / 256) % 256) as u8
}

/// Fills `out` with the pattern of a seed, from the byte at `from` on.
fn fill_pattern(seed: u64, from: u64, out: &mut [u8])
    requires { from + length out.old ≤ TRANSFER_LIMIT }
    ensures { out.new
        ≡ map (λ k. pattern_byte seed (from + k)) (range_with_len 0 (length out.old)) }
{
    let mut place = from;
    for byte in out.iter_mut() {
        *byte = pattern_byte(seed, place);
        place += 1;
    }
}

impl Data {
    ghost use Rattle.fs_script.specs.Payload.{data_bytes};

    /// How many bytes there are.
    pub fn len(&self) -> u64
        ensures { result ≡ length (data_bytes self.now) }
    {
        match self {
            Data::Text(text) => text.as_bytes().len() as u64,
            Data::Pattern { len, .. } => u64::from(*len),
        }
    }

    /// Copies the bytes from the one at `from` on, until `out` is full.
    pub(crate) fn copy_into(&self, from: u64, out: &mut [u8])
        requires within { from + length out.old ≤ length (data_bytes self.now) }
        requires few { length (data_bytes self.now) ≤ TRANSFER_LIMIT }
        ensures { out.new ≡ take (length out.old) (drop from (data_bytes self.now)) }
    {
        match self {
            Data::Text(text) => {
                let from = from as usize;
                out.copy_from_slice(&text.as_bytes()[from..from + out.len()]);
            }
            Data::Pattern { seed, .. } => fill_pattern(*seed, from, out),
        }
    }
}
