//! What a line writes, put over the bytes of a file, block by block.

ghost use Rattle.std.specs.Prelude.{◌≡◌, ◌+◌, ◌-◌, ◌%◌, ◌≤◌, ◌<◌, length, take, drop, nat_le};
ghost use Rattle.std.specs.Prelude.{IsSome, IfOk, OnOk};
ghost use Rattle.fs_types.specs.Overwrite.{put};
ghost use Rattle.fs_types.specs.PlainFile.{written};
ghost use Rattle.fs_types.specs.declared.limits.TheConstants.{LONGEST_FILE};
ghost use Rattle.fs_script.specs.Payload.{offset, payload, write_at};

use crate::limits::BLOCK;
use crate::lines::write_offset;
use crate::sparse_bytes::SparseBytes;
use fs_script::Script;
use fs_types::{LONGEST_FILE, LineNo, Want};
use std::alloc::Global;

// How many bytes there are from place `at` to the end of its block.
fn rest_of_block(at: u64) -> u64
    ensures some { 0 < result }
    ensures rest { at % BLOCK + result ≡ BLOCK }
{
    BLOCK as u64 - at % BLOCK as u64
}

// Puts what line `n` writes from its byte `from` on, to the end of the block where that stands, and
// says how far it has come.
fn put_next_part(
    alloc: Global,
    s: &Script,
    n: LineNo,
    off: u64,
    from: u64,
    bytes: &mut SparseBytes,
) -> Result<u64, Want>
    requires is_write { IsSome (write_at s.now n) }
    requires some { from < length (payload s.now n) }
    requires within { off + length (payload s.now n) ≤ LONGEST_FILE }
    ensures more { IfOk result (λ to. from < to) }
    ensures to_end { IfOk result (λ to. to ≤ length (payload s.now n)) }
    ensures bytes { IfOk result (λ to. bytes.new ≡ put 0 bytes.old (off + from)
        (take (to - from) (drop from (payload s.now n)))) }
{
    let count = rest_of_block(off + from).min(s.payload_len(n) - from);
    let mut part = [0; BLOCK];
    let part = &mut part[..count as usize];
    s.payload_into(n, from, part);
    bytes.put(alloc, off + from, part)?;
    Ok(from + count)
}

// Puts what line `n` writes from place `off` of the file on.
#[tactic(auto, using(crate::proofs::ConsecutivePuts::consecutive_puts))]
fn put_payload(
    alloc: Global,
    s: &Script,
    n: LineNo,
    off: u64,
    bytes: &mut SparseBytes,
) -> Result<(), Want>
    requires is_write { IsSome (write_at s.now n) }
    requires within { off + length (payload s.now n) ≤ LONGEST_FILE }
    ensures { OnOk result (bytes.new ≡ put 0 bytes.old off (payload s.now n)) }
{
    let len = s.payload_len(n);
    let mut from = 0;
    while from < len {
        from = put_next_part(alloc, s, n, off, from, bytes)?;
    }
    Ok(())
}

// Whether so many bytes from a place on end within the longest file.
fn ends_within(off: u64, len: u64) -> bool
    ensures { result ≡ nat_le (off + len) LONGEST_FILE }
{
    off <= LONGEST_FILE && len <= LONGEST_FILE - off
}

/// Puts what line `n` writes over the bytes of a file, unless it would end past the longest file.
/// Other lines change nothing.
pub fn put_line(alloc: Global, s: &Script, n: LineNo, bytes: &mut SparseBytes) -> Result<(), Want>
    ensures { OnOk result (bytes.new ≡ written 0 bytes.old (offset s.now n) (payload s.now n)) }
{
    match write_offset(s, n) {
        Some(off) if ends_within(off, s.payload_len(n)) => put_payload(alloc, s, n, off, bytes),
        Some(_) | None => Ok(()),
    }
}
