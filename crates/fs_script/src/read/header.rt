//! The header of a script.

ghost use Rattle.std.specs.Prelude.{◌≡◌};
ghost use Rattle.fs_script.specs.Reading.Headers.{field, are_few, is_chunk, is_shape};
ghost use Rattle.fs_script.specs.Reading.Headers.{within_limits, shape_of};
ghost use Rattle.fs_script.specs.Reading.Headers.{shape_of_words, header_of};

use crate::fault::ScriptFault;
use crate::limits::{
    CHUNK_UNIT, CLIENT_LIMIT, LEAST_CHUNK, MEMORY_BYTES, MEMORY_SLOTS, MOST_CHUNK, SERVER_LIMIT,
    SPILL_BYTES, SPILL_SLOTS,
};
use crate::read::number::read_number;
use crate::read::tokens::Tokens;
use crate::shape::Shape;
use fs_types::LineNo;

/// The number behind a name such as `servers=`.
fn field(name: &[u8], word: &[u8]) -> Result<u64, ScriptFault>
    ensures { result ≡ field name.now word.now }
{
    match word.strip_prefix(name) {
        Some(number) => read_number(number).ok_or(ScriptFault::BadHeader),
        None => Err(ScriptFault::BadHeader),
    }
}

/// Whether so many slots for each client are, over all clients, no more slots and no more bytes
/// than these.
fn are_few(clients: u64, chunk: u64, slots: u64, most_slots: u64, most_bytes: u64) -> bool
    ensures { result ≡ are_few clients chunk slots most_slots most_bytes }
{
    let Some(all) = clients.checked_mul(slots) else {
        return false;
    };
    let Some(bytes) = all.checked_mul(chunk) else {
        return false;
    };
    all <= most_slots && bytes <= most_bytes
}

/// Whether a job may have slots of this size.
fn is_chunk(chunk: u64) -> bool
    ensures { result ≡ is_chunk chunk }
{
    LEAST_CHUNK <= chunk && chunk <= MOST_CHUNK && chunk % CHUNK_UNIT == 0
}

/// The shape with these numbers, if a job may have them.
fn within_limits(
    servers: u64,
    clients: u64,
    chunk: u64,
    shmem: u64,
    spill: u64,
) -> Result<Shape, ScriptFault>
    ensures { result ≡ within_limits (record {
      servers = servers;
      clients = clients;
      chunk = chunk;
      shmem = shmem;
      spill = spill;
    }) }
{
    let is_shape = 1 <= servers
        && servers <= SERVER_LIMIT
        && 1 <= clients
        && clients <= CLIENT_LIMIT
        && is_chunk(chunk)
        && (1 <= shmem || 1 <= spill)
        && are_few(clients, chunk, shmem, MEMORY_SLOTS, MEMORY_BYTES)
        && are_few(clients, chunk, spill, SPILL_SLOTS, SPILL_BYTES);
    if !is_shape {
        return Err(ScriptFault::OverLimit { line: LineNo(1) });
    }
    Ok(Shape {
        servers: servers as u32,
        clients: clients as u32,
        chunk: chunk as u32,
        shmem: shmem as u32,
        spill: spill as u32,
    })
}

fn shape(
    servers: &[u8],
    clients: &[u8],
    chunk: &[u8],
    shmem: &[u8],
    spill: &[u8],
) -> Result<Shape, ScriptFault>
    ensures { result ≡ shape_of servers.now clients.now chunk.now shmem.now spill.now }
{
    let servers = field(b"servers=", servers)?;
    let clients = field(b"clients=", clients)?;
    let chunk = field(b"chunk=", chunk)?;
    let shmem = field(b"shmem=", shmem)?;
    let spill = field(b"spill=", spill)?;
    within_limits(servers, clients, chunk, shmem, spill)
}

/// The shape that the words say.
fn shape_of_words(mut words: Tokens<'_>) -> Result<Shape, ScriptFault>
    ensures { result ≡ shape_of_words words.entry }
{
    let servers = words.next().ok_or(ScriptFault::BadHeader)?;
    let clients = words.next().ok_or(ScriptFault::BadHeader)?;
    let (chunk, shmem, spill) = words.three().ok_or(ScriptFault::BadHeader)?;
    shape(servers, clients, chunk, shmem, spill)
}

/// The shape that the first line says.
pub fn header(line: &[u8]) -> Result<Shape, ScriptFault>
    ensures { result ≡ header_of line.now }
{
    match line.strip_prefix(b"unifyfs 1 ") {
        Some(words) => shape_of_words(Tokens::new(b' ', words)),
        None => Err(ScriptFault::BadHeader),
    }
}
