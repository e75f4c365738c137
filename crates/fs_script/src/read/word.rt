//! The words of an operation, one by one.

ghost use Rattle.std.specs.Prelude.{◌≡◌};
ghost use Rattle.fs_script.specs.declared.read.line_fault.LineFault.TheVariants.{Want};
ghost use Rattle.fs_script.specs.Reading.Words.{rank_of, path_of, place_of};
ghost use Rattle.fs_script.specs.Reading.Words.{number_up_to, span_of, length_of};
ghost use Rattle.fs_script.specs.Reading.Words.{text_of, pattern_of, data_of};
ghost use Rattle.fs_script.specs.Returned.{Gives};

use crate::fault::Reason;
use crate::limits::TRANSFER_LIMIT;
use crate::line::Data;
use crate::read::line_fault::LineFault;
use crate::read::number::read_number;
use crate::read::tokens::Tokens;
use crate::shape::Shape;
use crate::text_bytes::TextBytes;
use fs_types::{LONGEST_FILE, Path, PathFault, Rank};
use std::alloc::Global;

/// A client of the job.
pub fn rank(shape: &Shape, word: &[u8]) -> Result<Rank, LineFault>
    ensures { result ≡ rank_of shape.now word.now }
{
    let rank = read_number(word).ok_or(LineFault::Bad(Reason::Rank))?;
    if rank >= u64::from(shape.clients) {
        return Err(LineFault::Bad(Reason::Rank));
    }
    Ok(Rank(rank as u32))
}

pub fn path(alloc: Global, word: &[u8]) -> Result<Path, LineFault>
    ensures { Gives Want (λ p. p) result (path_of word.now) }
{
    match Path::read(alloc, word) {
        Ok(path) => Ok(path),
        Err(PathFault::BadPath) => Err(LineFault::Bad(Reason::Path)),
        Err(PathFault::Want) => Err(LineFault::Want),
    }
}

/// A place in a file.
pub fn place(word: &[u8]) -> Result<u64, LineFault>
    ensures { result ≡ place_of word.now }
{
    read_number(word).ok_or(LineFault::Bad(Reason::Number))
}

/// A number that is no more than `most`.
fn number_up_to(most: u64, word: &[u8]) -> Result<u64, LineFault>
    ensures { result ≡ number_up_to most word.now }
{
    let number = read_number(word).ok_or(LineFault::Bad(Reason::Number))?;
    if number > most {
        return Err(LineFault::OverLimit);
    }
    Ok(number)
}

/// How many bytes a read asks for.
pub fn span(word: &[u8]) -> Result<u64, LineFault>
    ensures { result ≡ span_of word.now }
{
    number_up_to(TRANSFER_LIMIT, word)
}

/// How long a file is to be.
pub fn length(word: &[u8]) -> Result<u64, LineFault>
    ensures { result ≡ length_of word.now }
{
    number_up_to(LONGEST_FILE, word)
}

/// A payload that is written out.
fn text(alloc: Global, bytes: &[u8]) -> Result<Data, LineFault>
    ensures { Gives Want (λ d. d) result (text_of bytes.now) }
{
    if !TextBytes::holds(bytes) {
        return Err(LineFault::Bad(Reason::Data));
    }
    if bytes.len() as u64 > TRANSFER_LIMIT {
        return Err(LineFault::OverLimit);
    }
    Ok(Data::Text(TextBytes::from_slice(alloc, bytes)?))
}

/// A payload that is computed, from its seed and its length.
fn pattern(words: Tokens<'_>) -> Result<Data, LineFault>
    ensures { result ≡ pattern_of words.entry }
{
    let (seed, len) = words.two().ok_or(LineFault::Bad(Reason::Data))?;
    let seed = read_number(seed).ok_or(LineFault::Bad(Reason::Data))?;
    let len = read_number(len).ok_or(LineFault::Bad(Reason::Data))?;
    if len > TRANSFER_LIMIT {
        return Err(LineFault::OverLimit);
    }
    let len = len as u32;
    Ok(Data::Pattern { seed, len })
}

/// The payload of a write.
pub fn data(alloc: Global, word: &[u8]) -> Result<Data, LineFault>
    ensures { Gives Want (λ d. d) result (data_of word.now) }
{
    if let Some(bytes) = word.strip_prefix(b"t:") {
        text(alloc, bytes)
    } else if let Some(numbers) = word.strip_prefix(b"p:") {
        pattern(Tokens::new(b':', numbers))
    } else {
        Err(LineFault::Bad(Reason::Data))
    }
}
