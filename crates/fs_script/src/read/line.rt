//! The lines after the header.

ghost use Rattle.std.specs.Prelude.{◌≡◌};
ghost use Rattle.fs_script.specs.declared.read.line_fault.LineFault.TheVariants.{Want};
ghost use Rattle.fs_script.specs.declared.read.op_kind.OpKind.TheVariants as kinds;
ghost use Rattle.fs_script.specs.Grammar.{is_note};
ghost use Rattle.fs_script.specs.Reading.Lines.{path_alone, read_of, op_of_kind, op_of_words};
ghost use Rattle.fs_script.specs.Reading.Lines.{op_line_of, line_of};
ghost use Rattle.fs_script.specs.Returned.{Gives};

use crate::fault::Reason;
use crate::line::{Line, Op, OpLine};
use crate::read::line_fault::LineFault;
use crate::read::op_kind::OpKind;
use crate::read::tokens::Tokens;
use crate::read::word::{data, length, path, place, rank, span};
use crate::shape::Shape;
use fs_types::Path;
use std::alloc::Global;

/// The path of an operation that has no other word.
fn path_alone(alloc: Global, words: Tokens<'_>) -> Result<Path, LineFault>
    ensures { Gives Want (λ p. p) result (path_alone words.entry) }
{
    let word = words.one().ok_or(LineFault::Bad(Reason::Words))?;
    path(alloc, word)
}

/// A write and its path, from the words after its name.
fn write(alloc: Global, words: Tokens<'_>) -> Result<(Path, Op), LineFault>
    ensures { Gives Want (λ x. x) result (op_of_kind kinds.Write words.entry) }
{
    let (name, off, text) = words.three().ok_or(LineFault::Bad(Reason::Words))?;
    let path = path(alloc, name)?;
    let off = place(off)?;
    let text = data(alloc, text)?;
    Ok((path, Op::Write { off, text }))
}

/// A read and its path, from the words after its name.
fn read(alloc: Global, own: bool, words: Tokens<'_>) -> Result<(Path, Op), LineFault>
    ensures { Gives Want (λ x. x) result (read_of own words.entry) }
{
    let (name, off, len) = words.three().ok_or(LineFault::Bad(Reason::Words))?;
    let path = path(alloc, name)?;
    let off = place(off)?;
    let len = span(len)?;
    Ok((path, Op::Read { off, len, own }))
}

/// A truncation and its path, from the words after its name.
fn trunc(alloc: Global, words: Tokens<'_>) -> Result<(Path, Op), LineFault>
    ensures { Gives Want (λ x. x) result (op_of_kind kinds.Trunc words.entry) }
{
    let (name, n) = words.two().ok_or(LineFault::Bad(Reason::Words))?;
    let path = path(alloc, name)?;
    let n = length(n)?;
    Ok((path, Op::Trunc { n }))
}

/// An operation of this kind and its path, from the words after its name.
fn op_of_kind(alloc: Global, kind: OpKind, words: Tokens<'_>) -> Result<(Path, Op), LineFault>
    ensures { Gives Want (λ x. x) result (op_of_kind kind words.entry) }
{
    match kind {
        OpKind::Create => Ok((path_alone(alloc, words)?, Op::Create)),
        OpKind::Open => Ok((path_alone(alloc, words)?, Op::Open)),
        OpKind::Write => write(alloc, words),
        OpKind::Sync => Ok((path_alone(alloc, words)?, Op::Sync)),
        OpKind::Read => read(alloc, false, words),
        OpKind::ReadOwn => read(alloc, true, words),
        OpKind::Size => Ok((path_alone(alloc, words)?, Op::Size)),
        OpKind::Trunc => trunc(alloc, words),
        OpKind::Laminate => Ok((path_alone(alloc, words)?, Op::Laminate)),
        OpKind::Unlink => Ok((path_alone(alloc, words)?, Op::Unlink)),
    }
}

/// An operation and its path, from the words after the client.
fn op(alloc: Global, mut words: Tokens<'_>) -> Result<(Path, Op), LineFault>
    ensures { Gives Want (λ x. x) result (op_of_words words.entry) }
{
    let name = words.next().ok_or(LineFault::Bad(Reason::Op))?;
    let kind = OpKind::of(name).ok_or(LineFault::Bad(Reason::Op))?;
    op_of_kind(alloc, kind, words)
}

/// An operation of a client, from all words of its line.
fn op_line(alloc: Global, shape: &Shape, mut words: Tokens<'_>) -> Result<Line, LineFault>
    ensures { Gives Want (λ l. l) result (op_line_of shape.now words.entry) }
{
    let first = words.next().ok_or(LineFault::Bad(Reason::Rank))?;
    let rank = rank(shape, first)?;
    let (path, op) = op(alloc, words)?;
    Ok(Line::Op(OpLine { rank, path, op }))
}

fn is_note(text: &[u8]) -> bool
    ensures { result ≡ is_note text.now }
{
    matches!(text, [] | [b'#', ..])
}

/// The line that a text says.
pub fn line(alloc: Global, shape: &Shape, text: &[u8]) -> Result<Line, LineFault>
    ensures { Gives Want (λ l. l) result (line_of shape.now text.now) }
{
    if is_note(text) {
        Ok(Line::Note)
    } else if text == b"barrier".as_slice() {
        Ok(Line::Barrier)
    } else {
        op_line(alloc, shape, Tokens::new(b' ', text))
    }
}
