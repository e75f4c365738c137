//! Reading a script: from its bytes to a job, or to the first fault.

ghost use Rattle.std.specs.Prelude.{◌≡◌, ◌≤◌, ◌<◌, ◌⊎◌, length, Ok, Err, IfOk, IfErr};
ghost use Rattle.fs_script.specs.declared.fault.ScriptFault.TheVariants.{Want};
ghost use Rattle.fs_script.specs.declared.limits.TheConstants.{LINE_LIMIT, SCRIPT_LIMIT};
ghost use Rattle.fs_script.specs.Job.{Job};
ghost use Rattle.fs_script.specs.Grammar.{IsScript};
ghost use Rattle.fs_script.specs.Reading.Tokens.{lines_of};
ghost use Rattle.fs_script.specs.Reading.Lines.{line_of};
ghost use Rattle.fs_script.specs.Reading.Scripts.{numbered, lines_from, lines_after_header, job_of};
ghost use Rattle.fs_script.specs.Returned.{Gives};

mod header;
mod line;
mod line_fault;
mod lines;
mod number;
mod op_kind;
mod tokens;
mod word;

use crate::fault::ScriptFault;
use crate::limits::{LINE_LIMIT, SCRIPT_LIMIT};
use crate::line::Line;
use crate::script::Script;
use crate::shape::Shape;
use fs_types::LineNo;
use header::header;
use line::line;
use lines::{line_count, next_line};
pub use number::read_number;
use std::alloc::Global;

/// What the line of this number says, or the script's fault.
fn numbered(alloc: Global, shape: &Shape, n: LineNo, text: &[u8]) -> Result<Line, ScriptFault>
    ensures { Gives Want (λ l. l) result (numbered n (line_of shape.now text.now)) }
{
    match line(alloc, shape, text) {
        Ok(line) => Ok(line),
        Err(fault) => Err(fault.at(n)),
    }
}

/// The lines that the text says, of which the first is line 2 of the script.
fn lines_from_second(alloc: Global, shape: &Shape, text: &[u8]) -> Result<Vec<Line>, ScriptFault>
    requires { length (lines_of text.now) < LINE_LIMIT }
    ensures { Gives Want (λ v. v.items) result (lines_from shape.now 2 (lines_of text.now)) }
{
    let mut lines = Vec::new(alloc);
    let mut rest = text;
    while let Some((first, others)) = next_line(rest) {
        let number = LineNo(lines.len() as u32 + 2);
        lines.push(numbered(alloc, shape, number, first)?)?;
        rest = others;
    }
    Ok(lines)
}

/// The lines after the header, where they are few enough.
fn lines_after_header(alloc: Global, shape: &Shape, text: &[u8]) -> Result<Vec<Line>, ScriptFault>
    ensures { Gives Want (λ v. v.items) result (lines_after_header shape.now (lines_of text.now)) }
{
    if line_count(text) >= LINE_LIMIT {
        return Err(ScriptFault::TooManyLines);
    }
    lines_from_second(alloc, shape, text)
}

/// The job that the text spells, where it isn't too long.
fn script(alloc: Global, text: &[u8]) -> Result<Script, ScriptFault>
    requires { length text.now ≤ SCRIPT_LIMIT }
    ensures { Gives Want (λ s. s) result (job_of text.now) }
{
    let (first, others) = next_line(text).ok_or(ScriptFault::BadHeader)?;
    let shape = header(first)?;
    let lines = lines_after_header(alloc, &shape, others)?;
    Ok(Script::new(alloc, shape, lines)?)
}

/// The job that the bytes spell, or the first fault.
pub fn read_script(alloc: Global, b: &[u8]) -> Result<Script, ScriptFault>
    ensures ok { IfOk result (λ s. IsScript b.now s) }
    ensures only { (s : Job) → IsScript b.now s
        → (result ≡ Ok s) ⊎ (result ≡ Err ScriptFault.Want) }
    ensures fault { IfErr result (λ e. (e ≡ ScriptFault.Want) ⊎ (job_of b.now ≡ Err e)) }
{
    if b.len() > SCRIPT_LIMIT {
        return Err(ScriptFault::TooLong);
    }
    script(alloc, b)
}
