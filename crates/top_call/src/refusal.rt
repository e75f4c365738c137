//! What is written where the program does not run a job.

ghost use Rattle.std.specs.Prelude.{◌≡◌, ◌++◌, IfOk, OnOk};
ghost use Rattle.top_call.specs.UsageAndRefusals.{reason_text, refusal_line, usage_line};

use fs_report::append_number;
use fs_script::{Reason, ScriptFault};
use fs_types::{LineNo, Want};
use std::alloc::Global;

/// What is written for words that are no command.
pub fn usage_text() -> &'static [u8]
    ensures { result.now ≡ usage_line }
{
    b"usage: unifyfs sim SEED | run | check NAME | load N | stage NAME\n"
}

fn reason_text(reason: Reason) -> &'static [u8]
    ensures { result.now ≡ reason_text reason }
{
    match reason {
        Reason::Rank => b"rank",
        Reason::Op => b"op",
        Reason::Words => b"words",
        Reason::Path => b"path",
        Reason::Number => b"number",
        Reason::Data => b"data",
    }
}

fn append_over_limit(out: &mut Vec<u8>, line: LineNo) -> Result<(), Want>
    ensures { OnOk result
        (out.new.items ≡ out.old.items ++ refusal_line (ScriptFault.OverLimit line)) }
{
    append_number(out, b"refused limit line=", u64::from(line.0))?;
    out.push(b'\n')?;
    Ok(())
}

fn append_bad_line(out: &mut Vec<u8>, line: LineNo, reason: Reason) -> Result<(), Want>
    ensures { OnOk result
        (out.new.items ≡ out.old.items ++ refusal_line (ScriptFault.BadLine line reason)) }
{
    append_number(out, b"refused line=", u64::from(line.0))?;
    out.extend_from_slice(b" reason=")?;
    out.extend_from_slice(reason_text(reason))?;
    out.push(b'\n')?;
    Ok(())
}

fn append_refusal(out: &mut Vec<u8>, fault: &ScriptFault) -> Result<(), Want>
    ensures { OnOk result (out.new.items ≡ out.old.items ++ refusal_line fault.now) }
{
    match fault {
        ScriptFault::TooLong => out.extend_from_slice(b"refused long\n")?,
        ScriptFault::TooManyLines => out.extend_from_slice(b"refused lines\n")?,
        ScriptFault::BadHeader => out.extend_from_slice(b"refused header\n")?,
        ScriptFault::OverLimit { line } => append_over_limit(out, *line)?,
        ScriptFault::BadLine { line, reason } => append_bad_line(out, *line, *reason)?,
        ScriptFault::Want => {}
    }
    Ok(())
}

/// The line that says why a script is refused. Want of memory is no refusal, and has none.
pub fn refusal_text(alloc: Global, fault: &ScriptFault) -> Result<Vec<u8>, Want>
    ensures { IfOk result (λ v. v.items ≡ refusal_line fault.now) }
{
    let mut out = Vec::new(alloc);
    append_refusal(&mut out, fault)?;
    Ok(out)
}
