//! The lines of answers.

ghost use Rattle.std.specs.Prelude.{◌≡◌, ◌++◌, OnOk};
ghost use Rattle.std.specs.List.{flat_map};
ghost use Rattle.fs_script.specs.Text.{answer_line, answer_words, body_text};
ghost use Rattle.fs_script.specs.Grammar.{spaced};

use crate::parts::{append_flag, append_hex, append_number};
use fs_types::{Answer, Answers, Body, LineNo, Want};
use std::alloc::Global;

fn append_body(alloc: Global, out: &mut Vec<u8>, body: &Body) -> Result<(), Want>
    ensures { OnOk result (out.new.items ≡ out.old.items ++ body_text body.now) }
{
    match body {
        Body::Hex(bytes) => append_hex(alloc, out, b"hex=", bytes.as_bytes()),
        Body::Md5(digest) => append_hex(alloc, out, b"md5=", &digest.0),
    }
}

fn append_answer(alloc: Global, out: &mut Vec<u8>, answer: &Answer) -> Result<(), Want>
    ensures { OnOk result (out.new.items ≡ out.old.items ++ spaced (answer_words answer.now)) }
{
    match answer {
        Answer::Done { v } => append_number(out, b"ok v=", v.0)?,
        Answer::Wrote { slots } => append_number(out, b"ok slots=", u64::from(*slots))?,
        Answer::Staged { v, n, slots } => {
            append_number(out, b"ok v=", v.0)?;
            append_number(out, b" n=", *n)?;
            append_number(out, b" slots=", u64::from(*slots))?;
        }
        Answer::Sized { v, n, frozen } => {
            append_number(out, b"ok v=", v.0)?;
            append_number(out, b" n=", *n)?;
            append_flag(out, *frozen)?;
        }
        Answer::Shown { v, n, body } => {
            append_number(out, b"ok v=", v.0)?;
            append_number(out, b" n=", *n)?;
            out.push(b' ')?;
            append_body(alloc, out, body)?;
        }
        Answer::BadF => out.extend_from_slice(b"badf")?,
        Answer::Exists { v } => append_number(out, b"exists v=", v.0)?,
        Answer::NoEnt { v } => append_number(out, b"noent v=", v.0)?,
        Answer::ReadOnly { v } => append_number(out, b"readonly v=", v.0)?,
        Answer::TooBig => out.extend_from_slice(b"toobig")?,
        Answer::TooBigAt { v } => append_number(out, b"toobig v=", v.0)?,
        Answer::NoSpace { need, free } => {
            append_number(out, b"nospace need=", *need)?;
            append_number(out, b" free=", *free)?;
        }
        Answer::DevFault { rank } => {
            append_number(out, b"devfault r=", u64::from(rank.0))?;
        }
    }
    Ok(())
}

fn append_answer_line(
    alloc: Global,
    out: &mut Vec<u8>,
    line: LineNo,
    answer: &Answer,
) -> Result<(), Want>
    ensures { OnOk result (out.new.items ≡ out.old.items ++ answer_line (line, answer.now)) }
{
    append_number(out, b"L ", u64::from(line.0))?;
    out.push(b' ')?;
    append_answer(alloc, out, answer)?;
    out.push(b'\n')?;
    Ok(())
}

/// Appends the line of each answer, the lowest line first.
pub fn append_answers(alloc: Global, out: &mut Vec<u8>, answers: &Answers) -> Result<(), Want>
    ensures { OnOk result (out.new.items ≡ out.old.items ++ flat_map answer_line answers.now.list) }
{
    for n in 1..=answers.lines() {
        let line = LineNo(n);
        if let Some(answer) = answers.get(line) {
            append_answer_line(alloc, out, line, answer)?;
        }
    }
    Ok(())
}
