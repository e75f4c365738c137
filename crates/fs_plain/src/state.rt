//! The file that the lines of a journal make, one after the other.

ghost use Rattle.std.specs.Prelude.{◌≡◌, length, IfOk, OnOk};
ghost use Rattle.fs_types.specs.AnswerList.{answer_at};
ghost use Rattle.fs_script.specs.Payload.{bytes_of};
ghost use Rattle.fs_script.specs.Pending.{pending_at};
ghost use Rattle.fs_script.specs.Effect.{effect, effect_of, is_enabled, makes, state, with_lines};

use crate::lines::op_of;
use crate::pending::pending_of;
use crate::plain_file::PlainFile;
use fs_script::{Op, Script};
use fs_types::{Answers, LineNo, Path, Want};
use std::alloc::Global;

// Puts what these lines bring over the file, in order.
fn put_lines(alloc: Global, s: &Script, lines: &[LineNo], file: &mut PlainFile) -> Result<(), Want>
    ensures { OnOk result (file.new ≡ with_lines s.now (bytes_of s.now) lines.now file.old) }
{
    for n in lines {
        file.put_line(alloc, s, *n)?;
    }
    Ok(())
}

// Puts what is pending at line `n` over the file.
fn put_pending(
    alloc: Global,
    s: &Script,
    a: &Answers,
    n: LineNo,
    file: &mut PlainFile,
) -> Result<(), Want>
    ensures { let pending = pending_at s.now (answer_at a.now.list) n in
        OnOk result (file.new ≡ with_lines s.now (bytes_of s.now) pending file.old) }
{
    let pending = pending_of(alloc, s, a, n)?;
    put_lines(alloc, s, &pending, file)
}

// Whether an operation may be committed over the file.
fn is_enabled(op: &Op, file: &PlainFile) -> bool
    ensures { result ≡ is_enabled op.now file.now }
{
    match op {
        Op::Create => !file.exists(),
        Op::Sync | Op::Trunc { .. } | Op::Laminate => file.is_open_to_change(),
        Op::Unlink => file.exists(),
        Op::Open | Op::Write { .. } | Op::Read { .. } | Op::Size => false,
    }
}

// Makes of the file what the operation of line `n` makes of it.
fn make(
    alloc: Global,
    s: &Script,
    a: &Answers,
    n: LineNo,
    op: &Op,
    file: &mut PlainFile,
) -> Result<(), Want>
    ensures { let pending = pending_at s.now (answer_at a.now.list) n in
        OnOk result (file.new ≡ makes s.now (bytes_of s.now) op.now pending file.old) }
{
    match op {
        Op::Create => *file = PlainFile::empty(alloc),
        Op::Sync => put_pending(alloc, s, a, n, file)?,
        Op::Trunc { n: size } => {
            put_pending(alloc, s, a, n, file)?;
            file.cut(alloc, *size)?;
        }
        Op::Laminate => {
            put_pending(alloc, s, a, n, file)?;
            file.freeze();
        }
        Op::Unlink => *file = PlainFile::none(),
        Op::Open | Op::Write { .. } | Op::Read { .. } | Op::Size => {}
    }
    Ok(())
}

// Does to the file what the operation of line `n` does, if it may be committed over it.
fn apply(
    alloc: Global,
    s: &Script,
    a: &Answers,
    n: LineNo,
    op: &Op,
    file: &mut PlainFile,
) -> Result<(), Want>
    ensures { let pending = pending_at s.now (answer_at a.now.list) n in
        OnOk result (file.new ≡ effect_of s.now (bytes_of s.now) op.now pending file.old) }
{
    if is_enabled(op, file) {
        make(alloc, s, a, n, op, file)?;
    }
    Ok(())
}

// Does to the file what line `n` does.
fn apply_line(
    alloc: Global,
    s: &Script,
    a: &Answers,
    n: LineNo,
    file: &mut PlainFile,
) -> Result<(), Want>
    ensures { OnOk result (file.new
        ≡ effect s.now (bytes_of s.now) (answer_at a.now.list) n file.old) }
{
    match op_of(s, n) {
        Some(o) => apply(alloc, s, a, n, &o.op, file),
        None => Ok(()),
    }
}

/// The file that all lines of a journal make, one after the other, from none. A line that is no
/// operation, or can't be committed over the file so far, leaves it as it was. `_path` is the path
/// whose journal it is; each line's operation names it too, and that one counts.
pub fn state_at(
    alloc: Global,
    s: &Script,
    a: &Answers,
    _path: &Path,
    j: &[LineNo],
) -> Result<PlainFile, Want>
    ensures { IfOk result (λ f. f ≡ state s.now (answer_at a.now.list) j.now (length j.now)) }
{
    let mut file = PlainFile::none();
    for n in j {
        apply_line(alloc, s, a, *n, &mut file)?;
    }
    Ok(file)
}
