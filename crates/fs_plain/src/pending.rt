//! The writes of a client to a path that it hasn't committed.

ghost use Rattle.std.specs.Prelude.{◌≡◌, option_copied, IfOk, OnOk};
ghost use Rattle.fs_types.specs.AnswerList.{answer_at};
ghost use Rattle.fs_script.specs.Pending.{after_answer, pending_after, pending, pending_at};

use crate::answer_kinds::{empties, is_accepted};
use crate::lines::{op_of, own_op};
use fs_script::{Op, Script};
use fs_types::{Answer, Answers, LineNo, Path, Rank, Want};
use std::alloc::Global;

// Takes into account the answer to line `n`.
fn note_answer(op: &Op, a: &Answer, n: LineNo, pending: &mut Vec<LineNo>) -> Result<(), Want>
    ensures { OnOk result (pending.new.items ≡ after_answer op.now a.now n pending.old.items) }
{
    match op {
        Op::Write { text, .. } => {
            if is_accepted(a) && text.len() > 0 {
                pending.push(n)?;
            }
        }
        Op::Sync | Op::Trunc { .. } | Op::Laminate | Op::Unlink => {
            if empties(a) {
                pending.clear();
            }
        }
        Op::Create | Op::Open | Op::Read { .. } | Op::Size => {}
    }
    Ok(())
}

// Takes into account line `n`, if it is an own operation that was answered.
fn note_line(
    op: Option<&Op>,
    a: Option<&Answer>,
    n: LineNo,
    pending: &mut Vec<LineNo>,
) -> Result<(), Want>
    ensures { OnOk result (pending.new.items
        ≡ pending_after (option_copied op.entry) (option_copied a.entry) n pending.old.items) }
{
    match (op, a) {
        (Some(op), Some(a)) => note_answer(op, a, n, pending),
        (Some(_), None) | (None, _) => Ok(()),
    }
}

// The lines before line `n` whose writes are pending for client `r` on path `p`, in order.
fn pending_before(
    alloc: Global,
    s: &Script,
    a: &Answers,
    r: Rank,
    p: &Path,
    n: LineNo,
) -> Result<Vec<LineNo>, Want>
    ensures { IfOk result (λ v. v.items ≡ pending s.now (answer_at a.now.list) r p.now n) }
{
    let mut pending = Vec::new(alloc);
    for m in 0..n.0 {
        let line = LineNo(m);
        note_line(own_op(s, r, p, line), a.get(line), line, &mut pending)?;
    }
    Ok(pending)
}

/// The lines whose writes are pending at line `n`, for its own client on its own path, in order;
/// none where it is no operation.
pub fn pending_of(alloc: Global, s: &Script, a: &Answers, n: LineNo) -> Result<Vec<LineNo>, Want>
    ensures { IfOk result (λ v. v.items ≡ pending_at s.now (answer_at a.now.list) n) }
{
    match op_of(s, n) {
        Some(o) => pending_before(alloc, s, a, o.rank, &o.path, n),
        None => Ok(Vec::new(alloc)),
    }
}
