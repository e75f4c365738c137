//! The operations of a script, by line.

ghost use Rattle.std.specs.Prelude.{◌≡◌, option_copied, option_map};
ghost use Rattle.fs_script.specs.Job.{op_at, own_at};
ghost use Rattle.fs_script.specs.Payload.{write_at, brought};

use fs_script::{Line, Op, OpLine, Script};
use fs_types::{LineNo, Path, Rank};

/// The operation of line `n`, if it is one.
pub fn op_of(s: &Script, n: LineNo) -> Option<&OpLine>
    ensures { option_copied result ≡ op_at s.now n }
{
    match s.line(n) {
        Some(Line::Op(o)) => Some(o),
        Some(Line::Note | Line::Barrier) | None => None,
    }
}

/// What line `n` does, where it is an operation of client `r` on path `p`.
pub fn own_op<'a>(s: &'a Script, r: Rank, p: &Path, n: LineNo) -> Option<&'a Op>
    ensures { option_copied result ≡ own_at s.now r p.now n }
{
    let o = op_of(s, n)?;
    if o.rank == r && o.path.as_bytes() == p.as_bytes() {
        Some(&o.op)
    } else {
        None
    }
}

// Where an operation writes, if it does.
fn offset_of(op: &Op) -> Option<u64>
    ensures { result ≡ option_map (λ w. w.at) (brought op.now) }
{
    match op {
        Op::Write { off, .. } => Some(*off),
        Op::Create
        | Op::Open
        | Op::Sync
        | Op::Read { .. }
        | Op::Size
        | Op::Trunc { .. }
        | Op::Laminate
        | Op::Unlink => None,
    }
}

/// Where line `n` writes, if it does.
pub fn write_offset(s: &Script, n: LineNo) -> Option<u64>
    ensures { result ≡ option_map (λ w. w.at) (write_at s.now n) }
{
    offset_of(&op_of(s, n)?.op)
}
