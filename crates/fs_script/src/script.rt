//! A script that was read.

ghost use Rattle.std.specs.Prelude.{◌≡◌, ◌<◌, ◌≤◌, ◌+◌, length, take, drop, map, count_by};
ghost use Rattle.std.specs.Prelude.{option_copied, IsSome, IfOk};
ghost use Rattle.std.specs.List.{range_with_len};
ghost use Rattle.fs_script.specs.Grammar.{IsJob};
ghost use Rattle.fs_script.specs.Job.{is_barrier, line_at, phase};
ghost use Rattle.fs_script.specs.Payload.{data_bytes, write_at, payload};

use crate::limits::LINE_LIMIT;
use crate::line::{Data, Line, Op, OpLine};
use crate::shape::Shape;
use fs_types::LineNo;
use std::alloc::{AllocError, Global};
use std::marker::Model;

/// A job script. A clause sees its shape and the list of its lines after the header.
#[derive(Debug, Drop)]
pub struct Script {
    shape: Shape,
    lines: Vec<Line>,
    /// For each k up to the number of lines, how many of the first k are barriers.
    phases: Vec<u32>,
}

impl Model for Script {
    ghost use Rattle.std.specs.Prelude.{◌≡◌, ◌+◌, length, take, map, count_by};
    ghost use Rattle.std.specs.List.{range_with_len};
    ghost use Rattle.fs_script.specs.Job.{Job, is_barrier};
    ghost use Rattle.fs_script.specs.Grammar.{IsJob};

    ghost Value = { Job };

    ghost view = { λ s. record { shape = s.shape; lines = s.lines.items } };

    ghost invariant = { λ s. IsJob (record { shape = s.shape; lines = s.lines.items })
        × (s.phases.items ≡ map (λ k. count_by is_barrier (take k s.lines.items))
        (range_with_len 0 (length s.lines.items + 1))) };
}

fn is_barrier(line: &Line) -> bool
    ensures { result ≡ is_barrier line.now }
{
    matches!(line, Line::Barrier)
}

/// For each k up to the number of lines, how many of the first k are barriers.
fn phases(alloc: Global, lines: &[Line]) -> Result<Vec<u32>, AllocError>
    requires { length lines.now < LINE_LIMIT }
    ensures { IfOk result (λ v. v.items ≡ map (λ k. count_by is_barrier (take k lines.now))
        (range_with_len 0 (length lines.now + 1))) }
{
    let mut phases = Vec::with_capacity(alloc, lines.len() + 1)?;
    let mut phase = 0;
    phases.push(phase)?;
    for line in lines {
        phase += u32::from(is_barrier(line));
        phases.push(phase)?;
    }
    Ok(phases)
}

impl Script {
    pub(crate) fn new(alloc: Global, shape: Shape, lines: Vec<Line>) -> Result<Script, AllocError>
        requires { IsJob (record { shape = shape; lines = lines.items }) }
        ensures { IfOk result (λ s. s ≡ record { shape = shape; lines = lines.items }) }
    {
        let phases = phases(alloc, &lines)?;
        Ok(Script {
            shape,
            lines,
            phases,
        })
    }

    /// What the header says.
    pub fn shape(&self) -> Shape
        ensures shape { result ≡ self.now.shape }
        ensures job { IsJob self.now }
    {
        self.shape
    }

    /// How many lines the script has, the header among them.
    pub fn lines(&self) -> u32
        ensures lines { result ≡ length self.now.lines + 1 }
        ensures job { IsJob self.now }
    {
        self.lines.len() as u32 + 1
    }

    /// The line of this number, or `None` for the header and where there is no such line.
    pub fn line(&self, n: LineNo) -> Option<&Line>
        ensures { option_copied result ≡ line_at self.now n }
    {
        let index = n.0.checked_sub(2)?;
        self.lines.get(index as usize)
    }

    /// The phase of line `n`: how many barriers stand before it. Past the last line it is that of
    /// a line after all the others.
    pub fn phase_of(&self, n: LineNo) -> u32
        ensures { result ≡ phase self.now n }
    {
        let before = n.0.saturating_sub(2) as usize;
        self.phases[before.min(self.lines.len())]
    }

    /// What line `n` writes.
    fn data(&self, n: LineNo) -> &Data
        requires { IsSome (write_at self.now n) }
        ensures { data_bytes result.now ≡ payload self.now n }
    {
        let Some(Line::Op(o)) = self.line(n) else {
            unreachable!()
        };
        match &o.op {
            Op::Write { text, .. } => text,
            Op::Create
            | Op::Open
            | Op::Sync
            | Op::Read { .. }
            | Op::Size
            | Op::Trunc { .. }
            | Op::Laminate
            | Op::Unlink => unreachable!(),
        }
    }

    /// How many bytes line `n` writes.
    pub fn payload_len(&self, n: LineNo) -> u64
        requires { IsSome (write_at self.now n) }
        ensures { result ≡ length (payload self.now n) }
    {
        self.data(n).len()
    }

    /// Copies the bytes that line `n` writes, from the byte at `from` on, until `out` is full.
    pub fn payload_into(&self, n: LineNo, from: u64, out: &mut [u8])
        requires is_write { IsSome (write_at self.now n) }
        requires within { from + length out.old ≤ length (payload self.now n) }
        ensures { out.new ≡ take (length out.old) (drop from (payload self.now n)) }
    {
        // The script is looked at for its invariant, by which a line writes few enough bytes.
        let _ = &self.shape;
        self.data(n).copy_into(from, out);
    }
}
