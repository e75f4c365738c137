//! A write: bytes into the client's own log, which become pending.

ghost use Rattle.std.specs.Prelude.{◌≡◌, ℕ, List, Some, IfOk};
ghost use Rattle.fs_script.specs.Payload.{data_bytes, write_at};
ghost use Rattle.fs_script.specs.Vocabulary.{after_answer};
ghost use Rattle.client_files.specs.Kept.{told_in};
ghost use Rattle.owner_book.specs.Kept.{BookPath};
ghost use Rattle.core_machine.specs.ClientPath.{ChangesOwn, own_of};
ghost use Rattle.core_machine.specs.Follows.{EventFollows, EventSound};
ghost use Rattle.core_machine.specs.Kept.{AreSound, owned_of};
ghost use Rattle.core_machine.specs.declared.plain_hold.PlainHold.{PlainHold};

use crate::client::Client;
use crate::logs::{fill_line, release_all};
use crate::task::Task;
use client_files::{Board, May};
use fs_dev::SpillDev;
use fs_script::{Data, Op, Script};
use fs_types::{Answer, LONGEST_FILE, LineNo, Path, Rank, Want};
use slot_plain::{PlainLog, TakeNo};
use std::alloc::Global;

/// Answers a write of `text` at `off`, line `n` of client `r`. After want of memory all that is
/// kept for the path and the client's log are open.
pub fn write<D: SpillDev + Drop>(
    alloc: Global,
    s: &Script,
    n: LineNo,
    off: u64,
    text: &Data,
    r: Rank,
    p: &Path,
    board: &Board,
    client: &mut Client,
    logs: &mut [PlainLog<D>],
) -> Result<Answer, Want>
    requires line { write_at s.now n ≡ Some (record { at = off; bytes = data_bytes text.now }) }
    requires chunk { client.old.pending.chunk ≡ s.now.shape.chunk }
    requires sound { (lines : List ℕ) × (x : BookPath PlainHold)
        × EventSound s.now n (Op.Write off text.now) r (record {
          owned = owned_of x (told_in board.now p.now);
          client = own_of client.old p.now lines;
          task = Task.Idle;
          logs = logs.old;
        }) }
    ensures follows { (lines : List ℕ) (x : BookPath PlainHold)
        → EventSound s.now n (Op.Write off text.now) r (record {
          owned = owned_of x (told_in board.now p.now);
          client = own_of client.old p.now lines;
          task = Task.Idle;
          logs = logs.old;
        })
        → IfOk result (λ a. EventFollows s.now n (Op.Write off text.now) r
        (record {
          owned = owned_of x (told_in board.now p.now);
          client = own_of client.old p.now lines;
          task = Task.Idle;
          logs = logs.old;
        })
        (record {
          owned = owned_of x (told_in board.now p.now);
          client = own_of client.new p.now (after_answer (Op.Write off text.now) a n lines);
          task = Task.Idle;
          logs = logs.new;
        }) (Some a)) }
    ensures sound { (lines : List ℕ) (x : BookPath PlainHold)
        → EventSound s.now n (Op.Write off text.now) r (record {
          owned = owned_of x (told_in board.now p.now);
          client = own_of client.old p.now lines;
          task = Task.Idle;
          logs = logs.old;
        })
        → IfOk result (λ a. AreSound s.now (owned_of x (told_in board.now p.now))
        (own_of client.new p.now (after_answer (Op.Write off text.now) a n lines))) }
    ensures elsewhere { ChangesOwn client.old client.new p.now }
{
    match client.files.may_write(board, p) {
        May::BadF => return Ok(Answer::BadF),
        May::NoEnt(v) => {
            let front = client.files.at_front(board, p);
            client.note(alloc, p, front.version, front.attr)?;
            return Ok(Answer::NoEnt { v });
        }
        May::ReadOnly(v) => {
            let front = client.files.at_front(board, p);
            client.note(alloc, p, front.version, front.attr)?;
            return Ok(Answer::ReadOnly { v });
        }
        May::Yes => {}
    }
    let len = text.len();
    if len > LONGEST_FILE || off > LONGEST_FILE - len {
        return Ok(Answer::TooBig);
    }
    let slots = len.div_ceil(u64::from(s.shape().chunk)) as u32;
    let holds = match fill_line(alloc, s, n, len, &mut logs[r.0 as usize]) {
        Ok(holds) => holds,
        Err(TakeNo::NoSpace { need, free }) => return Ok(Answer::NoSpace { need, free }),
        Err(TakeNo::Want) => return Err(Want),
    };
    // A write of no bytes leaves nothing pending.
    if len == 0 {
        return Ok(Answer::Wrote { slots });
    }
    let dead = client.add(alloc, p, off, len, holds)?;
    release_all(logs, &dead);
    Ok(Answer::Wrote { slots })
}
