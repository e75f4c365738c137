//! The events of a run, one module for each operation: the answer to a line, if it has come to its
//! end, and what is kept after it.

ghost use Rattle.std.specs.Prelude.{◌≡◌, ◌∷◌, [], ℕ, List, Some, IfOk};
ghost use Rattle.fs_script.specs.Grammar.{IsJob};
ghost use Rattle.fs_script.specs.Job.{op_at};
ghost use Rattle.fs_script.specs.Vocabulary.{commits};
ghost use Rattle.core_machine.specs.Books.{ChangesOne};
ghost use Rattle.core_machine.specs.Follows.{EventFollows, EventSound, IsWhole};
ghost use Rattle.core_machine.specs.ClientPath.{ChangesOwn, lines_then, own_of};
ghost use Rattle.core_machine.specs.Kept.{owned_in};

mod create;
mod emptying;
mod laminate;
mod open;
mod read;
mod size;
mod sync;
mod trunc;
mod unlink;
mod write;

use crate::books::Book;
use crate::client::Client;
use crate::task::Task;
use client_files::Board;
use fs_dev::SpillDev;
use fs_script::{Op, OpLine, Script};
use fs_types::{Answer, LineNo, Want};
use slot_plain::PlainLog;
use std::alloc::Global;

/// Whether a line of this operation is committed once it is done with something pending; no other
/// changes a file.
pub fn may_commit(op: &Op) -> bool
    ensures { (n : ℕ) → result ≡ commits op.now (n ∷ []) }
{
    match op {
        Op::Create | Op::Sync | Op::Trunc { .. } | Op::Laminate | Op::Unlink => true,
        Op::Open | Op::Write { .. } | Op::Read { .. } | Op::Size => false,
    }
}

/// One event of line `n`, of whose path the book has the file; `client` is its client, and `task`
/// what that is in the midst of. No answer means that the line goes on. After want of memory all
/// that is kept is open, but what the book and the client have of other paths.
pub fn event<D: SpillDev + Drop>(
    alloc: Global,
    s: &Script,
    n: LineNo,
    o: &OpLine,
    book: &mut Book,
    gfid: u64,
    board: &Board,
    client: &mut Client,
    task: &mut Task,
    logs: &mut [PlainLog<D>],
) -> Result<Option<Answer>, Want>
    requires job { IsJob s.now }
    requires line { op_at s.now n ≡ Some o.now }
    requires chunk { client.old.pending.chunk ≡ s.now.shape.chunk }
    requires sound { (lines : List ℕ) × EventSound s.now n o.now.op o.now.rank (record {
      owned = owned_in book.old gfid o.now.path board.now;
      client = own_of client.old o.now.path lines;
      task = task.old;
      logs = logs.old;
    }) }
    ensures follows { (lines : List ℕ) → EventSound s.now n o.now.op o.now.rank (record {
      owned = owned_in book.old gfid o.now.path board.now;
      client = own_of client.old o.now.path lines;
      task = task.old;
      logs = logs.old;
    })
        → IfOk result (λ a. EventFollows s.now n o.now.op o.now.rank
        (record {
          owned = owned_in book.old gfid o.now.path board.now;
          client = own_of client.old o.now.path lines;
          task = task.old;
          logs = logs.old;
        })
        (record {
          owned = owned_in book.new gfid o.now.path board.now;
          client = own_of client.new o.now.path (lines_then o.now.op n lines a);
          task = task.new;
          logs = logs.new;
        }) a) }
    ensures whole { (lines : List ℕ) → EventSound s.now n o.now.op o.now.rank (record {
      owned = owned_in book.old gfid o.now.path board.now;
      client = own_of client.old o.now.path lines;
      task = task.old;
      logs = logs.old;
    })
        → IfOk result (λ a. IsWhole s.now o.now.op (record {
          owned = owned_in book.new gfid o.now.path board.now;
          client = own_of client.new o.now.path (lines_then o.now.op n lines a);
          task = task.new;
          logs = logs.new;
        })) }
    ensures others { ChangesOne book.old book.new gfid o.now.path }
    ensures elsewhere { ChangesOwn client.old client.new o.now.path }
{
    let p = &o.path;
    match &o.op {
        Op::Create => Ok(Some(create::create(alloc, n, book, gfid, p, client)?)),
        Op::Open => Ok(Some(open::open(alloc, book, gfid, p, client)?)),
        Op::Write { off, text } => Ok(Some(write::write(
            alloc, s, n, *off, text, o.rank, p, board, client, logs,
        )?)),
        Op::Sync => Ok(Some(sync::sync(alloc, n, book, gfid, p, client, logs)?)),
        Op::Read {
            off,
            len,
            own: with_own,
        } => read::read(
            alloc, *off, *len, *with_own, book, gfid, p, client, task, logs,
        ),
        Op::Size => Ok(Some(size::size(alloc, book, gfid, p, client)?)),
        Op::Trunc { n: size } => Ok(Some(trunc::trunc(
            alloc, n, *size, book, gfid, p, client, logs,
        )?)),
        Op::Laminate => Ok(Some(laminate::laminate(alloc, n, book, gfid, p, client, logs)?)),
        Op::Unlink => Ok(Some(unlink::unlink(alloc, n, book, gfid, p, client, logs)?)),
    }
}
