//! A lamination: the client's pending writes become part of the file, which is then frozen.

ghost use Rattle.std.specs.Prelude.{◌≡◌, ℕ, List, [], IfOk};
ghost use Rattle.core_machine.specs.Books.{ChangesOne};
ghost use Rattle.client_files.specs.declared.noted.Noted.{Noted};
ghost use Rattle.owner_book.specs.Kept.{path_in};
ghost use Rattle.core_machine.specs.ClientPath.{ChangesOwn, own_of};
ghost use Rattle.core_machine.specs.Follows.{EndsLine, EventSound};
ghost use Rattle.core_machine.specs.Kept.{owned_of};
ghost use Rattle.fs_script.specs.Vocabulary.{Job, after_answer};

use super::emptying::{drop_pending, finish_commit};
use crate::books::Book;
use crate::client::Client;
use crate::task::Task;
use fs_dev::SpillDev;
use fs_script::Op;
use fs_types::{Answer, LineNo, Path, Want};
use owner_book::BookNo;
use slot_plain::PlainLog;
use std::alloc::Global;

/// Answers a lamination, line `n`. After want of memory all that is kept is open, but what the book
/// and the client have of other paths.
pub fn laminate<D: SpillDev + Drop>(
    alloc: Global,
    n: LineNo,
    book: &mut Book,
    gfid: u64,
    p: &Path,
    client: &mut Client,
    logs: &mut [PlainLog<D>],
) -> Result<Answer, Want>
    requires { (s : Job) × (lines : List ℕ) × (told : Noted) × (r : ℕ)
        × EventSound s n Op.Laminate r (record {
          owned = owned_of (path_in book.old gfid p.now) told;
          client = own_of client.old p.now lines;
          task = Task.Idle;
          logs = logs.old;
        }) }
    ensures done { (s : Job) (lines : List ℕ) (told : Noted) (r : ℕ)
        → EventSound s n Op.Laminate r (record {
          owned = owned_of (path_in book.old gfid p.now) told;
          client = own_of client.old p.now lines;
          task = Task.Idle;
          logs = logs.old;
        })
        → IfOk result (λ a. EndsLine s n Op.Laminate
        (owned_of (path_in book.old gfid p.now) told) (own_of client.old p.now lines) logs.old
        (owned_of (path_in book.new gfid p.now) told)
        (own_of client.new p.now (after_answer Op.Laminate a n lines)) logs.new a) }
    ensures others { ChangesOne book.old book.new gfid p.now }
    ensures elsewhere { ChangesOwn client.old client.new p.now }
{
    if !client.files.is_open(p) {
        return Ok(Answer::BadF);
    }
    let (v, attr) = book.attr(gfid, p);
    if !attr.exists {
        drop_pending(alloc, v, attr, p, client, logs)?;
        return Ok(Answer::NoEnt { v });
    }
    if attr.frozen {
        drop_pending(alloc, v, attr, p, client, logs)?;
        return Ok(Answer::ReadOnly { v });
    }
    let push = client.take(p);
    let done = match book.laminate(alloc, gfid, p, n, push) {
        Ok(done) => done,
        Err((BookNo::Want, _)) => return Err(Want),
        Err(_) => unreachable!(),
    };
    finish_commit(alloc, &done, p, client, logs)
}
