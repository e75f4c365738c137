//! A create: an empty file where there is none.

ghost use Rattle.std.specs.Prelude.{ℕ, List, IfOk};
ghost use Rattle.fs_script.specs.Job.{Job};
ghost use Rattle.core_machine.specs.Books.{ChangesOne};
ghost use Rattle.client_files.specs.declared.noted.Noted.{Noted};
ghost use Rattle.owner_book.specs.Kept.{path_in};
ghost use Rattle.core_machine.specs.ClientPath.{ChangesOwn, own_of};
ghost use Rattle.core_machine.specs.Follows.{EndsQuietly};
ghost use Rattle.core_machine.specs.Kept.{AreSound, owned_of};

use crate::books::Book;
use crate::client::Client;
use fs_script::Op;
use fs_types::{Answer, Attr, LineNo, Path, Want};
use owner_book::BookNo;
use std::alloc::Global;

// What is noted of a file that was just created.
const EMPTY: Attr = Attr {
    exists: true,
    size: 0,
    frozen: false,
};

/// Answers a create, line `n`. After want of memory what the client keeps for the path is open, and
/// what the book has of it.
pub fn create(
    alloc: Global,
    n: LineNo,
    book: &mut Book,
    gfid: u64,
    p: &Path,
    client: &mut Client,
) -> Result<Answer, Want>
    ensures done { IfOk result (λ a. (s : Job) (lines : List ℕ) (told : Noted)
        → AreSound s (owned_of (path_in book.old gfid p.now) told) (own_of client.old p.now lines)
        → EndsQuietly s n Op.Create
        (owned_of (path_in book.old gfid p.now) told) (own_of client.old p.now lines)
        (owned_of (path_in book.new gfid p.now) told) (own_of client.new p.now lines) a) }
    ensures others { ChangesOne book.old book.new gfid p.now }
    ensures elsewhere { ChangesOwn client.old client.new p.now }
{
    let (v, attr) = book.attr(gfid, p);
    if attr.exists {
        client.note(alloc, p, v, attr)?;
        return Ok(Answer::Exists { v });
    }
    let v = match book.create(alloc, gfid, p, n) {
        Ok(v) => v,
        Err(BookNo::Want) => return Err(Want),
        Err(_) => unreachable!(),
    };
    client.note(alloc, p, v, EMPTY)?;
    client.open(alloc, p)?;
    Ok(Answer::Done { v })
}
