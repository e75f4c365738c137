//! An open: the file as its owner has it.

ghost use Rattle.std.specs.Prelude.{ℕ, List, IfOk};
ghost use Rattle.fs_script.specs.Job.{Job};
ghost use Rattle.client_files.specs.declared.noted.Noted.{Noted};
ghost use Rattle.owner_book.specs.Kept.{path_in};
ghost use Rattle.core_machine.specs.ClientPath.{ChangesOwn, own_of};
ghost use Rattle.core_machine.specs.Follows.{EndsQuietly};
ghost use Rattle.core_machine.specs.Kept.{AreSound, owned_of};

use crate::books::Book;
use crate::client::Client;
use fs_script::Op;
use fs_types::{Answer, Path, Want};
use std::alloc::Global;

/// Answers an open. After want of memory what the client keeps for the path is open.
pub fn open(
    alloc: Global,
    book: &Book,
    gfid: u64,
    p: &Path,
    client: &mut Client,
) -> Result<Answer, Want>
    ensures done { IfOk result (λ a. (s : Job) (n : ℕ) (lines : List ℕ) (told : Noted)
        → AreSound s (owned_of (path_in book.now gfid p.now) told) (own_of client.old p.now lines)
        → EndsQuietly s n Op.Open
        (owned_of (path_in book.now gfid p.now) told) (own_of client.old p.now lines)
        (owned_of (path_in book.now gfid p.now) told) (own_of client.new p.now lines) a) }
    ensures elsewhere { ChangesOwn client.old client.new p.now }
{
    let (v, attr) = book.attr(gfid, p);
    client.note(alloc, p, v, attr)?;
    if !attr.exists {
        return Ok(Answer::NoEnt { v });
    }
    client.open(alloc, p)?;
    Ok(Answer::Done { v })
}
