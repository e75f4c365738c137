//! The books of a job's servers, and which of them a path stands in: that of its owner, under its
//! gfid. Events and the report lend a book by these two themselves, since what they do with it is a
//! call of the book. It touches nothing outside memory.

ghost use Rattle.std.specs.Prelude.{◌≡◌, ℕ, ◌≤◌, List, length, IfOk};
ghost use Rattle.owner_book.specs.Kept.{no_path};
ghost use Rattle.core_machine.specs.Books.{path_at};

use crate::plain_hold::PlainHold;
use fs_types::{LineNo, Path, Want};
use owner_book::OwnerBook;
use placement::{gfid_of, owner_of};
use span_list::SpanList;
use std::alloc::Global;

/// The files that a server owns.
pub type Book = OwnerBook<PlainHold, SpanList>;

/// So many servers, to whose files nothing was committed.
pub fn new_books(alloc: Global, servers: u32) -> Result<Vec<Book>, Want>
    ensures sized { IfOk result (λ v. length v.items ≡ servers) }
    ensures fresh { IfOk result (λ v. (p : List ℕ) → path_at v.items p ≡ no_path) }
{
    let mut books = Vec::with_capacity(alloc, servers as usize)?;
    for _ in 0..servers {
        books.push(OwnerBook::new(alloc)?)?;
    }
    Ok(books)
}

/// The lines that were committed to a path.
pub fn journal<'b>(books: &'b [Book], servers: u32, p: &Path) -> &'b [LineNo]
    requires some { 1 ≤ servers }
    requires sized { length books.now ≡ servers }
    ensures { result.now ≡ (path_at books.now p.now).journal }
{
    let gfid = gfid_of(p);
    let owner = owner_of(gfid, servers);
    books[owner.0 as usize].journal(gfid, p)
}

#[cfg(test)]
mod tests;
