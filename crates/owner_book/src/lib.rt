//! The files that one server owns: for each path the journal of the lines that were committed to
//! it, and the file that they make. A file is kept as fragments of pieces, with one hold for each
//! piece that they name; the bytes themselves are elsewhere. The crate touches nothing outside
//! memory.
//!
//! A book is generic over its holds, which can be of any type that meets `Hold` of `fs_types`, and
//! over what keeps the fragments, which can be any type that meets `Spans` of `span_list`.
//!
//! **Paths.** Each call names a path by its gfid and its text together, so two paths with one gfid
//! are two files. A path's version is the number of lines in its journal. Calls on one path leave
//! every other as it is.
//!
//! **Calls.** Each but `new` and `into_holds` takes a path, and asks and gives this:
//!
//! - `new` gives a book in which nothing was committed to any path.
//! - `create` makes an empty file where there is none, and gives the version.
//! - `commit` asks that the path has its holds, `HasHolds`, and for a push that may be committed,
//!   `MayCommit`. It puts the push over the file: its fragments in order, with the holds of the
//!   pieces that they name. It gives the version, what is told of the file, and the holds of
//!   exactly those pieces of which no byte is left in the file.
//! - `trunc` asks what `commit` does, and for a size of at most that of the longest file, 2^40. It
//!   puts the push over the file, and then cuts it to that size, or extends it to it by bytes
//!   that nobody wrote. It gives the version, what is told of the file, and the holds of exactly
//!   those pieces, of the file and of the push, of which no byte is left.
//! - `laminate` asks what `commit` does. It puts the push over the file as `commit` does, and
//!   freezes it: after that only an `unlink` changes it. It gives what `commit` gives.
//! - `unlink` asks that the path has its holds, `HasHolds`. It takes the file away, also a frozen
//!   one, and gives the version, that there is no file, and the holds of all its pieces. The
//!   journal goes on, so a file that is created there again has a later version.
//! - `lookup` asks that the path has its holds, `HasHolds`. It gives the version, what is told of
//!   the file, the fragments of a range, cut to it, and a pin of each piece that they name, once; a
//!   piece whose hold has no room for a pin is `bare` in its place. A pin takes 1 from the room of
//!   its hold, if that room has an end.
//! - `replica` asks that the path has its holds, `HasHolds`, and that its file is frozen. It gives
//!   the path, its version, the size, all fragments of the file, and a pin of each piece that they
//!   name, once and in the order in which they name them first. Each pin has at least the room that
//!   is asked for, and takes that and 1 more from the room of its hold, if that room has an end.
//!   Where the hold of some piece has a room of at most what is asked, it gives nothing.
//! - `into_holds` asks that all paths have their holds, `AllHaveHolds`. It gives up the book for
//!   its holds: of each path those of its file, one of each piece, and no other.
//! - `open` gives the version and what is told of the file, where there is one, and `attr` gives
//!   both in any case. The fragments of a file end within its size. `journal` gives the lines.
//! - `hold_of` lends the hold of one piece, to read or to change, or gives none where the file
//!   doesn't name the piece.
//!
//! `part_within` is no call of a book: it is for who walks fragments of another list as a look-up
//! walks those of a file. Of the first fragment that ends behind the beginning of a range, which the
//! caller gives as `Spans::next` does, it gives what stands in the range, if anything does.
//!
//! **Refusals.** `BookNo` says why a call is refused, by the path's own file and version: it
//! exists, there is none, it is frozen, or, where none of these holds, memory ran out. After a
//! refusal the book is as before, and a push comes back; only a `lookup` that ran out of memory may
//! have lowered the rooms of holds in its range, each by no more than one pin takes, and so may a
//! `replica` that did, or that gave nothing, those of the file's holds. An `into_holds` that ran out
//! of memory has let go of the book.
//!
//! **What a caller owes.** `HasHolds` says of a path that each piece of its file, and no other, has
//! a hold that is ready, of that piece, and as long as the fragments need. That is so in a new
//! book, each call that asks it leaves it so, and `proofs/CallerLemmas.antt` has the lemmas that
//! carry it for all paths. `MayCommit` says of a push that it is well formed, which is one hold for
//! each piece that its fragments name, and fragments that lie in their pieces, in order and apart;
//! that its holds are ready; and that its pieces are new to the file.
//!
//! **Laws.** A file is the state of its journal: each byte bears the mark that its lines make, in
//! their order, and it is frozen exactly where the last of them laminated it; a look-up and a lent
//! hold keep that so, and a replica shows that state. A look-up names exactly the marked bytes of
//! its range, in order of place, and finds each piece of the range once.
//!
//! An example:
//!
//! ```
//! let mut book: OwnerBook<MemHold, SpanList> = OwnerBook::new(alloc)?;
//! book.create(alloc, 7, &path, LineNo(2))?;
//! let piece = PieceId { line: LineNo(4), part: 0 };
//! let mut push = Push { frags: Vec::new(alloc), holds: Vec::new(alloc) };
//! push.frags.push(Frag { at: 0, len: 4, piece, from: 0 })?;
//! push.holds.push(MemHold::new(piece, 4, None))?;
//! let done = book.commit(alloc, 7, &path, LineNo(4), push).ok().ok_or("there is memory")?;
//! // version 2, a file of 4 bytes, and no dead hold
//! let found = book.lookup(alloc, 7, &path, 1, 6)?;
//! // the fragment of the piece that is 3 bytes long and begins at place 1 of the file and of the
//! // piece, one pin of that piece, and no bare piece
//! let none = Push { frags: Vec::new(alloc), holds: Vec::new(alloc) };
//! let cut = book.trunc(alloc, 7, &path, LineNo(5), 2, none).ok().ok_or("there is memory")?;
//! // version 3, a file of 2 bytes, and no dead hold, since these are of the piece
//! let none = Push { frags: Vec::new(alloc), holds: Vec::new(alloc) };
//! let last = book.laminate(alloc, 7, &path, LineNo(6), none).ok().ok_or("there is memory")?;
//! // version 4, a frozen file of 2 bytes, and no dead hold
//! let gone = book.unlink(alloc, 7, &path, LineNo(7))?;
//! // version 5, no file, and the hold of the piece
//! ```
#![tactic(auto)]

mod after_push;
mod book;
mod book_no;
mod committed;
mod file_key;
mod laws;
mod looked;
mod looking;
mod owned_file;
mod owned_path;

pub use book::OwnerBook;
pub use book_no::BookNo;
pub use committed::Committed;
pub use laws::{
    files_are_states_of_their_journals, lookups_find_each_piece_of_their_range_once,
    lookups_name_the_marks_of_their_range,
};
pub use looked::Looked;
pub use looking::part_within;

#[cfg(test)]
mod tests;
