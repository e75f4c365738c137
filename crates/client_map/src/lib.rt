//! What one client wrote to each path and hasn't handed on: its pending writes, later over earlier.
//! They are kept as fragments of pieces, with one hold for each piece that they name; the bytes
//! themselves are elsewhere. The crate touches nothing outside memory.
//!
//! A map is generic over its holds, which can be of any type that meets `Hold` of `fs_types`, and
//! over what keeps the fragments, which can be any type that meets `Spans` of `span_list`.
//!
//! **Parts.** What a line writes is cut into parts of `chunk` bytes, the last one perhaps shorter.
//! Part k is the piece `PieceId { line, part: k }`. A write is added by a hold of each of its
//! parts, in order, and those of one path are over one another in the order in which they are
//! added.
//!
//! **Calls.** Each but `new` takes a path, which is found by its text, and leaves every other path
//! as it is:
//!
//! - `new` gives a map in which nothing is pending, for parts of at most so many bytes, at least 1.
//! - `add` asks that the path has its holds, `HasHolds`, and for a write that may be added,
//!   `MayAdd`. It puts the parts over what is pending there, and gives the holds of exactly those
//!   pieces of which no byte is left. After want of memory all is as before, and the holds that it
//!   was given come back.
//! - `has` says whether anything is pending, and `end` where the last byte of it ends, which is 0
//!   where nothing is. `next` gives the first whole fragment that ends after a place, if there is
//!   one.
//! - `hold` lends the hold of one piece to read, and `hold_of` lends it to change. Both give none
//!   where no fragment names the piece.
//! - `take_all` asks that the path has its holds, `HasHolds`. It gives all that is pending as a
//!   push: the fragments in order of place, and the hold of each piece that they name. Nothing is
//!   pending there then. It takes no memory, since each `add` makes room for it.
//!
//! **What a caller owes.** `HasHolds` says of a path that each piece that is pending there, and no
//! other, has a hold that is ready, of that piece, and as long as the fragments need. That is so in
//! a new map, each call keeps it, and so does who leaves a ready hold of the same piece and length
//! behind the loan of `hold_of`; `proofs/CallerLemmas.antt` has the lemmas that carry it for all
//! paths. `MayAdd` says of a write that it has a byte and ends within the longest file; and of the
//! holds that they are ready, that they are of its parts, one each and in order, and that none of
//! these pieces is pending on the path. The same file says when that is so, and which mark stands
//! at each place and which hold each piece has once the write was added.
//!
//! **The law.** What is pending on a path has the marks of the writes since the last take, put in
//! order over an empty file; after a take it has none.
//!
//! An example:
//!
//! ```
//! // parts of at most 8 bytes
//! let mut map: ClientMap<MemHold, SpanList> = ClientMap::new(alloc, 8)?;
//! let piece = |line, part| PieceId {
//!     line: LineNo(line),
//!     part,
//! };
//! // line 4 writes 12 bytes at place 100: a part of 8 bytes, and one of 4
//! let mut holds = Vec::new(alloc);
//! holds.push(MemHold::new(piece(4, 0), 8, None))?;
//! holds.push(MemHold::new(piece(4, 1), 4, None))?;
//! map.add(alloc, &path, 100, 12, holds).ok().ok_or("there is memory")?;
//! let end = map.end(&path);
//! // 112
//! // line 6 writes 5 bytes over the last part, and over the last byte of the first
//! let mut holds = Vec::new(alloc);
//! holds.push(MemHold::new(piece(6, 0), 5, None))?;
//! let dead = map.add(alloc, &path, 107, 5, holds).ok().ok_or("there is memory")?;
//! // `dead` has the hold of part 1 of line 4
//! let held = map.hold(&path, piece(6, 0)).ok_or("line 6 is pending")?.piece();
//! // part 0 of line 6; `map.hold(&path, piece(4, 1))` is none
//! let next = map.next(&path, 100);
//! // 7 bytes of part 0 of line 4, at place 100
//! let push = map.take_all(&path);
//! // two fragments and two holds; `map.has(&path)` is false, and `map.end(&path)` is 0
//! ```
#![tactic(auto)]

mod laws;
mod map;
mod parts;
mod pending_path;
mod push_room;

pub use laws::what_was_written_since_the_last_take_is_pending;
pub use map::ClientMap;

#[cfg(test)]
mod tests;
