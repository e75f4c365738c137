//! Pieces that fragments of a file name, and their holds: a table that counts the fragments of each
//! piece, and sorted fragments with a hold for each piece that they name. It touches nothing
//! outside memory.
//!
//! A piece that a fragment names is held once, however many fragments name it. When the last of
//! them goes, its hold comes out, so that whoever keeps the bytes can let them go. A hold can be of
//! any kind that meets `Hold`, and the fragments can be kept by whatever meets `Spans`.
//!
//! Fragments with their holds are `HeldSpans`, and the table alone is `PieceTable`.
//!
//! **Fragments with holds.** Calls that put, cut, clear or take ask for `AreHeld`, and keep it:
//! each piece that is named has a ready hold of its own, in which its fragments lie, and no other
//! piece has one. So it is in a new one. After `Err` all is as before, and what was given comes back.
//!
//! - `put` puts one fragment over the others, by a hold of its piece. The fragment has a byte, ends
//!   within the longest file, and in its piece at a place below 2^32 (`IsSpan`); the hold is ready,
//!   of that piece, and at least as long as the fragment reaches in it; and no fragment here names
//!   the piece, for which `get` is the test.
//! - `put_push` puts a push over the fragments. It is well formed (`IsWellFormedPush`): its
//!   fragments have bytes, stand in order and apart, and end within the longest file and in their
//!   pieces, and it has one hold of each piece that they name, and no other. Its holds are ready,
//!   and no fragment here names one of its pieces.
//! - `cut` drops all bytes from a place on, and `clear` all fragments.
//! - `take_push` gives all fragments and holds as one push, and leaves none. So does `take_all`, in
//!   two vectors that have nothing, and room for all fragments and for the hold of each piece; it
//!   takes no memory.
//! - `reserve` makes room for so many puts: each of them takes no memory then, while `dead` has
//!   room for a hold of each fragment that lies whole in its range. A cut takes none while `dead`
//!   has room for the holds of all pieces.
//! - `hold_of` lends the hold of a piece to change, or gives none where no fragment names it. A
//!   ready hold of the same piece and length, left there, keeps `AreHeld`; any other may break it.
//! - `is_empty`, `piece_count`, `fragment_count`, `next` and `get` look, and ask nothing.
//!
//! ```
//! let mut kept: HeldSpans<MemHold, SpanList> = HeldSpans::new(alloc);
//! let mut dead = Vec::new(alloc);
//! let first = PieceId { line: LineNo(3), part: 0 };
//! let second = PieceId { line: LineNo(4), part: 0 };
//! let under = Frag { at: 0, len: 10, piece: first, from: 0 };
//! let over = Frag { at: 0, len: 12, piece: second, from: 0 };
//! kept.put(under, MemHold::new(first, 10, None), &mut dead).ok().ok_or("there is memory")?;
//! kept.put(over, MemHold::new(second, 12, None), &mut dead).ok().ok_or("there is memory")?;
//! // no byte of `first` is left: `dead` has its hold
//! kept.cut(5, &mut dead).ok().ok_or("there is memory")?;
//! // five bytes of `second` are left, so its hold stays
//! let left = kept.next(0);
//! let hold = kept.get(second);
//! ```
//!
//! **The table alone.** It knows no fragments: whoever keeps them says when one more of them names
//! a piece, and when one fewer does.
//!
//! - `enter` takes a hold that is ready, of a piece that isn't there, which one fragment names.
//! - `more` counts a piece that is there once more; it is named by fewer than 2^64 - 1 fragments.
//! - `less` counts a piece that is there once less. Where that was the last one, it gives the hold.
//! - `get` and `hold` lend the hold of a piece, to read and to change, or give none where it isn't
//!   there. `len` is the number of pieces.
//! - `take_all` moves all holds out, each of which is of the piece that it stands for, into a
//!   vector with room for them.
//! - After `reserve` so many pieces are entered without taking memory. Where there is none, `enter`
//!   gives the hold back, and all is as before.
//!
//! ```
//! let mut pieces = PieceTable::new(alloc);
//! let piece = PieceId { line: LineNo(3), part: 0 };
//! pieces.enter(MemHold::new(piece, 10, None)).ok().ok_or("there is memory")?;
//! pieces.more(piece);
//! // one of two fragments is left, so the hold stays
//! let none = pieces.less(piece);
//! let hold = pieces.get(piece);
//! // that was the last one: the hold comes out
//! let dead = pieces.less(piece);
//! ```
#![tactic(auto)]

mod held_spans;
mod laying;
mod piece_table;
mod pushing;
mod ranges;

pub use held_spans::HeldSpans;
pub use piece_table::PieceTable;

#[cfg(test)]
mod tests;
