//! Sorted fragments of a file: the trait of what keeps them, and a plain list of them. It touches
//! nothing outside memory.
//!
//! A fragment is a range of the file and the bytes of a piece that stand there. One that is put
//! over others takes their bytes away in its range; what is left of them stays. Neighbours aren't
//! joined.
//!
//! `put` asks for a fragment that has a byte, ends within the longest file, and ends in its piece
//! at a place below 2^32. It adds two fragments at most; after want of memory all is as it was.
//! `reserve` makes room for so many more fragments, and changes none: while there is room for two,
//! a put takes no memory.
//!
//! `cut` drops all bytes from a place on, and `next` gives the first whole fragment that ends after
//! a place, if there is one. Neither asks for anything, or takes memory.
//!
//! A list is made of fragments and taken apart again without taking memory: `SpanList::from_frags`
//! asks that each may be put, and ends before each later one begins (`AreSpans`), and that is so of
//! what `SpanList::into_frags` gives.
//!
//! `rest_before` and `rest_from` cut one fragment at a place: what of it stands before, and what
//! from there on, with the place in its piece where that begins. `rest_before` asks nothing, and
//! `rest_from` for a fragment that may be put.
//!
//! **Laws.** What is put stands where it was put, and every other place has what it had; after a cut
//! each place before it has what it had, and no place from there on has a byte. A look-up passes no
//! byte over.
//!
//! ```
//! let piece = PieceId {
//!     line: LineNo(1),
//!     part: 0,
//! };
//! let under = Frag {
//!     at: 0,
//!     len: 10,
//!     piece,
//!     from: 0,
//! };
//! let over = Frag {
//!     at: 4,
//!     len: 2,
//!     piece: PieceId {
//!         line: LineNo(2),
//!         part: 0,
//!     },
//!     from: 0,
//! };
//! let mut list = SpanList::new(alloc);
//! list.put(under).ok().ok_or("there is memory")?;
//! list.put(over).ok().ok_or("there is memory")?;
//! // 0 to 4 of `under`, 4 to 6 of `over`, 6 to 10 of `under`, from place 6 of its piece on
//! let after = list.next(5);
//! // the last two bytes go
//! list.cut(8);
//! let frags = list.into_frags();
//! // 0 to 4, 4 to 6, and 6 to 8
//! let again = SpanList::from_frags(frags);
//! ```
#![tactic(auto)]

mod laws;
mod places;
mod replacing;
mod rests;
mod span_list;
mod spans;

pub use laws::{look_ups_pass_no_mark, putting_and_cutting_are_by_place};
pub use rests::{rest_before, rest_from};
pub use span_list::SpanList;
pub use spans::Spans;

#[cfg(test)]
mod tests;
