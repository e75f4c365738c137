//! Fragments that are put over others, and counted: the holds of pieces that no fragment names any
//! more come out.

ghost use Rattle.std.specs.Prelude.{◌≡◌, ◌≤◌, ◌<◌, ◌+◌, ◌^◌, ◌∷◌, min, length, vec_len};
ghost use Rattle.std.specs.Prelude.{vec_capacity, if◌then◌else◌};
ghost use Rattle.fs_types.specs.Fragments.{end_of, fragment_count, piece_eq};
ghost use Rattle.fs_types.specs.Pieces.{Piece};
ghost use Rattle.span_list.specs.Spans.{IsSpan, put_fragment};
ghost use Rattle.piece_table.specs.PieceTable.{AreTheirs, hold_of, number_of};
ghost use Rattle.piece_table.specs.Ranges.{covered, reaching};
ghost use Rattle.piece_table.specs.Thinning.{Thins, ComesOut};

use crate::piece_table::PieceTable;
use crate::ranges::{next_covered, next_reaching};
use fs_types::{Frag, Hold, LONGEST_FILE, PieceId};
use span_list::Spans;

// One fragment of a piece goes out.
fn release_one<H: Hold + Drop>(pieces: &mut PieceTable<H>, p: PieceId, dead: &mut Vec<H>)
    requires there { 0 < number_of pieces.old p }
    requires theirs { AreTheirs H.piece (hold_of pieces.old) }
    requires room { vec_len dead.old < vec_capacity dead.old }
    ensures numbers { (q : Piece)
        → number_of pieces.new q + (if piece_eq p q then 1 else 0) ≡ number_of pieces.old q }
    ensures thins { Thins pieces.old pieces.new }
    ensures out { ComesOut H.piece (hold_of pieces.old) (hold_of pieces.new)
        dead.old.items dead.new.items }
    ensures len { length pieces.new.entries + vec_len dead.new
        ≡ length pieces.old.entries + vec_len dead.old }
    ensures one { vec_len dead.new ≤ vec_len dead.old + 1 }
    ensures spare { pieces.old.spare ≤ pieces.new.spare }
    ensures capacity { vec_capacity dead.old ≤ vec_capacity dead.new }
{
    if let Some(hold) = pieces.less(p) {
        dead.push_reserved(hold);
    }
}

/// The fragments that lie whole between two places go out.
pub fn release_covered<H: Hold + Drop, S: Spans>(
    spans: &S,
    pieces: &mut PieceTable<H>,
    at: u64,
    end: u64,
    dead: &mut Vec<H>,
)
    requires there { (q : Piece) → fragment_count q (covered at end (S.fragments spans.now))
        ≤ number_of pieces.old q }
    requires theirs { AreTheirs H.piece (hold_of pieces.old) }
    requires unheld { (q : Piece) → number_of pieces.old q ≡ 0 → hold_of pieces.old q ≡ None }
    requires room { min (length (covered at end (S.fragments spans.now)))
        (length pieces.old.entries) + vec_len dead.old ≤ vec_capacity dead.old }
    ensures numbers { (q : Piece) → number_of pieces.new q
        + fragment_count q (covered at end (S.fragments spans.now)) ≡ number_of pieces.old q }
    ensures thins { Thins pieces.old pieces.new }
    ensures out { ComesOut H.piece (hold_of pieces.old) (hold_of pieces.new)
        dead.old.items dead.new.items }
    ensures len { length pieces.new.entries + vec_len dead.new
        ≡ length pieces.old.entries + vec_len dead.old }
    ensures few { vec_len dead.new
        ≤ vec_len dead.old + length (covered at end (S.fragments spans.now)) }
    ensures spare { pieces.old.spare ≤ pieces.new.spare }
    ensures capacity { vec_capacity dead.old ≤ vec_capacity dead.new }
{
    let mut place = at;
    while let Some(g) = next_covered(spans, place, end) {
        release_one(pieces, g.piece, dead);
        place = g.at + g.len;
    }
}

// Counts the fragment once more that reaches past two places, if there is one.
fn count_reaching<H: Hold + Drop, S: Spans>(
    spans: &S,
    pieces: &mut PieceTable<H>,
    at: u64,
    end: u64,
)
    requires range { at ≤ end }
    requires there { (q : Piece) → fragment_count q (S.fragments spans.now)
        ≤ number_of pieces.old q }
    requires few { (q : Piece) → number_of pieces.old q < 2 ^ 63 }
    ensures numbers { (q : Piece) → number_of pieces.new q
        ≡ number_of pieces.old q + fragment_count q (reaching at end (S.fragments spans.now)) }
    ensures holds { (q : Piece) → hold_of pieces.new q ≡ hold_of pieces.old q }
    ensures len { length pieces.new.entries ≡ length pieces.old.entries }
    ensures spare { pieces.new.spare ≡ pieces.old.spare }
{
    if let Some(g) = next_reaching(spans, at, end) {
        pieces.more(g.piece);
    }
}

/// Puts a fragment, which is counted already, over the others.
pub fn lay<H: Hold + Drop, S: Spans>(
    spans: &mut S,
    pieces: &mut PieceTable<H>,
    f: Frag,
    dead: &mut Vec<H>,
)
    requires span { IsSpan f }
    requires spare { 2 ≤ S.spare spans.old }
    requires there { (q : Piece) → fragment_count q (f ∷ S.fragments spans.old)
        ≤ number_of pieces.old q }
    requires few { (q : Piece) → number_of pieces.old q < 2 ^ 63 }
    requires theirs { AreTheirs H.piece (hold_of pieces.old) }
    requires unheld { (q : Piece) → number_of pieces.old q ≡ 0 → hold_of pieces.old q ≡ None }
    requires room { min (length (covered f.at (end_of f) (S.fragments spans.old)))
        (length pieces.old.entries) + vec_len dead.old ≤ vec_capacity dead.old }
    ensures fragments { S.fragments spans.new ≡ put_fragment f (S.fragments spans.old) }
    ensures spare { S.spare spans.old ≤ S.spare spans.new + 2 }
    ensures numbers { (q : Piece) → number_of pieces.new q
        + fragment_count q (f ∷ S.fragments spans.old)
        ≡ number_of pieces.old q + fragment_count q (S.fragments spans.new) }
    ensures thins { Thins pieces.old pieces.new }
    ensures out { ComesOut H.piece (hold_of pieces.old) (hold_of pieces.new)
        dead.old.items dead.new.items }
    ensures len { length pieces.new.entries + vec_len dead.new
        ≡ length pieces.old.entries + vec_len dead.old }
    ensures few { vec_len dead.new
        ≤ vec_len dead.old + length (covered f.at (end_of f) (S.fragments spans.old)) }
    ensures spare_pieces { pieces.old.spare ≤ pieces.new.spare }
    ensures capacity { vec_capacity dead.old ≤ vec_capacity dead.new }
{
    let end = f.at + f.len;
    count_reaching(spans, pieces, f.at, end);
    release_covered(spans, pieces, f.at, end, dead);
    spans.put(f).unwrap();
}
