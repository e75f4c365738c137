//! The pieces of a push: they are entered into a table, and counted by the fragments that name
//! them.

ghost use Rattle.std.specs.Prelude.{◌≡◌, ◌≤◌, ◌<◌, ◌+◌, ◌*◌, ◌^◌, length, map, find, count_by};
ghost use Rattle.std.specs.Prelude.{vec_len, vec_capacity, false, None, All};
ghost use Rattle.std.specs.Prelude.{AllPairs, IsTrue, IfOk, OnOk};
ghost use Rattle.std.specs.Option.{option_or};
ghost use Rattle.fs_types.specs.Fragments.{AreHeldFragments, fragment_count, held_pieces, piece_eq};
ghost use Rattle.fs_types.specs.Pieces.{Piece};
ghost use Rattle.fs_types.specs.declared.limits.TheConstants.{LONGEST_FILE};
ghost use Rattle.span_list.specs.Spans.{AreSpans};
ghost use Rattle.piece_table.specs.HeldSpans.{put_fragments};
ghost use Rattle.piece_table.specs.PieceTable.{AreTheirs, hold_of, number_of};
ghost use Rattle.piece_table.specs.Ranges.{ends_under};
ghost use Rattle.piece_table.specs.Thinning.{Thins, ComesOut};

use crate::laying::lay;
use crate::piece_table::PieceTable;
use fs_types::{Frag, Hold, PieceId, Want};
use span_list::Spans;
use std::alloc::Global;

/// The pieces of some holds, in order.
pub fn pieces_of<H: Hold>(alloc: Global, holds: &[H]) -> Result<Vec<PieceId>, Want>
    requires ready { All (λ h. IsTrue (H.is_ready h)) holds.now }
    ensures pieces { IfOk result (λ v. v.items ≡ map H.piece holds.now) }
    ensures short { OnOk result (All (λ h. H.bytes h < 2 ^ 32) holds.now) }
{
    let mut pieces = Vec::new(alloc);
    for h in holds {
        pieces.push(h.piece())?;
        // Asked for the proof of `short` alone: only what the call gives says that it fits a `u32`.
        let _ = h.bytes();
    }
    Ok(pieces)
}

// Enters new pieces by their holds, where there is room for them.
fn enter_all<H: Hold + Drop>(pieces: &mut PieceTable<H>, holds: Vec<H>)
    requires ready { All (λ h. IsTrue (H.is_ready h)) holds.items }
    requires apart { AllPairs (λ g h. piece_eq (H.piece g) (H.piece h) ≡ false) holds.items }
    requires new_pieces { All (λ h. hold_of pieces.old (H.piece h) ≡ None) holds.items }
    requires room { vec_len holds ≤ pieces.old.spare }
    ensures numbers { (q : Piece) → number_of pieces.new q
        ≡ number_of pieces.old q + count_by (λ h. piece_eq (H.piece h) q) holds.items }
    ensures holds { (q : Piece) → hold_of pieces.new q
        ≡ option_or (find (λ h. piece_eq (H.piece h) q) holds.items) (hold_of pieces.old q) }
    ensures len { length pieces.new.entries ≡ length pieces.old.entries + vec_len holds }
{
    for h in holds {
        let Ok(()) = pieces.enter(h) else {
            unreachable!()
        };
    }
}

// Counts the pieces of fragments once more for each.
fn count_all<H: Hold + Drop>(pieces: &mut PieceTable<H>, frags: &[Frag])
    requires there { All (λ f. 0 < number_of pieces.old f.piece) frags.now }
    requires few { (q : Piece) → number_of pieces.old q + length frags.now < 2 ^ 64 }
    ensures numbers { (q : Piece)
        → number_of pieces.new q ≡ number_of pieces.old q + fragment_count q frags.now }
    ensures holds { (q : Piece) → hold_of pieces.new q ≡ hold_of pieces.old q }
    ensures len { length pieces.new.entries ≡ length pieces.old.entries }
{
    for f in frags {
        pieces.more(f.piece);
    }
}

// Counts each of these pieces once less, where it stays.
fn discount_all<H: Hold + Drop>(pieces: &mut PieceTable<H>, less: &[PieceId])
    requires stays { (q : Piece) → 0 < count_by (λ p. piece_eq p q) less.now
        → count_by (λ p. piece_eq p q) less.now < number_of pieces.old q }
    ensures numbers { (q : Piece) → number_of pieces.new q + count_by (λ p. piece_eq p q) less.now
        ≡ number_of pieces.old q }
    ensures holds { (q : Piece) → hold_of pieces.new q ≡ hold_of pieces.old q }
    ensures len { length pieces.new.entries ≡ length pieces.old.entries }
{
    for p in less {
        let _ = pieces.less(*p);
    }
}

/// Enters the pieces of a push, which are new, where there is room for them, and counts its
/// fragments.
pub fn enter_push<H: Hold + Drop>(
    pieces: &mut PieceTable<H>,
    frags: &[Frag],
    holds: Vec<H>,
    ids: &[PieceId],
)
    requires well_formed { AreHeldFragments LONGEST_FILE frags.now
        (held_pieces H.piece H.bytes holds.items) }
    requires ready { All (λ h. IsTrue (H.is_ready h)) holds.items }
    requires new_pieces { All (λ h. hold_of pieces.old (H.piece h) ≡ None) holds.items }
    requires room { vec_len holds ≤ pieces.old.spare }
    requires ids { ids.now ≡ map H.piece holds.items }
    requires few { (q : Piece) → number_of pieces.old q + length frags.now < 2 ^ 63 }
    ensures numbers { (q : Piece)
        → number_of pieces.new q ≡ number_of pieces.old q + fragment_count q frags.now }
    ensures holds { (q : Piece) → hold_of pieces.new q
        ≡ option_or (find (λ h. piece_eq (H.piece h) q) holds.items) (hold_of pieces.old q) }
    ensures len { length pieces.new.entries ≡ length pieces.old.entries + vec_len holds }
{
    enter_all(pieces, holds);
    count_all(pieces, frags);
    discount_all(pieces, ids);
}

/// Puts fragments, which are counted already, over the others, in order.
pub fn lay_each<H: Hold + Drop, S: Spans>(
    spans: &mut S,
    pieces: &mut PieceTable<H>,
    over: &[Frag],
    dead: &mut Vec<H>,
)
    requires spans { AreSpans over.now }
    requires spare { 2 * length over.now ≤ S.spare spans.old }
    requires counted { (q : Piece) → number_of pieces.old q
        ≡ fragment_count q (S.fragments spans.old) + fragment_count q over.now }
    requires theirs { AreTheirs H.piece (hold_of pieces.old) }
    requires unheld { (q : Piece) → number_of pieces.old q ≡ 0 → hold_of pieces.old q ≡ None }
    requires room { ends_under over.now (S.fragments spans.old) + vec_len dead.old
        ≤ vec_capacity dead.old }
    ensures fragments { S.fragments spans.new ≡ put_fragments over.now (S.fragments spans.old) }
    ensures numbers { (q : Piece)
        → number_of pieces.new q ≡ fragment_count q (S.fragments spans.new) }
    ensures thins { Thins pieces.old pieces.new }
    ensures out { ComesOut H.piece (hold_of pieces.old) (hold_of pieces.new)
        dead.old.items dead.new.items }
    ensures len { length pieces.new.entries + vec_len dead.new
        ≡ length pieces.old.entries + vec_len dead.old }
    ensures few { vec_len dead.new
        ≤ vec_len dead.old + ends_under over.now (S.fragments spans.old) }
    ensures capacity { vec_capacity dead.old ≤ vec_capacity dead.new }
{
    for f in over {
        lay(spans, pieces, *f, dead);
    }
}
