//! Parts of fragments in a range, the pieces that they name, and pins of those.

ghost use Rattle.std.specs.Prelude.{List, ◌≡◌, ◌↔◌, ◌≤◌, ◌<◌, ◌+◌, [], ◌∷◌, All, AllPairs};
ghost use Rattle.std.specs.Prelude.{Some, IsSome, IfOk, IsErrOf, IsTrue, true};
ghost use Rattle.std.specs.Prelude.{OnOk, OnErr, IfSome, MatchOption, length, vec_len};
ghost use Rattle.std.specs.Prelude.{vec_capacity, false};
ghost use Rattle.std.specs.List.{list_any};
ghost use Rattle.fs_types.specs.Fragments.{end_of, piece_eq};
ghost use Rattle.fs_types.specs.Pieces.{Fragment};
ghost use Rattle.span_list.specs.Spans.{AreSpans, IsSpan, next_fragment};
ghost use Rattle.piece_table.specs.HeldSpans.{AreHeld, held};
ghost use Rattle.owner_book.specs.Lookups.{Asks, AsksOne, MayAsk, Pins, parts_in, pieces_named};
ghost use Rattle.owner_book.specs.Lookups.{ArePinned, AsksFor, HoldsBecome, IsPinWith, IsRefused};
ghost use Rattle.owner_book.specs.Lookups.{MayAskFor, lacks_room};

use fs_types::{Frag, Hold, PieceId, PinNo, Want};
use indexmap::IndexSet;
use piece_table::HeldSpans;
use span_list::{Spans, rest_before, rest_from};
use std::alloc::Global;

/// What stands in a range of the first of some fragments that ends behind its beginning, if
/// anything does.
pub fn part_within(next: Option<Frag>, from: u64, to: u64) -> Option<Frag>
    requires spans { (fs : List Fragment) × AreSpans fs × (next ≡ next_fragment from fs) }
    ensures next { (fs : List Fragment) → AreSpans fs → next ≡ next_fragment from fs
        → MatchOption result (parts_in from to fs ≡ [])
        (λ f. parts_in from to fs ≡ f ∷ parts_in (end_of f) to fs) }
    ensures forward { IfSome result (λ f. from < end_of f) }
    ensures within { IfSome result (λ f. end_of f ≤ to) }
    ensures span { IfSome result IsSpan }
{
    let f = next?;
    rest_from(rest_before(f, to)?, from)
}

/// What stands of fragments in a range.
pub fn parts<H: Hold + Drop, S: Spans>(
    alloc: Global,
    held: &HeldSpans<H, S>,
    from: u64,
    to: u64,
) -> Result<Vec<Frag>, Want>
    ensures { IfOk result (λ v. v.items ≡ parts_in from to held.now.fragments) }
{
    let mut parts = Vec::new(alloc);
    let mut at = from;
    while let Some(part) = part_within(held.next(at), at, to) {
        at = part.at + part.len;
        parts.push(part)?;
    }
    Ok(parts)
}

/// The pieces that fragments name, each once.
pub fn pieces(alloc: Global, frags: &[Frag]) -> Result<IndexSet<PieceId>, Want>
    ensures { IfOk result (λ set. set.keys ≡ pieces_named frags.now) }
{
    let mut pieces = IndexSet::new(alloc);
    for f in frags {
        pieces.insert(f.piece)?;
    }
    Ok(pieces)
}

// A pin of a piece that is there, with at least so much room.
fn pin_of<H: Hold + Drop, S: Spans>(
    kept: &mut HeldSpans<H, S>,
    p: PieceId,
    given: u64,
) -> Result<H, PinNo>
    requires held { AreHeld H.is_ready H.piece H.bytes (held kept.old) }
    requires there { IsSome ((held kept.old).hold_of p) }
    ensures no_room { IsErrOf result PinNo.NoRoom
        ↔ IsTrue (lacks_room H.Hold given (held kept.old) p) }
    ensures piece { IfOk result (λ pin. H.piece pin ≡ p) }
    ensures pin { IfOk result (IsPinWith H.Hold given (held kept.old)) }
    ensures asks { OnOk result
        (AsksFor H.Hold given (p ∷ []) (held kept.old) (held kept.new)) }
    ensures refused { OnErr result
        (HoldsBecome (IsRefused H.Hold) (p ∷ []) (held kept.old) (held kept.new)) }
    ensures held { AreHeld H.is_ready H.piece H.bytes (held kept.new) }
{
    let Some(hold) = kept.hold_of(p) else {
        unreachable!();
    };
    hold.pin(given)
}

// Pins a piece, or notes that it is bare, where there is room for either.
fn pin_one<H: Hold + Drop, S: Spans>(
    kept: &mut HeldSpans<H, S>,
    p: PieceId,
    holds: &mut Vec<H>,
    bare: &mut Vec<PieceId>,
) -> Result<(), Want>
    requires held { AreHeld H.is_ready H.piece H.bytes (held kept.old) }
    requires there { IsSome ((held kept.old).hold_of p) }
    requires room { vec_len holds.old < vec_capacity holds.old }
    requires room_bare { vec_len bare.old < vec_capacity bare.old }
    ensures asks { OnOk result (AsksOne H.Hold p (held kept.old) (held kept.new)
        holds.old.items holds.new.items bare.old.items bare.new.items) }
    ensures room { OnOk result ((vec_len holds.new ≤ vec_len holds.old + 1)
        × (vec_len bare.new ≤ vec_len bare.old + 1)) }
    ensures capacity { (vec_capacity holds.old ≤ vec_capacity holds.new)
        × (vec_capacity bare.old ≤ vec_capacity bare.new) }
    ensures may_ask { OnErr result (MayAsk H.Hold (p ∷ []) (held kept.old) (held kept.new)) }
    ensures held { AreHeld H.is_ready H.piece H.bytes (held kept.new) }
{
    match pin_of(kept, p, 0) {
        Ok(pin) => holds.push_reserved(pin),
        Err(PinNo::NoRoom) => bare.push_reserved(p),
        Err(PinNo::Want) => return Err(Want),
    }
    Ok(())
}

/// Pins the pieces, of which each is there once, where there is room for all. After want of memory
/// some of them have been asked for pins.
pub fn pin_all<H: Hold + Drop, S: Spans>(
    kept: &mut HeldSpans<H, S>,
    pieces: &[PieceId],
    holds: &mut Vec<H>,
    bare: &mut Vec<PieceId>,
) -> Result<(), Want>
    requires held { AreHeld H.is_ready H.piece H.bytes (held kept.old) }
    requires there { All (λ q. IsSome ((held kept.old).hold_of q)) pieces.now }
    requires once { AllPairs (λ p q. piece_eq p q ≡ false) pieces.now }
    requires none { (holds.old.items ≡ []) × (bare.old.items ≡ []) }
    requires room { length pieces.now ≤ vec_capacity holds.old }
    requires room_bare { length pieces.now ≤ vec_capacity bare.old }
    ensures pins { OnOk result
        (Pins H.Hold (held kept.old) pieces.now holds.new.items bare.new.items) }
    ensures asks { OnOk result (Asks H.Hold pieces.now (held kept.old) (held kept.new)) }
    ensures may_ask { OnErr result (MayAsk H.Hold pieces.now (held kept.old) (held kept.new)) }
    ensures held { AreHeld H.is_ready H.piece H.bytes (held kept.new) }
{
    for p in pieces {
        pin_one(kept, *p, holds, bare)?;
    }
    Ok(())
}

/// Pins the pieces, of which each is there once, with at least so much room each, up to the first
/// whose hold has too little. After a refusal some of them have been asked for pins.
pub fn pin_each<H: Hold + Drop, S: Spans>(
    kept: &mut HeldSpans<H, S>,
    pieces: &[PieceId],
    given: u64,
    pins: &mut Vec<H>,
) -> Result<(), PinNo>
    requires held { AreHeld H.is_ready H.piece H.bytes (held kept.old) }
    requires there { All (λ q. IsSome ((held kept.old).hold_of q)) pieces.now }
    requires once { AllPairs (λ p q. piece_eq p q ≡ false) pieces.now }
    requires none { pins.old.items ≡ [] }
    requires room { length pieces.now ≤ vec_capacity pins.old }
    ensures pins { OnOk result
        (ArePinned H.Hold given (held kept.old) pieces.now pins.new.items) }
    ensures has_room { OnOk result
        (list_any (lacks_room H.Hold given (held kept.old)) pieces.now ≡ false) }
    ensures no_room { IsErrOf result PinNo.NoRoom
        → list_any (lacks_room H.Hold given (held kept.old)) pieces.now ≡ true }
    ensures asks { OnOk result (AsksFor H.Hold given pieces.now (held kept.old) (held kept.new)) }
    ensures may_ask { MayAskFor H.Hold given pieces.now (held kept.old) (held kept.new) }
    ensures held { AreHeld H.is_ready H.piece H.bytes (held kept.new) }
{
    for p in pieces {
        pins.push_reserved(pin_of(kept, *p, given)?);
    }
    Ok(())
}
