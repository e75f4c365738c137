//! Fragments of a file with the holds of the pieces that they name.

ghost use Rattle.std.specs.Prelude.{◌≡◌, ℕ, ◌≤◌, ◌<◌, ◌+◌, ◌^◌, [], None, All, IsTrue, ◌↔◌, length};
ghost use Rattle.std.specs.Prelude.{vec_len, vec_capacity};
ghost use Rattle.std.specs.Prelude.{option_copied, IsOk, IfErr, IfOk, OnOk, OnErr};
ghost use Rattle.std.specs.Borrow.{sem};
ghost use Rattle.std.specs.Option.{option_copied_mut};
ghost use Rattle.piece_table.specs.HeldLends.{lends_held};
ghost use Rattle.fs_types.specs.Fragments.{IsWellFormedPush, end_of};
ghost use Rattle.fs_types.specs.Pieces.{Piece};
ghost use Rattle.fs_types.specs.declared.limits.TheConstants.{LONGEST_FILE};
ghost use Rattle.span_list.specs.Spans.{IsSpan, next_fragment};
ghost use Rattle.piece_table.specs.Ranges.{covered, ends_under};
ghost use Rattle.piece_table.specs.HeldSpans.{AreHeld, Cuts, HandsOver, HasRoom, IsCounted, Puts};
ghost use Rattle.piece_table.specs.HeldSpans.{PutsAll, held, pushed};

use crate::laying::{lay, release_covered};
use crate::piece_table::PieceTable;
use crate::pushing::{enter_push, lay_each, pieces_of};
use crate::ranges::{count_covered, count_under, list_fragments};
use fs_types::{Frag, Hold, LONGEST_FILE, PieceId, Push, Want};
use span_list::Spans;
use std::alloc::Global;
use std::marker::Model;

/// Fragments of a file, and for each piece that they name its hold.
#[derive(Drop)]
pub struct HeldSpans<H: Hold, S: Spans> {
    spans: S,
    pieces: PieceTable<H>,
}

impl<H: Hold, S: Spans> Model for HeldSpans<H, S> {
    ghost use Rattle.piece_table.specs.HeldSpans.{IsCounted, Kept, kept_with};

    ghost Value = { Kept H };

    ghost view = { λ x. kept_with (S.fragments x.spans) (S.spare x.spans) x.pieces };

    ghost invariant = { λ x.
        IsCounted (kept_with (S.fragments x.spans) (S.spare x.spans) x.pieces) };
}

impl<H: Hold + Drop, S: Spans> HeldSpans<H, S> {
    /// No fragments. It takes no memory.
    pub fn new(alloc: Global) -> HeldSpans<H, S>
        ensures fragments { (held result).fragments ≡ [] }
        ensures holds { (q : Piece) → (held result).hold_of q ≡ None }
        ensures pieces { length result.pieces.entries ≡ 0 }
        ensures are_held { AreHeld H.is_ready H.piece H.bytes (held result) }
    {
        HeldSpans {
            spans: S::new(alloc),
            pieces: PieceTable::new(alloc),
        }
    }

    /// Whether there are no fragments.
    pub fn is_empty(&self) -> bool
        ensures empty { IsTrue result ↔ ((held self.now).fragments ≡ []) }
        ensures counted { IsCounted self.now }
    {
        self.spans.next(0).is_none()
    }

    /// How many pieces the fragments name.
    pub fn piece_count(&self) -> usize
        ensures count { result ≡ length self.now.pieces.entries }
        ensures small { result < 2 ^ 63 }
        ensures counted { IsCounted self.now }
    {
        self.pieces.len()
    }

    /// How many fragments there are. It walks them.
    pub fn fragment_count(&self) -> usize
        ensures count { result ≡ length (held self.now).fragments }
        ensures small { result ≤ LONGEST_FILE }
        ensures counted { IsCounted self.now }
    {
        count_covered(&self.spans, 0, LONGEST_FILE)
    }

    /// The first whole fragment that ends after a place, if any.
    pub fn next(&self, at: u64) -> Option<Frag>
        ensures next { result ≡ next_fragment at (held self.now).fragments }
        ensures counted { IsCounted self.now }
    {
        self.spans.next(at)
    }

    /// The hold of a piece that some fragment names.
    pub fn get(&self, p: PieceId) -> Option<&H>
        ensures hold { option_copied result ≡ (held self.now).hold_of p }
        ensures counted { IsCounted self.now }
    {
        self.pieces.get(p)
    }

    /// The hold of a piece that some fragment names, to change. What is left behind the reference
    /// is the hold of the piece then; the fragments, and all other holds, stay.
    pub fn hold_of(&mut self, p: PieceId) -> Option<&mut H>
        ensures* writes_back { sem 𝓛 (lends_held H.row S.row H.Hold S.Spans self.entry p result) }
        ensures hold { option_copied_mut result ≡ (held self.old).hold_of p }
        ensures counted { IsCounted self.old }
    {
        let Some(hold) = self.pieces.hold(p) else {
            return None;
        };
        Some(hold)
    }

    /// Makes room for so many more fragments of new pieces. Where they fit already, it takes no
    /// memory.
    pub fn reserve(&mut self, n: usize) -> Result<(), Want>
        ensures room { OnOk result (HasRoom n self.new) }
        ensures succeeds { n < 2 ^ 63 → HasRoom n self.old → IsOk result }
        ensures same { held self.new ≡ held self.old }
        ensures kept { (k : ℕ) → HasRoom k self.old → HasRoom k self.new }
    {
        let Some(fragments) = n.checked_mul(2) else {
            return Err(Want);
        };
        self.spans.reserve(fragments)?;
        self.pieces.reserve(n)
    }

    /// Puts a fragment of a new piece over the others. The holds of pieces that no fragment names
    /// any more are pushed to `dead`. After want of memory nothing has changed, and the hold is
    /// given back. With room for one fragment, and for a hold of each fragment in its range, it
    /// takes no memory.
    pub fn put(&mut self, f: Frag, h: H, dead: &mut Vec<H>) -> Result<(), (Want, H)>
        requires are_held { AreHeld H.is_ready H.piece H.bytes (held self.old) }
        requires span { IsSpan f }
        requires ready { IsTrue (H.is_ready h) }
        requires piece { H.piece h ≡ f.piece }
        requires within { f.from + f.len ≤ H.bytes h }
        requires new_piece { (held self.old).hold_of f.piece ≡ None }
        ensures put { OnOk result (Puts f h (held self.old) (held self.new)) }
        ensures dead { OnOk result (HandsOver H.piece (held self.old) (held self.new)
            dead.old.items dead.new.items) }
        ensures room { HasRoom 1 self.old
            → length (covered f.at (end_of f) self.old.fragments) + vec_len dead.old
            ≤ vec_capacity dead.old → IsOk result }
        ensures used { OnOk result ((k : ℕ) → HasRoom (k + 1) self.old → HasRoom k self.new) }
        ensures few { vec_len dead.new
            ≤ vec_len dead.old + length (covered f.at (end_of f) self.old.fragments) }
        ensures capacity { vec_capacity dead.old ≤ vec_capacity dead.new }
        ensures given_back { IfErr result (λ e. e.1 ≡ h) }
        ensures same { OnErr result (held self.new ≡ held self.old) }
        ensures same_dead { OnErr result (dead.new.items ≡ dead.old.items) }
        ensures are_held { AreHeld H.is_ready H.piece H.bytes (held self.new) }
    {
        let count = count_covered(&self.spans, f.at, f.at + f.len);
        if dead.reserve(count).is_err() || self.spans.reserve(2).is_err() {
            return Err((Want, h));
        }
        self.pieces.enter(h)?;
        lay(&mut self.spans, &mut self.pieces, f, dead);
        Ok(())
    }

    /// Puts a push over these fragments, its fragments in order with their holds. No piece of it
    /// is here. The holds of pieces that no fragment names any more are pushed to `dead`. After
    /// want of memory nothing has changed, and the push is given back.
    pub fn put_push(&mut self, push: Push<H>, dead: &mut Vec<H>) -> Result<(), (Want, Push<H>)>
        requires are_held { AreHeld H.is_ready H.piece H.bytes (held self.old) }
        requires well_formed { IsWellFormedPush H.piece H.bytes push }
        requires ready { All (λ h. IsTrue (H.is_ready h)) push.holds.items }
        requires new_pieces { All (λ h. (held self.old).hold_of (H.piece h) ≡ None)
            push.holds.items }
        ensures put { OnOk result (PutsAll (pushed H.piece push.frags.items push.holds.items)
            (held self.old) (held self.new)) }
        ensures dead { OnOk result (HandsOver H.piece (held self.old) (held self.new)
            dead.old.items dead.new.items) }
        ensures count { OnOk result (length self.new.pieces.entries + vec_len dead.new
            ≡ length self.old.pieces.entries + vec_len push.holds + vec_len dead.old) }
        ensures few { vec_len dead.new
            ≤ vec_len dead.old + ends_under push.frags.items self.old.fragments }
        ensures capacity { vec_capacity dead.old ≤ vec_capacity dead.new }
        ensures given_back { IfErr result (λ e. e.1 ≡ push) }
        ensures same { OnErr result (held self.new ≡ held self.old) }
        ensures same_count { OnErr result
            (length self.new.pieces.entries ≡ length self.old.pieces.entries) }
        ensures same_dead { OnErr result (dead.new.items ≡ dead.old.items) }
        ensures are_held { AreHeld H.is_ready H.piece H.bytes (held self.new) }
    {
        let count = push.frags.len();
        if self.spans.reserve(2 * count).is_err() {
            return Err((Want, push));
        }
        let Ok(pieces) = pieces_of(*dead.allocator(), &push.holds) else {
            return Err((Want, push));
        };
        let ending = count_under(&self.spans, &push.frags);
        if self.pieces.reserve(pieces.len()).is_err() || dead.reserve(ending).is_err() {
            return Err((Want, push));
        }
        let Push { frags, holds } = push;
        enter_push(&mut self.pieces, &frags, holds, &pieces);
        lay_each(&mut self.spans, &mut self.pieces, &frags, dead);
        Ok(())
    }

    /// Drops all bytes from the place `size` on. The holds of pieces that no fragment names any
    /// more are pushed to `dead`; where that has room for all pieces, it takes no memory. After
    /// want of memory nothing has changed.
    pub fn cut(&mut self, size: u64, dead: &mut Vec<H>) -> Result<(), Want>
        requires are_held { AreHeld H.is_ready H.piece H.bytes (held self.old) }
        ensures cut { OnOk result (Cuts size (held self.old) (held self.new)) }
        ensures dead { OnOk result (HandsOver H.piece (held self.old) (held self.new)
            dead.old.items dead.new.items) }
        ensures count { OnOk result (length self.new.pieces.entries + vec_len dead.new
            ≡ length self.old.pieces.entries + vec_len dead.old) }
        ensures capacity { vec_capacity dead.old ≤ vec_capacity dead.new }
        ensures room { length self.old.pieces.entries + vec_len dead.old ≤ vec_capacity dead.old
            → IsOk result }
        ensures kept { (k : ℕ) → HasRoom k self.old → HasRoom k self.new }
        ensures same { OnErr result (held self.new ≡ held self.old) }
        ensures same_dead { OnErr result (dead.new.items ≡ dead.old.items) }
        ensures are_held { AreHeld H.is_ready H.piece H.bytes (held self.new) }
    {
        let count = count_covered(&self.spans, size, LONGEST_FILE);
        dead.reserve(count.min(self.pieces.len()))?;
        release_covered(&self.spans, &mut self.pieces, size, LONGEST_FILE, dead);
        self.spans.cut(size);
        Ok(())
    }

    /// Drops all fragments. All holds are pushed to `dead`. After want of memory nothing has
    /// changed.
    pub fn clear(&mut self, dead: &mut Vec<H>) -> Result<(), Want>
        requires are_held { AreHeld H.is_ready H.piece H.bytes (held self.old) }
        ensures fragments { OnOk result ((held self.new).fragments ≡ []) }
        ensures dead { OnOk result (HandsOver H.piece (held self.old) (held self.new)
            dead.old.items dead.new.items) }
        ensures same { OnErr result (held self.new ≡ held self.old) }
        ensures same_dead { OnErr result (dead.new.items ≡ dead.old.items) }
        ensures are_held { AreHeld H.is_ready H.piece H.bytes (held self.new) }
    {
        dead.reserve(self.pieces.len())?;
        self.pieces.take_all(dead);
        self.spans.cut(0);
        Ok(())
    }

    /// All of it as a push: the fragments in order of place, and a hold of each piece that they
    /// name. They go into the two vectors, which have nothing and room for them, so it takes no
    /// memory. Nothing is left.
    pub fn take_all(&mut self, mut frags: Vec<Frag>, mut holds: Vec<H>) -> Push<H>
        requires are_held { AreHeld H.is_ready H.piece H.bytes (held self.old) }
        requires empty { (frags.items ≡ []) × (holds.items ≡ []) }
        requires room { length self.old.fragments ≤ vec_capacity frags }
        requires room_holds { length self.old.pieces.entries ≤ vec_capacity holds }
        ensures well_formed { IsWellFormedPush H.piece H.bytes result }
        ensures ready { All (λ h. IsTrue (H.is_ready h)) result.holds.items }
        ensures fragments { result.frags.items ≡ (held self.old).fragments }
        ensures holds { (q : Piece)
            → (pushed H.piece result.frags.items result.holds.items).hold_of q
            ≡ (held self.old).hold_of q }
        ensures emptied { (held self.new).fragments ≡ [] }
        ensures none { (q : Piece) → (held self.new).hold_of q ≡ None }
        ensures pieces { length self.new.pieces.entries ≡ 0 }
        ensures are_held { AreHeld H.is_ready H.piece H.bytes (held self.new) }
    {
        list_fragments(&self.spans, &mut frags);
        self.pieces.take_all(&mut holds);
        self.spans.cut(0);
        Push { frags, holds }
    }

    /// The same into vectors that it makes. After want of memory nothing has changed.
    pub fn take_push(&mut self, alloc: Global) -> Result<Push<H>, Want>
        requires are_held { AreHeld H.is_ready H.piece H.bytes (held self.old) }
        ensures well_formed { IfOk result (IsWellFormedPush H.piece H.bytes) }
        ensures ready { IfOk result (λ push. All (λ h. IsTrue (H.is_ready h)) push.holds.items) }
        ensures fragments { IfOk result (λ push. push.frags.items ≡ (held self.old).fragments) }
        ensures holds { IfOk result (λ push. (q : Piece)
            → (pushed H.piece push.frags.items push.holds.items).hold_of q
            ≡ (held self.old).hold_of q) }
        ensures emptied { OnOk result ((held self.new).fragments ≡ []) }
        ensures none { OnOk result ((q : Piece) → (held self.new).hold_of q ≡ None) }
        ensures same { OnErr result (held self.new ≡ held self.old) }
        ensures are_held { AreHeld H.is_ready H.piece H.bytes (held self.new) }
    {
        let frags = Vec::with_capacity(alloc, self.fragment_count())?;
        let holds = Vec::with_capacity(alloc, self.piece_count())?;
        Ok(self.take_all(frags, holds))
    }
}
