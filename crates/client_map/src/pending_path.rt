//! What is pending on one path.

ghost use Rattle.std.specs.Prelude.{◌≡◌, ◌<◌, ◌+◌, ◌↔◌, All, length, max, Some};
ghost use Rattle.std.specs.Prelude.{IfErr, IfOk, IfSome, IsTrue, OnErr, OnOk};
ghost use Rattle.std.specs.Borrow.{sem};
ghost use Rattle.std.specs.Option.{option_copied, option_copied_mut};
ghost use Rattle.fs_types.specs.Fragments.{IsWellFormedPush};
ghost use Rattle.fs_types.specs.Pieces.{Piece};
ghost use Rattle.piece_table.specs.HeldSpans.{AreGone, AreHeld, PutsAll, held, pushed};
ghost use Rattle.span_list.specs.Spans.{AreSpans, IsSpan, next_fragment};
ghost use Rattle.client_map.specs.HoldLends.{lends_on_path};
ghost use Rattle.client_map.specs.Kept.{nothing_pending, pending_end};
ghost use Rattle.client_map.specs.Writes.{MayAdd, parts_of, write_of};

use crate::parts::parts;
use crate::push_room::PushRoom;
use fs_types::{Frag, Hold, PieceId, Push, Want};
use piece_table::HeldSpans;
use span_list::Spans;
use std::alloc::Global;
use std::marker::Model;

/// What is pending on a path, and room for the push that it will be taken as.
#[derive(Drop)]
pub struct PendingPath<H: Hold, S: Spans> {
    held: HeldSpans<H, S>,
    // Where the last byte of `held` ends.
    end: u64,
    room: PushRoom<H>,
}

impl<H: Hold, S: Spans> Model for PendingPath<H, S> {
    ghost use Rattle.piece_table.specs.HeldSpans.{Kept};
    ghost use Rattle.client_map.specs.Kept.{IsPathKept};

    ghost Value = { Kept H };

    ghost view = { λ x. x.held };

    ghost invariant = { λ x. IsPathKept x.held x.end x.room };
}

impl<H: Hold + Drop, S: Spans> PendingPath<H, S> {
    /// Nothing. It takes no memory.
    pub fn new(alloc: Global) -> PendingPath<H, S>
        ensures { held result ≡ nothing_pending }
    {
        PendingPath {
            held: HeldSpans::new(alloc),
            end: 0,
            room: PushRoom::new(alloc),
        }
    }

    /// Whether anything is pending.
    pub fn has(&self) -> bool
        ensures { IsTrue result ↔ (0 < length self.now.fragments) }
    {
        !self.held.is_empty()
    }

    /// Where the last byte that is pending ends, and 0 where nothing is.
    pub fn end(&self) -> u64
        ensures { result ≡ pending_end self.now.fragments }
    {
        self.end
    }

    /// The first whole fragment that ends after a place, if any.
    pub fn next(&self, at: u64) -> Option<Frag>
        ensures next { result ≡ next_fragment at self.now.fragments }
        ensures span { IfSome result IsSpan }
        ensures spans { AreSpans self.now.fragments }
    {
        self.held.next(at)
    }

    /// The hold of a piece that is pending, to read.
    pub fn hold(&self, id: PieceId) -> Option<&H>
        ensures hold { option_copied result ≡ (held self.now).hold_of id }
    {
        self.held.get(id)
    }

    /// The hold of a piece that is pending, to change.
    pub fn hold_of(&mut self, id: PieceId) -> Option<&mut H>
        ensures* writes_back { sem 𝓛
            (lends_on_path H.row S.row H.Hold S.Spans self.entry id result) }
        ensures hold { option_copied_mut result ≡ (held self.old).hold_of id }
    {
        let Some(hold) = self.held.hold_of(id) else {
            return None;
        };
        Some(hold)
    }

    /// Puts a write over the rest by the holds of its parts, and gives the holds of the pieces of
    /// which no byte is left. After want of memory all is as before, and the holds are given back.
    pub fn add(
        &mut self,
        alloc: Global,
        chunk: u32,
        off: u64,
        len: u64,
        holds: Vec<H>,
    ) -> Result<Vec<H>, (Want, Vec<H>)>
        requires chunk { 0 < chunk }
        requires held { AreHeld H.is_ready H.piece H.bytes (held self.old) }
        requires write { MayAdd H.is_ready H.piece H.bytes chunk
            (write_of H.piece off len holds.items) holds.items (held self.old) }
        ensures put { OnOk result (PutsAll
            (pushed H.piece (parts_of chunk (write_of H.piece off len holds.items)) holds.items)
            (held self.old) (held self.new)) }
        ensures own { OnOk result
            (All (λ h. (held self.new).hold_of (H.piece h) ≡ Some h) holds.items) }
        ensures end { OnOk result (pending_end (held self.new).fragments
            ≡ max (pending_end (held self.old).fragments) (off + len)) }
        ensures dead { IfOk result (λ dead. AreGone H.piece (held self.old) (held self.new)
            dead.items) }
        ensures given_back { IfErr result (λ e. e.1 ≡ holds) }
        ensures same { OnErr result (held self.new ≡ held self.old) }
        ensures held { AreHeld H.is_ready H.piece H.bytes (held self.new) }
    {
        let count = holds.len();
        let Ok(frags) = parts(alloc, chunk, off, len, &holds) else {
            return Err((Want, holds));
        };
        let Ok(()) = self.room.reserve(&self.held, count) else {
            return Err((Want, holds));
        };
        let mut dead = Vec::new(alloc);
        match self.held.put_push(Push { frags, holds }, &mut dead) {
            Ok(()) => {
                self.end = self.end.max(off + len);
                self.room.most += 2 * count;
                Ok(dead)
            }
            Err((want, push)) => {
                let Push { frags: _, holds } = push;
                Err((want, holds))
            }
        }
    }

    /// All of it as a push, and nothing is pending any more. It takes no memory.
    pub fn take_all(&mut self) -> Push<H>
        requires { AreHeld H.is_ready H.piece H.bytes (held self.old) }
        ensures well_formed { IsWellFormedPush H.piece H.bytes result }
        ensures ready { All (λ h. IsTrue (H.is_ready h)) result.holds.items }
        ensures fragments { result.frags.items ≡ self.old.fragments }
        ensures holds { (q : Piece)
            → (pushed H.piece result.frags.items result.holds.items).hold_of q
            ≡ (held self.old).hold_of q }
        ensures emptied { held self.new ≡ nothing_pending }
    {
        self.end = 0;
        let (frags, holds) = self.room.take();
        self.held.take_all(frags, holds)
    }
}
