//! What one client has pending, path by path.

ghost use Rattle.std.specs.Prelude.{◌≡◌, ◌≤◌, ◌<◌, ◌+◌, ◌↔◌, ℕ, List, All, length, max, None, Some};
ghost use Rattle.std.specs.Prelude.{IfErr, IfOk, IfSome, IsSome, IsTrue, OnErr, OnOk};
ghost use Rattle.std.specs.Borrow.{sem};
ghost use Rattle.std.specs.Option.{option_copied, option_copied_mut};
ghost use Rattle.fs_types.specs.Fragments.{IsWellFormedPush};
ghost use Rattle.fs_types.specs.Pieces.{Piece};
ghost use Rattle.piece_table.specs.HeldSpans.{AreGone, PutsAll, pushed};
ghost use Rattle.span_list.specs.Spans.{AreSpans, IsSpan, next_fragment};
ghost use Rattle.client_map.specs.Calls.{Changes, HasHolds, IsAsBefore};
ghost use Rattle.client_map.specs.HoldLends.{lends_hold_of};
ghost use Rattle.client_map.specs.Kept.{is_text, nothing_pending, pending_end, pending_in};
ghost use Rattle.std.specs.Map.{lookup};
ghost use Rattle.client_map.specs.Writes.{MayAdd, parts_of, write_of};

use crate::pending_path::PendingPath;
use fs_types::{Frag, Hold, Path, PieceId, Push, Want};
use indexmap::IndexMap;
use span_list::Spans;
use std::alloc::Global;
use std::marker::Model;

/// What one client has pending on each path.
#[derive(Drop)]
pub struct ClientMap<H: Hold, S: Spans> {
    chunk: u32,
    // By the text of the path.
    paths: IndexMap<Vec<u8>, PendingPath<H, S>>,
}

impl<H: Hold, S: Spans> Model for ClientMap<H, S> {
    ghost use Rattle.std.specs.Prelude.{◌<◌};
    ghost use Rattle.client_map.specs.Kept.{MapKept};

    ghost Value = { MapKept H };

    ghost view = { λ m. record { chunk = m.chunk; paths = m.paths.entries } };

    ghost invariant = { λ m. 0 < m.chunk };
}

impl<H: Hold + Drop, S: Spans + Drop> ClientMap<H, S> {
    /// A map in which nothing is pending, for parts of at most so many bytes.
    pub fn new(alloc: Global, chunk: u32) -> Result<ClientMap<H, S>, Want>
        requires { 1 ≤ chunk }
        ensures chunk { IfOk result (λ map. map.chunk ≡ chunk) }
        ensures none { IfOk result (λ map. (q : List ℕ) → pending_in map q ≡ nothing_pending) }
    {
        Ok(ClientMap {
            chunk,
            paths: IndexMap::new(alloc),
        })
    }

    /// Whether anything is pending on a path.
    pub fn has(&self, p: &Path) -> bool
        ensures { IsTrue result ↔ (0 < length (pending_in self.now p.now).fragments) }
    {
        match self.paths.get(p.as_bytes()) {
            Some(path) => path.has(),
            None => false,
        }
    }

    /// Where the last byte that is pending on a path ends, and 0 where nothing is.
    pub fn end(&self, p: &Path) -> u64
        ensures { result ≡ pending_end (pending_in self.now p.now).fragments }
    {
        match self.paths.get(p.as_bytes()) {
            Some(path) => path.end(),
            None => 0,
        }
    }

    /// The first whole fragment pending on a path that ends after a place, if any.
    pub fn next(&self, p: &Path, at: u64) -> Option<Frag>
        ensures next { result ≡ next_fragment at (pending_in self.now p.now).fragments }
        ensures span { IfSome result IsSpan }
        ensures spans { AreSpans (pending_in self.now p.now).fragments }
    {
        match self.paths.get(p.as_bytes()) {
            Some(path) => path.next(at),
            None => None,
        }
    }

    // Makes a place for a path that has none.
    fn enter(&mut self, alloc: Global, path: &[u8]) -> Result<(), Want>
        requires { lookup (is_text path.now) self.old.paths ≡ None }
        ensures there { OnOk result (IsSome (lookup (is_text path.now) self.new.paths)) }
        ensures same { IsAsBefore self.old self.new }
    {
        self.paths
            .insert(Vec::from_slice(alloc, path)?, PendingPath::new(alloc))?;
        Ok(())
    }

    /// Puts what a line writes to a path over what is pending there, by the holds of its parts.
    /// Gives the holds of the pieces of which no byte is left. After want of memory all is as
    /// before, and the holds are given back.
    pub fn add(
        &mut self,
        alloc: Global,
        p: &Path,
        off: u64,
        len: u64,
        holds: Vec<H>,
    ) -> Result<Vec<H>, (Want, Vec<H>)>
        requires holds { HasHolds H.is_ready H.piece H.bytes self.old p.now }
        requires write { let w = write_of H.piece off len holds.items in
            MayAdd H.is_ready H.piece H.bytes self.old.chunk w holds.items
            (pending_in self.old p.now) }
        ensures added { let w = write_of H.piece off len holds.items in
            OnOk result (PutsAll (pushed H.piece (parts_of self.old.chunk w) holds.items)
            (pending_in self.old p.now) (pending_in self.new p.now)) }
        ensures own { OnOk result (All
            (λ h. (pending_in self.new p.now).hold_of (H.piece h) ≡ Some h) holds.items) }
        ensures end { OnOk result (pending_end (pending_in self.new p.now).fragments
            ≡ max (pending_end (pending_in self.old p.now).fragments) (off + len)) }
        ensures dead { IfOk result (λ dead. AreGone H.piece
            (pending_in self.old p.now) (pending_in self.new p.now) dead.items) }
        ensures given_back { IfErr result (λ e. e.1 ≡ holds) }
        ensures same { OnErr result (IsAsBefore self.old self.new) }
        ensures others { Changes self.old self.new p.now (pending_in self.new p.now) }
        ensures holds { HasHolds H.is_ready H.piece H.bytes self.new p.now }
    {
        let path = p.as_bytes();
        if let Some(kept) = self.paths.get_mut(path) {
            return kept.add(alloc, self.chunk, off, len, holds);
        }
        if self.enter(alloc, path).is_err() {
            return Err((Want, holds));
        }
        let Some(kept) = self.paths.get_mut(path) else {
            unreachable!()
        };
        kept.add(alloc, self.chunk, off, len, holds)
    }

    /// The hold of a piece that is pending on a path, to read.
    pub fn hold(&self, p: &Path, id: PieceId) -> Option<&H>
        ensures hold { option_copied result ≡ (pending_in self.now p.now).hold_of id }
    {
        match self.paths.get(p.as_bytes()) {
            Some(path) => path.hold(id),
            None => None,
        }
    }

    /// The hold of a piece that is pending on a path, to change. What is left behind the reference
    /// is the hold of the piece then; all else stays.
    pub fn hold_of(&mut self, p: &Path, id: PieceId) -> Option<&mut H>
        ensures* writes_back { sem 𝓛
            (lends_hold_of H.row S.row H.Hold S.Spans self.entry p.now id result) }
        ensures hold { option_copied_mut result ≡ (pending_in self.old p.now).hold_of id }
    {
        let path = p.as_bytes();
        match self.paths.get_mut(path) {
            Some(kept) => kept.hold_of(id),
            None => None,
        }
    }

    /// All that is pending on a path as a push, and nothing is pending there any more. It takes no
    /// memory.
    pub fn take_all(&mut self, p: &Path) -> Push<H>
        requires { HasHolds H.is_ready H.piece H.bytes self.old p.now }
        ensures well_formed { IsWellFormedPush H.piece H.bytes result }
        ensures ready { All (λ h. IsTrue (H.is_ready h)) result.holds.items }
        ensures fragments { result.frags.items ≡ (pending_in self.old p.now).fragments }
        ensures holds { (q : Piece)
            → (pushed H.piece result.frags.items result.holds.items).hold_of q
            ≡ (pending_in self.old p.now).hold_of q }
        ensures taken { Changes self.old self.new p.now nothing_pending }
    {
        let alloc = *self.paths.allocator();
        let Some(kept) = self.paths.get_mut(p.as_bytes()) else {
            return Push {
                frags: Vec::new(alloc),
                holds: Vec::new(alloc),
            };
        };
        kept.take_all()
    }
}
