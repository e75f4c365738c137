//! Pieces that fragments name: how many fragments name each, and its hold.

ghost use Rattle.std.specs.Prelude.{◌≡◌, ◌==◌, ◌&&◌, ◌+◌, ◌-◌, ◌<◌, ◌≤◌, ◌^◌, [], length, vec_len};
ghost use Rattle.std.specs.Prelude.{vec_capacity, is_some, if◌then◌else◌};
ghost use Rattle.std.specs.Prelude.{option_copied, IsTrue, IsOk, IfErr, OnOk, OnErr};
ghost use Rattle.fs_types.specs.Fragments.{piece_eq};
ghost use Rattle.fs_types.specs.Pieces.{Piece};
ghost use Rattle.std.specs.Borrow.{sem};
ghost use Rattle.std.specs.Option.{option_copied_mut};
ghost use Rattle.piece_table.specs.Lends.{lends_hold};
ghost use Rattle.piece_table.specs.PieceTable.{AreCounted, AreTheirs, number_of, hold_of};
ghost use Rattle.piece_table.specs.Thinning.{ComesOut};

use fs_types::{Hold, PieceId, Want};
use indexmap::IndexMap;
use std::alloc::Global;
use std::marker::Model;

/// How many fragments name a piece, and its hold.
#[derive(Drop)]
pub struct Counted<H> {
    pub number: u64,
    pub hold: H,
}

/// The pieces that some fragments name.
#[derive(Drop)]
pub struct PieceTable<H: Hold> {
    pieces: IndexMap<PieceId, Counted<H>>,
}

impl<H: Hold> Model for PieceTable<H> {
    ghost use Rattle.indexmap.specs.IndexMap.{spare};
    ghost use Rattle.piece_table.specs.PieceTable.{AreCounted, Pieces};

    ghost Value = { Pieces H };

    ghost view = { λ t. record { entries = t.pieces.entries; spare = spare t.pieces } };

    ghost invariant = { λ t. AreCounted t.pieces.entries };
}

impl<H: Hold + Drop> PieceTable<H> {
    /// No pieces. It takes no memory.
    pub fn new(alloc: Global) -> PieceTable<H>
        ensures numbers { (q : Piece) → number_of result q ≡ 0 }
        ensures holds { (q : Piece) → hold_of result q ≡ None }
        ensures len { length result.entries ≡ 0 }
    {
        PieceTable {
            pieces: IndexMap::new(alloc),
        }
    }

    /// How many pieces there are.
    pub fn len(&self) -> usize
        ensures len { result ≡ length self.now.entries }
        ensures small { result < 2 ^ 63 }
        ensures counted { AreCounted self.now.entries }
    {
        self.pieces.len()
    }

    /// The hold of a piece.
    pub fn get(&self, p: PieceId) -> Option<&H>
        ensures { option_copied result ≡ hold_of self.now p }
    {
        Some(&self.pieces.get(&p)?.hold)
    }

    /// The hold of a piece, to change. What is left behind the reference is the hold of the piece
    /// then; the number of the piece, and all other pieces, stay.
    pub fn hold(&mut self, p: PieceId) -> Option<&mut H>
        ensures* writes_back { sem 𝓛 (lends_hold H.row H.Hold self.entry p result) }
        ensures hold { option_copied_mut result ≡ hold_of self.old p }
    {
        let Some(counted) = self.pieces.get_mut(&p) else {
            return None;
        };
        Some(&mut counted.hold)
    }

    /// Enters a piece, which one fragment names. It takes no memory where there is a place to
    /// spare.
    pub fn enter(&mut self, h: H) -> Result<(), (Want, H)>
        requires ready { IsTrue (H.is_ready h) }
        requires new_piece { hold_of self.old (H.piece h) ≡ None }
        ensures numbers { OnOk result ((q : Piece)
            → number_of self.new q
            ≡ (if piece_eq (H.piece h) q then 1 else number_of self.old q)) }
        ensures holds { OnOk result ((q : Piece)
            → hold_of self.new q
            ≡ (if piece_eq (H.piece h) q then Some h else hold_of self.old q)) }
        ensures len { OnOk result (length self.new.entries ≡ length self.old.entries + 1) }
        ensures given_back { IfErr result (λ e. e.1 ≡ h) }
        ensures same { OnErr result (self.new.entries ≡ self.old.entries) }
        ensures room { 0 < self.old.spare → IsOk result }
        ensures spare { self.old.spare ≤ self.new.spare + 1 }
        ensures counted { AreCounted self.new.entries }
    {
        let piece = h.piece();
        match self.pieces.insert(piece, Counted { number: 1, hold: h }) {
            Ok(_) => Ok(()),
            Err(failed) => {
                let (_, counted) = failed.value;
                Err((Want, counted.hold))
            }
        }
    }

    /// One more fragment names a piece. It takes no memory.
    pub fn more(&mut self, p: PieceId)
        requires there { 0 < number_of self.old p }
        requires few { number_of self.old p < 2 ^ 64 - 1 }
        ensures numbers { (q : Piece)
            → number_of self.new q
            ≡ (if piece_eq p q then number_of self.old p + 1 else number_of self.old q) }
        ensures holds { (q : Piece) → hold_of self.new q ≡ hold_of self.old q }
        ensures len { length self.new.entries ≡ length self.old.entries }
        ensures spare { self.new.spare ≡ self.old.spare }
        ensures counted { AreCounted self.new.entries }
    {
        let Some(counted) = self.pieces.get_mut(&p) else {
            return;
        };
        counted.number += 1;
    }

    /// One fragment fewer names a piece. Where it was the last, the hold comes out. It takes no
    /// memory.
    pub fn less(&mut self, p: PieceId) -> Option<H>
        requires { 0 < number_of self.old p }
        ensures last { is_some result ≡ (number_of self.old p == 1) }
        ensures out { result ≡ (if number_of self.old p == 1 then hold_of self.old p else None) }
        ensures numbers { (q : Piece)
            → number_of self.new q
            ≡ (if piece_eq p q then number_of self.old p - 1 else number_of self.old q) }
        ensures holds { (q : Piece)
            → hold_of self.new q
            ≡ (if piece_eq p q && number_of self.old p == 1 then None else hold_of self.old q) }
        ensures len { length self.new.entries + (if is_some result then 1 else 0)
            ≡ length self.old.entries }
        ensures spare { self.old.spare ≤ self.new.spare }
        ensures counted { AreCounted self.new.entries }
    {
        let counted = self.pieces.get_mut(&p)?;
        counted.number -= 1;
        if counted.number > 0 {
            return None;
        }
        let Counted { number: _, hold } = self.pieces.swap_remove(&p)?;
        Some(hold)
    }

    /// Makes room for so many more pieces. It takes no memory where they fit already.
    pub fn reserve(&mut self, n: usize) -> Result<(), Want>
        ensures room { OnOk result (n ≤ self.new.spare) }
        ensures succeeds { n ≤ self.old.spare → IsOk result }
        ensures same { self.new.entries ≡ self.old.entries }
        ensures spare { self.old.spare ≤ self.new.spare }
    {
        self.pieces.reserve(n)?;
        Ok(())
    }

    /// Moves all holds out, into a list with room for them. It takes no memory.
    pub fn take_all(&mut self, out: &mut Vec<H>)
        requires theirs { AreTheirs H.piece (hold_of self.old) }
        requires room { length self.old.entries + vec_len out.old ≤ vec_capacity out.old }
        ensures emptied { self.new.entries ≡ [] }
        ensures out { ComesOut H.piece (hold_of self.old) (hold_of self.new)
            out.old.items out.new.items }
    {
        while let Some((_, counted)) = self.pieces.pop() {
            out.push_reserved(counted.hold);
        }
    }
}
