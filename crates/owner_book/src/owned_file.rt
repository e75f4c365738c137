//! A file at its owner.

ghost use Rattle.std.specs.Prelude.{◌≡◌, ◌≤◌, ◌+◌, [], All, IsTrue, None, length};
ghost use Rattle.std.specs.Prelude.{IfErr, IfOk, IfSome, OnErr, OnOk, OnSome, is_some, not};
ghost use Rattle.std.specs.Prelude.{vec_capacity, vec_len};
ghost use Rattle.std.specs.Borrow.{sem};
ghost use Rattle.std.specs.Option.{option_copied_mut};
ghost use Rattle.fs_types.specs.Fragments.{IsWellFormedPush};
ghost use Rattle.fs_types.specs.declared.limits.TheConstants.{LONGEST_FILE};
ghost use Rattle.piece_table.specs.HeldSpans.{AreGone, AreHeld, HandsOver};
ghost use Rattle.owner_book.specs.Changes.{IfResize, file_changed, held_before};
ghost use Rattle.owner_book.specs.Commits.{size_after};
ghost use Rattle.owner_book.specs.Kept.{AreWithin, attr_of, empty_file, file_of, none_held};
ghost use Rattle.owner_book.specs.HoldLends.{lends_in_file};
ghost use Rattle.owner_book.specs.Lookups.{ArePinned, Asks, AsksFor, MayAsk, MayAskFor, Pins};
ghost use Rattle.owner_book.specs.Lookups.{parts_in, pieces_named};
ghost use Rattle.owner_book.specs.Replicas.{some_lacks};

use crate::after_push::AfterPush;
use crate::looked::Found;
use crate::looking::{parts, pieces, pin_all, pin_each};
use fs_types::{Attr, Frag, Hold, LONGEST_FILE, PieceId, PinNo, Push, Want};
use piece_table::HeldSpans;
use span_list::Spans;
use std::alloc::Global;
use std::marker::Model;

/// A file: the fragments of pieces that its bytes are of, and how many bytes it has.
#[derive(Drop)]
pub struct OwnedFile<H: Hold, S: Spans> {
    pub held: HeldSpans<H, S>,
    pub size: u64,
    pub frozen: bool,
}

impl<H: Hold, S: Spans> Model for OwnedFile<H, S> {
    ghost use Rattle.owner_book.specs.Kept.{FileKept, AreWithin};

    ghost Value = { FileKept H };

    ghost view = { λ f. record { size = f.size; frozen = f.frozen; kept = f.held } };

    ghost invariant = { λ f. AreWithin f.size f.held.fragments };
}

// How many bytes a file has once these fragments were put into one of so many.
fn size_after(size: u64, frags: &[Frag]) -> u64
    requires { All (λ f. f.at + f.len ≤ LONGEST_FILE) frags.now }
    ensures { result ≡ size_after size frags.now }
{
    let mut size = size;
    for f in frags {
        size = size.max(f.at + f.len);
    }
    size
}

impl<H: Hold + Drop, S: Spans> OwnedFile<H, S> {
    /// An empty file. It takes no memory.
    pub fn new(alloc: Global) -> OwnedFile<H, S>
        ensures { file_of result ≡ empty_file }
    {
        OwnedFile {
            held: HeldSpans::new(alloc),
            size: 0,
            frozen: false,
        }
    }

    /// What is told of the file beside its bytes. Its fragments end within it.
    pub fn attr(&self) -> Attr
        ensures attr { result ≡ attr_of self.now }
        ensures within { AreWithin self.now.size self.now.kept.fragments }
    {
        Attr {
            exists: true,
            size: self.size,
            frozen: self.frozen,
        }
    }

    // An empty list of holds, with room for those of all pieces where the file is to be cut.
    fn no_dead(&self, alloc: Global, push: &Push<H>, after: AfterPush) -> Result<Vec<H>, Want>
        ensures none { IfOk result (λ dead. dead.items ≡ []) }
        ensures room { IfOk result (λ dead. IfResize after (λ _.
            length self.now.kept.pieces.entries + vec_len push.now.holds ≤ vec_capacity dead)) }
    {
        let AfterPush::Resize(_) = after else {
            return Ok(Vec::new(alloc));
        };
        Ok(Vec::with_capacity(alloc, self.held.piece_count() + push.holds.len())?)
    }

    /// Puts a push over the file, and then does this with it. It gives the holds of the pieces of
    /// which no byte is left. After want of memory the file is as before, and the push is given
    /// back.
    pub fn put(
        &mut self,
        alloc: Global,
        push: Push<H>,
        after: AfterPush,
    ) -> Result<Vec<H>, (Want, Push<H>)>
        requires size { IfResize after (λ n. n ≤ LONGEST_FILE) }
        requires held { AreHeld H.is_ready H.piece H.bytes (file_of self.old).held }
        requires well_formed { IsWellFormedPush H.piece H.bytes push }
        requires ready { All (λ h. IsTrue (H.is_ready h)) push.holds.items }
        requires new_pieces { All (λ h. (file_of self.old).held.hold_of (H.piece h) ≡ None)
            push.holds.items }
        ensures put { OnOk result
            (file_of self.new ≡ file_changed H.piece push after (file_of self.old)) }
        ensures dead { IfOk result (λ dead. AreGone H.piece
            (held_before H.piece push after (file_of self.old).held)
            (file_of self.new).held dead.items) }
        ensures given_back { IfErr result (λ e. e.1 ≡ push) }
        ensures same { OnErr result (file_of self.new ≡ file_of self.old) }
        ensures held { AreHeld H.is_ready H.piece H.bytes (file_of self.new).held }
    {
        let size_put = size_after(self.size, &push.frags);
        let Ok(mut dead) = self.no_dead(alloc, &push, after) else {
            return Err((Want, push));
        };
        self.held.put_push(push, &mut dead)?;
        match after {
            AfterPush::Leave => self.size = size_put,
            AfterPush::Resize(size) => {
                self.held.cut(size, &mut dead).unwrap();
                self.size = size;
            }
            AfterPush::Freeze => {
                self.size = size_put;
                self.frozen = true;
            }
        }
        Ok(dead)
    }

    /// Takes out all fragments, and gives the holds of their pieces. After want of memory the file
    /// is as before.
    pub fn clear(&mut self, alloc: Global) -> Result<Vec<H>, Want>
        requires held { AreHeld H.is_ready H.piece H.bytes (file_of self.old).held }
        ensures dead { IfOk result (λ dead.
            AreGone H.piece (file_of self.old).held none_held dead.items) }
        ensures same { OnErr result (file_of self.new ≡ file_of self.old) }
    {
        let mut dead = Vec::new(alloc);
        self.held.clear(&mut dead)?;
        Ok(dead)
    }

    /// Adds the holds of its pieces to others.
    pub fn into_holds(mut self, holds: &mut Vec<H>) -> Result<(), Want>
    where
        S: Drop,
        requires held { AreHeld H.is_ready H.piece H.bytes (file_of self).held }
        ensures { OnOk result (HandsOver H.piece (file_of self).held none_held
            holds.old.items holds.new.items) }
    {
        self.held.clear(holds)
    }

    /// The parts of the file in a range, and a pin of each piece that they name, or the piece alone
    /// where its hold has no room for one. After want of memory some of those holds may have been
    /// asked for pins.
    pub fn look(&mut self, alloc: Global, off: u64, len: u64) -> Result<Found<H>, Want>
        requires held { AreHeld H.is_ready H.piece H.bytes (file_of self.old).held }
        ensures frags { IfOk result (λ found. found.frags.items
            ≡ parts_in off (off + len) (file_of self.old).held.fragments) }
        ensures pins { IfOk result (λ found. Pins H.Hold (file_of self.old).held
            (pieces_named found.frags.items) found.holds.items found.bare.items) }
        ensures asks { IfOk result (λ found. Asks H.Hold (pieces_named found.frags.items)
            (file_of self.old).held (file_of self.new).held) }
        ensures may_ask { OnErr result (MayAsk H.Hold
            (pieces_named (parts_in off (off + len) (file_of self.old).held.fragments))
            (file_of self.old).held (file_of self.new).held) }
        ensures size { (file_of self.new).size ≡ (file_of self.old).size }
        ensures frozen { (file_of self.new).frozen ≡ (file_of self.old).frozen }
        ensures held { AreHeld H.is_ready H.piece H.bytes (file_of self.new).held }
    {
        // No fragment ends behind the longest file, so an end that is cut off leaves out none.
        let frags = parts(alloc, &self.held, off, off.saturating_add(len))?;
        let pieces = pieces(alloc, &frags)?;
        let mut holds = Vec::with_capacity(alloc, pieces.len())?;
        let mut bare = Vec::with_capacity(alloc, pieces.len())?;
        pin_all(&mut self.held, pieces.as_slice(), &mut holds, &mut bare)?;
        Ok(Found { frags, holds, bare })
    }

    /// All fragments of the file, and a pin of each piece that they name with at least so much room,
    /// or nothing where the hold of one has too little. Some of those holds may have been asked for
    /// pins then, as after want of memory.
    pub fn whole(&mut self, alloc: Global, given: u64) -> Result<Option<(Vec<Frag>, Vec<H>)>, Want>
        requires held { AreHeld H.is_ready H.piece H.bytes (file_of self.old).held }
        ensures found { IfOk result (λ found.
            is_some found ≡ not (some_lacks H.Hold given (file_of self.old).held)) }
        ensures frags { IfOk result (λ found. IfSome found (λ whole.
            whole.0.items ≡ (file_of self.old).held.fragments)) }
        ensures pins { IfOk result (λ found. IfSome found (λ whole. ArePinned H.Hold given
            (file_of self.old).held (pieces_named whole.0.items) whole.1.items)) }
        ensures asks { IfOk result (λ found. OnSome found (AsksFor H.Hold given
            (pieces_named (file_of self.old).held.fragments)
            (file_of self.old).held (file_of self.new).held)) }
        ensures may_ask { MayAskFor H.Hold given
            (pieces_named (file_of self.old).held.fragments)
            (file_of self.old).held (file_of self.new).held }
        ensures size { (file_of self.new).size ≡ (file_of self.old).size }
        ensures frozen { (file_of self.new).frozen ≡ (file_of self.old).frozen }
        ensures held { AreHeld H.is_ready H.piece H.bytes (file_of self.new).held }
    {
        let frags = parts(alloc, &self.held, 0, LONGEST_FILE)?;
        let pieces = pieces(alloc, &frags)?;
        let mut pins = Vec::with_capacity(alloc, pieces.len())?;
        match pin_each(&mut self.held, pieces.as_slice(), given, &mut pins) {
            Ok(()) => Ok(Some((frags, pins))),
            Err(PinNo::NoRoom) => Ok(None),
            Err(PinNo::Want) => Err(Want),
        }
    }

    /// The hold of a piece that the file names, to change. What is left behind the reference is the
    /// hold of the piece then; all else stays.
    pub fn hold_of(&mut self, id: PieceId) -> Option<&mut H>
        ensures* writes_back { sem 𝓛
            (lends_in_file H.row S.row H.Hold S.Spans self.entry id result) }
        ensures hold { option_copied_mut result ≡ (file_of self.old).held.hold_of id }
    {
        let Some(hold) = self.held.hold_of(id) else {
            return None;
        };
        Some(hold)
    }
}
