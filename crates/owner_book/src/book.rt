//! The files of one owner.

ghost use Rattle.std.specs.Prelude.{◌≡◌, ◌≤◌, ◌+◌, ℕ, List};
ghost use Rattle.std.specs.Prelude.{IfErr, IfOk, IfSome, IsTrue, OnErr, OnOk, OnSome, is_some, not};
ghost use Rattle.std.specs.Borrow.{sem};
ghost use Rattle.std.specs.Option.{option_copied_mut};
ghost use Rattle.fs_types.specs.declared.limits.TheConstants.{LONGEST_FILE};
ghost use Rattle.piece_table.specs.HeldSpans.{AreGone};
ghost use Rattle.owner_book.specs.Kept.{AreWithin, held_at, no_path, path_in, path_of};
ghost use Rattle.owner_book.specs.BookHolds.{AreAllHolds};
ghost use Rattle.owner_book.specs.Calls.{AnswersBy, Changes, IsAsBefore};
ghost use Rattle.owner_book.specs.Calls.{attr, created, opened, version, without_file};
ghost use Rattle.owner_book.specs.Calls.{change_refusal, create_refusal, no_file_refusal};
ghost use Rattle.owner_book.specs.Changes.{IfResize, changed, held_before};
ghost use Rattle.owner_book.specs.Commits.{AllHaveHolds, AreDead, HasHolds, MayCommit, with_commit};
ghost use Rattle.owner_book.specs.HoldLends.{lends_hold_of};
ghost use Rattle.owner_book.specs.Laminations.{with_lamination};
ghost use Rattle.owner_book.specs.Lookups.{Asks, AsksFor, IsLooked, MayAsk, MayAskFor, Pins};
ghost use Rattle.owner_book.specs.Lookups.{parts_in, pieces_named};
ghost use Rattle.owner_book.specs.Replicas.{IsReplica, some_lacks};
ghost use Rattle.owner_book.specs.Truncations.{AreDeadOfBoth, with_truncation};

use crate::after_push::AfterPush;
use crate::book_no::BookNo;
use crate::committed::Committed;
use crate::file_key::{FileKey, FileName};
use crate::looked::Looked;
use crate::owned_path::{NO_FILE, OwnedPath};
use fs_types::{Attr, Hold, LineNo, Path, PieceId, Push, Replica, Version, Want};
use indexmap::IndexMap;
use span_list::Spans;
use std::alloc::Global;
use std::marker::Model;

/// The files of one owner, each known by its gfid and its path together.
#[derive(Drop)]
pub struct OwnerBook<H: Hold, S: Spans> {
    files: IndexMap<FileKey, OwnedPath<H, S>>,
}

impl<H: Hold, S: Spans> Model for OwnerBook<H, S> {
    ghost use Rattle.owner_book.specs.Kept.{Book};

    ghost Value = { Book H };

    ghost view = { λ b. b.files.entries };
}

impl<H: Hold + Drop, S: Spans + Drop> OwnerBook<H, S> {
    /// A book in which nothing was committed to any path.
    pub fn new(alloc: Global) -> Result<OwnerBook<H, S>, Want>
        ensures { IfOk result (λ book. (g : ℕ) (q : List ℕ) → path_in book g q ≡ no_path) }
    {
        Ok(OwnerBook {
            files: IndexMap::new(alloc),
        })
    }

    /// The lines that were committed to a path, in order.
    pub fn journal(&self, gfid: u64, p: &Path) -> &[LineNo]
        ensures { result.now ≡ (path_in self.now gfid p.now).journal }
    {
        match self.files.get(FileName {
            gfid,
            path: p.as_bytes(),
        }) {
            Some(path) => path.journal(),
            None => &[],
        }
    }

    /// How many lines were committed to a path, and what is told of its file beside its bytes. The
    /// file's fragments end within it, and it is no longer than the longest file.
    pub fn attr(&self, gfid: u64, p: &Path) -> (Version, Attr)
        ensures attr { result
            ≡ (version (path_in self.now gfid p.now), attr (path_in self.now gfid p.now)) }
        ensures within { IfSome (path_in self.now gfid p.now).file
            (λ f. AreWithin f.size f.held.fragments) }
    {
        match self.files.get(FileName {
            gfid,
            path: p.as_bytes(),
        }) {
            Some(path) => (path.version(), path.attr()),
            None => (Version(0), NO_FILE),
        }
    }

    /// The same where there is a file.
    pub fn open(&self, gfid: u64, p: &Path) -> Result<(Version, Attr), BookNo>
        ensures { result ≡ opened (path_in self.now gfid p.now) }
    {
        match self.files.get(FileName {
            gfid,
            path: p.as_bytes(),
        }) {
            Some(path) => path.open(),
            None => Err(BookNo::NoEnt(Version(0))),
        }
    }

    // Adds a path that isn't there.
    fn add(
        &mut self,
        alloc: Global,
        gfid: u64,
        path: &[u8],
        kept: OwnedPath<H, S>,
    ) -> Result<(), Want>
        ensures added { OnOk result (Changes self.old self.new gfid path.now (path_of kept)) }
        ensures same { OnErr result (IsAsBefore self.old self.new) }
    {
        let key = FileKey {
            gfid,
            path: Vec::from_slice(alloc, path)?,
        };
        self.files.insert(key, kept)?;
        Ok(())
    }

    /// Commits a line that makes an empty file, and answers the version. Where there is a file it
    /// is refused. After a refusal the book is as before.
    pub fn create(
        &mut self,
        alloc: Global,
        gfid: u64,
        p: &Path,
        line: LineNo,
    ) -> Result<Version, BookNo>
        ensures answer { AnswersBy (λ no. no)
            (create_refusal (path_in self.old gfid p.now)) result }
        ensures version { IfOk result (λ v. v ≡ version (path_in self.new gfid p.now)) }
        ensures created { OnOk result (Changes self.old self.new gfid p.now
            (created line (path_in self.old gfid p.now))) }
        ensures same { OnErr result (IsAsBefore self.old self.new) }
    {
        let path = p.as_bytes();
        if let Some(kept) = self.files.get_mut(FileName { gfid, path }) {
            return kept.create(alloc, line);
        }
        let mut kept = OwnedPath::new(alloc);
        let version = kept.create(alloc, line)?;
        self.add(alloc, gfid, path, kept)?;
        Ok(version)
    }

    /// Commits a line that puts a push over a path's file. Where there is no file, or it is frozen,
    /// it is refused. After a refusal the book is as before, and the push is given back.
    pub fn commit(
        &mut self,
        alloc: Global,
        gfid: u64,
        p: &Path,
        line: LineNo,
        push: Push<H>,
    ) -> Result<Committed<H>, (BookNo, Push<H>)>
        requires holds { HasHolds H.is_ready H.piece H.bytes (path_in self.old gfid p.now) }
        requires push { MayCommit H.is_ready H.piece H.bytes push (path_in self.old gfid p.now) }
        ensures answer { AnswersBy (λ e. e.0)
            (change_refusal (path_in self.old gfid p.now)) result }
        ensures version { IfOk result (λ c. c.v ≡ version (path_in self.new gfid p.now)) }
        ensures attr { IfOk result (λ c. c.attr ≡ attr (path_in self.new gfid p.now)) }
        ensures committed { OnOk result (Changes self.old self.new gfid p.now
            (with_commit H.piece line push (path_in self.old gfid p.now))) }
        ensures dead { IfOk result (λ c. AreDead H.piece (path_in self.old gfid p.now)
            (path_in self.new gfid p.now) c.dead.items) }
        ensures given_back { IfErr result (λ e. e.1 ≡ push) }
        ensures same { OnErr result (IsAsBefore self.old self.new) }
        ensures holds { HasHolds H.is_ready H.piece H.bytes (path_in self.new gfid p.now) }
    {
        self.change(alloc, gfid, p, line, push, AfterPush::Leave)
    }

    /// Commits a line that puts a push over a path's file, and then cuts it to so many bytes, or
    /// extends it to them by bytes that nobody wrote. It is refused as a commit is. After a refusal
    /// the book is as before, and the push is given back.
    pub fn trunc(
        &mut self,
        alloc: Global,
        gfid: u64,
        p: &Path,
        line: LineNo,
        size: u64,
        push: Push<H>,
    ) -> Result<Committed<H>, (BookNo, Push<H>)>
        requires size { size ≤ LONGEST_FILE }
        requires holds { HasHolds H.is_ready H.piece H.bytes (path_in self.old gfid p.now) }
        requires push { MayCommit H.is_ready H.piece H.bytes push (path_in self.old gfid p.now) }
        ensures answer { AnswersBy (λ e. e.0)
            (change_refusal (path_in self.old gfid p.now)) result }
        ensures version { IfOk result (λ c. c.v ≡ version (path_in self.new gfid p.now)) }
        ensures attr { IfOk result (λ c. c.attr ≡ attr (path_in self.new gfid p.now)) }
        ensures truncated { OnOk result (Changes self.old self.new gfid p.now
            (with_truncation H.piece line push size (path_in self.old gfid p.now))) }
        ensures dead { IfOk result (λ c. AreDeadOfBoth H.piece push (path_in self.old gfid p.now)
            (path_in self.new gfid p.now) c.dead.items) }
        ensures given_back { IfErr result (λ e. e.1 ≡ push) }
        ensures same { OnErr result (IsAsBefore self.old self.new) }
        ensures holds { HasHolds H.is_ready H.piece H.bytes (path_in self.new gfid p.now) }
    {
        self.change(alloc, gfid, p, line, push, AfterPush::Resize(size))
    }

    /// Commits a line that puts a push over a path's file, and then freezes it: from then on no
    /// line changes it. It is refused as a commit is. After a refusal the book is as before, and
    /// the push is given back.
    pub fn laminate(
        &mut self,
        alloc: Global,
        gfid: u64,
        p: &Path,
        line: LineNo,
        push: Push<H>,
    ) -> Result<Committed<H>, (BookNo, Push<H>)>
        requires holds { HasHolds H.is_ready H.piece H.bytes (path_in self.old gfid p.now) }
        requires push { MayCommit H.is_ready H.piece H.bytes push (path_in self.old gfid p.now) }
        ensures answer { AnswersBy (λ e. e.0)
            (change_refusal (path_in self.old gfid p.now)) result }
        ensures version { IfOk result (λ c. c.v ≡ version (path_in self.new gfid p.now)) }
        ensures attr { IfOk result (λ c. c.attr ≡ attr (path_in self.new gfid p.now)) }
        ensures laminated { OnOk result (Changes self.old self.new gfid p.now
            (with_lamination H.piece line push (path_in self.old gfid p.now))) }
        ensures dead { IfOk result (λ c. AreDead H.piece (path_in self.old gfid p.now)
            (path_in self.new gfid p.now) c.dead.items) }
        ensures given_back { IfErr result (λ e. e.1 ≡ push) }
        ensures same { OnErr result (IsAsBefore self.old self.new) }
        ensures holds { HasHolds H.is_ready H.piece H.bytes (path_in self.new gfid p.now) }
    {
        self.change(alloc, gfid, p, line, push, AfterPush::Freeze)
    }

    // Commits a line that puts a push over a path's file, and then does this with the file.
    fn change(
        &mut self,
        alloc: Global,
        gfid: u64,
        p: &Path,
        line: LineNo,
        push: Push<H>,
        after: AfterPush,
    ) -> Result<Committed<H>, (BookNo, Push<H>)>
        requires size { IfResize after (λ n. n ≤ LONGEST_FILE) }
        requires holds { HasHolds H.is_ready H.piece H.bytes (path_in self.old gfid p.now) }
        requires push { MayCommit H.is_ready H.piece H.bytes push (path_in self.old gfid p.now) }
        ensures answer { AnswersBy (λ e. e.0)
            (change_refusal (path_in self.old gfid p.now)) result }
        ensures version { IfOk result (λ c. c.v ≡ version (path_in self.new gfid p.now)) }
        ensures attr { IfOk result (λ c. c.attr ≡ attr (path_in self.new gfid p.now)) }
        ensures changed { OnOk result (Changes self.old self.new gfid p.now
            (changed H.piece line push after (path_in self.old gfid p.now))) }
        ensures dead { IfOk result (λ c. AreGone H.piece
            (held_before H.piece push after (held_at (path_in self.old gfid p.now)))
            (held_at (path_in self.new gfid p.now)) c.dead.items) }
        ensures given_back { IfErr result (λ e. e.1 ≡ push) }
        ensures same { OnErr result (IsAsBefore self.old self.new) }
        ensures holds { HasHolds H.is_ready H.piece H.bytes (path_in self.new gfid p.now) }
    {
        let path = p.as_bytes();
        let Some(kept) = self.files.get_mut(FileName { gfid, path }) else {
            return Err((BookNo::NoEnt(Version(0)), push));
        };
        kept.change(alloc, line, push, after)
    }

    /// Commits a line that removes a path's file, also a frozen one, and gives the holds of all
    /// its pieces. The journal goes on, so a file that is created again has a later version. Where
    /// there is no file it is refused. After a refusal the book is as before.
    pub fn unlink(
        &mut self,
        alloc: Global,
        gfid: u64,
        p: &Path,
        line: LineNo,
    ) -> Result<Committed<H>, BookNo>
        requires holds { HasHolds H.is_ready H.piece H.bytes (path_in self.old gfid p.now) }
        ensures answer { AnswersBy (λ no. no)
            (no_file_refusal (path_in self.old gfid p.now)) result }
        ensures version { IfOk result (λ c. c.v ≡ version (path_in self.new gfid p.now)) }
        ensures attr { IfOk result (λ c. c.attr ≡ attr (path_in self.new gfid p.now)) }
        ensures unlinked { OnOk result (Changes self.old self.new gfid p.now
            (without_file line (path_in self.old gfid p.now))) }
        ensures dead { IfOk result (λ c. AreDead H.piece (path_in self.old gfid p.now)
            (path_in self.new gfid p.now) c.dead.items) }
        ensures same { OnErr result (IsAsBefore self.old self.new) }
        ensures holds { HasHolds H.is_ready H.piece H.bytes (path_in self.new gfid p.now) }
    {
        let path = p.as_bytes();
        let Some(kept) = self.files.get_mut(FileName { gfid, path }) else {
            return Err(BookNo::NoEnt(Version(0)));
        };
        kept.unlink(alloc, line)
    }

    /// Looks up a range of a path's file: the fragments in it, and for each piece that they name a
    /// pin, or the piece alone where its hold has no room for one. Where there is no file it is
    /// refused. After want of memory some of those holds may have been asked for pins.
    pub fn lookup(
        &mut self,
        alloc: Global,
        gfid: u64,
        p: &Path,
        off: u64,
        len: u64,
    ) -> Result<Looked<H>, BookNo>
        requires holds { HasHolds H.is_ready H.piece H.bytes (path_in self.old gfid p.now) }
        ensures answer { AnswersBy (λ no. no)
            (no_file_refusal (path_in self.old gfid p.now)) result }
        ensures version { IfOk result (λ found. found.v ≡ version (path_in self.old gfid p.now)) }
        ensures attr { IfOk result (λ found. found.attr ≡ attr (path_in self.old gfid p.now)) }
        ensures frags { IfOk result (λ found. found.frags.items
            ≡ parts_in off (off + len) (held_at (path_in self.old gfid p.now)).fragments) }
        ensures pins { IfOk result (λ found. Pins H.Hold (held_at (path_in self.old gfid p.now))
            (pieces_named found.frags.items) found.holds.items found.bare.items) }
        ensures looked { IfOk result (λ found. IsLooked
            (Asks H.Hold (pieces_named found.frags.items))
            (path_in self.old gfid p.now) (path_in self.new gfid p.now)) }
        ensures may_ask { OnErr result (IsLooked (MayAsk H.Hold (pieces_named
            (parts_in off (off + len) (held_at (path_in self.old gfid p.now)).fragments)))
            (path_in self.old gfid p.now) (path_in self.new gfid p.now)) }
        ensures others { Changes self.old self.new gfid p.now (path_in self.new gfid p.now) }
        ensures holds { HasHolds H.is_ready H.piece H.bytes (path_in self.new gfid p.now) }
    {
        let path = p.as_bytes();
        let Some(kept) = self.files.get_mut(FileName { gfid, path }) else {
            return Err(BookNo::NoEnt(Version(0)));
        };
        kept.lookup(alloc, off, len)
    }

    /// A replica of a path's file, which is frozen: all of it at its version, with a pin of each
    /// piece that has at least so much room. It gives nothing where the hold of some piece has too
    /// little, at most that. Then, and after want of memory, some holds may have been asked for
    /// pins.
    pub fn replica(
        &mut self,
        alloc: Global,
        gfid: u64,
        p: &Path,
        room: u64,
    ) -> Result<Option<Replica<H>>, BookNo>
        requires holds { HasHolds H.is_ready H.piece H.bytes (path_in self.old gfid p.now) }
        requires frozen { IsTrue (attr (path_in self.old gfid p.now)).frozen }
        ensures want { IfErr result (λ no. no ≡ BookNo.Want) }
        ensures found { IfOk result (λ found. is_some found
            ≡ not (some_lacks H.Hold room (held_at (path_in self.old gfid p.now)))) }
        ensures replica { IfOk result (λ found. IfSome found
            (IsReplica H.Hold room p.now (path_in self.old gfid p.now))) }
        ensures asks { IfOk result (λ found. OnSome found (IsLooked (AsksFor H.Hold room
            (pieces_named (held_at (path_in self.old gfid p.now)).fragments)) (path_in self.old gfid p.now) (path_in self.new gfid p.now))) }
        ensures may_ask { IsLooked (MayAskFor H.Hold room
            (pieces_named (held_at (path_in self.old gfid p.now)).fragments)) (path_in self.old gfid p.now) (path_in self.new gfid p.now) }
        ensures others { Changes self.old self.new gfid p.now (path_in self.new gfid p.now) }
        ensures holds { HasHolds H.is_ready H.piece H.bytes (path_in self.new gfid p.now) }
    {
        let copy = p.copy(alloc)?;
        let path = p.as_bytes();
        let Some(kept) = self.files.get_mut(FileName { gfid, path }) else {
            unreachable!();
        };
        kept.replica(alloc, copy, room)
    }

    /// The holds of all pieces of the files of all paths: each piece that a path's file names gives
    /// one hold, and there is no other.
    pub fn into_holds(self, alloc: Global) -> Result<Vec<H>, Want>
        requires { AllHaveHolds H.is_ready H.piece H.bytes self }
        ensures { IfOk result (λ all. AreAllHolds H.piece self all.items) }
    {
        let mut holds = Vec::new(alloc);
        for (_, path) in self.files {
            path.into_holds(&mut holds)?;
        }
        Ok(holds)
    }

    /// The hold of a piece that a path's file names, to change. What is left behind the reference
    /// is the hold of the piece then; all else stays.
    pub fn hold_of(&mut self, gfid: u64, p: &Path, id: PieceId) -> Option<&mut H>
        ensures* writes_back { sem 𝓛
            (lends_hold_of H.row S.row H.Hold S.Spans self.entry gfid p.now id result) }
        ensures hold { option_copied_mut result
            ≡ (held_at (path_in self.old gfid p.now)).hold_of id }
    {
        let path = p.as_bytes();
        match self.files.get_mut(FileName { gfid, path }) {
            Some(kept) => kept.hold_of(id),
            None => None,
        }
    }
}
