//! A path at its owner.

ghost use Rattle.std.specs.Prelude.{◌≡◌, ◌≤◌, ◌+◌, length, None};
ghost use Rattle.std.specs.Prelude.{IfErr, IfOk, IfSome, IsTrue, OnErr, OnOk, OnSome, is_some, not};
ghost use Rattle.std.specs.Borrow.{sem};
ghost use Rattle.std.specs.Option.{option_copied_mut};
ghost use Rattle.fs_types.specs.declared.limits.TheConstants.{LONGEST_FILE};
ghost use Rattle.piece_table.specs.HeldSpans.{AreGone, HandsOver};
ghost use Rattle.owner_book.specs.Kept.{AreWithin, held_at, no_path, none_held, path_of};
ghost use Rattle.owner_book.specs.Calls.{AnswersBy, attr, created, opened, version, without_file};
ghost use Rattle.owner_book.specs.Calls.{change_refusal, create_refusal, no_file_refusal};
ghost use Rattle.owner_book.specs.Changes.{IfResize, changed, held_before};
ghost use Rattle.owner_book.specs.Commits.{AreDead, HasHolds, MayCommit};
ghost use Rattle.owner_book.specs.HoldLends.{lends_in_path};
ghost use Rattle.owner_book.specs.Lookups.{Asks, AsksFor, IsLooked, MayAsk, MayAskFor, Pins};
ghost use Rattle.owner_book.specs.Lookups.{parts_in, pieces_named};
ghost use Rattle.owner_book.specs.Replicas.{IsReplica, some_lacks};

use crate::after_push::AfterPush;
use crate::book_no::BookNo;
use crate::committed::Committed;
use crate::looked::{Found, Looked};
use crate::owned_file::OwnedFile;
use fs_types::{Attr, Hold, LineNo, Path, PieceId, Push, Replica, Version, Want};
use span_list::Spans;
use std::alloc::Global;
use std::marker::Model;

/// The lines that were committed to a path, and its file.
#[derive(Drop)]
pub struct OwnedPath<H: Hold, S: Spans> {
    /// In the owner's order.
    pub journal: Vec<LineNo>,
    /// `None` where there is no file.
    pub file: Option<OwnedFile<H, S>>,
}

impl<H: Hold, S: Spans> Model for OwnedPath<H, S> {
    ghost use Rattle.owner_book.specs.Kept.{PathKept};

    ghost Value = { PathKept H };

    ghost view = { λ x. record { journal = x.journal.items; file = x.file } };
}

/// What is told of a path that has no file.
pub const NO_FILE: Attr = Attr {
    exists: false,
    size: 0,
    frozen: false,
};

impl<H: Hold + Drop, S: Spans + Drop> OwnedPath<H, S> {
    /// A path to which nothing was committed. It takes no memory.
    pub fn new(alloc: Global) -> OwnedPath<H, S>
        ensures { path_of result ≡ no_path }
    {
        OwnedPath {
            journal: Vec::new(alloc),
            file: None,
        }
    }

    /// The lines that were committed.
    pub fn journal(&self) -> &[LineNo]
        ensures { result.now ≡ self.now.journal }
    {
        &self.journal
    }

    /// How many lines were committed.
    pub fn version(&self) -> Version
        ensures { result ≡ length self.now.journal }
    {
        Version(self.journal.len() as u64)
    }

    /// What is told of the file beside its bytes. Its fragments end within it.
    pub fn attr(&self) -> Attr
        ensures attr { result ≡ attr (path_of self.now) }
        ensures within { IfSome (path_of self.now).file
            (λ f. AreWithin f.size f.held.fragments) }
    {
        match &self.file {
            Some(file) => file.attr(),
            None => NO_FILE,
        }
    }

    /// The version with what is told of the file, or that there is none.
    pub fn open(&self) -> Result<(Version, Attr), BookNo>
        ensures { result ≡ opened (path_of self.now) }
    {
        let version = self.version();
        let attr = self.attr();
        if !attr.exists {
            return Err(BookNo::NoEnt(version));
        }
        Ok((version, attr))
    }

    /// Commits a line that makes an empty file.
    pub fn create(&mut self, alloc: Global, line: LineNo) -> Result<Version, BookNo>
        ensures answer { AnswersBy (λ no. no) (create_refusal (path_of self.old)) result }
        ensures version { IfOk result (λ v. v ≡ version (path_of self.new)) }
        ensures created { OnOk result (path_of self.new ≡ created line (path_of self.old)) }
        ensures same { OnErr result (path_of self.new ≡ path_of self.old) }
    {
        if self.attr().exists {
            return Err(BookNo::Exists(self.version()));
        }
        self.journal.reserve(1)?;
        self.journal.push_reserved(line);
        self.file = Some(OwnedFile::new(alloc));
        Ok(self.version())
    }

    /// Commits a line that puts a push over the file, and then does this with it. After a refusal
    /// the path is as before, and the push is given back.
    pub fn change(
        &mut self,
        alloc: Global,
        line: LineNo,
        push: Push<H>,
        after: AfterPush,
    ) -> Result<Committed<H>, (BookNo, Push<H>)>
        requires size { IfResize after (λ n. n ≤ LONGEST_FILE) }
        requires holds { HasHolds H.is_ready H.piece H.bytes (path_of self.old) }
        requires push { MayCommit H.is_ready H.piece H.bytes push (path_of self.old) }
        ensures answer { AnswersBy (λ e. e.0) (change_refusal (path_of self.old)) result }
        ensures version { IfOk result (λ c. c.v ≡ version (path_of self.new)) }
        ensures attr { IfOk result (λ c. c.attr ≡ attr (path_of self.new)) }
        ensures changed { OnOk result
            (path_of self.new ≡ changed H.piece line push after (path_of self.old)) }
        ensures dead { IfOk result (λ c. AreGone H.piece
            (held_before H.piece push after (held_at (path_of self.old)))
            (held_at (path_of self.new)) c.dead.items) }
        ensures given_back { IfErr result (λ e. e.1 ≡ push) }
        ensures same { OnErr result (path_of self.new ≡ path_of self.old) }
        ensures holds { HasHolds H.is_ready H.piece H.bytes (path_of self.new) }
    {
        let version = self.version();
        let Some(file) = &mut self.file else {
            return Err((BookNo::NoEnt(version), push));
        };
        if file.frozen {
            return Err((BookNo::ReadOnly(version), push));
        }
        if self.journal.reserve(1).is_err() {
            return Err((BookNo::Want, push));
        }
        match file.put(alloc, push, after) {
            Ok(dead) => {
                self.journal.push_reserved(line);
                Ok(Committed {
                    v: Version(self.journal.len() as u64),
                    attr: file.attr(),
                    dead,
                })
            }
            Err((_, push)) => Err((BookNo::Want, push)),
        }
    }

    /// Commits a line that removes the file, and gives the holds of all its pieces. After a refusal
    /// the path is as before.
    pub fn unlink(&mut self, alloc: Global, line: LineNo) -> Result<Committed<H>, BookNo>
        requires holds { HasHolds H.is_ready H.piece H.bytes (path_of self.old) }
        ensures answer { AnswersBy (λ no. no) (no_file_refusal (path_of self.old)) result }
        ensures version { IfOk result (λ c. c.v ≡ version (path_of self.new)) }
        ensures attr { IfOk result (λ c. c.attr ≡ attr (path_of self.new)) }
        ensures unlinked { OnOk result (path_of self.new ≡ without_file line (path_of self.old)) }
        ensures dead { IfOk result (λ c. AreDead H.piece (path_of self.old) (path_of self.new)
            c.dead.items) }
        ensures same { OnErr result (path_of self.new ≡ path_of self.old) }
        ensures holds { HasHolds H.is_ready H.piece H.bytes (path_of self.new) }
    {
        let version = self.version();
        let Some(file) = &mut self.file else {
            return Err(BookNo::NoEnt(version));
        };
        self.journal.reserve(1)?;
        let dead = file.clear(alloc)?;
        self.journal.push_reserved(line);
        self.file = None;
        Ok(Committed {
            v: self.version(),
            attr: NO_FILE,
            dead,
        })
    }

    /// Looks up a range of the file, and pins the pieces of which bytes stand there.
    pub fn lookup(&mut self, alloc: Global, off: u64, len: u64) -> Result<Looked<H>, BookNo>
        requires holds { HasHolds H.is_ready H.piece H.bytes (path_of self.old) }
        ensures answer { AnswersBy (λ no. no) (no_file_refusal (path_of self.old)) result }
        ensures version { IfOk result (λ found. found.v ≡ version (path_of self.old)) }
        ensures attr { IfOk result (λ found. found.attr ≡ attr (path_of self.old)) }
        ensures frags { IfOk result (λ found. found.frags.items
            ≡ parts_in off (off + len) (held_at (path_of self.old)).fragments) }
        ensures pins { IfOk result (λ found. Pins H.Hold (held_at (path_of self.old))
            (pieces_named found.frags.items) found.holds.items found.bare.items) }
        ensures looked { IfOk result (λ found. IsLooked
            (Asks H.Hold (pieces_named found.frags.items)) (path_of self.old) (path_of self.new)) }
        ensures may_ask { OnErr result (IsLooked (MayAsk H.Hold
            (pieces_named (parts_in off (off + len) (held_at (path_of self.old)).fragments)))
            (path_of self.old) (path_of self.new)) }
        ensures holds { HasHolds H.is_ready H.piece H.bytes (path_of self.new) }
    {
        let v = self.version();
        let Some(file) = &mut self.file else {
            return Err(BookNo::NoEnt(v));
        };
        let Found { frags, holds, bare } = file.look(alloc, off, len)?;
        Ok(Looked {
            v,
            attr: file.attr(),
            frags,
            holds,
            bare,
        })
    }

    /// A replica of the file, which is frozen, at this path, or nothing where the hold of some piece
    /// has too little room for a pin with so much.
    pub fn replica(
        &mut self,
        alloc: Global,
        path: Path,
        given: u64,
    ) -> Result<Option<Replica<H>>, BookNo>
        requires holds { HasHolds H.is_ready H.piece H.bytes (path_of self.old) }
        requires frozen { IsTrue (attr (path_of self.old)).frozen }
        ensures want { IfErr result (λ no. no ≡ BookNo.Want) }
        ensures found { IfOk result (λ found. is_some found
            ≡ not (some_lacks H.Hold given (held_at (path_of self.old)))) }
        ensures replica { IfOk result (λ found. IfSome found
            (IsReplica H.Hold given path (path_of self.old))) }
        ensures asks { IfOk result (λ found. OnSome found (IsLooked (AsksFor H.Hold given
            (pieces_named (held_at (path_of self.old)).fragments)) (path_of self.old) (path_of self.new))) }
        ensures may_ask { IsLooked (MayAskFor H.Hold given
            (pieces_named (held_at (path_of self.old)).fragments)) (path_of self.old) (path_of self.new) }
        ensures holds { HasHolds H.is_ready H.piece H.bytes (path_of self.new) }
    {
        let version = self.version();
        let Some(file) = &mut self.file else {
            unreachable!();
        };
        let size = file.size;
        let Some((frags, holds)) = file.whole(alloc, given)? else {
            return Ok(None);
        };
        Ok(Some(Replica {
            path,
            version,
            size,
            frags,
            holds,
        }))
    }

    /// Adds the holds of the file's pieces to others.
    pub fn into_holds(self, holds: &mut Vec<H>) -> Result<(), Want>
        requires holds { HasHolds H.is_ready H.piece H.bytes (path_of self) }
        ensures { OnOk result (HandsOver H.piece (held_at (path_of self)) none_held
            holds.old.items holds.new.items) }
    {
        let OwnedPath { file, .. } = self;
        match file {
            Some(file) => file.into_holds(holds),
            None => Ok(()),
        }
    }

    /// The hold of a piece that the file names, to change.
    pub fn hold_of(&mut self, id: PieceId) -> Option<&mut H>
        ensures* writes_back { sem 𝓛
            (lends_in_path H.row S.row H.Hold S.Spans self.entry id result) }
        ensures hold { option_copied_mut result ≡ (held_at (path_of self.old)).hold_of id }
    {
        self.file.as_mut()?.hold_of(id)
    }
}
