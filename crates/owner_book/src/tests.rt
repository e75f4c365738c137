ghost use Rattle.std.specs.Prelude.{◌≡◌, true, All, IfOk, OnOk};
ghost use Rattle.fs_types.specs.Fragments.{IsWellFormedPush};
ghost use Rattle.owner_book.specs.Commits.{AllHaveHolds};

mod frozen;
mod lives;
mod pushes;

use super::*;
use fs_types::{Attr, Frag, Hold, LONGEST_FILE, LineNo, MemHold, Path, PieceId, Push, Version};
use span_list::SpanList;
use std::alloc::Global;
use std::process::Abort;
use std::test::Fail;

type Book = OwnerBook<MemHold, SpanList>;

// The gfid of all paths here, but where another is named.
const GFID: u64 = 7;

fn piece(line: u32) -> PieceId
    ensures { result ≡ record { line = line; part = 0 } }
{
    PieceId {
        line: LineNo(line),
        part: 0,
    }
}

// A push of all of one piece, which has a hold of so much room.
fn push_of(
    alloc: Global,
    line: u32,
    at: u64,
    len: u32,
    room: Option<u64>,
) -> Result<Push<MemHold>, Fail>
    ensures well_formed { IfOk result (IsWellFormedPush (λ h. h.piece) (λ h. h.bytes)) }
    ensures piece { IfOk result (λ push. All (λ h. h.piece ≡ record { line = line; part = 0 })
        push.holds.items) }
{
    if len == 0 || at > LONGEST_FILE - u64::from(len) {
        return Err("a fragment of no file".into());
    }
    let piece = piece(line);
    let mut push = Push {
        frags: Vec::new(alloc),
        holds: Vec::new(alloc),
    };
    push.frags.push(Frag {
        at,
        len: u64::from(len),
        piece,
        from: 0,
    })?;
    push.holds.push(MemHold::new(piece, len, room))?;
    Ok(push)
}

// Commits a push of all of one piece that is new to the file. What is refused comes back.
fn commit(
    alloc: Global,
    book: &mut Book,
    path: &Path,
    line: u32,
    at: u64,
    len: u32,
    room: Option<u64>,
) -> Result<Result<Committed<MemHold>, BookNo>, Fail>
    requires { AllHaveHolds (λ _. true) (λ h. h.piece) (λ h. h.bytes) book.old }
    ensures { OnOk result (AllHaveHolds (λ _. true) (λ h. h.piece) (λ h. h.bytes) book.new) }
{
    if let Some(_) = book.hold_of(GFID, path, piece(line)) {
        return Err("the piece is there".into());
    }
    let push = push_of(alloc, line, at, len, room)?;
    match book.commit(alloc, GFID, path, LineNo(line), push) {
        Ok(done) => Ok(Ok(done)),
        Err((no, push)) => {
            if push.frags.len() != 1 || push.holds.len() != 1 {
                return Err("the push is lost".into());
            }
            Ok(Err(no))
        }
    }
}

// The lines of which there are holds, in order.
fn lines(alloc: Global, holds: &[MemHold]) -> Result<Vec<u32>, Fail> {
    let mut all = Vec::new(alloc);
    for h in holds {
        all.push(h.piece().line.0)?;
    }
    all.sort_unstable();
    Ok(all)
}

fn file(size: u64) -> Attr {
    Attr {
        exists: true,
        size,
        frozen: false,
    }
}

// A book with an empty file at one path, which line 2 made, and at another, which line 3 made.
fn created(alloc: Global, a: &Path, b: &Path) -> Result<Book, Fail>
    ensures { IfOk result (AllHaveHolds (λ _. true) (λ h. h.piece) (λ h. h.bytes)) }
{
    let mut book = OwnerBook::new(alloc)?;
    book.create(alloc, GFID, a, LineNo(2))?;
    book.create(alloc, GFID, b, LineNo(3))?;
    Ok(book)
}

// A commit gives this version and this size, and hands out the holds of these lines.
fn assert_commits(
    rt: &impl Abort,
    alloc: Global,
    book: &mut Book,
    put: (&Path, u32, u64, u32, Option<u64>),
    wanted: (u64, u64, &[u32]),
) -> Result<(), Fail>
    requires { AllHaveHolds (λ _. true) (λ h. h.piece) (λ h. h.bytes) book.old }
    ensures { OnOk result (AllHaveHolds (λ _. true) (λ h. h.piece) (λ h. h.bytes) book.new) }
{
    let (path, line, at, len, room) = put;
    let Ok(done) = commit(alloc, book, path, line, at, len, room)? else {
        return Err("it is refused".into());
    };
    let (version, size, dead) = wanted;
    assert_eq!(rt; done.v, Version(version), "line {line}");
    assert_eq!(rt; done.attr, file(size), "line {line}");
    let found = lines(alloc, &done.dead)?;
    assert_eq!(rt; found.as_slice(), dead, "line {line}");
    Ok(())
}

#[test]
fn two_paths_with_one_gfid_have_journals_of_their_own(rt: HostRuntime) -> Result<(), Fail> {
    let alloc = rt.alloc();
    let a = Path::read(alloc, b"/unifyfs/a")?;
    let b = Path::read(alloc, b"/unifyfs/b")?;
    let mut book: Book = OwnerBook::new(alloc)?;
    let cases = [
        (&a, 2, Ok(Version(1))),
        (&b, 3, Ok(Version(1))),
        (&a, 4, Err(BookNo::Exists(Version(1)))),
    ];
    for (path, line, wanted) in cases {
        assert_eq!(rt; book.create(alloc, GFID, path, LineNo(line)), wanted);
    }
    assert_eq!(rt; book.journal(GFID, &a), [LineNo(2)].as_slice());
    assert_eq!(rt; book.journal(GFID, &b), [LineNo(3)].as_slice());
    for (gfid, path) in [(GFID, &a), (GFID, &b)] {
        assert_eq!(rt; book.open(gfid, path), Ok((Version(1), file(0))));
    }
    for (gfid, path) in [(8, &a), (8, &b)] {
        assert_eq!(rt; book.open(gfid, path), Err(BookNo::NoEnt(Version(0))));
        assert!(rt; !book.attr(gfid, path).1.exists);
        assert!(rt; book.journal(gfid, path).is_empty());
    }
    Ok(())
}

#[test]
fn a_commit_hands_out_the_holds_whose_last_byte_went(rt: HostRuntime) -> Result<(), Fail> {
    let alloc = rt.alloc();
    let a = Path::read(alloc, b"/unifyfs/a")?;
    let b = Path::read(alloc, b"/unifyfs/b")?;
    let c = Path::read(alloc, b"/unifyfs/c")?;
    let mut book = created(alloc, &a, &b)?;
    assert_commits(&rt, alloc, &mut book, (&a, 4, 0, 4, None), (2, 4, &[]))?;
    assert_commits(&rt, alloc, &mut book, (&b, 5, 2, 4, None), (2, 6, &[]))?;
    assert_commits(&rt, alloc, &mut book, (&a, 6, 4, 4, None), (3, 8, &[]))?;
    let refused = commit(alloc, &mut book, &c, 7, 0, 4, None)?;
    assert_eq!(rt; refused.err(), Some(BookNo::NoEnt(Version(0))));
    assert_commits(&rt, alloc, &mut book, (&a, 8, 0, 9, None), (4, 9, &[4, 6]))?;
    assert_commits(&rt, alloc, &mut book, (&b, 9, 3, 1, None), (3, 6, &[]))?;
    assert_commits(&rt, alloc, &mut book, (&b, 10, 0, 7, None), (4, 7, &[5, 9]))?;
    let journal = [LineNo(2), LineNo(4), LineNo(6), LineNo(8)];
    assert_eq!(rt; book.journal(GFID, &a), journal.as_slice());
    let journal = [LineNo(3), LineNo(5), LineNo(9), LineNo(10)];
    assert_eq!(rt; book.journal(GFID, &b), journal.as_slice());
    assert!(rt; book.journal(GFID, &c).is_empty());
    assert_eq!(rt; book.attr(GFID, &a), (Version(4), file(9)));
    assert_eq!(rt; book.attr(GFID, &b), (Version(4), file(7)));
    Ok(())
}

// A fragment of the piece of a line.
fn frag(at: u64, len: u64, line: u32, from: u32) -> Frag {
    Frag {
        at,
        len,
        piece: piece(line),
        from,
    }
}

// A lookup tells this version and this size, and gives these fragments, pins of the pieces of these
// lines, and these pieces as bare.
fn assert_finds(
    rt: &impl Abort,
    alloc: Global,
    book: &mut Book,
    range: (&Path, u64, u64),
    told: (u64, u64),
    frags: &[Frag],
    pins: (&[u32], &[PieceId]),
) -> Result<(), Fail>
    requires { AllHaveHolds (λ _. true) (λ h. h.piece) (λ h. h.bytes) book.old }
    ensures { OnOk result (AllHaveHolds (λ _. true) (λ h. h.piece) (λ h. h.bytes) book.new) }
{
    let (path, off, len) = range;
    let found = book.lookup(alloc, GFID, path, off, len)?;
    let (version, size) = told;
    assert_eq!(rt; found.v, Version(version), "{off} {len}");
    assert_eq!(rt; found.attr, file(size), "{off} {len}");
    assert_eq!(rt; found.frags.as_slice(), frags, "{off} {len}");
    let (pinned, bare) = pins;
    let holds = lines(alloc, &found.holds)?;
    assert_eq!(rt; holds.as_slice(), pinned, "{off} {len}");
    assert_eq!(rt; found.bare.as_slice(), bare, "{off} {len}");
    Ok(())
}

#[test]
fn a_lookup_pins_each_piece_or_names_it_as_bare(rt: HostRuntime) -> Result<(), Fail> {
    let alloc = rt.alloc();
    let a = Path::read(alloc, b"/unifyfs/a")?;
    let b = Path::read(alloc, b"/unifyfs/b")?;
    let c = Path::read(alloc, b"/unifyfs/c")?;
    let mut book = created(alloc, &a, &b)?;
    let book = &mut book;
    assert_commits(&rt, alloc, book, (&a, 4, 0, 4, None), (2, 4, &[]))?;
    let first = [frag(1, 3, 4, 1)];
    assert_finds(&rt, alloc, book, (&a, 1, 6), (2, 4), &first, (&[4], &[]))?;
    assert_commits(&rt, alloc, book, (&a, 6, 4, 4, Some(0)), (3, 8, &[]))?;
    assert_commits(&rt, alloc, book, (&a, 8, 10, 2, Some(1)), (4, 12, &[]))?;
    assert_commits(&rt, alloc, book, (&a, 9, 5, 1, None), (5, 12, &[]))?;
    let all = [
        frag(0, 4, 4, 0),
        frag(4, 1, 6, 0),
        frag(5, 1, 9, 0),
        frag(6, 2, 6, 2),
        frag(10, 2, 8, 0),
    ];
    let middle = [
        frag(1, 3, 4, 1),
        frag(4, 1, 6, 0),
        frag(5, 1, 9, 0),
        frag(6, 1, 6, 2),
    ];
    let last = [frag(7, 1, 6, 3), frag(10, 2, 8, 0)];
    let one = [piece(6)];
    let two = [piece(6), piece(8)];
    assert_finds(
        &rt,
        alloc,
        book,
        (&a, 0, 12),
        (5, 12),
        &all,
        (&[4, 8, 9], &one),
    )?;
    assert_finds(
        &rt,
        alloc,
        book,
        (&a, 0, 12),
        (5, 12),
        &all,
        (&[4, 9], &two),
    )?;
    assert_finds(
        &rt,
        alloc,
        book,
        (&a, 1, 6),
        (5, 12),
        &middle,
        (&[4, 9], &one),
    )?;
    assert_finds(
        &rt,
        alloc,
        book,
        (&a, 7, u64::MAX),
        (5, 12),
        &last,
        (&[], &two),
    )?;
    assert_finds(&rt, alloc, book, (&a, 8, 2), (5, 12), &[], (&[], &[]))?;
    let absent = book.lookup(alloc, GFID, &c, 0, 12);
    assert_eq!(rt; absent.err(), Some(BookNo::NoEnt(Version(0))));
    assert!(rt; book.hold_of(GFID, &a, piece(6)).is_some());
    assert!(rt; book.hold_of(GFID, &a, piece(7)).is_none());
    assert!(rt; book.hold_of(GFID, &b, piece(6)).is_none());
    Ok(())
}
