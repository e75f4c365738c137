//! A commit whose push has two pieces, a hold that is changed through its loan, and the example at
//! the head of the crate.

ghost use Rattle.std.specs.Prelude.{true, IfOk, OnOk};
ghost use Rattle.fs_types.specs.Fragments.{IsWellFormedPush};
ghost use Rattle.owner_book.specs.Commits.{AllHaveHolds};

use super::*;

#[test]
fn the_example_at_the_head_of_the_crate(rt: HostRuntime) -> Result<(), Fail> {
    let alloc = rt.alloc();
    let path = Path::read(alloc, b"/unifyfs/a")?;
    let mut book: OwnerBook<MemHold, SpanList> = OwnerBook::new(alloc)?;
    book.create(alloc, 7, &path, LineNo(2))?;
    let piece = PieceId {
        line: LineNo(4),
        part: 0,
    };
    let mut push = Push {
        frags: Vec::new(alloc),
        holds: Vec::new(alloc),
    };
    push.frags.push(Frag {
        at: 0,
        len: 4,
        piece,
        from: 0,
    })?;
    push.holds.push(MemHold::new(piece, 4, None))?;
    let done = book
        .commit(alloc, 7, &path, LineNo(4), push)
        .ok()
        .ok_or("there is memory")?;
    assert_eq!(rt; (done.v, done.attr), (Version(2), file(4)));
    assert!(rt; done.dead.is_empty());
    let found = book.lookup(alloc, 7, &path, 1, 6)?;
    assert_eq!(rt; found.frags.as_slice(), [frag(1, 3, 4, 1)].as_slice());
    let pinned = lines(alloc, &found.holds)?;
    assert_eq!(rt; pinned.as_slice(), [4].as_slice());
    assert!(rt; found.bare.is_empty());
    let none = Push {
        frags: Vec::new(alloc),
        holds: Vec::new(alloc),
    };
    let cut = book
        .trunc(alloc, 7, &path, LineNo(5), 2, none)
        .ok()
        .ok_or("there is memory")?;
    assert_eq!(rt; (cut.v, cut.attr), (Version(3), file(2)));
    assert!(rt; cut.dead.is_empty());
    let none = Push {
        frags: Vec::new(alloc),
        holds: Vec::new(alloc),
    };
    let last = book
        .laminate(alloc, 7, &path, LineNo(6), none)
        .ok()
        .ok_or("there is memory")?;
    assert_eq!(rt; last.v, Version(4));
    assert_eq!(rt; (last.attr.size, last.attr.frozen), (2, true));
    assert!(rt; last.dead.is_empty());
    let gone = book.unlink(alloc, 7, &path, LineNo(7))?;
    assert_eq!(rt; gone.v, Version(5));
    assert!(rt; !gone.attr.exists);
    assert_eq!(rt; lines(alloc, &gone.dead)?.as_slice(), [4].as_slice());
    Ok(())
}

// A push of two pieces: 4 bytes of the first, of line 11, the second, of line 12, and the rest of
// the first.
fn push_of_two(alloc: Global) -> Result<Push<MemHold>, Fail>
    ensures well_formed { IfOk result (IsWellFormedPush (λ h. h.piece) (λ h. h.bytes)) }
{
    let first = piece(11);
    let second = piece(12);
    let mut frags = Vec::new(alloc);
    let mut holds = Vec::new(alloc);
    frags.push(Frag {
        at: 0,
        len: 4,
        piece: first,
        from: 0,
    })?;
    frags.push(Frag {
        at: 4,
        len: 2,
        piece: second,
        from: 0,
    })?;
    frags.push(Frag {
        at: 6,
        len: 4,
        piece: first,
        from: 4,
    })?;
    holds.push(MemHold::new(first, 8, None))?;
    holds.push(MemHold::new(second, 2, None))?;
    Ok(Push { frags, holds })
}

// A book with a file at a path, to which line 11 committed such a push.
pub fn book_of_two(alloc: Global, path: &Path) -> Result<Book, Fail>
    ensures { IfOk result (AllHaveHolds (λ _. true) (λ h. h.piece) (λ h. h.bytes)) }
{
    let push = push_of_two(alloc)?;
    let mut book = OwnerBook::new(alloc)?;
    book.create(alloc, GFID, path, LineNo(2))?;
    match book.commit(alloc, GFID, path, LineNo(11), push) {
        Ok(_) => Ok(book),
        Err(_) => Err("there is memory".into()),
    }
}

#[test]
fn a_piece_is_held_until_the_last_of_its_fragments_goes(rt: HostRuntime) -> Result<(), Fail> {
    let alloc = rt.alloc();
    let a = Path::read(alloc, b"/unifyfs/a")?;
    let mut book = book_of_two(alloc, &a)?;
    let book = &mut book;
    let all = [frag(0, 4, 11, 0), frag(4, 2, 12, 0), frag(6, 4, 11, 4)];
    assert_finds(
        &rt,
        alloc,
        book,
        (&a, 0, 10),
        (2, 10),
        &all,
        (&[11, 12], &[]),
    )?;
    assert_commits(&rt, alloc, book, (&a, 13, 0, 4, None), (3, 10, &[]))?;
    assert_commits(&rt, alloc, book, (&a, 14, 4, 2, None), (4, 10, &[12]))?;
    assert_commits(&rt, alloc, book, (&a, 15, 6, 4, None), (5, 10, &[11]))?;
    Ok(())
}

// Pins the piece of a line through the loan of its hold. The pin has no room.
fn pin(book: &mut Book, path: &Path, line: u32) -> Result<MemHold, Fail>
    requires { AllHaveHolds (λ _. true) (λ h. h.piece) (λ h. h.bytes) book.old }
    ensures { OnOk result (AllHaveHolds (λ _. true) (λ h. h.piece) (λ h. h.bytes) book.new) }
{
    let Some(hold) = book.hold_of(GFID, path, piece(line)) else {
        return Err("the piece isn't there".into());
    };
    match hold.pin(0) {
        Ok(pin) => Ok(pin),
        Err(_) => Err("it has no room".into()),
    }
}

#[test]
fn a_pin_through_the_loan_takes_from_the_room(rt: HostRuntime) -> Result<(), Fail> {
    let alloc = rt.alloc();
    let a = Path::read(alloc, b"/unifyfs/a")?;
    let b = Path::read(alloc, b"/unifyfs/b")?;
    let mut book = created(alloc, &a, &b)?;
    let book = &mut book;
    assert_commits(&rt, alloc, book, (&a, 4, 0, 4, Some(2)), (2, 4, &[]))?;
    let pinned = pin(book, &a, 4)?;
    assert_eq!(rt; pinned.piece(), piece(4));
    let all = [frag(0, 4, 4, 0)];
    assert_finds(&rt, alloc, book, (&a, 0, 4), (2, 4), &all, (&[4], &[]))?;
    assert_finds(
        &rt,
        alloc,
        book,
        (&a, 0, 4),
        (2, 4),
        &all,
        (&[], &[piece(4)]),
    )?;
    Ok(())
}
