//! Frozen files: what a lamination makes of a file, that nothing but an unlink changes it then, and
//! its replicas; and the holds of a whole book.

ghost use Rattle.std.specs.Prelude.{true, OnOk};
ghost use Rattle.owner_book.specs.Commits.{AllHaveHolds};

use super::lives::{Answer, Call, answered, assert_calls};
use super::pushes::book_of_two;
use super::*;
use fs_types::Replica;

#[test]
fn a_lamination_puts_its_push_and_freezes_the_file(rt: HostRuntime) -> Result<(), Fail> {
    let alloc = rt.alloc();
    let a = Path::read(alloc, b"/unifyfs/a")?;
    let b = Path::read(alloc, b"/unifyfs/b")?;
    let c = Path::read(alloc, b"/unifyfs/c")?;
    let mut book = created(alloc, &a, &b)?;
    let book = &mut book;
    // The push covers the end of what was there, and then nothing changes the file.
    let cases = [
        answered(4, Call::Commit(0, 4), Answer::File(2, 4), &[]),
        answered(5, Call::Laminate(Some((2, 4))), Answer::Frozen(3, 6), &[]),
        answered(6, Call::Commit(0, 4), Answer::ReadOnly(3), &[]),
        answered(7, Call::Trunc(2, Some((0, 2))), Answer::ReadOnly(3), &[]),
        answered(8, Call::Laminate(Some((0, 2))), Answer::ReadOnly(3), &[]),
        answered(9, Call::Laminate(None), Answer::ReadOnly(3), &[]),
    ];
    assert_calls(&rt, alloc, book, &a, &cases)?;
    let journal = [LineNo(2), LineNo(4), LineNo(5)];
    assert_eq!(rt; book.journal(GFID, &a), journal.as_slice());
    let found = book.attr(GFID, &a).1;
    assert_eq!(rt; (found.exists, found.size, found.frozen), (true, 6, true));
    // An unlink takes it away, and a later file isn't frozen.
    let cases = [
        answered(10, Call::Unlink, Answer::NoFile(4), &[4, 5]),
        answered(11, Call::Laminate(Some((0, 2))), Answer::Absent(4), &[]),
        answered(12, Call::Create, Answer::File(5, 0), &[]),
        answered(13, Call::Commit(0, 2), Answer::File(6, 2), &[]),
    ];
    assert_calls(&rt, alloc, book, &a, &cases)?;
    // A piece of which no byte is left dies; an empty push freezes what is there.
    let cases = [
        answered(14, Call::Commit(0, 2), Answer::File(2, 2), &[]),
        answered(
            15,
            Call::Laminate(Some((0, 4))),
            Answer::Frozen(3, 4),
            &[14],
        ),
    ];
    assert_calls(&rt, alloc, book, &b, &cases)?;
    let last = [answered(16, Call::Laminate(None), Answer::Frozen(7, 2), &[])];
    assert_calls(&rt, alloc, book, &a, &last)?;
    let none = [answered(17, Call::Laminate(None), Answer::Absent(0), &[])];
    assert_calls(&rt, alloc, book, &c, &none)?;
    Ok(())
}

// A replica of a frozen file.
fn replica(
    alloc: Global,
    book: &mut Book,
    path: &Path,
    room: u64,
) -> Result<Option<Replica<MemHold>>, Fail>
    requires { AllHaveHolds (λ _. true) (λ h. h.piece) (λ h. h.bytes) book.old }
    ensures { OnOk result (AllHaveHolds (λ _. true) (λ h. h.piece) (λ h. h.bytes) book.new) }
{
    if !book.attr(GFID, path).1.frozen {
        return Err("it isn't frozen".into());
    }
    Ok(book.replica(alloc, GFID, path, room)?)
}

// A replica shows this path's file, of the lines 6, 5 and 7, with one pin of each piece, in the order
// in which the fragments name them first.
fn assert_shows(
    rt: &impl Abort,
    alloc: Global,
    shown: &Replica<MemHold>,
    path: &Path,
) -> Result<(), Fail> {
    assert_eq!(rt; shown.path.as_bytes(), path.as_bytes());
    assert_eq!(rt; (shown.version, shown.size), (Version(4), 9));
    let all = [
        frag(0, 2, 6, 0),
        frag(2, 4, 5, 0),
        frag(6, 2, 6, 6),
        frag(8, 1, 7, 0),
    ];
    assert_eq!(rt; shown.frags.as_slice(), all.as_slice());
    let mut pinned = Vec::new(alloc);
    for h in &shown.holds {
        pinned.push(h.piece().line.0)?;
    }
    assert_eq!(rt; pinned.as_slice(), [6, 5, 7].as_slice());
    Ok(())
}

// The pin is of all of the piece of line 5, and has room for one pin with 1, and no more.
fn assert_has_room_of_two(rt: &impl Abort, pin: Option<MemHold>) -> Result<(), Fail> {
    let Some(mut pin) = pin else {
        return Err("it isn't there".into());
    };
    assert_eq!(rt; (pin.piece(), pin.bytes()), (piece(5), 4));
    assert!(rt; pin.pin(1).is_ok());
    assert!(rt; pin.pin(0).is_err());
    Ok(())
}

#[test]
fn a_replica_has_the_file_and_a_pin_of_each_piece(rt: HostRuntime) -> Result<(), Fail> {
    let alloc = rt.alloc();
    let a = Path::read(alloc, b"/unifyfs/a")?;
    let b = Path::read(alloc, b"/unifyfs/b")?;
    let mut book = created(alloc, &a, &b)?;
    let book = &mut book;
    // Of the three pieces one has a room without end, and one a room of 5.
    assert_commits(&rt, alloc, book, (&a, 6, 0, 8, None), (2, 8, &[]))?;
    assert_commits(&rt, alloc, book, (&a, 5, 2, 4, Some(5)), (3, 8, &[]))?;
    let cases = [answered(7, Call::Laminate(Some((8, 1))), Answer::Frozen(4, 9), &[])];
    assert_calls(&rt, alloc, book, &a, &cases)?;
    let Some(mut shown) = replica(alloc, book, &a, 2)? else {
        return Err("there is room".into());
    };
    assert_shows(&rt, alloc, &shown, &a)?;
    let _last = shown.holds.pop();
    assert_has_room_of_two(&rt, shown.holds.pop())?;
    // That took 3 from the room of its hold, so 2 are left: too few for a pin with 2, and enough for
    // one with 1, after which there is none.
    assert!(rt; replica(alloc, book, &a, 2)?.is_none());
    assert!(rt; replica(alloc, book, &a, 1)?.is_some());
    assert!(rt; replica(alloc, book, &a, 0)?.is_none());
    assert_eq!(rt; book.attr(GFID, &a).0, Version(4));
    Ok(())
}

// The lines of the pieces of which a book has holds, in order.
fn into_lines(alloc: Global, book: Book) -> Result<Vec<u32>, Fail>
    requires { AllHaveHolds (λ _. true) (λ h. h.piece) (λ h. h.bytes) book }
{
    let holds = book.into_holds(alloc)?;
    lines(alloc, &holds)
}

#[test]
fn all_holds_of_a_book_are_those_of_its_files(rt: HostRuntime) -> Result<(), Fail> {
    let alloc = rt.alloc();
    let a = Path::read(alloc, b"/unifyfs/a")?;
    let b = Path::read(alloc, b"/unifyfs/b")?;
    let c = Path::read(alloc, b"/unifyfs/c")?;
    let none = OwnerBook::new(alloc)?;
    assert!(rt; into_lines(alloc, none)?.is_empty());
    // Two paths of one gfid. The file of the first has two pieces, one of them in two fragments; that
    // of the second has one, after a piece whose last byte went; and the third has no file any more.
    let mut book = book_of_two(alloc, &a)?;
    let first = [
        answered(20, Call::Create, Answer::File(1, 0), &[]),
        answered(21, Call::Commit(0, 2), Answer::File(2, 2), &[]),
        answered(22, Call::Commit(0, 2), Answer::File(3, 2), &[21]),
    ];
    assert_calls(&rt, alloc, &mut book, &b, &first)?;
    let second = [
        answered(23, Call::Create, Answer::File(1, 0), &[]),
        answered(24, Call::Commit(0, 2), Answer::File(2, 2), &[]),
        answered(25, Call::Unlink, Answer::NoFile(3), &[24]),
    ];
    assert_calls(&rt, alloc, &mut book, &c, &second)?;
    assert_eq!(rt;
        into_lines(alloc, book)?.as_slice(),
        [11, 12, 22].as_slice()
    );
    Ok(())
}
