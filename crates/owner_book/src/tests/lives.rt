//! The lives of paths: what truncations leave of a file, which holds they and unlinks hand out, and
//! what comes after an unlink.

ghost use Rattle.std.specs.Prelude.{◌≡◌, true, All, IfOk, OnOk};
ghost use Rattle.fs_types.specs.Fragments.{IsWellFormedPush};
ghost use Rattle.owner_book.specs.Commits.{AllHaveHolds};

use super::pushes::book_of_two;
use super::*;

// A call on a path. What it puts there is all of one new piece, by its place and its length.
#[derive(Clone, Copy)]
pub enum Call {
    Create,
    Commit(u64, u32),
    Trunc(u64, Option<(u64, u32)>),
    Laminate(Option<(u64, u32)>),
    Unlink,
}

// What a call answers: the version, and how many bytes the file has, frozen or not, or that there is
// none; or that it is refused at this version, since there is none or it is frozen.
#[derive(Clone, Copy)]
pub enum Answer {
    File(u64, u64),
    Frozen(u64, u64),
    NoFile(u64),
    Absent(u64),
    ReadOnly(u64),
}

// A line's call, its answer, and the lines of the holds that come out.
#[derive(Drop)]
pub struct Case<'a> {
    line: u32,
    call: Call,
    answer: Answer,
    dead: &'a [u32],
}

pub fn answered(line: u32, call: Call, answer: Answer, dead: &[u32]) -> Case<'_> {
    Case {
        line,
        call,
        answer,
        dead,
    }
}

// Creates a path's file, and answers as a commit does.
fn create(
    alloc: Global,
    book: &mut Book,
    path: &Path,
    line: u32,
) -> Result<Committed<MemHold>, BookNo>
    requires { AllHaveHolds (λ _. true) (λ h. h.piece) (λ h. h.bytes) book.old }
    ensures { AllHaveHolds (λ _. true) (λ h. h.piece) (λ h. h.bytes) book.new }
{
    let v = book.create(alloc, GFID, path, LineNo(line))?;
    Ok(Committed {
        v,
        attr: book.attr(GFID, path).1,
        dead: Vec::new(alloc),
    })
}

// A push of all of one piece, or an empty one.
fn push_or_none(alloc: Global, line: u32, put: Option<(u64, u32)>) -> Result<Push<MemHold>, Fail>
    ensures well_formed { IfOk result (IsWellFormedPush (λ h. h.piece) (λ h. h.bytes)) }
    ensures piece { IfOk result (λ push. All (λ h. h.piece ≡ record { line = line; part = 0 })
        push.holds.items) }
{
    match put {
        Some((at, len)) => push_of(alloc, line, at, len, None),
        None => Ok(Push {
            frags: Vec::new(alloc),
            holds: Vec::new(alloc),
        }),
    }
}

// Truncates a path's file, with a push of all of one piece that is new to it, or an empty push.
// What is refused comes back.
fn trunc(
    alloc: Global,
    book: &mut Book,
    path: &Path,
    line: u32,
    size: u64,
    put: Option<(u64, u32)>,
) -> Result<Result<Committed<MemHold>, BookNo>, Fail>
    requires { AllHaveHolds (λ _. true) (λ h. h.piece) (λ h. h.bytes) book.old }
    ensures { OnOk result (AllHaveHolds (λ _. true) (λ h. h.piece) (λ h. h.bytes) book.new) }
{
    if size > LONGEST_FILE {
        return Err("the file is too long".into());
    }
    if let Some(_) = book.hold_of(GFID, path, piece(line)) {
        return Err("the piece is there".into());
    }
    let push = push_or_none(alloc, line, put)?;
    let (frags, holds) = (push.frags.len(), push.holds.len());
    match book.trunc(alloc, GFID, path, LineNo(line), size, push) {
        Ok(done) => Ok(Ok(done)),
        Err((no, push)) => {
            if push.frags.len() != frags || push.holds.len() != holds {
                return Err("the push is lost".into());
            }
            Ok(Err(no))
        }
    }
}

// Laminates a path's file, with a push of all of one piece that is new to it, or an empty push. What
// is refused comes back.
fn laminate(
    alloc: Global,
    book: &mut Book,
    path: &Path,
    line: u32,
    put: Option<(u64, u32)>,
) -> Result<Result<Committed<MemHold>, BookNo>, Fail>
    requires { AllHaveHolds (λ _. true) (λ h. h.piece) (λ h. h.bytes) book.old }
    ensures { OnOk result (AllHaveHolds (λ _. true) (λ h. h.piece) (λ h. h.bytes) book.new) }
{
    if let Some(_) = book.hold_of(GFID, path, piece(line)) {
        return Err("the piece is there".into());
    }
    let push = push_or_none(alloc, line, put)?;
    let (frags, holds) = (push.frags.len(), push.holds.len());
    match book.laminate(alloc, GFID, path, LineNo(line), push) {
        Ok(done) => Ok(Ok(done)),
        Err((no, push)) => {
            if push.frags.len() != frags || push.holds.len() != holds {
                return Err("the push is lost".into());
            }
            Ok(Err(no))
        }
    }
}

// Makes a call. What is refused comes back.
fn make(
    alloc: Global,
    book: &mut Book,
    path: &Path,
    line: u32,
    call: Call,
) -> Result<Result<Committed<MemHold>, BookNo>, Fail>
    requires { AllHaveHolds (λ _. true) (λ h. h.piece) (λ h. h.bytes) book.old }
    ensures { OnOk result (AllHaveHolds (λ _. true) (λ h. h.piece) (λ h. h.bytes) book.new) }
{
    match call {
        Call::Create => Ok(create(alloc, book, path, line)),
        Call::Commit(at, len) => commit(alloc, book, path, line, at, len, None),
        Call::Trunc(size, put) => trunc(alloc, book, path, line, size, put),
        Call::Laminate(put) => laminate(alloc, book, path, line, put),
        Call::Unlink => Ok(book.unlink(alloc, GFID, path, LineNo(line))),
    }
}

// A call answered so.
fn assert_answer(
    rt: &impl Abort,
    alloc: Global,
    found: Result<Committed<MemHold>, BookNo>,
    case: &Case<'_>,
) -> Result<(), Fail> {
    let line = case.line;
    let (version, exists, size, frozen) = match case.answer {
        Answer::File(version, size) => (version, true, size, false),
        Answer::Frozen(version, size) => (version, true, size, true),
        Answer::NoFile(version) => (version, false, 0, false),
        Answer::Absent(version) => {
            let no = BookNo::NoEnt(Version(version));
            assert_eq!(rt; found.err(), Some(no), "line {line}");
            return Ok(());
        }
        Answer::ReadOnly(version) => {
            let no = BookNo::ReadOnly(Version(version));
            assert_eq!(rt; found.err(), Some(no), "line {line}");
            return Ok(());
        }
    };
    let Ok(done) = found else {
        return Err("it is refused".into());
    };
    let attr = Attr {
        exists,
        size,
        frozen,
    };
    assert_eq!(rt;
        (done.v, done.attr),
        (Version(version), attr),
        "line {line}"
    );
    let gone = lines(alloc, &done.dead)?;
    assert_eq!(rt; gone.as_slice(), case.dead, "line {line}");
    Ok(())
}

// The lines make their calls on a path, one after the other.
pub fn assert_calls(
    rt: &impl Abort,
    alloc: Global,
    book: &mut Book,
    path: &Path,
    cases: &[Case<'_>],
) -> Result<(), Fail>
    requires { AllHaveHolds (λ _. true) (λ h. h.piece) (λ h. h.bytes) book.old }
    ensures { OnOk result (AllHaveHolds (λ _. true) (λ h. h.piece) (λ h. h.bytes) book.new) }
{
    for case in cases {
        let found = make(alloc, book, path, case.line, case.call)?;
        assert_answer(rt, alloc, found, case)?;
    }
    Ok(())
}

#[test]
fn a_truncation_hands_out_the_holds_of_what_it_cuts(rt: HostRuntime) -> Result<(), Fail> {
    let alloc = rt.alloc();
    let a = Path::read(alloc, b"/unifyfs/a")?;
    let b = Path::read(alloc, b"/unifyfs/b")?;
    let mut book = created(alloc, &a, &b)?;
    let book = &mut book;
    // Into the middle of a piece, whose hold stays, and past the end.
    let cases = [
        answered(4, Call::Commit(0, 4), Answer::File(2, 4), &[]),
        answered(5, Call::Commit(4, 4), Answer::File(3, 8), &[]),
        answered(6, Call::Trunc(6, None), Answer::File(4, 6), &[]),
        answered(7, Call::Trunc(9, None), Answer::File(5, 9), &[]),
    ];
    assert_calls(&rt, alloc, book, &a, &cases)?;
    let left = [frag(0, 4, 4, 0), frag(4, 2, 5, 0)];
    assert_finds(&rt, alloc, book, (&a, 0, 12), (5, 9), &left, (&[4, 5], &[]))?;
    // A piece of the push dies at once where all of it lies past the size.
    let cases = [
        answered(8, Call::Trunc(4, None), Answer::File(6, 4), &[5]),
        answered(9, Call::Trunc(4, Some((6, 2))), Answer::File(7, 4), &[9]),
        answered(10, Call::Trunc(3, Some((0, 4))), Answer::File(8, 3), &[4]),
        answered(11, Call::Trunc(0, None), Answer::File(9, 0), &[10]),
        answered(12, Call::Commit(0, 2), Answer::File(10, 2), &[]),
        answered(
            13,
            Call::Trunc(0, Some((0, 9))),
            Answer::File(11, 0),
            &[12, 13],
        ),
        answered(14, Call::Trunc(5, Some((1, 2))), Answer::File(12, 5), &[]),
    ];
    assert_calls(&rt, alloc, book, &a, &cases)?;
    let left = [frag(1, 2, 14, 0)];
    assert_finds(&rt, alloc, book, (&a, 0, 12), (12, 5), &left, (&[14], &[]))?;
    Ok(())
}

#[test]
fn versions_go_on_after_an_unlink(rt: HostRuntime) -> Result<(), Fail> {
    let alloc = rt.alloc();
    let a = Path::read(alloc, b"/unifyfs/a")?;
    let b = Path::read(alloc, b"/unifyfs/b")?;
    let mut book = book_of_two(alloc, &a)?;
    let book = &mut book;
    let cases = [
        answered(3, Call::Trunc(4, Some((0, 2))), Answer::Absent(0), &[]),
        answered(4, Call::Create, Answer::File(1, 0), &[]),
        answered(5, Call::Commit(0, 4), Answer::File(2, 4), &[]),
    ];
    assert_calls(&rt, alloc, book, &b, &cases)?;
    let cases = [
        answered(15, Call::Unlink, Answer::NoFile(3), &[11, 12]),
        answered(16, Call::Unlink, Answer::Absent(3), &[]),
        answered(17, Call::Trunc(4, Some((0, 2))), Answer::Absent(3), &[]),
        answered(18, Call::Create, Answer::File(4, 0), &[]),
        answered(19, Call::Commit(0, 2), Answer::File(5, 2), &[]),
        answered(20, Call::Unlink, Answer::NoFile(6), &[19]),
    ];
    assert_calls(&rt, alloc, book, &a, &cases)?;
    let journal = [
        LineNo(2),
        LineNo(11),
        LineNo(15),
        LineNo(18),
        LineNo(19),
        LineNo(20),
    ];
    assert_eq!(rt; book.journal(GFID, &a), journal.as_slice());
    assert!(rt; !book.attr(GFID, &a).1.exists);
    // The other path of the same gfid is as it was.
    let whole = [frag(0, 4, 5, 0)];
    assert_finds(&rt, alloc, book, (&b, 0, 9), (2, 4), &whole, (&[5], &[]))?;
    let last = [answered(21, Call::Unlink, Answer::NoFile(3), &[5])];
    assert_calls(&rt, alloc, book, &b, &last)?;
    Ok(())
}
