use super::*;
use fs_types::{Attr, Path, Version};
use std::alloc::Global;
use std::process::Abort;
use std::test::Fail;

// The history of a path: there is a file from version 1 on, line 6 of its journal unlinks it, line 7
// makes another, line 8 freezes that, and line 9 unlinks it.
fn attr_at(version: u64) -> Attr {
    Attr {
        exists: !matches!(version, 0 | 6 | 9),
        size: if matches!(version, 0 | 6 | 9) { 0 } else { 5 },
        frozen: version == 8,
    }
}

#[test]
fn the_example_at_the_head_of_the_crate(rt: HostRuntime) -> Result<(), Fail> {
    let alloc = rt.alloc();
    let path = Path::read(alloc, b"/unifyfs/a")?;
    // the client opens the path, and is shown 5 bytes at version 2
    let mut files = Files::new(alloc)?;
    files.opened(alloc, &path)?;
    let five = Attr {
        exists: true,
        size: 5,
        frozen: false,
    };
    files.note(alloc, &path, Version(2), five)?;
    let mut board = Board::new(alloc)?;
    let noted = files.may_write(&board, &path);
    // all are told that there is no file at version 3
    let none = Attr {
        exists: false,
        size: 0,
        frozen: false,
    };
    board.set(alloc, &path, Version(3), none)?;
    let told = files.may_write(&board, &path);
    assert_eq!(rt; noted, May::Yes);
    let known = files.at_front(&board, &path);
    assert_eq!(rt; told, May::NoEnt(Version(3)));
    assert_eq!(rt; known.version, Version(3));
    assert!(rt; !known.attr.exists);
    assert_eq!(rt; files.front(&board, &path), Version(3));
    assert!(rt; files.is_open(&path));
    Ok(())
}

// The client notes these versions of a path, one after the other.
fn note_all(alloc: Global, files: &mut Files, path: &Path, versions: &[u64]) -> Result<(), Fail> {
    for version in versions {
        files.note(alloc, path, Version(*version), attr_at(*version))?;
    }
    Ok(())
}

// All are told of this version of a path.
fn tell(alloc: Global, board: &mut Board, path: &Path, version: u64) -> Result<(), Fail> {
    board.set(alloc, path, Version(version), attr_at(version))?;
    Ok(())
}

// A client that noted these versions, one after the other, and a board on which that one was told,
// have this front, and this answer to a write once the path is opened.
fn assert_knows(
    rt: &impl Abort,
    alloc: Global,
    path: &Path,
    notes: &[u64],
    told: u64,
    wanted: (u64, May),
) -> Result<(), Fail> {
    let (front, may) = wanted;
    let mut files = Files::new(alloc)?;
    note_all(alloc, &mut files, path, notes)?;
    let mut board = Board::new(alloc)?;
    tell(alloc, &mut board, path, told)?;
    let unopened = files.may_write(&board, path);
    assert_eq!(rt; unopened, May::BadF, "{told} {front}");
    files.opened(alloc, path)?;
    assert_eq!(rt; files.front(&board, path), Version(front), "{told} {front}");
    assert_eq!(rt; files.may_write(&board, path), may, "{told} {front}");
    Ok(())
}

#[test]
fn the_greatest_version_decides_whatever_the_order(rt: HostRuntime) -> Result<(), Fail> {
    let cases: [(&[u64], u64, u64, May); 14] = [
        (&[], 0, 0, May::NoEnt(Version(0))),
        (&[4], 0, 4, May::Yes),
        (&[4, 5], 0, 5, May::Yes),
        // an unlinked file is gone, also where what it was is noted later
        (&[4, 6], 0, 6, May::NoEnt(Version(6))),
        (&[6, 4], 0, 6, May::NoEnt(Version(6))),
        (&[4, 6, 5], 0, 6, May::NoEnt(Version(6))),
        (&[4, 6, 7, 5], 0, 7, May::Yes),
        // the board is below, at and above what was noted
        (&[4, 6], 5, 6, May::NoEnt(Version(6))),
        (&[4, 6], 6, 6, May::NoEnt(Version(6))),
        (&[6, 4], 7, 7, May::Yes),
        (&[], 5, 5, May::Yes),
        // a frozen file is noted, or told, and unlinked
        (&[4, 8, 5], 3, 8, May::ReadOnly(Version(8))),
        (&[4], 8, 8, May::ReadOnly(Version(8))),
        (&[8], 9, 9, May::NoEnt(Version(9))),
    ];
    let alloc = rt.alloc();
    let path = Path::read(alloc, b"/unifyfs/a")?;
    for (notes, told, front, may) in cases {
        assert_knows(&rt, alloc, &path, notes, told, (front, may))?;
    }
    Ok(())
}

// Opens two paths, the one before its version is noted and the other after, and tells of each.
fn act(
    alloc: Global,
    files: &mut Files,
    board: &mut Board,
    first: &Path,
    second: &Path,
) -> Result<(), Fail> {
    files.opened(alloc, first)?;
    note_all(alloc, files, second, &[8])?;
    note_all(alloc, files, first, &[2])?;
    files.opened(alloc, second)?;
    tell(alloc, board, first, 6)?;
    tell(alloc, board, second, 3)?;
    // what is told last stands, though it is of a lower version
    tell(alloc, board, first, 1)
}

#[test]
fn what_is_done_on_a_path_leaves_the_others(rt: HostRuntime) -> Result<(), Fail> {
    let alloc = rt.alloc();
    let a = Path::read(alloc, b"/unifyfs/a")?;
    let b = Path::read(alloc, b"/unifyfs/b")?;
    let c = Path::read(alloc, b"/unifyfs/a/c")?;
    let mut files = Files::new(alloc)?;
    let mut board = Board::new(alloc)?;
    act(alloc, &mut files, &mut board, &a, &b)?;
    let cases = [
        (&a, true, 2, May::Yes),
        (&b, true, 8, May::ReadOnly(Version(8))),
        (&c, false, 0, May::BadF),
    ];
    for (path, is_open, front, may) in cases {
        assert_eq!(rt; files.is_open(path), is_open, "{front}");
        assert_eq!(rt; files.front(&board, path), Version(front), "{front}");
        assert_eq!(rt; files.may_write(&board, path), may, "{front}");
    }
    Ok(())
}
