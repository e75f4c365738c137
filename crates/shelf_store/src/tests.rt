use super::*;
use fs_types::{LineNo, MemHold, Path, PieceId, Replica, Version, Want};
use std::alloc::Global;
use std::process::Abort;
use std::test::Fail;

#[test]
fn the_example_at_the_head_of_the_crate(rt: HostRuntime) -> Result<(), Fail> {
    let alloc = rt.alloc();
    let path = Path::read(alloc, b"/unifyfs/a")?;
    // a file of 5 zeros at a version
    let zeros = |version| -> Result<Replica<MemHold>, Want> {
        Ok(Replica {
            path: path.copy(alloc)?,
            version: Version(version),
            size: 5,
            frags: Vec::new(alloc),
            holds: Vec::new(alloc),
        })
    };
    let mut shelf = Shelf::new(alloc)?;
    let first = shelf.put(alloc, zeros(4)?);
    // `first` is `Put::Kept(None)`
    let late = shelf.put(alloc, zeros(3)?);
    // `late` is `Put::Older` with the replica, and `Version(4)`
    let found = shelf.get(&path, Version(4)).is_some();
    let ahead = shelf.get(&path, Version(5)).is_some();
    // `found` is true, and `ahead` is false
    let out = shelf.drop_below(alloc, &path, Version(6))?;
    // `out` is the replica of version 4
    let dropped = shelf.put(alloc, zeros(5)?);
    // `dropped` is `Put::Older` with the replica, and `Version(6)`
    assert!(rt; matches!(first, Put::Kept(None)));
    assert!(rt; matches!(&late, Put::Older(r, Version(4)) if r.version == Version(3)));
    assert!(rt; found);
    assert!(rt; !ahead);
    assert_eq!(rt; out.map(|r| r.version), Some(Version(4)));
    assert!(rt; matches!(&dropped, Put::Older(r, Version(6)) if r.version == Version(5)));
    Ok(())
}

// A file at a version, of so many zeros, by which it is told from others of the version.
fn replica(alloc: Global, path: &Path, version: u64, size: u64) -> Result<Replica<MemHold>, Fail> {
    Ok(Replica {
        path: path.copy(alloc)?,
        version: Version(version),
        size,
        frags: Vec::new(alloc),
        holds: Vec::new(alloc),
    })
}

// What a call is told of replicas, by their sizes and versions.
#[derive(Clone, Copy, Debug, PartialEq)]
enum Told {
    Kept(Option<u64>),
    Older(u64, u64),
    Out(Option<u64>),
    Found(Option<u64>),
}

#[derive(Clone, Copy, Debug)]
enum Call {
    // A version, and how long the file is.
    Put(u64, u64),
    DropBelow(u64),
    Find(u64),
}

fn made(alloc: Global, shelf: &mut Shelf<MemHold>, path: &Path, call: Call) -> Result<Told, Fail> {
    match call {
        Call::Put(version, size) => match shelf.put(alloc, replica(alloc, path, version, size)?) {
            Put::Kept(before) => Ok(Told::Kept(before.map(|r| r.size))),
            Put::Older(back, least) => Ok(Told::Older(back.size, least.0)),
            Put::Want(_) => Err("out of memory".into()),
        },
        Call::DropBelow(version) => {
            let out = shelf.drop_below(alloc, path, Version(version))?;
            Ok(Told::Out(out.map(|r| r.size)))
        }
        Call::Find(front) => {
            let found = shelf.find(path, Version(front)).map(|r| r.size);
            Ok(Told::Found(found))
        }
    }
}

#[test]
fn the_greatest_version_at_the_floor_or_above_it_stands(rt: HostRuntime) -> Result<(), Fail> {
    let alloc = rt.alloc();
    let path = Path::read(alloc, b"/unifyfs/a")?;
    let mut shelf = Shelf::new(alloc)?;
    for (call, told) in [
        (Call::Find(0), Told::Found(None)),
        (Call::Put(3, 10), Told::Kept(None)),
        (Call::Put(2, 11), Told::Older(11, 3)),
        // of two of one version the later one stands
        (Call::Put(3, 12), Told::Kept(Some(10))),
        (Call::Find(3), Told::Found(Some(12))),
        (Call::Find(4), Told::Found(None)),
        (Call::Put(5, 13), Told::Kept(Some(12))),
        // what is at the floor stays
        (Call::DropBelow(5), Told::Out(None)),
        (Call::Find(5), Told::Found(Some(13))),
        (Call::DropBelow(6), Told::Out(Some(13))),
        (Call::Find(0), Told::Found(None)),
        (Call::Put(5, 14), Told::Older(14, 6)),
        // a lower drop leaves the floor
        (Call::DropBelow(2), Told::Out(None)),
        (Call::Put(5, 15), Told::Older(15, 6)),
        (Call::Put(6, 16), Told::Kept(None)),
        // the greater of the floor and of what stands is told
        (Call::Put(9, 17), Told::Kept(Some(16))),
        (Call::DropBelow(7), Told::Out(None)),
        (Call::Put(8, 18), Told::Older(18, 9)),
        (Call::Put(6, 19), Told::Older(19, 9)),
        (Call::Find(7), Told::Found(Some(17))),
    ] {
        let now = made(alloc, &mut shelf, &path, call)?;
        assert_eq!(rt; now, told, "{call:?}");
    }
    Ok(())
}

#[test]
fn what_is_done_on_a_path_leaves_the_others(rt: HostRuntime) -> Result<(), Fail> {
    let alloc = rt.alloc();
    let a = Path::read(alloc, b"/unifyfs/a")?;
    let b = Path::read(alloc, b"/unifyfs/b")?;
    let c = Path::read(alloc, b"/unifyfs/a/c")?;
    let mut shelf = Shelf::new(alloc)?;
    for (path, call, told) in [
        (&a, Call::Put(4, 10), Told::Kept(None)),
        (&b, Call::DropBelow(8), Told::Out(None)),
        (&c, Call::Put(2, 11), Told::Kept(None)),
        (&a, Call::DropBelow(5), Told::Out(Some(10))),
        (&b, Call::Put(7, 12), Told::Older(12, 8)),
        (&c, Call::Put(1, 13), Told::Older(13, 2)),
        (&a, Call::Find(0), Told::Found(None)),
        (&b, Call::Find(0), Told::Found(None)),
        (&c, Call::Find(0), Told::Found(Some(11))),
    ] {
        let now = made(alloc, &mut shelf, path, call)?;
        assert_eq!(rt; now, told, "{call:?}");
    }
    Ok(())
}

// One hold more of the replica that stands on a path, and how many it has then.
fn hold(shelf: &mut Shelf<MemHold>, path: &Path, part: u32) -> Result<usize, Fail> {
    let Some(found) = shelf.find(path, Version(4)) else {
        return Err("no replica stands there".into());
    };
    let piece = PieceId {
        line: LineNo(3),
        part,
    };
    found.holds.push(MemHold::new(piece, 10, None))?;
    Ok(found.holds.len())
}

#[test]
fn what_is_left_behind_a_loan_stands(rt: HostRuntime) -> Result<(), Fail> {
    let alloc = rt.alloc();
    let path = Path::read(alloc, b"/unifyfs/a")?;
    let mut shelf = Shelf::new(alloc)?;
    made(alloc, &mut shelf, &path, Call::Put(4, 10))?;
    for part in 0..2 {
        assert_eq!(rt; hold(&mut shelf, &path, part)?, part as usize + 1);
        let there = shelf.get(&path, Version(4)).map(|r| r.holds.len());
        assert_eq!(rt; there, Some(part as usize + 1));
    }
    Ok(())
}
