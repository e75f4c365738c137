ghost use Rattle.std.specs.Prelude.{◌≡◌, true, All, IfOk, None, OnOk};
ghost use Rattle.fs_types.specs.Fragments.{held_pieces};
ghost use Rattle.client_map.specs.Calls.{AllHaveHolds, IsAsBefore};
ghost use Rattle.client_map.specs.Kept.{pending_in};
ghost use Rattle.client_map.specs.Writes.{pieces_of};

mod example;
mod loans;
mod random;

use super::*;
use fs_types::{Frag, Hold, LONGEST_FILE, LineNo, MemHold, Path, PieceId, Push};
use span_list::SpanList;
use std::alloc::Global;
use std::process::Abort;
use std::test::Fail;

type Map = ClientMap<MemHold, SpanList>;

// How many bytes a part has at most.
const CHUNK: u64 = 8;

fn piece(line: u32, part: u32) -> PieceId
    ensures { result ≡ record { line = line; part = part } }
{
    PieceId {
        line: LineNo(line),
        part,
    }
}

// A map in which nothing is pending, for parts of 8 bytes.
fn fresh(alloc: Global) -> Result<Map, Fail>
    ensures chunk { IfOk result (λ map. map.chunk ≡ 8) }
    ensures holds { IfOk result (AllHaveHolds (λ _. true) (λ h. h.piece) (λ h. h.bytes)) }
{
    Ok(ClientMap::new(alloc, 8)?)
}

// The holds of the parts of a line of so many bytes, each of so much room.
fn holds_of(
    alloc: Global,
    line: u32,
    off: u64,
    len: u64,
    room: Option<u64>,
) -> Result<Vec<MemHold>, Fail>
    ensures { IfOk result (λ holds. held_pieces (λ h. h.piece) (λ h. h.bytes) holds.items
        ≡ pieces_of 8 (record { line = line; off = off; len = len })) }
{
    if len > 1_000 {
        return Err("a long write".into());
    }
    let mut holds = Vec::new(alloc);
    for part in 0..len.div_ceil(CHUNK) as u32 {
        let left = len - u64::from(part) * CHUNK;
        holds.push(MemHold::new(piece(line, part), left.min(CHUNK) as u32, room))?;
    }
    Ok(holds)
}

// Fails where a piece is pending on a path.
fn require_new(map: &mut Map, path: &Path, id: PieceId) -> Result<(), Fail>
    ensures same { OnOk result (IsAsBefore map.old map.new) }
    ensures new { OnOk result ((pending_in map.old path.now).hold_of id ≡ None) }
{
    if let Some(_) = map.hold_of(path, id) {
        return Err("the piece is pending".into());
    }
    Ok(())
}

// Fails where one of the pieces of these holds is.
fn require_all_new(map: &mut Map, path: &Path, holds: &[MemHold]) -> Result<(), Fail>
    ensures same { OnOk result (IsAsBefore map.old map.new) }
    ensures new { OnOk result
        (All (λ h. (pending_in map.old path.now).hold_of h.piece ≡ None) holds.now) }
{
    for h in holds {
        require_new(map, path, h.piece())?;
    }
    Ok(())
}

// Adds a line to a path, where its pieces are new. Gives the holds that come out.
fn add(
    alloc: Global,
    map: &mut Map,
    path: &Path,
    line: u32,
    off: u64,
    len: u64,
    room: Option<u64>,
) -> Result<Vec<MemHold>, Fail>
    requires chunk { map.old.chunk ≡ 8 }
    requires holds { AllHaveHolds (λ _. true) (λ h. h.piece) (λ h. h.bytes) map.old }
    ensures chunk { OnOk result (map.new.chunk ≡ 8) }
    ensures holds { OnOk result
        (AllHaveHolds (λ _. true) (λ h. h.piece) (λ h. h.bytes) map.new) }
{
    if len == 0 || off > LONGEST_FILE || len > LONGEST_FILE - off {
        return Err("a write of no file".into());
    }
    let holds = holds_of(alloc, line, off, len, room)?;
    require_all_new(map, path, &holds)?;
    match map.add(alloc, path, off, len, holds) {
        Ok(dead) => Ok(dead),
        Err(_) => Err("there is memory".into()),
    }
}

// Takes all that is pending on a path.
fn take(map: &mut Map, path: &Path) -> Push<MemHold>
    requires chunk { map.old.chunk ≡ 8 }
    requires holds { AllHaveHolds (λ _. true) (λ h. h.piece) (λ h. h.bytes) map.old }
    ensures chunk { map.new.chunk ≡ 8 }
    ensures holds { AllHaveHolds (λ _. true) (λ h. h.piece) (λ h. h.bytes) map.new }
{
    map.take_all(path)
}

// A fragment of a part.
fn frag(at: u64, len: u64, line: u32, part: u32, from: u32) -> Frag {
    Frag {
        at,
        len,
        piece: piece(line, part),
        from,
    }
}

// The fragments that are pending on a path, as look-ups give them one after another.
fn pending(alloc: Global, map: &Map, path: &Path) -> Result<Vec<Frag>, Fail> {
    let mut all = Vec::new(alloc);
    let mut at = 0;
    for _ in 0..100 {
        let Some(f) = map.next(path, at) else { break };
        all.push(f)?;
        at = f.at + f.len;
    }
    Ok(all)
}

// The lines and parts of the pieces of holds, in order.
fn pieces(alloc: Global, holds: &[MemHold]) -> Result<Vec<(u32, u32)>, Fail> {
    let mut all = Vec::new(alloc);
    for h in holds {
        let id = h.piece();
        all.push((id.line.0, id.part))?;
    }
    all.sort_unstable();
    Ok(all)
}

// How many bytes the piece of a hold has, where the piece is pending on a path.
fn held_bytes(map: &Map, path: &Path, id: PieceId) -> Option<u32> {
    let hold = map.hold(path, id)?;
    Some(hold.bytes())
}

// Line 4 wrote 20 bytes at place 100: two parts of 8 bytes and one of 4. Once line 6 wrote over
// them, all end here. It gives these holds, and leaves these fragments.
#[test]
fn a_later_write_stands_over_an_earlier_one(rt: HostRuntime) -> Result<(), Fail> {
    let alloc = rt.alloc();
    let path = Path::read(alloc, b"/unifyfs/a")?;
    let first = frag(100, 8, 4, 0, 0);
    let second = frag(108, 8, 4, 1, 0);
    let third = frag(116, 4, 4, 2, 0);
    for (name, off, len, end, dead, wanted) in [
        (
            "over a whole part",
            108,
            8,
            120,
            [(4, 1)].as_slice(),
            [first, frag(108, 8, 6, 0, 0), third].as_slice(),
        ),
        (
            "within a part",
            102,
            3,
            120,
            &[],
            &[
                frag(100, 2, 4, 0, 0),
                frag(102, 3, 6, 0, 0),
                frag(105, 3, 4, 0, 5),
                second,
                third,
            ],
        ),
        (
            "over two parts and a byte of the third",
            100,
            17,
            120,
            &[(4, 0), (4, 1)],
            &[
                frag(100, 8, 6, 0, 0),
                frag(108, 8, 6, 1, 0),
                frag(116, 1, 6, 2, 0),
                frag(117, 3, 4, 2, 1),
            ],
        ),
        (
            "over all",
            96,
            24,
            120,
            &[(4, 0), (4, 1), (4, 2)],
            &[
                frag(96, 8, 6, 0, 0),
                frag(104, 8, 6, 1, 0),
                frag(112, 8, 6, 2, 0),
            ],
        ),
        (
            "over a last and a first byte",
            107,
            2,
            120,
            &[],
            &[
                frag(100, 7, 4, 0, 0),
                frag(107, 2, 6, 0, 0),
                frag(109, 7, 4, 1, 1),
                third,
            ],
        ),
        (
            "behind",
            120,
            1,
            121,
            &[],
            &[first, second, third, frag(120, 1, 6, 0, 0)],
        ),
    ] {
        let mut map = fresh(alloc)?;
        let none = add(alloc, &mut map, &path, 4, 100, 20, None)?;
        assert!(rt; none.is_empty(), "{name}");
        let found = add(alloc, &mut map, &path, 6, off, len, None)?;
        assert_eq!(rt; pieces(alloc, &found)?.as_slice(), dead, "{name}");
        assert_eq!(rt; pending(alloc, &map, &path)?.as_slice(), wanted, "{name}");
        assert_eq!(rt; map.end(&path), end, "{name}");
    }
    Ok(())
}

#[test]
fn a_path_keeps_what_is_pending_while_another_is_taken(rt: HostRuntime) -> Result<(), Fail> {
    let alloc = rt.alloc();
    let a = Path::read(alloc, b"/unifyfs/a")?;
    let b = Path::read(alloc, b"/unifyfs/b")?;
    let mut map = fresh(alloc)?;
    add(alloc, &mut map, &a, 4, 0, 12, None)?;
    add(alloc, &mut map, &b, 5, 4, 3, None)?;
    let dead = add(alloc, &mut map, &a, 6, 8, 8, None)?;
    assert_eq!(rt; pieces(alloc, &dead)?.as_slice(), [(4, 1)].as_slice());
    for (path, end) in [(&a, 16), (&b, 7)] {
        assert!(rt; map.has(path));
        assert_eq!(rt; map.end(path), end);
    }
    for (path, id, bytes) in [
        (&a, piece(4, 0), Some(8)),
        (&a, piece(4, 1), None),
        (&a, piece(5, 0), None),
        (&b, piece(5, 0), Some(3)),
    ] {
        assert_eq!(rt; held_bytes(&map, path, id), bytes);
    }
    let push = take(&mut map, &a);
    let wanted = [frag(0, 8, 4, 0, 0), frag(8, 8, 6, 0, 0)];
    assert_eq!(rt; push.frags.as_slice(), wanted.as_slice());
    let held = [(4, 0), (6, 0)];
    assert_eq!(rt; pieces(alloc, &push.holds)?.as_slice(), held.as_slice());
    assert!(rt; !map.has(&a));
    assert_eq!(rt; map.next(&a, 0), None);
    assert_eq!(rt; map.end(&a), 0);
    assert_eq!(rt; held_bytes(&map, &a, piece(4, 0)), None);
    assert!(rt; map.hold_of(&a, piece(4, 0)).is_none());
    assert!(rt; map.has(&b));
    assert_eq!(rt; map.end(&b), 7);
    assert_eq!(rt; map.next(&b, 0), Some(frag(4, 3, 5, 0, 0)));
    Ok(())
}
