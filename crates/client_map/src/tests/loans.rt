//! Takes of paths where nothing is pending, writes after a take, and a hold that is changed through
//! its loan.

ghost use Rattle.std.specs.Prelude.{◌≡◌, true, OnOk};
ghost use Rattle.client_map.specs.Calls.{AllHaveHolds};

use super::*;

#[test]
fn a_take_of_nothing_is_an_empty_push(rt: HostRuntime) -> Result<(), Fail> {
    let alloc = rt.alloc();
    let a = Path::read(alloc, b"/unifyfs/a")?;
    let b = Path::read(alloc, b"/unifyfs/b")?;
    let mut map = fresh(alloc)?;
    add(alloc, &mut map, &a, 4, 8, 3, None)?;
    // nothing was ever pending on one, and all was taken of the other
    take(&mut map, &a);
    for path in [&b, &a] {
        let push = take(&mut map, path);
        assert!(rt; push.frags.is_empty());
        assert!(rt; push.holds.is_empty());
        assert!(rt; !map.has(path));
    }
    Ok(())
}

#[test]
fn writes_after_a_take_are_pending_alone(rt: HostRuntime) -> Result<(), Fail> {
    let alloc = rt.alloc();
    let path = Path::read(alloc, b"/unifyfs/a")?;
    let mut map = fresh(alloc)?;
    // the write of each round, where it ends, and what is taken then
    for (line, off, len, end, wanted) in [
        (
            4,
            0,
            16,
            16,
            [frag(0, 8, 4, 0, 0), frag(8, 8, 4, 1, 0)].as_slice(),
        ),
        (5, 4, 2, 6, &[frag(4, 2, 5, 0, 0)]),
        (6, 4, 9, 13, &[frag(4, 8, 6, 0, 0), frag(12, 1, 6, 1, 0)]),
    ] {
        let dead = add(alloc, &mut map, &path, line, off, len, None)?;
        assert!(rt; dead.is_empty(), "line {line}");
        assert_eq!(rt; map.end(&path), end, "line {line}");
        let push = take(&mut map, &path);
        assert_eq!(rt; push.frags.as_slice(), wanted, "line {line}");
        assert_eq!(rt; push.holds.len(), wanted.len(), "line {line}");
        assert_eq!(rt; map.end(&path), 0, "line {line}");
    }
    Ok(())
}

// Whether a piece could be pinned through the loan of its hold.
fn pin(map: &mut Map, path: &Path, id: PieceId) -> Result<bool, Fail>
    requires chunk { map.old.chunk ≡ 8 }
    requires holds { AllHaveHolds (λ _. true) (λ h. h.piece) (λ h. h.bytes) map.old }
    ensures chunk { OnOk result (map.new.chunk ≡ 8) }
    ensures holds { OnOk result
        (AllHaveHolds (λ _. true) (λ h. h.piece) (λ h. h.bytes) map.new) }
{
    let Some(hold) = map.hold_of(path, id) else {
        return Err("the piece isn't pending".into());
    };
    Ok(hold.pin(0).is_ok())
}

#[test]
fn a_pin_through_the_loan_takes_from_the_room(rt: HostRuntime) -> Result<(), Fail> {
    let alloc = rt.alloc();
    let path = Path::read(alloc, b"/unifyfs/a")?;
    let mut map = fresh(alloc)?;
    // each part has room for two pins
    add(alloc, &mut map, &path, 4, 0, 12, Some(2))?;
    for (part, pinned) in [(0, true), (0, true), (0, false), (1, true)] {
        assert_eq!(rt; pin(&mut map, &path, piece(4, part))?, pinned);
    }
    // a later write over the first part leaves the second one's room as it was
    let dead = add(alloc, &mut map, &path, 5, 0, 8, None)?;
    assert_eq!(rt; pieces(alloc, &dead)?.as_slice(), [(4, 0)].as_slice());
    for pinned in [true, false] {
        assert_eq!(rt; pin(&mut map, &path, piece(4, 1))?, pinned);
    }
    assert!(rt; map.hold_of(&path, piece(4, 0)).is_none());
    Ok(())
}
