//! Pushes that are taken of fragments with holds, and put over others.

use super::*;

fn frag(at: u64, len: u64, line: u32, from: u32) -> Frag {
    Frag {
        at,
        len,
        piece: piece(line),
        from,
    }
}

#[test]
fn a_push_has_all_fragments_and_a_hold_of_each_piece(rt: HostRuntime) -> Result<(), Fail> {
    let alloc = rt.alloc();
    let mut dead = Vec::new(alloc);
    let mut kept = held_of(alloc, &[(20, 10, 1), (24, 2, 2)], &mut dead)?;
    let push = kept.take_push(alloc).ok().ok_or("there is memory")?;
    let want = [frag(20, 4, 1, 0), frag(24, 2, 2, 0), frag(26, 4, 1, 6)];
    assert_eq!(rt; push.frags.as_slice(), want.as_slice());
    let found = lines(alloc, &push.holds)?;
    assert_eq!(rt; found.as_slice(), [1, 2].as_slice());
    assert!(rt; kept.is_empty());
    assert_eq!(rt; kept.piece_count(), 0);
    for line in 1..3 {
        assert!(rt; kept.get(piece(line)).is_none(), "line {line}");
    }
    let rest = kept.take_push(alloc).ok().ok_or("there is memory")?;
    assert!(rt; rest.frags.is_empty());
    assert!(rt; rest.holds.is_empty());
    Ok(())
}

#[test]
fn a_push_that_was_taken_is_put(rt: HostRuntime) -> Result<(), Fail> {
    let alloc = rt.alloc();
    let mut dead = Vec::new(alloc);
    let mut kept = held_of(alloc, &[(20, 10, 1), (24, 2, 2)], &mut dead)?;
    let push = kept.take_push(alloc).ok().ok_or("there is memory")?;
    let mut other: Kept = HeldSpans::new(alloc);
    other
        .put_push(push, &mut dead)
        .ok()
        .ok_or("there is memory")?;
    assert_stand(
        &rt,
        "put again",
        &other,
        &[(20, 1), (23, 1), (24, 2), (25, 2), (26, 1), (29, 1)],
    );
    assert_eq!(rt; line_at(&other, 19), None);
    assert_eq!(rt; line_at(&other, 30), None);
    assert!(rt; dead.is_empty());
    Ok(())
}
