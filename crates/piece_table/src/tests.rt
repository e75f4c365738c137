ghost use Rattle.std.specs.Prelude.{◌≡◌, true, IfOk};
ghost use Rattle.piece_table.specs.HeldSpans.{AreHeld, held};

mod pushes;
mod random;
mod taken;

use super::*;
use fs_types::{Frag, Hold, LONGEST_FILE, LineNo, MemHold, PieceId};
use span_list::SpanList;
use std::alloc::Global;
use std::process::Abort;
use std::test::Fail;

type Kept = HeldSpans<MemHold, SpanList>;

fn piece(line: u32) -> PieceId
    ensures { result ≡ record { line = line; part = 0 } }
{
    PieceId {
        line: LineNo(line),
        part: 0,
    }
}

// Puts the whole of a new piece.
fn put(kept: &mut Kept, at: u64, len: u32, line: u32, dead: &mut Vec<MemHold>) -> Result<(), Fail>
    requires { AreHeld (λ _. true) (λ h. h.piece) (λ h. h.bytes) (held kept.old) }
    ensures { AreHeld (λ _. true) (λ h. h.piece) (λ h. h.bytes) (held kept.new) }
{
    let piece = piece(line);
    if len == 0 || at > LONGEST_FILE - u64::from(len) {
        return Err("a fragment of no file".into());
    }
    if kept.get(piece).is_some() {
        return Err("the piece is there".into());
    }
    let f = Frag {
        at,
        len: u64::from(len),
        piece,
        from: 0,
    };
    match kept.put(f, MemHold::new(piece, len, None), dead) {
        Ok(()) => Ok(()),
        Err(_) => Err("there is memory".into()),
    }
}

// What puts of new pieces give, each as the place, the length and the line. The holds that come out
// go to `dead`.
fn held_of(alloc: Global, puts: &[(u64, u32, u32)], dead: &mut Vec<MemHold>) -> Result<Kept, Fail>
    ensures { IfOk result (λ kept.
        AreHeld (λ _. true) (λ h. h.piece) (λ h. h.bytes) (held kept)) }
{
    let mut kept = HeldSpans::new(alloc);
    for (at, len, line) in puts {
        put(&mut kept, *at, *len, *line, dead)?;
    }
    Ok(kept)
}

// The lines of which there are holds, in order.
fn lines(alloc: Global, holds: &[MemHold]) -> Result<Vec<u32>, Fail> {
    let mut all = Vec::new(alloc);
    for h in holds {
        all.push(h.piece().line.0)?;
    }
    all.sort_unstable();
    Ok(all)
}

// The line that stands at a place.
fn line_at(held: &Kept, at: u64) -> Option<u32> {
    let f = held.next(at)?;
    if f.at > at {
        return None;
    }
    Some(f.piece.line.0)
}

// The example at the head of the crate.
#[test]
fn a_hold_comes_out_of_what_is_put_over(rt: HostRuntime) -> Result<(), Fail> {
    let alloc = rt.alloc();
    let mut kept: HeldSpans<MemHold, SpanList> = HeldSpans::new(alloc);
    let mut dead = Vec::new(alloc);
    let first = PieceId {
        line: LineNo(3),
        part: 0,
    };
    let second = PieceId {
        line: LineNo(4),
        part: 0,
    };
    let under = Frag {
        at: 0,
        len: 10,
        piece: first,
        from: 0,
    };
    let over = Frag {
        at: 0,
        len: 12,
        piece: second,
        from: 0,
    };
    kept.put(under, MemHold::new(first, 10, None), &mut dead)
        .ok()
        .ok_or("there is memory")?;
    kept.put(over, MemHold::new(second, 12, None), &mut dead)
        .ok()
        .ok_or("there is memory")?;
    assert_eq!(rt; lines(alloc, &dead)?.as_slice(), [3].as_slice());
    kept.cut(5, &mut dead).ok().ok_or("there is memory")?;
    assert_eq!(rt; dead.len(), 1);
    assert_eq!(rt; kept.next(0), Some(Frag { len: 5, ..over }));
    assert!(rt; kept.get(second).is_some());
    assert!(rt; kept.get(first).is_none());
    Ok(())
}

// At each of these places stands this line, and its piece is held.
fn assert_stand(rt: &impl Abort, name: &str, kept: &Kept, marks: &[(u64, u32)]) {
    for (at, line) in marks {
        assert_eq!(rt; line_at(kept, *at), Some(*line), "{name}, at {at}");
        assert!(rt; kept.get(piece(*line)).is_some(), "{name}, at {at}");
    }
}

#[test]
fn a_hold_comes_out_with_the_last_byte_of_its_piece(rt: HostRuntime) -> Result<(), Fail> {
    let alloc = rt.alloc();
    for (name, puts, marks, want) in [
        (
            "nothing is left of it",
            [(20, 10, 1), (20, 10, 2)].as_slice(),
            [(20, 2), (29, 2)].as_slice(),
            [1].as_slice(),
        ),
        (
            "both halves are left",
            &[(20, 10, 1), (24, 2, 2)],
            &[(20, 1), (23, 1), (24, 2), (25, 2), (26, 1), (29, 1)],
            &[],
        ),
        (
            "its left half is left",
            &[(20, 10, 1), (24, 2, 2), (26, 4, 3)],
            &[(20, 1), (23, 1), (26, 3)],
            &[],
        ),
        (
            "its right half is left",
            &[(20, 10, 1), (24, 2, 2), (20, 4, 3)],
            &[(23, 3), (26, 1), (29, 1)],
            &[],
        ),
        (
            "its halves go one after the other",
            &[(20, 10, 1), (24, 2, 2), (20, 4, 3), (26, 4, 4)],
            &[(20, 3), (24, 2), (26, 4)],
            &[1],
        ),
        (
            "its halves go at once, and what stood between",
            &[(20, 10, 1), (24, 2, 2), (20, 10, 3)],
            &[(20, 3), (24, 3), (29, 3)],
            &[1, 2],
        ),
        (
            "one put takes the last bytes of two",
            &[(0, 4, 1), (4, 4, 2), (0, 8, 3)],
            &[(0, 3), (7, 3)],
            &[1, 2],
        ),
        (
            "its first byte is left",
            &[(20, 10, 1), (21, 9, 2)],
            &[(20, 1), (21, 2)],
            &[],
        ),
        (
            "its last byte is left",
            &[(20, 10, 1), (20, 9, 2)],
            &[(28, 2), (29, 1)],
            &[],
        ),
    ] {
        let mut dead = Vec::new(alloc);
        let kept = held_of(alloc, puts, &mut dead)?;
        let found = lines(alloc, &dead)?;
        assert_eq!(rt; found.as_slice(), want, "{name}");
        assert_stand(&rt, name, &kept, marks);
        for line in want {
            assert!(rt; kept.get(piece(*line)).is_none(), "{name}");
        }
    }
    Ok(())
}

#[test]
fn all_holds_come_out_of_a_list_that_is_cleared(rt: HostRuntime) -> Result<(), Fail> {
    let alloc = rt.alloc();
    let mut dead = Vec::new(alloc);
    let mut kept = held_of(alloc, &[(0, 10, 1), (4, 2, 2), (30, 1, 3)], &mut dead)?;
    assert!(rt; !kept.is_empty());
    kept.clear(&mut dead).ok().ok_or("there is memory")?;
    let found = lines(alloc, &dead)?;
    assert_eq!(rt; found.as_slice(), [1, 2, 3].as_slice());
    assert!(rt; kept.is_empty());
    assert_eq!(rt; kept.next(0), None);
    for line in 1..4 {
        assert!(rt; kept.get(piece(line)).is_none());
    }
    Ok(())
}

// The example of a table at the head of the crate.
#[test]
fn a_hold_comes_out_with_the_last_fragment_of_its_piece(rt: HostRuntime) -> Result<(), Fail> {
    let alloc = rt.alloc();
    let mut pieces = PieceTable::new(alloc);
    let piece = PieceId {
        line: LineNo(3),
        part: 0,
    };
    pieces
        .enter(MemHold::new(piece, 10, None))
        .ok()
        .ok_or("there is memory")?;
    pieces.more(piece);
    assert!(rt; pieces.less(piece).is_none(), "one is left");
    assert!(rt; pieces.get(piece).is_some(), "one is left");
    let dead = pieces.less(piece).ok_or("it was the last")?;
    assert_eq!(rt; dead.piece(), piece);
    assert!(rt; pieces.get(piece).is_none(), "none is left");
    Ok(())
}

#[test]
fn pieces_are_entered_into_the_room_that_was_made(rt: HostRuntime) -> Result<(), Fail> {
    let alloc = rt.alloc();
    let mut pieces = PieceTable::new(alloc);
    pieces.reserve(2).ok().ok_or("there is memory")?;
    for line in [1, 2] {
        if pieces.get(piece(line)).is_some() {
            return Err("the piece is there".into());
        }
        pieces
            .enter(MemHold::new(piece(line), 5, None))
            .ok()
            .ok_or("there is memory")?;
    }
    assert_eq!(rt; pieces.len(), 2);
    Ok(())
}

#[test]
fn a_cut_drops_the_holds_of_what_lies_behind_it(rt: HostRuntime) -> Result<(), Fail> {
    let alloc = rt.alloc();
    for (size, want) in [
        (0, [1, 2, 3].as_slice()),
        (4, &[2, 3]),
        (5, &[3]),
        (30, &[3]),
        (31, &[]),
    ] {
        let mut dead = Vec::new(alloc);
        let mut kept = held_of(alloc, &[(0, 10, 1), (4, 6, 2), (30, 1, 3)], &mut dead)?;
        kept.cut(size, &mut dead).ok().ok_or("there is memory")?;
        let found = lines(alloc, &dead)?;
        assert_eq!(rt; found.as_slice(), want, "at {size}");
        assert_eq!(rt; kept.piece_count(), 3 - want.len(), "at {size}");
        assert_eq!(rt; line_at(&kept, size), None, "at {size}");
    }
    Ok(())
}

#[test]
fn a_hold_that_is_lent_is_changed(rt: HostRuntime) -> Result<(), Fail> {
    let alloc = rt.alloc();
    let mut dead = Vec::new(alloc);
    let mut kept: Kept = HeldSpans::new(alloc);
    let p = piece(1);
    let f = Frag {
        at: 0,
        len: 5,
        piece: p,
        from: 0,
    };
    kept.put(f, MemHold::new(p, 5, Some(3)), &mut dead)
        .ok()
        .ok_or("there is memory")?;
    let hold = kept.hold_of(p).ok_or("the piece is there")?;
    let pin = hold.pin(1).ok().ok_or("there is room")?;
    assert_eq!(rt; pin.piece(), p);
    let hold = kept.hold_of(p).ok_or("the piece is there")?;
    assert!(rt; hold.pin(1).is_err(), "two were taken of its room");
    assert!(rt; hold.pin(0).is_ok(), "one is left");
    assert!(rt; kept.hold_of(piece(2)).is_none());
    Ok(())
}

#[test]
fn a_put_goes_into_the_room_that_was_made(rt: HostRuntime) -> Result<(), Fail> {
    let alloc = rt.alloc();
    let mut dead = Vec::new(alloc);
    let mut kept: Kept = HeldSpans::new(alloc);
    let p = piece(1);
    let f = Frag {
        at: 0,
        len: 5,
        piece: p,
        from: 0,
    };
    kept.reserve(1).ok().ok_or("there is memory")?;
    kept.put(f, MemHold::new(p, 5, None), &mut dead).unwrap();
    assert_eq!(rt; kept.next(0), Some(f));
    assert_eq!(rt; kept.piece_count(), 1);
    Ok(())
}
