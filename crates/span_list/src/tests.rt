ghost use Rattle.std.specs.Prelude.{◌≡◌, ◌<◌};
ghost use Rattle.span_list.specs.Spans.{IsSpan};

use super::*;
use fs_types::{Frag, LONGEST_FILE, LineNo, PieceId};
use std::alloc::Global;
use std::test::Fail;

fn frag(at: u64, len: u64, line: u32, from: u32) -> Frag
    ensures { result ≡ record {
      at = at;
      len = len;
      piece = record { line = line; part = 0 };
      from = from;
    } }
{
    Frag {
        at,
        len,
        piece: PieceId {
            line: LineNo(line),
            part: 0,
        },
        from,
    }
}

// Puts a fragment that may be put.
fn put<S: Spans>(list: &mut S, f: Frag) -> Result<(), Fail> {
    if f.len == 0 || f.len > LONGEST_FILE || f.at > LONGEST_FILE - f.len {
        return Err("a fragment of no file".into());
    }
    if f.len > u64::from(u32::MAX - f.from) {
        return Err("a fragment of no piece".into());
    }
    list.put(f).ok().ok_or("there is memory")?;
    Ok(())
}

// The fragments, as look-ups give them one after another.
fn listed<S: Spans>(alloc: Global, list: &S) -> Result<Vec<Frag>, Fail> {
    let mut all = Vec::new(alloc);
    let mut at = 0;
    for _ in 0..100 {
        let Some(f) = list.next(at) else { break };
        all.push(f)?;
        at = f.at + f.len;
    }
    Ok(all)
}

// Ten bytes from place 20 on, which stand from place 3 of their piece on; and five bytes from place
// 32 on.
fn two(alloc: Global) -> Result<SpanList, Fail> {
    let mut list = SpanList::new(alloc);
    put(&mut list, frag(32, 5, 2, 0))?;
    put(&mut list, frag(20, 10, 1, 3))?;
    Ok(list)
}

#[test]
fn the_example_at_the_head_of_the_crate(rt: HostRuntime) -> Result<(), Fail> {
    let alloc = rt.alloc();
    let piece = PieceId {
        line: LineNo(1),
        part: 0,
    };
    let under = Frag {
        at: 0,
        len: 10,
        piece,
        from: 0,
    };
    let over = Frag {
        at: 4,
        len: 2,
        piece: PieceId {
            line: LineNo(2),
            part: 0,
        },
        from: 0,
    };
    let mut list = SpanList::new(alloc);
    list.put(under).ok().ok_or("there is memory")?;
    list.put(over).ok().ok_or("there is memory")?;
    // 0 to 4 of `under`, 4 to 6 of `over`, 6 to 10 of `under`, from place 6 of its piece on
    let after = list.next(5);
    // the last two bytes go
    list.cut(8);
    assert_eq!(rt; after, Some(over));
    let want = [frag(0, 4, 1, 0), frag(4, 2, 2, 0), frag(6, 2, 1, 6)];
    assert_eq!(rt; listed(alloc, &list)?.as_slice(), want.as_slice());
    let frags = list.into_frags();
    assert_eq!(rt; frags.as_slice(), want.as_slice());
    let again = SpanList::from_frags(frags);
    assert_eq!(rt; again.next(5), Some(over));
    Ok(())
}

#[test]
fn a_put_takes_its_range_from_the_others(rt: HostRuntime) -> Result<(), Fail> {
    let alloc = rt.alloc();
    let first = frag(20, 10, 1, 3);
    let second = frag(32, 5, 2, 0);
    for (name, f, want) in [
        (
            "over the middle of one",
            frag(24, 2, 9, 7),
            [
                frag(20, 4, 1, 3),
                frag(24, 2, 9, 7),
                frag(26, 4, 1, 9),
                second,
            ]
            .as_slice(),
        ),
        (
            "over an end and a begin",
            frag(28, 6, 9, 7),
            &[frag(20, 8, 1, 3), frag(28, 6, 9, 7), frag(34, 3, 2, 2)],
        ),
        (
            "over a whole one and a begin",
            frag(20, 13, 9, 7),
            &[frag(20, 13, 9, 7), frag(33, 4, 2, 1)],
        ),
        ("over all", frag(0, 40, 9, 7), &[frag(0, 40, 9, 7)]),
        (
            "exactly over one",
            frag(20, 10, 9, 7),
            &[frag(20, 10, 9, 7), second],
        ),
        (
            "into the gap",
            frag(30, 2, 9, 7),
            &[first, frag(30, 2, 9, 7), second],
        ),
        (
            "in front",
            frag(18, 2, 9, 7),
            &[frag(18, 2, 9, 7), first, second],
        ),
        (
            "over the first byte",
            frag(18, 3, 9, 7),
            &[frag(18, 3, 9, 7), frag(21, 9, 1, 4), second],
        ),
        (
            "over the last byte",
            frag(36, 9, 9, 7),
            &[first, frag(32, 4, 2, 0), frag(36, 9, 9, 7)],
        ),
        (
            "behind",
            frag(37, 1, 9, 7),
            &[first, second, frag(37, 1, 9, 7)],
        ),
    ] {
        let mut list = two(alloc)?;
        put(&mut list, f)?;
        assert_eq!(rt; listed(alloc, &list)?.as_slice(), want, "{name}");
    }
    Ok(())
}

#[test]
fn a_cut_drops_the_bytes_from_a_place_on(rt: HostRuntime) -> Result<(), Fail> {
    let alloc = rt.alloc();
    let first = frag(20, 10, 1, 3);
    for (size, want) in [
        (21, [frag(20, 1, 1, 3)].as_slice()),
        (30, &[first]),
        (32, &[first]),
        (35, &[first, frag(32, 3, 2, 0)]),
        (37, &[first, frag(32, 5, 2, 0)]),
        (u64::MAX, &[first, frag(32, 5, 2, 0)]),
    ] {
        let mut list = two(alloc)?;
        list.cut(size);
        assert_eq!(rt; listed(alloc, &list)?.as_slice(), want, "at {size}");
    }
    Ok(())
}

#[test]
fn a_cut_to_the_first_begin_leaves_nothing(rt: HostRuntime) -> Result<(), Fail> {
    for size in [0, 20] {
        let mut list = two(rt.alloc())?;
        list.cut(size);
        assert!(rt; list.next(0).is_none(), "at {size}");
    }
    Ok(())
}

#[test]
fn a_look_up_gives_the_first_that_ends_behind(rt: HostRuntime) -> Result<(), Fail> {
    let list = two(rt.alloc())?;
    let first = frag(20, 10, 1, 3);
    let second = frag(32, 5, 2, 0);
    for (at, want) in [
        (0, Some(first)),
        (20, Some(first)),
        (29, Some(first)),
        (30, Some(second)),
        (36, Some(second)),
        (37, None),
        (u64::MAX, None),
    ] {
        assert_eq!(rt; list.next(at), want, "at {at}");
    }
    Ok(())
}

#[test]
fn puts_go_into_the_room_that_was_made(rt: HostRuntime) -> Result<(), Fail> {
    let alloc = rt.alloc();
    let mut list = SpanList::new(alloc);
    assert!(rt; list.next(0).is_none());
    list.reserve(4).ok().ok_or("there is memory")?;
    list.put(frag(0, 9, 1, 0)).unwrap();
    list.put(frag(4, 1, 2, 0)).unwrap();
    let want = [frag(0, 4, 1, 0), frag(4, 1, 2, 0), frag(5, 4, 1, 5)];
    assert_eq!(rt; listed(alloc, &list)?.as_slice(), want.as_slice());
    Ok(())
}

// How many places the random fragments are put in.
const PLACES: u64 = 3_000;

// The line, the part and the place in the part that a byte is from.
type Cell = Option<(u32, u32, u64)>;

// A number below this one, from a linear generator.
fn pick(state: &mut u64, below: u64) -> u64
    requires { 0 < below }
    ensures { result < below }
{
    *state = state
        .wrapping_mul(6_364_136_223_846_793_005)
        .wrapping_add(1_442_695_040_888_963_407);
    (*state >> 33) % below
}

fn random_frag(state: &mut u64, line: u32) -> Frag
    ensures { IsSpan result }
{
    Frag {
        at: pick(state, PLACES - 100),
        len: 1 + pick(state, 100),
        piece: PieceId {
            line: LineNo(line),
            part: line % 3,
        },
        from: pick(state, 1_000) as u32,
    }
}

// Puts the bytes of a fragment, one by one.
fn cover(cells: &mut [Cell], f: Frag)
    requires { IsSpan f }
{
    for i in 0..f.len {
        if let Some(cell) = cells.get_mut((f.at + i) as usize) {
            *cell = Some((f.piece.line.0, f.piece.part, u64::from(f.from) + i));
        }
    }
}

// Drops the bytes from a place on.
fn uncover(cells: &mut [Cell], size: u64) {
    for cell in cells.iter_mut().skip(size as usize) {
        *cell = None;
    }
}

// Whether each place has the byte that a look-up gives there.
fn agrees<S: Spans>(list: &S, cells: &[Cell]) -> bool {
    cells.iter().enumerate().all(|(i, cell)| {
        let at = i as u64;
        match list.next(at) {
            Some(f) if f.at <= at => {
                let place = u64::from(f.from).wrapping_add(at - f.at);
                *cell == Some((f.piece.line.0, f.piece.part, place))
            }
            _ => cell.is_none(),
        }
    })
}

#[test]
fn random_puts_give_what_a_plain_array_gives(rt: HostRuntime) -> Result<(), Fail> {
    let alloc = rt.alloc();
    let mut cells: Vec<Cell> = vec![in alloc; None; PLACES as usize]?;
    let mut list = SpanList::new(alloc);
    let mut state = 1;
    for line in 0..20_000u32 {
        let f = random_frag(&mut state, line);
        list.put(f).ok().ok_or("there is memory")?;
        cover(&mut cells, f);
        if line % 1_000 == 500 {
            let size = pick(&mut state, PLACES);
            list.cut(size);
            uncover(&mut cells, size);
        }
        if line % 400 == 399 || line % 1_000 == 500 {
            assert!(rt; agrees(&list, &cells), "after line {line}");
        }
    }
    Ok(())
}

#[test]
fn a_fragment_has_a_rest_on_each_side_of_a_place(rt: HostRuntime) -> Result<(), Fail> {
    let f = Frag {
        at: 10,
        len: 6,
        piece: PieceId {
            line: LineNo(3),
            part: 0,
        },
        from: 2,
    };
    let before = |len| Some(Frag { len, ..f });
    for (at, rest) in [
        (10, None),
        (11, before(1)),
        (16, before(6)),
        (40, before(6)),
    ] {
        assert_eq!(rt; rest_before(f, at), rest);
    }
    let behind = |at, len, from| Some(Frag { at, len, from, ..f });
    for (at, rest) in [
        (0, behind(10, 6, 2)),
        (10, behind(10, 6, 2)),
        (15, behind(15, 1, 7)),
        (16, None),
    ] {
        assert_eq!(rt; rest_from(f, at), rest);
    }
    Ok(())
}
