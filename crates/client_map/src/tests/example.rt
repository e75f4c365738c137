//! The example at the head of the crate.

use super::ClientMap;
use fs_types::{Frag, Hold, LineNo, MemHold, Path, PieceId};
use span_list::SpanList;
use std::test::Fail;

#[test]
fn the_example_at_the_head_of_the_crate(rt: HostRuntime) -> Result<(), Fail> {
    let alloc = rt.alloc();
    let path = Path::read(alloc, b"/unifyfs/a")?;
    // parts of at most 8 bytes
    let mut map: ClientMap<MemHold, SpanList> = ClientMap::new(alloc, 8)?;
    let piece = |line, part| PieceId {
        line: LineNo(line),
        part,
    };
    // line 4 writes 12 bytes at place 100: a part of 8 bytes, and one of 4
    let mut holds = Vec::new(alloc);
    holds.push(MemHold::new(piece(4, 0), 8, None))?;
    holds.push(MemHold::new(piece(4, 1), 4, None))?;
    map.add(alloc, &path, 100, 12, holds)
        .ok()
        .ok_or("there is memory")?;
    let end = map.end(&path);
    // 112
    // line 6 writes 5 bytes over the last part, and over the last byte of the first
    let mut holds = Vec::new(alloc);
    holds.push(MemHold::new(piece(6, 0), 5, None))?;
    let dead = map
        .add(alloc, &path, 107, 5, holds)
        .ok()
        .ok_or("there is memory")?;
    // `dead` has the hold of part 1 of line 4
    let held = map
        .hold(&path, piece(6, 0))
        .ok_or("line 6 is pending")?
        .piece();
    // part 0 of line 6; `map.hold(&path, piece(4, 1))` is none
    let covered = map.hold(&path, piece(4, 1)).is_none();
    let next = map.next(&path, 100);
    // 7 bytes of part 0 of line 4, at place 100
    let push = map.take_all(&path);
    // two fragments and two holds; `map.has(&path)` is false, and `map.end(&path)` is 0
    assert_eq!(rt; end, 112);
    assert_eq!(rt; dead.len(), 1);
    assert_eq!(rt; dead[0].piece(), piece(4, 1));
    assert_eq!(rt; held, piece(6, 0));
    assert!(rt; covered);
    let first = Frag {
        at: 100,
        len: 7,
        piece: piece(4, 0),
        from: 0,
    };
    assert_eq!(rt; next, Some(first));
    assert_eq!(rt; push.frags.len(), 2);
    assert_eq!(rt; push.holds.len(), 2);
    assert!(rt; !map.has(&path));
    assert_eq!(rt; map.end(&path), 0);
    Ok(())
}
