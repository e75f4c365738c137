ghost use Rattle.std.specs.Prelude.{◌≤◌, ◌+◌, length, IsTrue};

use super::*;
use std::sync::Wait;
use std::test::Fail;

#[test]
fn paths_are_read_by_their_grammar(rt: HostRuntime) -> Result<(), Fail> {
    let alloc = rt.alloc();
    let good = [
        b"/unifyfs/a".as_slice(),
        b"/unifyfs/a.b/C_9-/...".as_slice(),
    ];
    for text in good {
        let path = Path::read(alloc, text)?;
        assert_eq!(rt; path.copy(alloc)?.as_bytes(), text);
    }
    let longest = [b'a'; 246];
    let mut text = Vec::from_slice(alloc, b"/unifyfs/")?;
    text.extend_from_slice(&longest)?;
    assert_eq!(rt; Path::read(alloc, &text)?.as_bytes().len(), 255);
    text.push(b'a')?;
    assert_eq!(rt; Path::read(alloc, &text).err(), Some(PathFault::BadPath));
    Ok(())
}

#[test]
fn texts_outside_the_grammar_are_no_paths(rt: HostRuntime) {
    let alloc = rt.alloc();
    let bad = [
        b"".as_slice(),
        b"/unifyfs/".as_slice(),
        b"/unifyfs//a".as_slice(),
        b"/unifyfs/a/".as_slice(),
        b"/unifyfs/a/./b".as_slice(),
        b"/unifyfs/a/../b".as_slice(),
        b"/unifyfs/a b".as_slice(),
        b"/unifyf/a".as_slice(),
        b"unifyfs/a".as_slice(),
    ];
    for text in bad {
        assert_eq!(rt; Path::read(alloc, text).err(), Some(PathFault::BadPath));
    }
}

#[test]
fn names_are_read_by_their_grammar(rt: HostRuntime) -> Result<(), Fail> {
    let alloc = rt.alloc();
    let good = [
        b"a".as_slice(),
        b"in.txt".as_slice(),
        b"../dir//x-y_Z9".as_slice(),
        &[b'/'; 255],
    ];
    for text in good {
        let name = Name::read(alloc, text)?;
        assert_eq!(rt; name.copy(alloc)?.as_bytes(), text);
    }
    let bad = [
        b"".as_slice(),
        b"-in".as_slice(),
        b"a b".as_slice(),
        b"a:b".as_slice(),
        &[b'a'; 256],
    ];
    for text in bad {
        assert_eq!(rt; Name::read(alloc, text).err(), Some(NameFault::BadName));
    }
    Ok(())
}

#[test]
fn answers_are_found_by_their_lines(rt: HostRuntime) -> Result<(), Fail> {
    let mut answers = Answers::new(rt.alloc(), 4)?;
    assert_eq!(rt; answers.lines(), 4);
    answers.set(LineNo(4), Answer::BadF);
    answers.set(LineNo(2), Answer::BadF);
    answers.set(LineNo(2), Answer::Wrote { slots: 7 });
    assert!(rt; answers.get(LineNo(0)).is_none());
    assert!(rt; answers.get(LineNo(1)).is_none());
    assert!(rt; matches!(answers.get(LineNo(2)), Some(Answer::Wrote { slots: 7 })));
    assert!(rt; answers.get(LineNo(3)).is_none());
    assert!(rt; matches!(answers.get(LineNo(4)), Some(Answer::BadF)));
    assert!(rt; answers.get(LineNo(5)).is_none());
    Ok(())
}

#[test]
fn short_bytes_hold_up_to_32(rt: HostRuntime) {
    let texts = [b"".as_slice(), b"abc".as_slice(), &[7; HEX_LIMIT]];
    for text in texts {
        assert_eq!(rt; ShortBytes::new(text).as_bytes(), text);
    }
}

// The part and the bytes of a pin, through the bound.
fn pinned<H: Hold + Drop>(hold: &mut H, asked: u64) -> Result<(u32, u32), PinNo>
    requires { IsTrue (H.is_ready hold.old) }
    ensures { IsTrue (H.is_ready hold.new) }
{
    let pin = hold.pin(asked)?;
    Ok((pin.piece().part, pin.bytes()))
}

#[test]
fn pins_take_their_room(rt: HostRuntime) {
    let piece = PieceId {
        line: LineNo(3),
        part: 1,
    };
    let asks = [
        (Some(2), 2, Err(PinNo::NoRoom)),
        (Some(3), 2, Ok((1, 64))),
        (Some(0), 0, Err(PinNo::NoRoom)),
        (None, u64::MAX, Ok((1, 64))),
    ];
    for (room, asked, answer) in asks {
        let mut hold = MemHold::new(piece, 64, room);
        assert_eq!(rt; pinned(&mut hold, asked), answer);
    }
    let mut hold = MemHold::new(piece, 64, Some(7));
    assert_eq!(rt; pinned(&mut hold, 2), Ok((1, 64)));
    assert_eq!(rt; pinned(&mut hold, 4), Err(PinNo::NoRoom));
    assert_eq!(rt; pinned(&mut hold, 3), Ok((1, 64)));
    assert_eq!(rt; pinned(&mut hold, 0), Err(PinNo::NoRoom));
}

// A read through the bound.
fn read_from<P: PieceReader, R: Wait>(
    rt: &R,
    reader: &mut P,
    from: u32,
    out: &mut [u8],
) -> Result<(), DevFault>
    requires { from + length out.old ≤ length (P.content reader.old) }
{
    reader.read(rt, from, out)
}

#[test]
fn a_slice_is_read_from_any_place(rt: HostRuntime) {
    let reads = [(0, b"hel".as_slice()), (2, b"llo"), (5, b"")];
    for (from, bytes) in reads {
        let mut reader = SliceReader::new(b"hello", Rank(2));
        let mut out = [0; 3];
        let part = &mut out[..bytes.len()];
        assert_eq!(rt; read_from(&rt, &mut reader, from, part), Ok(()));
        assert_eq!(rt; &*part, bytes);
    }
}

#[test]
fn staged_bytes_are_given_back(rt: HostRuntime) -> Result<(), Fail> {
    let out = StagedOut {
        line: LineNo(4),
        bytes: ByteList::of(Vec::from_slice(rt.alloc(), b"out")?),
    };
    assert_eq!(rt; out.bytes.as_slice(), b"out".as_slice());
    assert_eq!(rt; out.bytes.into_vec().as_slice(), b"out".as_slice());
    Ok(())
}

#[test]
fn each_status_has_its_code(rt: HostRuntime) {
    let statuses = [
        (Status::Done, 0),
        (Status::Usage, 1),
        (Status::Refused, 2),
        (Status::ReadFault, 3),
        (Status::WriteFault, 4),
        (Status::Memory, 6),
    ];
    for (status, code) in statuses {
        assert_eq!(rt; status.code(), code);
    }
}
