use super::*;
use fs_script::{Script, read_script};
use fs_types::{Answer, Answers, Attr, LineNo, Path, Version, Want};
use std::alloc::Global;
use std::test::Fail;

const FIVE_LINES: &[u8] = b"unifyfs 1 servers=1 clients=1 chunk=64 shmem=4 spill=0
0 create /unifyfs/a
0 write /unifyfs/a 0 t:hello
0 sync /unifyfs/a
0 read /unifyfs/a 1 3
";

// A write that ends with the longest file, and one that would end past it.
const LONGEST: &[u8] = b"unifyfs 1 servers=1 clients=1 chunk=64 shmem=4 spill=0
0 create /unifyfs/a
0 write /unifyfs/a 1099511627775 t:x
0 write /unifyfs/a 1099511627776 t:y
0 sync /unifyfs/a
";

// A write into the last two bytes of a block and the first three of the next, and then one over
// the end of the first.
const TWO_BLOCKS: &[u8] = b"unifyfs 1 servers=1 clients=1 chunk=64 shmem=4 spill=0
0 create /unifyfs/a
0 write /unifyfs/a 4094 t:abcde
0 sync /unifyfs/a
0 write /unifyfs/a 4095 t:z
0 sync /unifyfs/a
0 create /unifyfs/a
0 create /unifyfs/b
";

// Client 1 opens what client 0 made, and after the barrier both go on.
const TWO_PHASES: &[u8] = b"unifyfs 1 servers=1 clients=2 chunk=64 shmem=4 spill=0
0 create /unifyfs/a
0 write /unifyfs/a 0 t:a
0 sync /unifyfs/a
1 open /unifyfs/a
barrier
1 read /unifyfs/a 0 1
0 write /unifyfs/a 0 t:b
0 sync /unifyfs/a
1 read /unifyfs/a 0 1
";

// The first byte of a pattern is its seed modulo 256: a seven, a zero over it, and a zero far
// behind.
const ZEROS: &[u8] = b"unifyfs 1 servers=1 clients=1 chunk=64 shmem=4 spill=0
0 create /unifyfs/a
0 write /unifyfs/a 5000 p:7:1
0 sync /unifyfs/a
0 write /unifyfs/a 5000 p:256:1
0 sync /unifyfs/a
0 write /unifyfs/a 9000 p:0:1
0 sync /unifyfs/a
";

// A write over the end of a block that a cut takes in, then shorter and longer cuts.
const CUTS: &[u8] = b"unifyfs 1 servers=1 clients=1 chunk=64 shmem=4 spill=0
0 create /unifyfs/a
0 write /unifyfs/a 4094 t:abcde
0 trunc /unifyfs/a 4098
0 trunc /unifyfs/a 4096
0 trunc /unifyfs/a 10000
0 trunc /unifyfs/a 1099511627776
0 trunc /unifyfs/a 4095
0 trunc /unifyfs/a 4094
0 trunc /unifyfs/a 0
";

// A file that is taken away with a write pending, and made again.
const TWO_LIVES: &[u8] = b"unifyfs 1 servers=1 clients=1 chunk=64 shmem=4 spill=0
0 create /unifyfs/a
0 write /unifyfs/a 0 t:old
0 sync /unifyfs/a
0 write /unifyfs/a 0 t:lost
0 unlink /unifyfs/a
0 create /unifyfs/a
0 write /unifyfs/a 1 t:b
0 sync /unifyfs/a
";

// A file that is frozen with a write pending; what comes before its unlink and isn't enabled changes
// nothing.
const FROZEN: &[u8] = b"unifyfs 1 servers=1 clients=1 chunk=64 shmem=4 spill=0
0 create /unifyfs/a
0 write /unifyfs/a 0 t:abc
0 laminate /unifyfs/a
0 trunc /unifyfs/a 1
0 laminate /unifyfs/a
0 unlink /unifyfs/a
0 create /unifyfs/a
";

fn script_of(alloc: Global, text: &[u8]) -> Result<Script, Fail> {
    let script = read_script(alloc, text)
        .ok()
        .ok_or("the bytes are a script")?;
    Ok(script)
}

// Gives an answer to a line for which there is room.
fn answer(answers: &mut Answers, n: u32, a: Answer) {
    if 1 <= n && n <= answers.lines() {
        answers.set(LineNo(n), a);
    }
}

// The answers of a job: which lines were done, at versions from 1 on, which writes were accepted,
// and which would end past the longest file.
fn answers_of(
    alloc: Global,
    done: &[u32],
    accepted: &[u32],
    too_big: &[u32],
) -> Result<Answers, Want> {
    let mut answers = Answers::new(alloc, 16)?;
    let mut v = 0u64;
    for n in done {
        v = v.saturating_add(1);
        answer(&mut answers, *n, Answer::Done { v: Version(v) });
    }
    for n in accepted {
        answer(&mut answers, *n, Answer::Wrote { slots: 1 });
    }
    for n in too_big {
        answer(&mut answers, *n, Answer::TooBig);
    }
    Ok(answers)
}

fn lines_of(alloc: Global, lines: &[u32]) -> Result<Vec<LineNo>, Want> {
    let mut all = Vec::new(alloc);
    for n in lines {
        all.push(LineNo(*n))?;
    }
    Ok(all)
}

// The byte at a place, or `None` from the file's end on.
fn byte(file: &PlainFile, at: u64) -> Option<u8> {
    if at < file.attr().size {
        Some(file.byte(at))
    } else {
        None
    }
}

#[test]
fn five_lines_make_a_file(rt: HostRuntime) -> Result<(), Fail> {
    let alloc = rt.alloc();
    let script = script_of(alloc, FIVE_LINES)?;
    let answers = answers_of(alloc, &[2, 4], &[3], &[])?;
    let a = Path::read(alloc, b"/unifyfs/a")?;
    let none = state_at(alloc, &script, &answers, &a, &[])?;
    let no_file = Attr {
        exists: false,
        size: 0,
        frozen: false,
    };
    assert_eq!(rt; none.attr(), no_file);
    // Lines that are no operations, and a sync and a create that come too early and too late.
    let journal = lines_of(alloc, &[0, 1, 4, 2, 3, 4, 2, 77])?;
    let file = state_at(alloc, &script, &answers, &a, &journal)?;
    let five_bytes = Attr {
        exists: true,
        size: 5,
        frozen: false,
    };
    assert_eq!(rt; file.attr(), five_bytes);
    for (at, want) in [(0, Some(b'h')), (4, Some(b'o')), (5, None)] {
        assert_eq!(rt; byte(&file, at), want);
    }
    Ok(())
}

#[test]
fn pending_writes_are_found(rt: HostRuntime) -> Result<(), Fail> {
    let alloc = rt.alloc();
    let script = script_of(alloc, TWO_BLOCKS)?;
    let answers = answers_of(alloc, &[2, 4, 6], &[3, 5], &[])?;
    for (n, want) in [(4, 3), (5, 0), (6, 5), (7, 0), (8, 0), (77, 0)] {
        let pending = pending_of(alloc, &script, &answers, LineNo(n))?;
        let first = pending.first().map_or(0, |line| line.0);
        assert_eq!(rt; first, want);
        assert!(rt; pending.len() <= 1);
    }
    Ok(())
}

#[test]
fn fronts_are_by_path(rt: HostRuntime) -> Result<(), Fail> {
    let alloc = rt.alloc();
    let script = script_of(alloc, TWO_BLOCKS)?;
    let answers = answers_of(alloc, &[2, 4, 6], &[3, 5], &[])?;
    let mut journals = Journals::new(alloc);
    let a = Path::read(alloc, b"/unifyfs/a")?;
    let b = Path::read(alloc, b"/unifyfs/b")?;
    journals.add(a, lines_of(alloc, &[2, 4, 6])?)?;
    journals.add(b, lines_of(alloc, &[8])?)?;
    for (n, want) in [(1, 0), (2, 0), (4, 1), (6, 2), (7, 3), (8, 0), (77, 0)] {
        let front = front_of(&script, &answers, &journals, LineNo(n));
        assert_eq!(rt; front, Version(want));
    }
    Ok(())
}

#[test]
fn fronts_count_the_commits_of_earlier_phases(rt: HostRuntime) -> Result<(), Fail> {
    let alloc = rt.alloc();
    let script = script_of(alloc, TWO_PHASES)?;
    let mut answers = answers_of(alloc, &[2, 4, 9], &[3, 8], &[])?;
    answer(&mut answers, 5, Answer::Done { v: Version(1) });
    let mut journals = Journals::new(alloc);
    let a = Path::read(alloc, b"/unifyfs/a")?;
    journals.add(a, lines_of(alloc, &[2, 4, 9])?)?;
    for (n, want) in [(4, 1), (5, 0), (6, 0), (7, 2), (9, 2), (10, 2)] {
        let front = front_of(&script, &answers, &journals, LineNo(n));
        assert_eq!(rt; front, Version(want));
    }
    Ok(())
}

#[test]
fn journals_of_two_paths_are_found(rt: HostRuntime) -> Result<(), Fail> {
    let alloc = rt.alloc();
    let a = Path::read(alloc, b"/unifyfs/a")?;
    let b = Path::read(alloc, b"/unifyfs/b")?;
    let c = Path::read(alloc, b"/unifyfs/c")?;
    let mut journals = Journals::new(alloc);
    journals.add(a.copy(alloc)?, lines_of(alloc, &[2, 4])?)?;
    journals.add(b.copy(alloc)?, lines_of(alloc, &[3])?)?;
    journals.add(a.copy(alloc)?, lines_of(alloc, &[5])?)?;
    assert_eq!(rt; journals.len(), 3);
    assert_eq!(rt; journals.of(&a), [LineNo(2), LineNo(4)].as_slice());
    assert_eq!(rt; journals.of(&b), [LineNo(3)].as_slice());
    assert!(rt; journals.of(&c).is_empty());
    if journals.len() == 3 {
        let (path, lines) = journals.at(2);
        assert_eq!(rt; path.as_bytes(), a.as_bytes());
        assert_eq!(rt; lines, [LineNo(5)].as_slice());
    }
    Ok(())
}

#[test]
fn the_longest_file_keeps_one_block(rt: HostRuntime) -> Result<(), Fail> {
    let alloc = rt.alloc();
    let script = script_of(alloc, LONGEST)?;
    let answers = answers_of(alloc, &[2, 5], &[3], &[4])?;
    let a = Path::read(alloc, b"/unifyfs/a")?;
    let journal = lines_of(alloc, &[2, 5])?;
    let file = state_at(alloc, &script, &answers, &a, &journal)?;
    assert_eq!(rt; file.attr().size, 1_099_511_627_776);
    assert_eq!(rt; file.blocks(), 1);
    for (at, want) in [
        (0, Some(0)),
        (1_099_511_627_774, Some(0)),
        (1_099_511_627_775, Some(b'x')),
        (1_099_511_627_776, None),
    ] {
        assert_eq!(rt; byte(&file, at), want);
    }
    Ok(())
}

#[test]
fn bytes_are_put_over_two_blocks(rt: HostRuntime) -> Result<(), Fail> {
    let alloc = rt.alloc();
    let script = script_of(alloc, TWO_BLOCKS)?;
    let answers = answers_of(alloc, &[2, 4, 6], &[3, 5], &[])?;
    let a = Path::read(alloc, b"/unifyfs/a")?;
    let journal = lines_of(alloc, &[2, 4, 6])?;
    let file = state_at(alloc, &script, &answers, &a, &journal)?;
    assert_eq!(rt; file.blocks(), 2);
    for (at, want) in [
        (0, Some(0)),
        (4_093, Some(0)),
        (4_094, Some(b'a')),
        (4_095, Some(b'z')),
        (4_096, Some(b'c')),
        (4_098, Some(b'e')),
        (4_099, None),
    ] {
        assert_eq!(rt; byte(&file, at), want);
    }
    Ok(())
}

#[test]
fn blocks_of_zeros_are_not_kept(rt: HostRuntime) -> Result<(), Fail> {
    let alloc = rt.alloc();
    let script = script_of(alloc, ZEROS)?;
    let answers = answers_of(alloc, &[2, 4, 6, 8], &[3, 5, 7], &[])?;
    let a = Path::read(alloc, b"/unifyfs/a")?;
    let journal = lines_of(alloc, &[2, 4, 6, 8])?;
    for (lines, size, blocks) in [(1, 0, 0), (2, 5_001, 1), (3, 5_001, 0), (4, 9_001, 0)] {
        let earlier = journal.get(..lines).ok_or("the journal has four lines")?;
        let file = state_at(alloc, &script, &answers, &a, earlier)?;
        assert_eq!(rt; (file.attr().size, file.blocks()), (size, blocks));
    }
    Ok(())
}

#[test]
fn cuts_leave_the_first_bytes_and_fill_up_with_zeros(rt: HostRuntime) -> Result<(), Fail> {
    let alloc = rt.alloc();
    let script = script_of(alloc, CUTS)?;
    let answers = answers_of(alloc, &[2, 4, 5, 6, 7, 8, 9, 10], &[3], &[])?;
    let a = Path::read(alloc, b"/unifyfs/a")?;
    let journal = lines_of(alloc, &[2, 4, 5, 6, 7, 8, 9, 10])?;
    for (lines, size, blocks, last) in [
        (1, 0, 0, None),
        (2, 4_098, 2, Some(b'd')),
        (3, 4_096, 1, Some(b'b')),
        (4, 10_000, 1, Some(0)),
        (5, 1_099_511_627_776, 1, Some(0)),
        (6, 4_095, 1, Some(b'a')),
        (7, 4_094, 0, Some(0)),
        (8, 0, 0, None),
    ] {
        let earlier = journal.get(..lines).ok_or("the journal has eight lines")?;
        let file = state_at(alloc, &script, &answers, &a, earlier)?;
        assert_eq!(rt; (file.attr().size, file.blocks()), (size, blocks));
        assert_eq!(rt; byte(&file, size.saturating_sub(1)), last);
        // What the second cut took away doesn't come back.
        if lines >= 3 && size > 4_096 {
            assert_eq!(rt; byte(&file, 4_096), Some(0));
        }
    }
    Ok(())
}

#[test]
fn a_path_has_a_file_in_each_of_its_lives(rt: HostRuntime) -> Result<(), Fail> {
    let alloc = rt.alloc();
    let script = script_of(alloc, TWO_LIVES)?;
    let answers = answers_of(alloc, &[2, 4, 6, 7, 9], &[3, 5, 8], &[])?;
    let a = Path::read(alloc, b"/unifyfs/a")?;
    let journal = lines_of(alloc, &[2, 4, 6, 7, 9])?;
    for (lines, exists, size, first) in [
        (2, true, 3, Some(b'o')),
        (3, false, 0, None),
        (4, true, 0, None),
        (5, true, 2, Some(0)),
    ] {
        let earlier = journal.get(..lines).ok_or("the journal has five lines")?;
        let file = state_at(alloc, &script, &answers, &a, earlier)?;
        assert_eq!(rt; (file.attr().exists, file.attr().size), (exists, size));
        assert_eq!(rt; byte(&file, 0), first);
    }
    let mut journals = Journals::new(alloc);
    journals.add(a, journal)?;
    for (n, pending, front) in [(6, 5, 2), (7, 0, 3), (8, 0, 4), (9, 8, 4)] {
        let lines = pending_of(alloc, &script, &answers, LineNo(n))?;
        assert_eq!(rt; lines.first().map_or(0, |line| line.0), pending);
        assert_eq!(rt;
            front_of(&script, &answers, &journals, LineNo(n)),
            Version(front)
        );
    }
    Ok(())
}

#[test]
fn a_frozen_file_stays_until_it_is_taken_away(rt: HostRuntime) -> Result<(), Fail> {
    let alloc = rt.alloc();
    let script = script_of(alloc, FROZEN)?;
    let answers = answers_of(alloc, &[2, 4, 7, 8], &[3], &[])?;
    let a = Path::read(alloc, b"/unifyfs/a")?;
    // Lines 5 and 6 stand where they can't be committed.
    let journal = lines_of(alloc, &[2, 4, 5, 6, 7, 8])?;
    for (lines, exists, size, frozen) in [
        (1, true, 0, false),
        (2, true, 3, true),
        (3, true, 3, true),
        (4, true, 3, true),
        (5, false, 0, false),
        (6, true, 0, false),
    ] {
        let earlier = journal.get(..lines).ok_or("the journal has six lines")?;
        let file = state_at(alloc, &script, &answers, &a, earlier)?;
        let attr = Attr {
            exists,
            size,
            frozen,
        };
        assert_eq!(rt; file.attr(), attr);
    }
    let pending = pending_of(alloc, &script, &answers, LineNo(5))?;
    assert!(rt; pending.is_empty());
    Ok(())
}
