use super::*;
use fs_types::{LineNo, Rank};
use std::test::*;

const FIVE_LINES: &[u8] = b"unifyfs 1 servers=1 clients=1 chunk=64 shmem=4 spill=0
0 create /unifyfs/a
0 write /unifyfs/a 0 t:hello
0 sync /unifyfs/a
0 read /unifyfs/a 1 3
";

#[test]
fn five_lines_come_back(rt: HostRuntime) -> Result<(), Fail> {
    let alloc = rt.alloc();
    for text in [FIVE_LINES, &FIVE_LINES[..FIVE_LINES.len() - 1]] {
        let script = read_script(alloc, text)
            .ok()
            .ok_or("the bytes are a script")?;
        let shape = Shape {
            servers: 1,
            clients: 1,
            chunk: 64,
            shmem: 4,
            spill: 0,
        };
        assert_eq!(rt; script.shape(), shape);
        assert_eq!(rt; script.lines(), 5);
        for n in [0, 1, 6] {
            assert!(rt; script.line(LineNo(n)).is_none());
        }
        for n in [0, 2, 5, 6, u32::MAX] {
            assert_eq!(rt; script.phase_of(LineNo(n)), 0);
        }
        assert!(rt;
            matches!(
                script.line(LineNo(2)),
                Some(Line::Op(OpLine { op: Op::Create, .. }))
            )
        );
        assert!(rt;
            matches!(
                script.line(LineNo(4)),
                Some(Line::Op(OpLine { op: Op::Sync, .. }))
            )
        );
        assert!(rt;
            matches!(
                script.line(LineNo(5)),
                Some(Line::Op(OpLine {
                    op: Op::Read {
                        off: 1,
                        len: 3,
                        own: false
                    },
                    ..
                }))
            )
        );
        match script.line(LineNo(3)) {
            Some(
                Line::Op(
                    OpLine {
                        rank,
                        path,
                        op: Op::Write {
                            off,
                            text: Data::Text(bytes),
                        },
                    },
                ),
            ) => {
                assert_eq!(rt; *rank, Rank(0));
                assert_eq!(rt; path.as_bytes(), b"/unifyfs/a".as_slice());
                assert_eq!(rt; *off, 0);
                assert_eq!(rt; bytes.as_bytes(), b"hello".as_slice());
            }
            _ => return Err("line 3 is a write".into()),
        }
    }
    Ok(())
}

#[test]
fn payloads_are_copied(rt: HostRuntime) -> Result<(), Fail> {
    let script = read_script(rt.alloc(), FIVE_LINES)
        .ok()
        .ok_or("the bytes are a script")?;
    let third = LineNo(3);
    let Some(
        Line::Op(
            OpLine {
                op: Op::Write { .. },
                ..
            },
        ),
    ) = script.line(third)
    else {
        return Err("line 3 is a write".into());
    };
    let mut part = [0; 3];
    if script.payload_len(third) >= 4 {
        script.payload_into(third, 1, &mut part);
    }
    assert_eq!(rt; part, *b"ell");
    Ok(())
}

const TWO_CLIENTS: &[u8] = b"unifyfs 1 servers=2 clients=2 chunk=64 shmem=4 spill=0
# both clients
0 create /unifyfs/a
barrier
1 write /unifyfs/a 8 p:18446744073709551615:600

1 read /unifyfs/a 0 16777216";

#[test]
fn notes_barriers_and_patterns_are_read(rt: HostRuntime) -> Result<(), Fail> {
    let script = read_script(rt.alloc(), TWO_CLIENTS)
        .ok()
        .ok_or("the bytes are a script")?;
    assert_eq!(rt; script.shape().clients, 2);
    assert_eq!(rt; script.lines(), 7);
    for n in [2, 6] {
        assert!(rt; matches!(script.line(LineNo(n)), Some(Line::Note)));
    }
    assert!(rt; matches!(script.line(LineNo(4)), Some(Line::Barrier)));
    assert_eq!(rt; script.phase_of(LineNo(3)), 0);
    assert_eq!(rt; script.phase_of(LineNo(5)), 1);
    match script.line(LineNo(5)) {
        Some(
            Line::Op(
                OpLine {
                    rank,
                    op: Op::Write {
                        off,
                        text: Data::Pattern { seed, len },
                    },
                    ..
                },
            ),
        ) => {
            assert_eq!(rt; *rank, Rank(1));
            assert_eq!(rt; *off, 8);
            assert_eq!(rt; *seed, u64::MAX);
            assert_eq!(rt; *len, 600);
        }
        _ => return Err("line 5 is a write".into()),
    }
    Ok(())
}

/// The seed is 255 modulo 256, and 255 + 31 * 511 + 1 and 255 + 31 * 512 + 2 are 225 and 1.
#[test]
fn patterns_are_computed(rt: HostRuntime) -> Result<(), Fail> {
    let script = read_script(rt.alloc(), TWO_CLIENTS)
        .ok()
        .ok_or("the bytes are a script")?;
    let fifth = LineNo(5);
    let Some(
        Line::Op(
            OpLine {
                op: Op::Write { .. },
                ..
            },
        ),
    ) = script.line(fifth)
    else {
        return Err("line 5 is a write".into());
    };
    assert_eq!(rt; script.payload_len(fifth), 600);
    let mut first = [0; 3];
    let mut middle = [0; 2];
    if script.payload_len(fifth) >= 513 {
        script.payload_into(fifth, 0, &mut first);
        script.payload_into(fifth, 511, &mut middle);
    }
    assert_eq!(rt; first, [255, 30, 61]);
    assert_eq!(rt; middle, [225, 1]);
    Ok(())
}

const CUT_FROZEN_AND_UNLINKED: &[u8] = b"unifyfs 1 servers=1 clients=1 chunk=64 shmem=4 spill=0
0 readown /unifyfs/a 7 16777216
0 trunc /unifyfs/a 1099511627776
0 unlink /unifyfs/a
0 laminate /unifyfs/a
";

#[test]
fn own_reads_cuts_laminations_and_unlinks_are_read(rt: HostRuntime) -> Result<(), Fail> {
    let script = read_script(rt.alloc(), CUT_FROZEN_AND_UNLINKED)
        .ok()
        .ok_or("the bytes are a script")?;
    assert!(rt;
        matches!(
            script.line(LineNo(2)),
            Some(Line::Op(OpLine {
                op: Op::Read {
                    off: 7,
                    len: 16_777_216,
                    own: true
                },
                ..
            }))
        )
    );
    assert!(rt;
        matches!(
            script.line(LineNo(3)),
            Some(Line::Op(OpLine {
                op: Op::Trunc {
                    n: 1_099_511_627_776
                },
                ..
            }))
        )
    );
    assert!(rt;
        matches!(
            script.line(LineNo(4)),
            Some(Line::Op(OpLine { op: Op::Unlink, .. }))
        )
    );
    assert!(rt;
        matches!(
            script.line(LineNo(5)),
            Some(Line::Op(OpLine {
                op: Op::Laminate,
                ..
            }))
        )
    );
    Ok(())
}

#[test]
fn the_first_fault_of_a_cut_a_lamination_or_an_unlink_is_named(
    rt: HostRuntime,
) -> Result<(), Fail> {
    let alloc = rt.alloc();
    let line = LineNo(2);
    let bad = |reason| Some(ScriptFault::BadLine { line, reason });
    for (words, fault) in [
        ("0 readown /unifyfs/a 7", bad(Reason::Words)),
        (
            "0 trunc /unifyfs/a 1099511627777",
            Some(ScriptFault::OverLimit { line }),
        ),
        ("0 trunc /unifyfs/a x", bad(Reason::Number)),
        ("0 trunc a x", bad(Reason::Path)),
        ("0 trunc /unifyfs/a", bad(Reason::Words)),
        ("1 trunc /unifyfs/a", bad(Reason::Rank)),
        ("0 unlink /unifyfs/a x", bad(Reason::Words)),
        ("0 laminate /unifyfs/a x", bad(Reason::Words)),
        ("0 laminate", bad(Reason::Words)),
        ("0 laminate a", bad(Reason::Path)),
        ("1 laminate /unifyfs/a", bad(Reason::Rank)),
    ] {
        let text = format!(in alloc;
            "unifyfs 1 servers=1 clients=1 chunk=64 shmem=4 spill=0\n{words}"
        )?;
        assert_eq!(rt; read_script(alloc, text.as_bytes()).err(), fault);
    }
    Ok(())
}
