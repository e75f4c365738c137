ghost use Rattle.std.specs.Prelude.{◌≡◌, ◌≤◌, false, IfOk, OnOk};

use super::*;
use fs_dev::CalmDev;
use fs_script::{Script, read_script};
use fs_types::{Answer, Body, FileState, LineNo, Path, Rank, SlotLine, Want};
use std::alloc::Global;
use std::test::*;

const FIVE_LINES: &[u8] = b"unifyfs 1 servers=1 clients=1 chunk=64 shmem=4 spill=0
0 create /unifyfs/b
0 write /unifyfs/b 0 t:hello
0 sync /unifyfs/b
0 read /unifyfs/a.c 1 3
";

fn script_of(alloc: Global, text: &[u8]) -> Result<Script, Fail> {
    let script = read_script(alloc, text)
        .ok()
        .ok_or("the bytes are a script")?;
    Ok(script)
}

// The core of a script, with a device of no bytes for each client.
fn core_of(alloc: Global, s: &Script) -> Result<Core<'_, CalmDev>, Want>
    ensures going { IfOk result (λ core. core.spent ≡ false) }
    ensures job { IfOk result (λ core. core.job ≡ s.now) }
    ensures some_client { OnOk result (1 ≤ s.now.shape.clients) }
{
    let clients = s.shape().clients;
    let mut devices = Vec::with_capacity(alloc, clients as usize)?;
    for _ in 0..clients {
        devices.push(CalmDev::new(alloc, 0)?)?;
    }
    Core::new(alloc, s, devices)
}

// One event of the client at a place of those that are ready, if there is one.
fn step_at(core: &mut Core<'_, CalmDev>, place: usize) -> Result<(), Want>
    requires { core.old.spent ≡ false }
    ensures going { OnOk result (core.new.spent ≡ false) }
    ensures job { OnOk result (core.new.job ≡ core.old.job) }
{
    match core.ready().get(place).copied() {
        Some(r) => core.step(r),
        None => Ok(()),
    }
}

// How often the first slots of client 0 are held.
fn counts(core: &Core<'_, CalmDev>) -> [u64; 3]
    requires going { core.now.spent ≡ false }
    requires some_client { 1 ≤ core.now.job.shape.clients }
{
    [
        core.count(Rank(0), 0),
        core.count(Rank(0), 1),
        core.count(Rank(0), 2),
    ]
}

// An event: the place of its client among those that are ready, and how often the first slots of
// client 0 are held after it.
type Event = (usize, [u64; 3]);

// How many of these events leave the slots held as is said, up to the first that doesn't.
fn events_as_said(core: &mut Core<'_, CalmDev>, events: &[Event]) -> Result<usize, Want>
    requires going { core.old.spent ≡ false }
    requires some_client { 1 ≤ core.old.job.shape.clients }
    ensures going { OnOk result (core.new.spent ≡ false) }
    ensures job { OnOk result (core.new.job ≡ core.old.job) }
{
    for (k, (place, held)) in events.iter().enumerate() {
        step_at(core, *place)?;
        if counts(core) != *held {
            return Ok(k);
        }
    }
    Ok(events.len())
}

// An answer as it is said in a case.
enum Said {
    Done(u64),
    Wrote(u32),
    NoSpace(u64, u64),
    NoEnt(u64),
    Shown(u64, [u8; 3]),
}

fn is_said(answer: Option<&Answer>, said: &Said) -> bool {
    match (answer, said) {
        (Some(Answer::Done { v }), Said::Done(w)) => v.0 == *w,
        (Some(Answer::Wrote { slots }), Said::Wrote(k)) => *slots == *k,
        (Some(Answer::NoSpace { need, free }), Said::NoSpace(k, f)) => *need == *k && *free == *f,
        (Some(Answer::NoEnt { v }), Said::NoEnt(w)) => v.0 == *w,
        (Some(Answer::Shown { v, n, body }), Said::Shown(w, text)) => {
            v.0 == *w && *n == 3 && matches!(body, Body::Hex(b) if b.as_bytes() == text.as_slice())
        }
        _ => false,
    }
}

// A job whose file is /unifyfs/a.
struct Case {
    script: &'static [u8],
    events: &'static [Event],
    answers: &'static [(u32, Said)],
    journal: &'static [u32],
    // The digest of the three bytes that the file has in the end, or none where it is gone.
    md5: Option<[u8; 16]>,
    // For each client how many slots are held in the end, and how many are free.
    slots: &'static [(u64, u64)],
}

// A read's piece is overwritten, and the file synced, between its look-up and its fetch.
const OVERWRITTEN: Case = Case {
    script: b"unifyfs 1 servers=1 clients=2 chunk=64 shmem=3 spill=0
0 create /unifyfs/a
0 write /unifyfs/a 0 t:abc
0 sync /unifyfs/a
barrier
0 write /unifyfs/a 0 t:foo
0 sync /unifyfs/a
0 write /unifyfs/a 0 t:bar
1 open /unifyfs/a
1 read /unifyfs/a 0 3
",
    events: &[
        (0, [0, 0, 0]),
        (0, [1, 0, 0]),
        (0, [1, 0, 0]),
        // The open, and the look-up.
        (1, [1, 0, 0]),
        (1, [2, 0, 0]),
        (0, [2, 1, 0]),
        (0, [1, 1, 0]),
        (0, [1, 1, 1]),
        // The fetch, and the finish.
        (0, [1, 1, 1]),
        (0, [0, 1, 1]),
    ],
    answers: &[
        (7, Said::Done(3)),
        (8, Said::Wrote(1)),
        (9, Said::Done(2)),
        (10, Said::Shown(2, *b"abc")),
    ],
    journal: &[2, 4, 7],
    md5: Some(*b"\xac\xbd\x18\xdb\x4c\xc2\xf8\x5c\xed\xef\x65\x4f\xcc\xc4\xa4\xd8"),
    slots: &[(2, 1), (0, 3)],
};

// The same with a slot less: a write finds none free while the read goes on, and one after it.
const FULL: Case = Case {
    script: b"unifyfs 1 servers=1 clients=2 chunk=64 shmem=2 spill=0
0 create /unifyfs/a
0 write /unifyfs/a 0 t:abc
0 sync /unifyfs/a
barrier
0 write /unifyfs/a 0 t:foo
0 sync /unifyfs/a
0 write /unifyfs/a 0 t:bar
0 write /unifyfs/a 0 t:bar
1 open /unifyfs/a
1 read /unifyfs/a 0 3
",
    events: &[
        (0, [0, 0, 0]),
        (0, [1, 0, 0]),
        (0, [1, 0, 0]),
        // The open, and the look-up.
        (1, [1, 0, 0]),
        (1, [2, 0, 0]),
        (0, [2, 1, 0]),
        (0, [1, 1, 0]),
        (0, [1, 1, 0]),
        // The fetch, and the finish.
        (1, [1, 1, 0]),
        (1, [0, 1, 0]),
        (0, [1, 1, 0]),
    ],
    answers: &[
        (8, Said::NoSpace(1, 0)),
        (9, Said::Wrote(1)),
        (11, Said::Shown(2, *b"abc")),
    ],
    journal: &[2, 4, 7],
    md5: Some(*b"\xac\xbd\x18\xdb\x4c\xc2\xf8\x5c\xed\xef\x65\x4f\xcc\xc4\xa4\xd8"),
    slots: &[(2, 0), (0, 2)],
};

// Two reads name one piece, which the file has too.
const TWO_READERS: Case = Case {
    script: b"unifyfs 1 servers=1 clients=3 chunk=64 shmem=1 spill=0
0 create /unifyfs/a
0 write /unifyfs/a 0 t:abc
0 sync /unifyfs/a
barrier
1 open /unifyfs/a
1 read /unifyfs/a 0 3
2 open /unifyfs/a
2 read /unifyfs/a 0 3
",
    events: &[
        (0, [0, 0, 0]),
        (0, [1, 0, 0]),
        (0, [1, 0, 0]),
        (0, [1, 0, 0]),
        (1, [1, 0, 0]),
        // The look-ups.
        (0, [2, 0, 0]),
        (1, [3, 0, 0]),
        // The fetch and the finish of client 1, then of client 2.
        (0, [3, 0, 0]),
        (0, [2, 0, 0]),
        (0, [2, 0, 0]),
        (0, [1, 0, 0]),
    ],
    answers: &[(7, Said::Shown(2, *b"abc")), (9, Said::Shown(2, *b"abc"))],
    journal: &[2, 4],
    md5: Some(*b"\x90\x01\x50\x98\x3c\xd2\x4f\xb0\xd6\x96\x3f\x7d\x28\xe1\x7f\x72"),
    slots: &[(1, 0), (0, 1), (0, 1)],
};

// A read of three runs, of which the first and the last are of one piece, fetches three times and
// pins each of the two pieces once.
const THREE_FETCHES: Case = Case {
    script: b"unifyfs 1 servers=1 clients=1 chunk=64 shmem=3 spill=0
0 create /unifyfs/a
0 write /unifyfs/a 0 t:abc
0 write /unifyfs/a 1 t:X
0 sync /unifyfs/a
0 read /unifyfs/a 0 3
",
    events: &[
        (0, [0, 0, 0]),
        (0, [1, 0, 0]),
        (0, [1, 1, 0]),
        (0, [1, 1, 0]),
        // The look-up, the fetches, and the finish.
        (0, [2, 2, 0]),
        (0, [2, 2, 0]),
        (0, [2, 2, 0]),
        (0, [2, 2, 0]),
        (0, [1, 1, 0]),
    ],
    answers: &[(4, Said::Wrote(1)), (6, Said::Shown(2, *b"aXc"))],
    journal: &[2, 5],
    md5: Some(*b"\xff\x93\x27\x98\xe2\x90\xe9\x8d\x8c\x67\xde\x64\x7d\xbf\x35\x3f"),
    slots: &[(2, 1)],
};

// Pending writes are put over the file and over its end, and it is cut: the slot of what was cut is
// free, and the next sync has nothing to put.
const CUT: Case = Case {
    script: b"unifyfs 1 servers=1 clients=1 chunk=64 shmem=3 spill=0
0 create /unifyfs/a
0 write /unifyfs/a 0 t:abc
0 sync /unifyfs/a
0 write /unifyfs/a 0 t:X
0 write /unifyfs/a 3 t:def
0 trunc /unifyfs/a 3
0 sync /unifyfs/a
0 read /unifyfs/a 0 3
",
    events: &[
        (0, [0, 0, 0]),
        (0, [1, 0, 0]),
        (0, [1, 0, 0]),
        (0, [1, 1, 0]),
        (0, [1, 1, 1]),
        // The truncation, and the sync.
        (0, [1, 1, 0]),
        (0, [1, 1, 0]),
        // The look-up, a fetch from each piece, and the finish.
        (0, [2, 2, 0]),
        (0, [2, 2, 0]),
        (0, [2, 2, 0]),
        (0, [1, 1, 0]),
    ],
    answers: &[
        (7, Said::Done(3)),
        (8, Said::Done(3)),
        (9, Said::Shown(3, *b"Xbc")),
    ],
    journal: &[2, 4, 7],
    md5: Some(*b"\x15\xa6\xeb\x72\x7b\xd5\xdf\x86\x44\x06\xff\x30\x0e\x25\xcb\x09"),
    slots: &[(2, 1)],
};

// A client reads with its pending write over the file, and then the file alone.
const OWN_WRITE: Case = Case {
    script: b"unifyfs 1 servers=1 clients=1 chunk=64 shmem=3 spill=0
0 create /unifyfs/a
0 write /unifyfs/a 0 t:abc
0 sync /unifyfs/a
0 write /unifyfs/a 1 t:X
0 readown /unifyfs/a 0 3
0 read /unifyfs/a 0 3
",
    events: &[
        (0, [0, 0, 0]),
        (0, [1, 0, 0]),
        (0, [1, 0, 0]),
        (0, [1, 1, 0]),
        // The look-up pins both pieces; three fetches, and the finish.
        (0, [2, 2, 0]),
        (0, [2, 2, 0]),
        (0, [2, 2, 0]),
        (0, [2, 2, 0]),
        (0, [1, 1, 0]),
        // This one pins the file's piece alone; one fetch, and the finish.
        (0, [2, 1, 0]),
        (0, [2, 1, 0]),
        (0, [1, 1, 0]),
    ],
    answers: &[(6, Said::Shown(2, *b"aXc")), (7, Said::Shown(2, *b"abc"))],
    journal: &[2, 4],
    md5: Some(*b"\x90\x01\x50\x98\x3c\xd2\x4f\xb0\xd6\x96\x3f\x7d\x28\xe1\x7f\x72"),
    slots: &[(2, 1)],
};

// Another client takes the file away, which frees its slot; the sync that finds it gone frees the
// slot of what was pending.
const TAKEN_AWAY: Case = Case {
    script: b"unifyfs 1 servers=1 clients=2 chunk=64 shmem=3 spill=0
0 create /unifyfs/a
0 write /unifyfs/a 0 t:abc
0 sync /unifyfs/a
0 write /unifyfs/a 0 t:foo
0 sync /unifyfs/a
1 open /unifyfs/a
1 unlink /unifyfs/a
",
    events: &[
        (0, [0, 0, 0]),
        (0, [1, 0, 0]),
        (0, [1, 0, 0]),
        (0, [1, 1, 0]),
        // The open, and the unlink.
        (1, [1, 1, 0]),
        (1, [0, 1, 0]),
        (0, [0, 0, 0]),
    ],
    answers: &[(6, Said::NoEnt(3)), (7, Said::Done(2)), (8, Said::Done(3))],
    journal: &[2, 4, 8],
    md5: None,
    slots: &[(0, 3), (0, 3)],
};

// Whether a file has so many bytes, of this digest.
fn is_of(file: &FileState, len: u64, digest: &[u8; 16]) -> bool {
    match file {
        FileState::Whole { n, frozen, md5 } => *n == len && !*frozen && md5.0 == *digest,
        FileState::Gone | FileState::Unread { .. } => false,
    }
}

// Whether a file has three bytes of this digest, or is gone where there is none.
fn is_left(file: &FileState, md5: &Option<[u8; 16]>) -> bool {
    match md5 {
        Some(digest) => is_of(file, 3, digest),
        None => matches!(file, FileState::Gone),
    }
}

#[test]
fn slots_are_held_as_is_said_after_each_event(rt: HostRuntime) -> Result<(), Fail> {
    let alloc = rt.alloc();
    for case in &[
        OVERWRITTEN,
        FULL,
        TWO_READERS,
        THREE_FETCHES,
        CUT,
        OWN_WRITE,
        TAKEN_AWAY,
    ] {
        let script = script_of(alloc, case.script)?;
        let mut core = core_of(alloc, &script)?;
        let as_said = events_as_said(&mut core, case.events)?;
        assert_eq!(rt; as_said, case.events.len());
        assert!(rt; core.ready().is_empty());
        for r in 0..script.shape().clients {
            let (held, free) = case.slots.get(r as usize).copied().ok_or("one for each")?;
            let rank = Rank(r);
            let line = SlotLine {
                rank,
                held,
                free,
                faults: 0,
            };
            assert_eq!(rt; core.census(rank), line);
        }
        for (line, said) in case.answers {
            assert!(rt;
                is_said(core.answers().get(LineNo(*line)), said),
                "line {line}"
            );
        }
        let a = Path::read(alloc, b"/unifyfs/a")?;
        let journal = core.journal(&a).iter().map(|n| n.0);
        assert!(rt; journal.eq(case.journal.iter().copied()));
        assert!(rt; is_left(&core.file(&a)?, &case.md5));
        assert_eq!(rt; core.into_devices().len(), script.shape().clients as usize);
    }
    Ok(())
}

#[test]
fn five_lines_leave_a_file(rt: HostRuntime) -> Result<(), Fail> {
    let alloc = rt.alloc();
    let script = script_of(alloc, FIVE_LINES)?;
    let mut core = core_of(alloc, &script)?;
    step_at(&mut core, 0)?;
    step_at(&mut core, 0)?;
    step_at(&mut core, 0)?;
    step_at(&mut core, 0)?;
    assert!(rt; core.ready().is_empty());
    let synced = core.answers().get(LineNo(4));
    assert!(rt; synced.is_some_and(|a| matches!(a, Answer::Done { v } if v.0 == 2)));
    let b = Path::read(alloc, b"/unifyfs/b")?;
    assert_eq!(rt; core.journal(&b), [LineNo(2), LineNo(4)].as_slice());
    let hello = b"\x5d\x41\x40\x2a\xbc\x4b\x2a\x76\xb9\x71\x9d\x91\x10\x17\xc5\x92";
    assert!(rt; is_of(&core.file(&b)?, 5, hello));
    let answers = core.into_answers();
    assert!(rt;
        answers
            .get(LineNo(5))
            .is_some_and(|a| matches!(a, Answer::BadF))
    );
    Ok(())
}

#[test]
fn paths_stand_in_byte_order(rt: HostRuntime) -> Result<(), Fail> {
    let alloc = rt.alloc();
    let script = script_of(alloc, FIVE_LINES)?;
    let core = core_of(alloc, &script)?;
    assert_eq!(rt; core.paths().len(), 2);
    let b = Path::read(alloc, b"/unifyfs/b")?;
    assert_eq!(rt; core.paths().index_of(&b), Some(1));
    Ok(())
}
