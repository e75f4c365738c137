use super::{FileList, Report, SlotList, report_text};
use fs_plain::Journals;
use fs_types::{Answer, Answers, Digest16, FileState, LineNo, Path, Rank, SlotLine, Version};
use std::test::Fail;

// These stand in no report of a job yet. The tests of whole jobs show the other rows.
#[test]
fn answers_and_files_of_later_jobs_are_printed(rt: HostRuntime) -> Result<(), Fail> {
    let alloc = rt.alloc();
    let mut answers = Answers::new(alloc, 12)?;
    answers.set(
        LineNo(3),
        Answer::Staged {
            v: Version(2),
            n: 11,
            slots: 1,
        },
    );
    answers.set(
        LineNo(4),
        Answer::Sized {
            v: Version(2),
            n: 0,
            frozen: true,
        },
    );
    answers.set(LineNo(5), Answer::TooBigAt { v: Version(3) });
    answers.set(LineNo(6), Answer::NoSpace { need: 2, free: 1 });
    answers.set(LineNo(7), Answer::DevFault { rank: Rank(63) });
    answers.set(LineNo(8), Answer::ReadOnly { v: Version(4) });
    let mut journals = Journals::new(alloc);
    journals.add(Path::read(alloc, b"/unifyfs/b")?, Vec::new(alloc))?;
    journals.add(
        Path::read(alloc, b"/unifyfs/c")?,
        vec![in alloc; LineNo(5), LineNo(7)]?,
    )?;
    let mut files = FileList::new(alloc);
    files.add(
        Path::read(alloc, b"/unifyfs/b")?,
        FileState::Whole {
            n: 5,
            frozen: true,
            md5: Digest16([0xa7; 16]),
        },
    )?;
    files.add(
        Path::read(alloc, b"/unifyfs/c")?,
        FileState::Unread {
            n: 3,
            frozen: false,
            rank: Rank(0),
        },
    )?;
    let mut slots = SlotList::new(alloc);
    slots.add(SlotLine {
        rank: Rank(0),
        held: 65_536,
        free: 0,
        faults: 0,
    })?;
    slots.add(SlotLine {
        rank: Rank(63),
        held: 0,
        free: 12,
        faults: 18_446_744_073_709_551_615,
    })?;
    let report = Report {
        answers,
        journals,
        files,
        slots,
    };
    let text = b"L 3 ok v=2 n=11 slots=1
L 4 ok v=2 n=0 frozen=1
L 5 toobig v=3
L 6 nospace need=2 free=1
L 7 devfault r=63
L 8 readonly v=4
J /unifyfs/b
F /unifyfs/b n=5 frozen=1 md5=a7a7a7a7a7a7a7a7a7a7a7a7a7a7a7a7
J /unifyfs/c 5 7
F /unifyfs/c n=3 frozen=0 devfault r=0
S 0 held=65536 free=0 faults=0
S 63 held=0 free=12 faults=18446744073709551615
end
"
        .as_slice();
    assert_eq!(rt; report_text(alloc, &report)?.as_slice(), text);
    Ok(())
}
