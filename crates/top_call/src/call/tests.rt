mod cases;
mod frozen;
mod lives;
mod many_clients;
mod many_writes;
mod refusals;

use self::cases::{
    CASES, FIVE_LINES, FIVE_LINES_REPORT, READ_BESIDE_SYNC, READ_BESIDE_SYNC_REPORTS,
};
use self::frozen::FROZEN_FILES;
use self::lives::LIVES;
use self::many_clients::{neighbours_job, neighbours_report};
use self::many_writes::{overwriting_job, overwriting_report};
use self::refusals::{FOUR_CLIENTS, HEADERS, LINES, SHAPES, SIZES, free_slots};
use super::{top, top_calm};
use fs_dev::{CalmSource, MemSink, MemSource, NoHost};
use fs_types::{Status, Want};
use std::alloc::Global;
use std::sync::Wait;
use std::test::Fail;
use std::thread::Threads;

/// Room for all that a call of the tests writes.
const ROOM: usize = 32_768;

// The words of a command line.
fn command_words(alloc: Global, texts: &[&str]) -> Result<Vec<String>, Want> {
    let mut words = Vec::new(alloc);
    for text in texts {
        words.push(String::from_str(alloc, text)?)?;
    }
    Ok(words)
}

// How a call ends on an input of these bytes, and what its output took.
fn ended<R: Threads + Wait + Sync>(
    rt: &R,
    alloc: Global,
    texts: &[&str],
    bytes: &[u8],
) -> Result<(Status, MemSink), Want> {
    let words = command_words(alloc, texts)?;
    let mut source = CalmSource::new(Vec::from_slice(alloc, bytes)?, ROOM);
    let mut sink = MemSink::new(alloc, ROOM, ROOM, Vec::new(alloc))?;
    let status = top(
        rt,
        alloc,
        &words,
        &mut source,
        &mut sink,
        &mut NoHost::new(),
    );
    Ok((status, sink))
}

// The same of a call that starts no thread.
fn ended_calm(alloc: Global, texts: &[&str], bytes: &[u8]) -> Result<(Status, MemSink), Want> {
    let words = command_words(alloc, texts)?;
    let mut source = CalmSource::new(Vec::from_slice(alloc, bytes)?, ROOM);
    let mut sink = MemSink::new(alloc, ROOM, ROOM, Vec::new(alloc))?;
    let status = top_calm(alloc, &words, &mut source, &mut sink, &mut NoHost::new());
    Ok((status, sink))
}

#[test]
fn each_call_has_its_status_and_output(rt: HostRuntime) -> Result<(), Fail> {
    for cases in [CASES.as_slice(), LIVES.as_slice(), FROZEN_FILES.as_slice()] {
        for (i, (texts, bytes, status, output)) in cases.iter().enumerate() {
            let (ends, sink) = ended(&rt, rt.alloc(), texts, bytes)?;
            assert!(rt; ends == *status && sink.bytes() == *output, "case {i}");
        }
    }
    Ok(())
}

// Whether a job of this script prints this, and ends as a call that prints it does. A refused
// script has its one line and no more.
fn prints<R: Threads + Wait + Sync>(
    rt: &R,
    alloc: Global,
    script: &[u8],
    output: &[u8],
) -> Result<bool, Want> {
    let (status, sink) = ended(rt, alloc, &["sim", "0"], script)?;
    let wanted = match output {
        [b'r', ..] => Status::Refused,
        _ => Status::Done,
    };
    Ok(status == wanted && sink.bytes() == output)
}

#[test]
fn faults_of_a_script_are_named_in_their_order(rt: HostRuntime) -> Result<(), Fail> {
    let alloc = rt.alloc();
    for (headers, output) in HEADERS {
        for (i, header) in headers.iter().enumerate() {
            assert!(rt; prints(&rt, alloc, header, output)?, "header {i}");
        }
    }
    for (i, (header, clients, slots)) in SHAPES.iter().enumerate() {
        let output = free_slots(alloc, *clients, *slots)?;
        assert!(rt; prints(&rt, alloc, header, output.as_bytes())?, "shape {i}");
    }
    for (i, (lines, output)) in LINES.iter().enumerate() {
        let mut script = Vec::from_slice(alloc, FOUR_CLIENTS)?;
        script.extend_from_slice(lines)?;
        assert!(rt; prints(&rt, alloc, &script, output)?, "lines {i}");
    }
    for (i, (text, byte, times, output)) in SIZES.iter().enumerate() {
        let mut script = Vec::from_slice(alloc, text)?;
        script.extend_from_slice(&vec![in alloc; *byte; *times]?)?;
        assert!(rt; prints(&rt, alloc, &script, output)?, "size {i}");
    }
    Ok(())
}

#[test]
fn a_read_after_a_barrier_shows_each_sync_before_it(rt: HostRuntime) -> Result<(), Fail> {
    let alloc = rt.alloc();
    for (seed, output) in READ_BESIDE_SYNC_REPORTS.iter().enumerate() {
        let word = format!(in alloc; "{seed}")?;
        let (status, sink) = ended(&rt, alloc, &["sim", &word], READ_BESIDE_SYNC)?;
        assert!(rt;
            status == Status::Done && sink.bytes() == *output,
            "seed {seed}"
        );
    }
    Ok(())
}

#[test]
fn each_of_many_clients_reads_the_file_of_the_next(rt: HostRuntime) -> Result<(), Fail> {
    let alloc = rt.alloc();
    let job = neighbours_job(alloc)?;
    let (status, sink) = ended(&rt, alloc, &["sim", "5"], job.as_bytes())?;
    assert!(rt; status == Status::Done && sink.bytes() == neighbours_report(alloc)?.as_bytes());
    Ok(())
}

#[test]
fn many_writes_over_one_another_take_few_slots(rt: HostRuntime) -> Result<(), Fail> {
    let alloc = rt.alloc();
    let job = overwriting_job(alloc)?;
    let (status, sink) = ended(&rt, alloc, &["sim", "0"], job.as_bytes())?;
    assert!(rt; status == Status::Done && sink.bytes() == overwriting_report(alloc)?.as_bytes());
    Ok(())
}

#[test]
fn a_sink_whose_second_call_fails_keeps_what_it_took(rt: HostRuntime) -> Result<(), Fail> {
    let alloc = rt.alloc();
    let words = command_words(alloc, &["sim", "0"])?;
    let mut source = CalmSource::new(Vec::from_slice(alloc, FIVE_LINES)?, ROOM);
    let mut sink = MemSink::new(alloc, ROOM, 10, vec![in alloc; 2]?)?;
    let status = top(
        &rt,
        alloc,
        &words,
        &mut source,
        &mut sink,
        &mut NoHost::new(),
    );
    assert!(rt; status == Status::WriteFault && sink.bytes() == b"L 2 ok v=1".as_slice());
    Ok(())
}

#[test]
fn nothing_is_written_where_the_second_read_fails(rt: HostRuntime) -> Result<(), Fail> {
    let alloc = rt.alloc();
    let words = command_words(alloc, &["sim", "0"])?;
    let mut source = MemSource::new(Vec::from_slice(alloc, FIVE_LINES)?, 10, vec![in alloc; 2]?);
    let mut sink = MemSink::new(alloc, ROOM, ROOM, Vec::new(alloc))?;
    let status = top(
        &rt,
        alloc,
        &words,
        &mut source,
        &mut sink,
        &mut NoHost::new(),
    );
    assert!(rt; status == Status::ReadFault && sink.bytes().is_empty());
    Ok(())
}

// Where no allocation is refused, this shows once more that the report is written. It is here for
// runs in which one is refused: then the call writes nothing, or the whole report where a vector
// made do with less room. Where the call can't even be set up, nothing is shown.
#[test]
fn five_lines_are_reported_on_or_nothing_is_written(rt: HostRuntime) -> Result<(), Fail> {
    let Ok((status, sink)) = ended_calm(rt.alloc(), &["sim", "0"], FIVE_LINES) else {
        return Ok(());
    };
    let output = match status {
        Status::Done => FIVE_LINES_REPORT,
        _ => b"".as_slice(),
    };
    assert!(rt; matches!(status, Status::Done | Status::Memory) && sink.bytes() == output);
    Ok(())
}
