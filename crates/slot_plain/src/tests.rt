ghost use Rattle.std.specs.Prelude.{◌≡◌, ◌+◌, ◌<◌, ◌≤◌, length, IfOk, OnOk};
ghost use Rattle.slot_plain.specs.Slots.{slot_at, HasPieceOf};

use super::*;
use fs_dev::{CalmDev, NoDev, SpillDev};
use fs_script::Shape;
use fs_types::{DevFault, LineNo, PieceId, Rank, SlotLine};
use std::alloc::Global;
use std::test::Fail;

// A job's shape with slots of 64 bytes.
fn shape(shmem: u32, spill: u32) -> Shape
    ensures { result ≡ record {
      servers = 1;
      clients = 1;
      chunk = 64;
      shmem = shmem;
      spill = spill;
    } }
{
    Shape {
        servers: 1,
        clients: 1,
        chunk: 64,
        shmem,
        spill,
    }
}

fn part(part: u32) -> PieceId {
    PieceId {
        line: LineNo(3),
        part,
    }
}

// Takes a slot, and fills it.
fn store<D: SpillDev + Drop>(
    alloc: Global,
    log: &mut PlainLog<D>,
    id: PieceId,
    b: &[u8],
) -> Result<u32, Fail>
    requires some { 0 < length b.now }
    requires fits { length b.now ≤ log.old.chunk }
    ensures piece { IfOk result (λ slot. HasPieceOf (slot_at log.new.slots slot) (length b.now)) }
    ensures chunk { OnOk result (log.new.chunk ≡ log.old.chunk) }
{
    let slots = log.take(alloc, 1).ok().ok_or("a slot is free")?;
    let slot = slots[0];
    log.fill(slot, id, b)
        .ok()
        .ok_or("the device takes the bytes")?;
    Ok(slot)
}

// Whether some bytes of a piece are read.
fn reads<D: SpillDev + Drop>(log: &mut PlainLog<D>, slot: u32, from: u32, out: &mut [u8]) -> bool
    requires { HasPieceOf (slot_at log.old.slots slot) (from + length out.old) }
    ensures { log.new.chunk ≡ log.old.chunk }
{
    match log.read_piece(slot, from, out) {
        Ok(()) => true,
        Err(_) => false,
    }
}

// Why slots are not taken.
fn refusal<D: SpillDev + Drop>(alloc: Global, log: &mut PlainLog<D>, k: u64) -> Option<TakeNo>
    ensures { log.new.chunk ≡ log.old.chunk }
{
    match log.take(alloc, k) {
        Ok(_) => None,
        Err(e) => Some(e),
    }
}

// Holds a slot once more, if it is held.
fn pin<D: SpillDev + Drop>(log: &mut PlainLog<D>, slot: u32)
    ensures { log.new.chunk ≡ log.old.chunk }
{
    if log.count(slot) > 0 && log.count(slot) < 9 {
        log.pin(slot);
    }
}

// Holds a slot once less, if it is held.
fn release<D: SpillDev + Drop>(log: &mut PlainLog<D>, slot: u32)
    ensures { log.new.chunk ≡ log.old.chunk }
{
    if log.count(slot) > 0 {
        log.release(slot);
    }
}

#[test]
fn a_piece_is_in_memory_and_the_next_on_the_device(rt: HostRuntime) -> Result<(), Fail> {
    let alloc = rt.alloc();
    let dev = CalmDev::new(alloc, 64)?;
    let mut log = PlainLog::new(alloc, Rank(5), shape(1, 1), dev)?;

    let first = store(alloc, &mut log, part(0), b"in memory")?;
    let mut out = [0; 3];
    assert!(rt; reads(&mut log, first, 3, &mut out));
    assert_eq!(rt; first, 0);
    assert_eq!(rt; out.as_slice(), b"mem".as_slice());

    let second = store(alloc, &mut log, part(1), b"on the device")?;
    let mut out = [0; 6];
    assert!(rt; reads(&mut log, second, 7, &mut out));
    assert_eq!(rt; second, 1);
    assert_eq!(rt; out.as_slice(), b"device".as_slice());

    assert_eq!(rt;
        refusal(alloc, &mut log, 1),
        Some(TakeNo::NoSpace { need: 1, free: 0 })
    );
    pin(&mut log, 0);
    release(&mut log, 1);
    assert_eq!(rt; (log.count(0), log.count(1)), (2, 0));
    let line = SlotLine {
        rank: Rank(5),
        held: 1,
        free: 1,
        faults: 0,
    };
    assert_eq!(rt; log.line(), line);
    assert_eq!(rt;
        refusal(alloc, &mut log, 2),
        Some(TakeNo::NoSpace { need: 2, free: 1 })
    );
    let again = store(alloc, &mut log, part(2), b"again")?;
    assert_eq!(rt; (again, log.count(0), log.count(1)), (1, 2, 1));
    Ok(())
}

#[test]
fn a_device_that_fails_is_counted(rt: HostRuntime) -> Result<(), Fail> {
    let alloc = rt.alloc();
    let mut log = PlainLog::new(alloc, Rank(5), shape(0, 2), NoDev::new(128))?;
    let slots = log.take(alloc, 1).ok().ok_or("a slot is free")?;
    let fault = DevFault { rank: Rank(5) };
    assert_eq!(rt; log.fill(slots[0], part(0), b"lost"), Err(fault));
    assert_eq!(rt; log.line().faults, 1);
    assert_eq!(rt; (log.count(0), log.count(1)), (1, 0));
    let _dev = log.into_device();
    Ok(())
}

#[test]
fn the_lowest_slots_are_taken_also_of_a_long_log(rt: HostRuntime) -> Result<(), Fail> {
    let alloc = rt.alloc();
    let dev = NoDev::new(65_536 * 64);
    let mut log = PlainLog::new(alloc, Rank(0), shape(0, 65_536), dev)?;
    let held = log.take(alloc, 65_535).ok().ok_or("they are free")?;
    assert_eq!(rt; (held[0], held[65_534]), (0, 65_534));
    for _ in 0..100 {
        let last = log.take(alloc, 1).ok().ok_or("one is free")?;
        assert_eq!(rt; last[0], 65_535);
        release(&mut log, 65_535);
    }
    release(&mut log, 40_000);
    release(&mut log, 7);
    let holes = log.take(alloc, 3).ok().ok_or("three are free")?;
    assert_eq!(rt; holes.as_slice(), [7, 40_000, 65_535].as_slice());
    assert_eq!(rt; log.line().free, 0);
    Ok(())
}
