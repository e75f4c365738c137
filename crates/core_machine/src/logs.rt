//! The clients' logs: the slots that a line takes, and the holds of pieces that come and go. It
//! touches the devices that the logs were given, and nothing else.

ghost use Rattle.std.specs.Prelude.{◌≡◌, ◌≤◌, ◌<◌, ◌+◌, ◌*◌, ◌-◌, ◌^◌, ◌∷◌, [], All, AllPairs};
ghost use Rattle.std.specs.Prelude.{length, map, min, slice_get, slice_range, slice_set, vec_capacity};
ghost use Rattle.std.specs.Prelude.{false, Err, IsSome, IfSome, IfOk, IfErr, OnOk, OnErr};
ghost use Rattle.fs_script.specs.Vocabulary.{Job, need, part, payload, write_at};
ghost use Rattle.slot_plain.specs.Slots.{free_slots, slot_at, taken_slot};
ghost use Rattle.slot_plain.specs.TakeNo.{IsTakeNo};
ghost use Rattle.core_machine.specs.Logs.{IsHeld, IsHeldIn, IsInMemory, are_of_one_slot, slot_in};
ghost use Rattle.core_machine.specs.Logs.{FillsLine, PinsAll, ReleasesAll, part_hold, part_slot};
ghost use Rattle.core_machine.specs.Logs.{device_state, fresh_logs};

use crate::plain_hold::PlainHold;
use fs_dev::SpillDev;
use fs_script::Script;
use fs_types::{LineNo, PieceId, Rank, Want};
use slot_plain::{PlainLog, TakeNo};
use std::alloc::Global;

/// The logs of a job's clients, one with each of these devices, in order: all slots are free. The
/// devices' vector is left empty, and has room for as many as there were.
pub fn new_logs<D: SpillDev + Drop>(
    alloc: Global,
    s: &Script,
    devices: &mut Vec<D>,
) -> Result<Vec<PlainLog<D>>, Want>
    requires one_each { length devices.old.items ≡ s.now.shape.clients }
    requires fit { All (λ d. s.now.shape.spill * s.now.shape.chunk ≤ D.size d) devices.old.items }
    ensures fresh { IfOk result (λ logs. logs.items ≡ fresh_logs s.now.shape 0
        (map (λ d. device_state (D.size d) (D.cells d) (D.faults d)) devices.old.items)) }
    ensures emptied { OnOk result (devices.new.items ≡ []) }
    ensures room { vec_capacity devices.new ≡ vec_capacity devices.old }
{
    let shape = s.shape();
    let mut logs = Vec::with_capacity(alloc, devices.len())?;
    while let Some(device) = devices.pop() {
        let rank = Rank(devices.len() as u32);
        logs.push_reserved(PlainLog::new(alloc, rank, shape, device)?);
    }
    logs.reverse();
    Ok(logs)
}

/// The logs' devices, in order, in a vector that has room for them.
pub fn into_devices<D: SpillDev + Drop>(logs: Vec<PlainLog<D>>, room: Vec<D>) -> Vec<D>
    requires empty { room.items ≡ [] }
    requires fit { length logs.items ≤ vec_capacity room }
    ensures { map (λ d. device_state (D.size d) (D.cells d) (D.faults d)) result.items
        ≡ map (λ log. log.device) logs.items }
{
    let mut devices = room;
    for log in logs {
        devices.push_reserved(log.into_device());
    }
    devices
}

/// Lets go of what this holds.
pub fn release<D: SpillDev + Drop>(logs: &mut [PlainLog<D>], h: &PlainHold)
    requires { IsHeld logs.old h.now }
    ensures { ReleasesAll (h.now ∷ []) logs.old logs.new }
{
    let rank = h.rank;
    logs[rank.0 as usize].release(h.slot);
}

/// Lets go of what these hold, each of a slot of its own.
pub fn release_all<D: SpillDev + Drop>(logs: &mut [PlainLog<D>], dead: &[PlainHold])
    requires held { All (IsHeld logs.old) dead.now }
    requires apart { AllPairs (λ g h. are_of_one_slot g h ≡ false) dead.now }
    ensures { ReleasesAll dead.now logs.old logs.new }
{
    for h in dead {
        release(logs, h);
    }
}

/// Holds once more what this holds.
pub fn pin<D: SpillDev + Drop>(logs: &mut [PlainLog<D>], h: &PlainHold)
    requires held { IsHeld logs.old h.now }
    requires few { (slot_in logs.old h.now.rank h.now.slot).count < 2 ^ 64 - 1 }
    ensures { PinsAll (h.now ∷ []) logs.old logs.new }
{
    let rank = h.rank;
    logs[rank.0 as usize].pin(h.slot);
}

/// Fills a slot that was taken with a part of what line `n` writes, and gives a hold of it. The
/// part's bytes go through the buffer.
fn fill_part<D: SpillDev + Drop>(
    s: &Script,
    n: LineNo,
    part: u32,
    slot: u32,
    buffer: &mut [u8],
    log: &mut PlainLog<D>,
) -> PlainHold
    requires is_write { IsSome (write_at s.now n) }
    requires within { part * s.now.shape.chunk < length (payload s.now n) }
    requires buffer { min (length (payload s.now n)) s.now.shape.chunk ≤ length buffer.old }
    requires in_memory { IsInMemory s.now log.old }
    requires taken { slot_at log.old.slots slot ≡ taken_slot }
    ensures hold { result ≡ part_hold s.now log.old.rank n part slot }
    ensures filled { log.new ≡ record log.old {
      slots = slice_set log.old.slots slot (part_slot s.now n part);
    } }
{
    let chunk = u64::from(s.shape().chunk);
    let from = u64::from(part) * chunk;
    let bytes = (s.payload_len(n) - from).min(chunk) as u32;
    let text = &mut buffer[..bytes as usize];
    s.payload_into(n, from, text);
    let piece = PieceId { line: n, part };
    let Ok(()) = log.fill(slot, piece, text) else {
        unreachable!()
    };
    PlainHold {
        piece,
        bytes,
        rank: log.line().rank,
        slot,
    }
}

/// Puts what line `n` writes, so many bytes, into the lowest free slots of its client's log: one
/// part into each. There is a hold of each part, in order. Where it fails the log is as it was.
pub fn fill_line<D: SpillDev + Drop>(
    alloc: Global,
    s: &Script,
    n: LineNo,
    len: u64,
    log: &mut PlainLog<D>,
) -> Result<Vec<PlainHold>, TakeNo>
    requires is_write { IsSome (write_at s.now n) }
    requires len { length (payload s.now n) ≡ len }
    requires in_memory { IsInMemory s.now log.old }
    ensures ok { IfOk result (λ holds. FillsLine s.now n log.old log.new holds.items) }
    ensures no_space { length (free_slots log.old.slots) < need s.now n
        → result ≡ Err (TakeNo.NoSpace (need s.now n) (length (free_slots log.old.slots))) }
    ensures refused { IfErr result (IsTakeNo (need s.now n) (length (free_slots log.old.slots))) }
    ensures err { OnErr result (log.new ≡ log.old) }
{
    let chunk = s.shape().chunk;
    let need = len.div_ceil(u64::from(chunk));
    let free = log.line().free;
    if free < need {
        return Err(TakeNo::NoSpace { need, free });
    }
    let longest = len.min(u64::from(chunk));
    let mut buffer = vec![in alloc; 0; longest as usize].map_err(Want::from)?;
    let mut holds = Vec::with_capacity(alloc, need as usize).map_err(Want::from)?;
    let slots = log.take(alloc, need)?;
    for (part, slot) in slots.iter().enumerate() {
        holds.push_reserved(fill_part(s, n, part as u32, *slot, &mut buffer, log));
    }
    Ok(holds)
}

/// Fills `out` with the bytes of a piece that is held, from the place `from` on.
pub fn fetch<D: SpillDev + Drop>(logs: &mut [PlainLog<D>], h: &PlainHold, from: u32, out: &mut [u8])
    requires held { (s : Job) × IsHeldIn s logs.old h.now
        × IfSome (slice_get logs.old h.now.rank) (IsInMemory s) }
    requires within { from + length out.old ≤ h.now.bytes }
    ensures given { (s : Job) → IsHeldIn s logs.old h.now → out.new
        ≡ slice_range (part s h.now.piece.line h.now.piece.part) from (from + length out.old) }
    ensures same { logs.new ≡ logs.old }
{
    let rank = h.rank;
    let Ok(()) = logs[rank.0 as usize].read_piece(h.slot, from, out) else {
        unreachable!()
    };
}
