//! One client's log on one thread: its slots, and the device behind shared memory.

ghost use Rattle.std.specs.Prelude.{◌≡◌, ℕ, All, Contains, ◌+◌, ◌-◌, ◌*◌, ◌^◌, ◌<◌, ◌≤◌, length, take, slice_range, None, Err, IsOk, IfSome, IfOk, IfErr, OnOk, OnErr, slice_set, replicate};
ghost use Rattle.slot_plain.specs.Slots.{slot_at, free_slots, held_count, free_slot, taken_slot, with_taken, pinned, released, bytes_of_slot, HasPieceOf};
ghost use Rattle.slot_plain.specs.Log.{Fills, FailsToFill, FailsToRead};
ghost use Rattle.slot_plain.specs.TakeNo.{IsTakeNo};

use crate::counted_dev::{read_counted, write_counted};
use crate::slot_table::SlotTable;
use crate::take_no::TakeNo;
use fs_dev::SpillDev;
use fs_script::Shape;
use fs_types::{DevFault, PieceId, Rank, SlotLine, Want};
use std::alloc::Global;
use std::marker::Model;

/// One client's log of slots that are counted. Each slot holds one piece of bytes: the first slots
/// in shared memory, and the others on a device.
///
/// A clause sees all slots, each with its count and its piece; the device as its trait shows it;
/// and the calls on it that failed for this log.
#[derive(Drop)]
pub struct PlainLog<D: SpillDev + Drop> {
    rank: Rank,
    table: SlotTable,
    dev: D,
    /// How many calls on the device failed.
    faults: u64,
}

impl<D: SpillDev + Drop> Model for PlainLog<D> {
    ghost use Rattle.slot_plain.specs.Log.{Log, log_of, Backs};

    ghost Value = { Log };

    ghost view = { λ l. log_of l.rank l.table
        (record { size = D.size l.dev; cells = D.cells l.dev; faults = D.faults l.dev })
        l.faults };

    ghost invariant = { λ l. Backs l.table
        (record { size = D.size l.dev; cells = D.cells l.dev; faults = D.faults l.dev }) };
}

impl<D: SpillDev + Drop> PlainLog<D> {
    /// The log of a client of a job of this shape, whose slots are all free.
    pub fn new(alloc: Global, rank: Rank, shape: Shape, dev: D) -> Result<PlainLog<D>, Want>
        requires slots { shape.shmem + shape.spill < 2 ^ 32 }
        requires device { shape.spill * shape.chunk ≤ D.size dev }
        ensures { IfOk result (λ log. log ≡ record {
          rank = rank;
          shmem = shape.shmem;
          chunk = shape.chunk;
          slots = replicate (shape.shmem + shape.spill) free_slot;
          device = record { size = D.size dev; cells = D.cells dev; faults = D.faults dev };
          faults = 0;
        }) }
    {
        Ok(PlainLog {
            rank,
            table: SlotTable::new(alloc, shape),
            dev,
            faults: 0,
        })
    }

    /// How often a slot is held; 0 where it is free. It takes no memory.
    pub fn count(&self, slot: u32) -> u64
        ensures { result ≡ (slot_at self.now.slots slot).count }
    {
        self.table.count(slot)
    }

    /// What a report says of the slots. It takes no memory.
    pub fn line(&self) -> SlotLine
        ensures { result ≡ record {
          rank = self.now.rank;
          held = held_count self.now.slots;
          free = length (free_slots self.now.slots);
          faults = self.now.faults;
        } }
    {
        SlotLine {
            rank: self.rank,
            held: self.table.held_count(),
            free: self.table.free_count(),
            faults: self.faults,
        }
    }

    /// Takes the lowest free slots, so many, the lowest first. Each is then held once.
    pub fn take(&mut self, alloc: Global, k: u64) -> Result<Vec<u32>, TakeNo>
        ensures lowest { IfOk result (λ v. v.items ≡ take k (free_slots self.old.slots)) }
        ensures taken { IfOk result (λ v. self.new ≡ record self.old {
          slots = with_taken v.items self.old.slots;
        }) }
        ensures many { IfOk result (λ v. length v.items ≡ k) }
        ensures each { IfOk result
            (λ v. All (λ n. slot_at self.new.slots n ≡ taken_slot) v.items) }
        ensures others { IfOk result (λ v. (n : ℕ) → ¬ Contains v.items n
            → slot_at self.new.slots n ≡ slot_at self.old.slots n) }
        ensures no_space { length (free_slots self.old.slots) < k
            → result ≡ Err (TakeNo.NoSpace k (length (free_slots self.old.slots))) }
        ensures refused { IfErr result (IsTakeNo k (length (free_slots self.old.slots))) }
        ensures err { OnErr result (self.new ≡ self.old) }
    {
        let free = self.table.free_count();
        if free < k {
            return Err(TakeNo::NoSpace { need: k, free });
        }
        Ok(self.table.take(alloc, k)?)
    }

    /// Holds a slot once more that is held. It takes no memory.
    pub fn pin(&mut self, slot: u32)
        requires held { 0 < (slot_at self.old.slots slot).count }
        requires few { (slot_at self.old.slots slot).count < 2 ^ 64 - 1 }
        ensures { self.new ≡ record self.old {
          slots = slice_set self.old.slots slot (pinned (slot_at self.old.slots slot));
        } }
    {
        self.table.pin(slot);
    }

    /// Holds a slot once less that is held. It takes no memory.
    pub fn release(&mut self, slot: u32)
        requires { 0 < (slot_at self.old.slots slot).count }
        ensures { self.new ≡ record self.old {
          slots = slice_set self.old.slots slot (released (slot_at self.old.slots slot));
        } }
    {
        self.table.release(slot);
    }

    /// Fills a slot with a piece: one that is held, and was not filled since it was taken. It takes
    /// no memory. A slot behind shared memory is filled by one write to the device, which can fail.
    pub fn fill(&mut self, slot: u32, id: PieceId, b: &[u8]) -> Result<(), DevFault>
        requires taken { 0 < (slot_at self.old.slots slot).count }
        requires unfilled { (slot_at self.old.slots slot).piece ≡ None }
        requires some { 0 < length b.now }
        requires fits { length b.now ≤ self.old.chunk }
        ensures ok { OnOk result (Fills slot id b.now self.old self.new) }
        ensures err { OnErr result (FailsToFill slot (length b.now) self.old self.new) }
        ensures rank { IfErr result (λ fault. fault.rank ≡ self.old.rank) }
    {
        if self.table.is_in_memory(slot) {
            self.table.fill(slot, id, b);
            return Ok(());
        }
        let place = self.table.spill_place(slot, 0);
        write_counted(&mut self.dev, place, b, self.rank, &mut self.faults)?;
        self.table.fill_spilled(slot, id, b);
        Ok(())
    }

    /// Fills `out` with the bytes from the place `from` of a slot's piece on. It takes no memory.
    /// Where `out` isn't empty and the slot is behind shared memory, it makes one read of the
    /// device, which can fail.
    pub fn read_piece(&mut self, slot: u32, from: u32, out: &mut [u8]) -> Result<(), DevFault>
        requires { HasPieceOf (slot_at self.old.slots slot) (from + length out.old) }
        ensures given { OnOk result (IfSome (bytes_of_slot (slot_at self.old.slots slot))
            (λ bytes. out.new ≡ slice_range bytes from (from + length out.old))) }
        ensures ok { OnOk result (self.new ≡ self.old) }
        ensures err { OnErr result (FailsToRead slot self.old self.new) }
        ensures rank { IfErr result (λ fault. fault.rank ≡ self.old.rank) }
        ensures nothing { length out.old ≡ 0 → IsOk result }
    {
        if out.is_empty() {
            return Ok(());
        }
        if self.table.is_in_memory(slot) {
            self.table.read(slot, from, out);
            return Ok(());
        }
        let place = self.table.spill_place(slot, from);
        read_counted(&mut self.dev, place, out, self.rank, &mut self.faults)
    }

    /// The log's device, as it is. It takes no memory.
    pub fn into_device(self) -> D
        ensures { record { size = D.size result; cells = D.cells result; faults = D.faults result }
            ≡ self.device }
    {
        self.dev
    }
}
