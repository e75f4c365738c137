//! The slots of a log in memory: how often each is held, which piece it has, and the bytes of those
//! in shared memory. It touches nothing outside memory.

ghost use Rattle.std.specs.Prelude.{◌≡◌, nat_lt, ◌+◌, ◌-◌, ◌^◌, ◌<◌, ◌≤◌, [], ◌∷◌, length, take, slice_range, Some, IfSome, IfOk, OnOk, OnErr, slice_set, replicate, vec_capacity};
ghost use Rattle.slot_plain.specs.Slots.{slot_at, free_slots, held_count, free_slot, taken_slot, with_taken, pinned, released, filled, bytes_of_slot, HasPieceOf};
ghost use Rattle.slot_plain.specs.Entries.{IsFilled};
ghost use Rattle.slot_plain.specs.Log.{spill_place};
ghost use Rattle.slot_plain.specs.declared.least_tree.TheConstants.{NO_SLOT};

use crate::entry::{Entry, FilledPiece};
use crate::free_slots::FreeSlots;
use fs_script::Shape;
use fs_types::{PieceId, Want};
use std::alloc::Global;
use std::marker::Model;

/// The slots of a client's log. A clause sees all of them, also those that were never taken and of
/// which nothing is kept.
#[derive(Debug, Drop)]
pub struct SlotTable {
    /// How many slots are in shared memory; these are the first.
    shmem: u32,
    /// The bytes of a slot.
    chunk: u32,
    /// How many slots there are.
    total: u32,
    /// Which of the slots with an entry are free.
    free: FreeSlots,
    /// The first slots, among them all that were ever taken.
    entries: Vec<Entry>,
}

impl Model for SlotTable {
    ghost use Rattle.slot_plain.specs.Entries.{Table, table_of, AreEntries};

    ghost Value = { Table };

    ghost view = { λ t. table_of t.shmem t.chunk t.total t.entries.items };

    ghost invariant = { λ t. AreEntries t.shmem t.chunk t.total t.free t.entries.items };
}

// Puts bytes over the first ones.
fn put_first(all: &mut [u8], bytes: &[u8])
    requires { length bytes.now ≤ length all.old }
    ensures { take (length bytes.now) all.new ≡ bytes.now }
{
    all[..bytes.len()].copy_from_slice(bytes);
}

// Fills `out` with the bytes from the place `start` on.
fn copy_part(all: &[u8], start: usize, out: &mut [u8])
    requires { start + length out.old ≤ length all.now }
    ensures { out.new ≡ slice_range all.now start (start + length out.old) }
{
    out.copy_from_slice(&all[start..start + out.len()]);
}

impl SlotTable {
    /// The free slots of a log of this shape. It takes no memory.
    pub fn new(alloc: Global, shape: Shape) -> SlotTable
        requires { shape.shmem + shape.spill ≤ NO_SLOT }
        ensures { result ≡ record {
          shmem = shape.shmem;
          chunk = shape.chunk;
          made = 0;
          slots = replicate (shape.shmem + shape.spill) free_slot;
        } }
    {
        SlotTable {
            shmem: shape.shmem,
            chunk: shape.chunk,
            total: shape.shmem + shape.spill,
            free: FreeSlots::new(alloc),
            entries: Vec::new(alloc),
        }
    }

    /// Whether a slot is in shared memory.
    pub fn is_in_memory(&self, slot: u32) -> bool
        ensures { result ≡ nat_lt slot self.now.shmem }
    {
        slot < self.shmem
    }

    /// Where byte `from` of a slot behind shared memory stands on the device.
    pub fn spill_place(&self, slot: u32, from: u32) -> u64
        requires { self.now.shmem ≤ slot }
        ensures { result ≡ spill_place self.now.shmem self.now.chunk slot + from }
    {
        u64::from(slot - self.shmem) * u64::from(self.chunk) + u64::from(from)
    }

    /// How often a slot is held.
    pub fn count(&self, slot: u32) -> u64
        ensures { result ≡ (slot_at self.now.slots slot).count }
    {
        self.entries.get(slot as usize).map_or(0, |e| e.count)
    }

    /// How many slots are free.
    pub fn free_count(&self) -> u64
        ensures { result ≡ length (free_slots self.now.slots) }
    {
        (self.total as usize - self.entries.len() + self.free.count()) as u64
    }

    /// How many slots are held.
    pub fn held_count(&self) -> u64
        ensures { result ≡ held_count self.now.slots }
    {
        (self.entries.len() - self.free.count()) as u64
    }

    // Makes one more entry, of a slot that is free.
    fn make_entry(&mut self, alloc: Global) -> Result<(), Want>
        requires { self.old.made < length self.old.slots }
        ensures made { OnOk result (self.new.made ≡ self.old.made + 1) }
        ensures rest { self.new ≡ record self.old { made = self.new.made } }
    {
        let in_memory = self.entries.len() < self.shmem as usize;
        let bytes = if in_memory { self.chunk as usize } else { 0 };
        let buffer = vec![in alloc; 0u8; bytes]?;
        self.entries.reserve(1)?;
        self.free.add(alloc)?;
        self.entries.push_reserved(Entry {
            count: 0,
            piece: None,
            buffer,
        });
        Ok(())
    }

    // Makes entries until there are so many.
    fn make_entries(&mut self, alloc: Global, wanted: usize) -> Result<(), Want>
        requires { wanted ≤ length self.old.slots }
        ensures made { OnOk result (wanted ≤ self.new.made) }
        ensures rest { self.new ≡ record self.old { made = self.new.made } }
    {
        while self.entries.len() < wanted {
            self.make_entry(alloc)?;
        }
        Ok(())
    }

    // Takes the lowest free slot, which has an entry.
    fn take_lowest(&mut self) -> u32
        requires { length self.old.slots < self.old.made + length (free_slots self.old.slots) }
        ensures lowest { free_slots self.old.slots ≡ result ∷ free_slots self.new.slots }
        ensures taken { self.new ≡ record self.old {
          slots = slice_set self.old.slots result taken_slot;
        } }
    {
        let slot = self.free.take_lowest();
        self.entries[slot as usize].count = 1;
        slot
    }

    // Takes so many slots, which all have entries, into a list with room for them.
    fn take_into(&mut self, k: usize, slots: &mut Vec<u32>)
        requires free { k ≤ length (free_slots self.old.slots) }
        requires entries { length self.old.slots + k
            ≤ self.old.made + length (free_slots self.old.slots) }
        requires empty { slots.old.items ≡ [] }
        requires room { k ≤ vec_capacity slots.old }
        ensures lowest { slots.new.items ≡ take k (free_slots self.old.slots) }
        ensures taken { self.new ≡ record self.old {
          slots = with_taken slots.new.items self.old.slots;
        } }
    {
        for _ in 0..k {
            slots.push_reserved(self.take_lowest());
        }
    }

    /// Takes the lowest free slots, so many. Memory for all of them is taken first.
    pub fn take(&mut self, alloc: Global, k: u64) -> Result<Vec<u32>, Want>
        requires { k ≤ length (free_slots self.old.slots) }
        ensures lowest { IfOk result (λ v. v.items ≡ take k (free_slots self.old.slots)) }
        ensures taken { IfOk result (λ v. self.new ≡ record self.old {
          made = self.new.made;
          slots = with_taken v.items self.old.slots;
        }) }
        ensures err { OnErr result (self.new ≡ record self.old { made = self.new.made }) }
    {
        let mut slots = Vec::with_capacity(alloc, k as usize)?;
        let others = self.free_count() - k;
        self.make_entries(alloc, (u64::from(self.total) - others) as usize)?;
        self.take_into(k as usize, &mut slots);
        Ok(slots)
    }

    /// Holds a slot once more that is held. It takes no memory.
    pub fn pin(&mut self, slot: u32)
        requires held { 0 < (slot_at self.old.slots slot).count }
        requires few { (slot_at self.old.slots slot).count < 2 ^ 64 - 1 }
        ensures { self.new ≡ record self.old {
          slots = slice_set self.old.slots slot (pinned (slot_at self.old.slots slot));
        } }
    {
        self.entries[slot as usize].count += 1;
    }

    /// Holds a slot once less that is held. It takes no memory.
    pub fn release(&mut self, slot: u32)
        requires { 0 < (slot_at self.old.slots slot).count }
        ensures { self.new ≡ record self.old {
          slots = slice_set self.old.slots slot (released (slot_at self.old.slots slot));
        } }
    {
        let entry = &mut self.entries[slot as usize];
        entry.count -= 1;
        if entry.count == 0 {
            entry.piece = None;
            self.free.put_back(slot);
        }
    }

    /// Fills a slot of shared memory with a piece. It takes no memory.
    pub fn fill(&mut self, slot: u32, id: PieceId, b: &[u8])
        requires in_memory { slot < self.old.shmem }
        requires taken { 0 < (slot_at self.old.slots slot).count }
        requires fits { length b.now ≤ self.old.chunk }
        ensures { self.new ≡ record self.old {
          slots = slice_set self.old.slots slot
              (filled (record { id = id; len = length b.now; bytes = Some b.now })
              (slot_at self.old.slots slot));
        } }
    {
        let entry = &mut self.entries[slot as usize];
        put_first(&mut entry.buffer, b);
        entry.piece = Some(FilledPiece {
            id,
            len: b.len() as u32,
        });
    }

    /// Fills a slot of the spill device with a piece, whose bytes are kept there. It takes no
    /// memory.
    pub fn fill_spilled(&mut self, slot: u32, id: PieceId, b: &[u8])
        requires taken { 0 < (slot_at self.old.slots slot).count }
        requires fits { length b.now ≤ self.old.chunk }
        ensures filled { IsFilled slot id (length b.now) self.old self.new }
    {
        let entry = &mut self.entries[slot as usize];
        entry.piece = Some(FilledPiece {
            id,
            len: b.len() as u32,
        });
    }

    /// Fills `out` with bytes of the piece in a slot of shared memory.
    pub fn read(&self, slot: u32, from: u32, out: &mut [u8])
        requires in_memory { slot < self.now.shmem }
        requires inside { HasPieceOf (slot_at self.now.slots slot) (from + length out.old) }
        ensures { IfSome (bytes_of_slot (slot_at self.now.slots slot))
            (λ bytes. out.new ≡ slice_range bytes from (from + length out.old)) }
    {
        copy_part(&self.entries[slot as usize].buffer, from as usize, out);
    }
}
