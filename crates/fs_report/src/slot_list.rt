//! The slots of a report, by client.

ghost use Rattle.std.specs.Prelude.{◌≡◌, ◌<◌, ◌++◌, [], ◌∷◌, length, slice_get, Some, OnOk, OnErr};

use fs_types::{SlotLine, Want};
use std::alloc::Global;
use std::marker::Model;

/// What a report says of the clients' logs. A clause sees the list of it.
#[derive(Debug, Drop)]
pub struct SlotList {
    slots: Vec<SlotLine>,
}

impl Model for SlotList {
    ghost use Rattle.std.specs.Prelude.{List};
    ghost use Rattle.fs_types.specs.declared.slot_line.SlotLine.{SlotLine as Line};

    ghost Value = { List Line };

    ghost view = { λ l. l.slots.items };
}

impl SlotList {
    /// No clients. It takes no memory.
    pub fn new(alloc: Global) -> SlotList
        ensures { result ≡ [] }
    {
        SlotList {
            slots: Vec::new(alloc),
        }
    }

    /// Adds the slots of one client at the end.
    pub fn add(&mut self, l: SlotLine) -> Result<(), Want>
        ensures ok { OnOk result (self.new ≡ self.old ++ l ∷ []) }
        ensures err { OnErr result (self.new ≡ self.old) }
    {
        self.slots.push(l)?;
        Ok(())
    }

    /// Of how many clients there are slots.
    pub fn len(&self) -> usize
        ensures { result ≡ length self.now }
    {
        self.slots.len()
    }

    /// The slots at a place.
    pub fn at(&self, i: usize) -> &SlotLine
        requires { i < length self.now }
        ensures { slice_get self.now i ≡ Some result.now }
    {
        &self.slots[i]
    }
}
