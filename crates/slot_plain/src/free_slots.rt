//! Which slots of a log are free, so that the lowest one is found without a walk. It touches
//! nothing outside memory.

ghost use Rattle.std.specs.Prelude.{◌≡◌, ◌+◌, ◌^◌, ◌<◌, [], ◌∷◌, ◌++◌, true, false, length, Some, OnOk, OnErr, slice_get, slice_set};
ghost use Rattle.slot_plain.specs.FreePlaces.{free_places};

use crate::least_tree::{LeastTree, NO_SLOT};
use fs_types::Want;
use std::alloc::Global;
use std::marker::Model;

/// For each slot whether it is free. A clause sees the list of these flags.
#[derive(Debug, Drop)]
pub struct FreeSlots {
    /// For each slot that there is room for a leaf with the slot's number, where there is such a
    /// slot and it is free. Each node above has the least number below it.
    tree: LeastTree,
    /// How many slots there are.
    len: usize,
    /// How many of them are free.
    count: usize,
}

impl Model for FreeSlots {
    ghost use Rattle.std.specs.Prelude.{Bool, List};
    ghost use Rattle.slot_plain.specs.LeastTree.{flags_in, KeepsFree};

    ghost Value = { List Bool };

    ghost view = { λ f. flags_in f.tree.nodes.items f.tree.room f.len };

    ghost invariant = { λ f. KeepsFree f.tree.nodes.items f.tree.room f.len f.count };
}

impl FreeSlots {
    /// No slots. It takes no memory.
    pub fn new(alloc: Global) -> FreeSlots
        ensures { result ≡ [] }
    {
        FreeSlots {
            tree: LeastTree::new(alloc),
            len: 0,
            count: 0,
        }
    }

    /// How many slots are free.
    pub fn count(&self) -> usize
        ensures { result ≡ length (free_places self.now) }
    {
        self.count
    }

    /// Adds a slot that is free, behind the others. Room is made twice as much where there is none,
    /// so it takes memory for few calls.
    #[tactic(auto, using(crate::proofs::FreeTrees::widen_laws))]
    pub fn add(&mut self, alloc: Global) -> Result<(), Want>
        requires { length self.old < NO_SLOT }
        ensures ok { OnOk result (self.new ≡ self.old ++ true ∷ []) }
        ensures err { OnErr result (self.new ≡ self.old) }
    {
        self.tree.widen_for(alloc, self.len)?;
        self.tree.set_leaf(self.len, self.len as u32);
        self.len += 1;
        self.count += 1;
        Ok(())
    }

    /// Takes the lowest slot that is free. It takes no memory.
    #[tactic(auto, using(crate::proofs::FreeTrees::take_laws))]
    pub fn take_lowest(&mut self) -> u32
        requires { 0 < length (free_places self.old) }
        ensures lowest { free_places self.old ≡ result ∷ free_places self.new }
        ensures free { slice_get self.old result ≡ Some true }
        ensures taken { self.new ≡ slice_set self.old result false }
    {
        let slot = self.tree.least();
        self.tree.set_leaf(slot as usize, NO_SLOT);
        self.count -= 1;
        slot
    }

    /// Makes a slot free that was taken. It takes no memory.
    #[tactic(auto, using(crate::proofs::FreeTrees::put_back_laws))]
    pub fn put_back(&mut self, slot: u32)
        requires { slice_get self.old slot ≡ Some false }
        ensures { self.new ≡ slice_set self.old slot true }
    {
        self.tree.set_leaf(slot as usize, slot);
        self.count += 1;
    }
}
