//! Room for a push that takes no memory when it is taken.

ghost use Rattle.std.specs.Prelude.{◌≡◌, ◌≤◌, ◌+◌, ◌*◌, length, vec_len, vec_capacity, OnOk};
ghost use Rattle.fs_types.specs.declared.limits.TheConstants.{LONGEST_FILE};

use fs_types::{Frag, Hold, Want};
use piece_table::HeldSpans;
use span_list::Spans;
use std::alloc::Global;
use std::mem;

/// Two empty vectors, with room for all fragments of a path and the holds of their pieces.
#[derive(Drop)]
pub struct PushRoom<H> {
    /// At least as many as there are fragments.
    pub most: usize,
    pub frags: Vec<Frag>,
    pub holds: Vec<H>,
}

impl<H: Hold + Drop> PushRoom<H> {
    ghost use Rattle.client_map.specs.Kept.{HasRoomForAll};

    /// Room for nothing. It takes no memory.
    pub fn new(alloc: Global) -> PushRoom<H>
        ensures most { result.most ≡ 0 }
        ensures empty { (vec_len result.frags ≡ 0) × (vec_len result.holds ≡ 0) }
    {
        PushRoom {
            most: 0,
            frags: Vec::new(alloc),
            holds: Vec::new(alloc),
        }
    }

    /// Makes room for so many parts more, each of which adds two fragments at most. The fragments
    /// are counted only where they might not fit, and then there is room for twice as many.
    pub fn reserve<S: Spans>(&mut self, held: &HeldSpans<H, S>, parts: usize) -> Result<(), Want>
        requires room { HasRoomForAll held.now self.old }
        requires few { parts ≤ LONGEST_FILE }
        ensures room { HasRoomForAll held.now self.new }
        ensures frags { OnOk result (self.new.most + 2 * parts ≤ vec_capacity self.new.frags) }
        ensures holds { OnOk result
            (length held.now.pieces.entries + parts ≤ vec_capacity self.new.holds) }
    {
        if self.frags.capacity() - self.most < 2 * parts {
            self.most = held.fragment_count();
            self.frags.reserve(2 * (self.most + parts))?;
        }
        self.holds.reserve(held.piece_count() + parts)?;
        Ok(())
    }

    /// The two vectors. It takes no memory, and leaves room for nothing.
    pub fn take(&mut self) -> (Vec<Frag>, Vec<H>)
        ensures vectors { result ≡ (self.old.frags, self.old.holds) }
        ensures most { self.new.most ≡ 0 }
        ensures empty { (vec_len self.new.frags ≡ 0) × (vec_len self.new.holds ≡ 0) }
    {
        let alloc = *self.frags.allocator();
        self.most = 0;
        (
            mem::replace(&mut self.frags, Vec::new(alloc)),
            mem::replace(&mut self.holds, Vec::new(alloc)),
        )
    }
}
