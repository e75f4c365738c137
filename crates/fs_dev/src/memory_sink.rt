//! Sinks that hold their bytes in memory.

ghost use Rattle.std.specs.Prelude.{◌≡◌, ◌≤◌, ◌<◌, ◌-◌, ◌++◌, [], length, take, is_err, IfOk, OnOk, OnErr, Some};
ghost use Rattle.fs_types.specs.Faults.{HasRisen};
ghost use Rattle.fs_dev.specs.InMemory.{after_call, fresh_schedule, taken_len, refuses};

use crate::schedule::FailSchedule;
use crate::sink::{Sink, WriteFailed};
use fs_types::Want;
use std::alloc::Global;
use std::marker::Model;

/// A sink that has its whole memory from the start. The calls of some numbers fail, and so do those
/// that bring bytes when no room is left.
#[derive(Debug, Drop)]
pub struct MemSink {
    bytes: Vec<u8>,
    taken: usize,
    step: usize,
    schedule: FailSchedule,
}

impl Model for MemSink {
    ghost use Rattle.std.specs.Prelude.{◌≤◌, ◌-◌, take, vec_len};
    ghost use Rattle.fs_dev.specs.InMemory.{FaultySink};

    ghost Value = { FaultySink };

    ghost view = { λ s. record {
      held = take s.taken s.bytes.items;
      room = vec_len s.bytes - s.taken;
      step = s.step;
      schedule = s.schedule;
    } };

    ghost invariant = { λ s. (s.taken ≤ vec_len s.bytes) × (1 ≤ s.step) };
}

impl MemSink {
    /// A sink with room for `room` bytes, which takes at most `step` at a time. The calls whose
    /// numbers, from 1, are in `fails` fail.
    pub fn new(alloc: Global, room: usize, step: usize, fails: Vec<u64>) -> Result<MemSink, Want>
        requires { 1 ≤ step }
        ensures { IfOk result
            (λ s. s ≡ record {
              held = [];
              room = room;
              step = step;
              schedule = fresh_schedule fails.items;
            }) }
    {
        Ok(MemSink {
            bytes: vec![in alloc; 0; room]?,
            taken: 0,
            step,
            schedule: FailSchedule::new(fails),
        })
    }

    /// The bytes that it took.
    pub fn bytes(&self) -> &[u8]
        ensures { result.now ≡ self.now.held }
    {
        &self.bytes[..self.taken]
    }
}

impl Sink for MemSink {
    ghost held = { λ s. Some s.held };

    ghost faults = { λ s. s.schedule.faults };

    fn write(&mut self, b: &[u8]) -> Result<usize, WriteFailed>
        ensures within { IfOk result (λ n. n ≤ length b.now) }
        ensures progress { IfOk result (λ n. 0 < length b.now → 0 < n) }
        ensures taken { IfOk result (λ n. self.new.held ≡ self.old.held ++ take n b.now) }
        ensures calm { OnOk result (self.new.schedule.faults ≡ self.old.schedule.faults) }
        ensures risen { OnErr result (HasRisen self.old.schedule.faults self.new.schedule.faults) }
        ensures unmoved { OnErr result (self.new.held ≡ self.old.held) }
        ensures refused { is_err result ≡ refuses self.old b.now }
        ensures count { IfOk result (λ n. n ≡ taken_len self.old b.now) }
        ensures room { IfOk result (λ n. self.new.room ≡ self.old.room - n) }
        ensures same_room { OnErr result (self.new.room ≡ self.old.room) }
        ensures step { self.new.step ≡ self.old.step }
        ensures schedule { self.new.schedule ≡ after_call self.old.schedule (is_err result) }
    {
        let due = self.schedule.next_fails();
        if due || (!b.is_empty() && self.taken == self.bytes.len()) {
            self.schedule.count_fault();
            return Err(WriteFailed);
        }
        let n = self.step.min(b.len()).min(self.bytes.len() - self.taken);
        self.bytes[self.taken..self.taken + n].copy_from_slice(&b[..n]);
        self.taken += n;
        Ok(n)
    }
}
