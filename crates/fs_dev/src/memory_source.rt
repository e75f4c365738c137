//! Sources that hold their bytes in memory.

ghost use Rattle.std.specs.Prelude.{◌≡◌, ◌≤◌, length, IsOk, is_err, IfOk, OnOk, OnErr, Some};
ghost use Rattle.fs_types.specs.Faults.{HasRisen};
ghost use Rattle.fs_dev.specs.Source.{IsReadOf, IsUnread};
ghost use Rattle.fs_dev.specs.InMemory.{is_due, after_call, fresh_schedule, portion_len, after_portion};

use crate::portions::PortionedBytes;
use crate::schedule::FailSchedule;
use crate::source::{ReadFailed, Source};
use std::marker::Model;

/// A source whose calls never fail.
#[derive(Debug, Drop)]
pub struct CalmSource {
    text: PortionedBytes,
}

impl Model for CalmSource {
    ghost use Rattle.fs_dev.specs.InMemory.{Portions};

    ghost Value = { Portions };

    ghost view = { λ s. s.text };
}

impl CalmSource {
    /// A source of these bytes, which gives at most `step` at a time.
    pub fn new(bytes: Vec<u8>, step: usize) -> CalmSource
        requires { 1 ≤ step }
        ensures { result ≡ record { left = bytes.items; step = step } }
    {
        CalmSource {
            text: PortionedBytes::new(bytes, step),
        }
    }
}

impl Source for CalmSource {
    ghost left = { λ s. Some s.left };

    ghost faults = { λ _. 0 };

    fn read(&mut self, out: &mut [u8]) -> Result<usize, ReadFailed>
        ensures within { IfOk result (λ n. n ≤ length out.old) }
        ensures given { IfOk result
            (λ n. IsReadOf n (Some self.old.left) (Some self.new.left) out.old out.new) }
        ensures never_fails { IsOk result }
        ensures portion { IfOk result (λ n. n ≡ portion_len self.old (length out.old)) }
        ensures after { IfOk result (λ n. self.new ≡ after_portion self.old n) }
    {
        Ok(self.text.give(out))
    }
}

/// A source whose calls of some numbers fail.
#[derive(Debug, Drop)]
pub struct MemSource {
    text: PortionedBytes,
    schedule: FailSchedule,
}

impl Model for MemSource {
    ghost use Rattle.fs_dev.specs.InMemory.{FaultySource};

    ghost Value = { FaultySource };

    ghost view = { λ s. record { text = s.text; schedule = s.schedule } };
}

impl MemSource {
    /// A source of these bytes, which gives at most `step` at a time. The calls whose numbers, from
    /// 1, are in `fails` fail.
    pub fn new(bytes: Vec<u8>, step: usize, fails: Vec<u64>) -> MemSource
        requires { 1 ≤ step }
        ensures text { result.text ≡ record { left = bytes.items; step = step } }
        ensures schedule { result.schedule ≡ fresh_schedule fails.items }
    {
        MemSource {
            text: PortionedBytes::new(bytes, step),
            schedule: FailSchedule::new(fails),
        }
    }
}

impl Source for MemSource {
    ghost left = { λ s. Some s.text.left };

    ghost faults = { λ s. s.schedule.faults };

    fn read(&mut self, out: &mut [u8]) -> Result<usize, ReadFailed>
        ensures within { IfOk result (λ n. n ≤ length out.old) }
        ensures given { IfOk result
            (λ n. IsReadOf n (Some self.old.text.left) (Some self.new.text.left) out.old out.new) }
        ensures calm { OnOk result (self.new.schedule.faults ≡ self.old.schedule.faults) }
        ensures risen { OnErr result (HasRisen self.old.schedule.faults self.new.schedule.faults) }
        ensures unmoved { OnErr result
            (IsUnread (Some self.old.text.left) (Some self.new.text.left) out.old out.new) }
        ensures due { is_err result ≡ is_due self.old.schedule }
        ensures portion { IfOk result (λ n. n ≡ portion_len self.old.text (length out.old)) }
        ensures after { IfOk result (λ n. self.new.text ≡ after_portion self.old.text n) }
        ensures schedule { self.new.schedule ≡ after_call self.old.schedule (is_err result) }
    {
        if self.schedule.next_fails() {
            self.schedule.count_fault();
            return Err(ReadFailed);
        }
        Ok(self.text.give(out))
    }
}
