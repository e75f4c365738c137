//! Which calls of an object in memory fail.

ghost use Rattle.std.specs.Prelude.{◌≡◌};
ghost use Rattle.fs_types.specs.Faults.{HasRisen, next_count};
ghost use Rattle.fs_dev.specs.InMemory.{Schedule, fresh_schedule, is_due};

use std::marker::Model;

/// The numbers, from 1, of the calls that fail, with the counts of calls and of failed calls.
#[derive(Debug, Drop)]
pub struct FailSchedule {
    fails: Vec<u64>,
    calls: u64,
    faults: u64,
}

impl Model for FailSchedule {
    ghost use Rattle.fs_dev.specs.InMemory.{Schedule};

    ghost Value = { Schedule };

    ghost view = { λ s. record { fails = s.fails.items; calls = s.calls; faults = s.faults } };
}

impl FailSchedule {
    pub fn new(fails: Vec<u64>) -> FailSchedule
        ensures { result ≡ fresh_schedule fails.items }
    {
        FailSchedule {
            fails,
            calls: 0,
            faults: 0,
        }
    }

    /// Counts one more call, and says whether it is one that fails.
    pub fn next_fails(&mut self) -> bool
        ensures due { result ≡ is_due self.old }
        ensures counted { self.new ≡ record self.old { calls = next_count self.old.calls } }
    {
        self.calls = self.calls.saturating_add(1);
        let number = self.calls;
        self.fails.iter().any(|n| *n == number)
    }

    /// Counts one more failed call.
    pub fn count_fault(&mut self)
        ensures counted { self.new ≡ record self.old { faults = next_count self.old.faults } }
        ensures risen { HasRisen self.old.faults self.new.faults }
    {
        self.faults = self.faults.saturating_add(1);
    }
}
