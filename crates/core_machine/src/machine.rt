//! The core: a job under way, seen as a moment of the machine.

ghost use Rattle.std.specs.Prelude.{◌≡◌, ◌<◌, ◌≤◌, ◌*◌, true, false, [], length, map, All, Contains, IfOk, OnOk, OnErr};
ghost use Rattle.fs_script.specs.Grammar.{IsJob};
ghost use Rattle.fs_script.specs.Report.{file_state_of};
ghost use Rattle.core_machine.specs.EventsLeft.{events_left};
ghost use Rattle.core_machine.specs.Moment.{IsFirst, ready, journal, file_now};
ghost use Rattle.core_machine.specs.Slots.{census, count_in};
ghost use Rattle.core_machine.specs.Step.{step};

use crate::path_table::PathTable;
use crate::run::{self, Run};
use fs_dev::SpillDev;
use fs_script::Script;
use fs_types::{Answers, FileState, LineNo, Path, Rank, SlotLine, Want};
use std::alloc::Global;
use std::marker::Model;

/// A job under way. A clause sees the moment that it has come to.
#[derive(Drop)]
pub struct Core<'s, D: SpillDev + Drop> {
    run: Run<'s, D>,
}

impl<'s, D: SpillDev + Drop> Model for Core<'s, D> {
    ghost use Rattle.core_machine.specs.Moment.{Moment};
    ghost use Rattle.core_machine.specs.Core.{IsRun, moment};

    ghost Value = { Moment };

    ghost view = { λ c. moment c.run };

    ghost invariant = { λ c. IsRun c.run };
}

impl<'s, D: SpillDev + Drop> Core<'s, D> {
    /// The run of a script before its first event, with a device for each client's log.
    pub fn new(alloc: Global, s: &'s Script, devices: Vec<D>) -> Result<Core<'s, D>, Want>
        requires one_each { length devices.items ≡ s.now.shape.clients }
        requires fit { All (λ d. s.now.shape.spill * s.now.shape.chunk ≤ D.size d) devices.items }
        ensures first { IfOk result (λ c. IsFirst s.now c) }
        ensures job { OnOk result (IsJob s.now) }
    {
        Ok(Core {
            run: run::first_run(alloc, s, devices)?,
        })
    }

    /// The clients that have an event left in the present phase, ascending.
    pub fn ready(&self) -> &[Rank]
        ensures { result.now ≡ ready self.now }
    {
        run::ready(&self.run)
    }

    /// One event of a client that is ready. After want of memory the run is spent: no client is
    /// ready any more.
    pub fn step(&mut self, r: Rank) -> Result<(), Want>
        requires { Contains (ready self.old) r }
        ensures ok { OnOk result (self.new ≡ step self.old (record { client = r })) }
        ensures nearer { OnOk result (events_left self.new < events_left self.old) }
        ensures spent { OnErr result (self.new.spent ≡ true) }
        ensures none_ready { OnErr result (ready self.new ≡ []) }
    {
        run::advance(&mut self.run, r)
    }

    /// The answers so far.
    pub fn answers(&self) -> &Answers
        ensures { result.now.list ≡ self.now.answers }
    {
        &self.run.answers
    }

    /// The answers, of which the run has no more use.
    pub fn into_answers(self) -> Answers
        ensures { result.list ≡ self.entry.answers }
    {
        self.run.answers
    }

    /// The paths that the script names.
    pub fn paths(&self) -> &PathTable
        ensures { result.now ≡ map (λ j. j.0) self.now.journals }
    {
        &self.run.paths
    }

    /// The lines that were committed to a path, in the owner's order; none for a path that the
    /// script doesn't name.
    pub fn journal(&self, p: &Path) -> &[LineNo]
        ensures { result.now ≡ journal self.now p.now }
    {
        run::journal(&self.run, p)
    }

    /// What a report says of a path's file as it is now; want of memory where the run is spent.
    pub fn file(&mut self, p: &Path) -> Result<FileState, Want>
        ensures file { IfOk result (λ f. f ≡ file_state_of (file_now self.old p.now)) }
        ensures same { self.new ≡ self.old }
    {
        run::file(&mut self.run, p)
    }

    /// The slots of a client's log.
    pub fn census(&self, r: Rank) -> SlotLine
        requires going { self.now.spent ≡ false }
        requires within { r < self.now.job.shape.clients }
        ensures { result ≡ census self.now r }
    {
        run::census(&self.run, r)
    }

    /// How often the piece in a slot of a client's log is held; 0 where the slot is free.
    pub fn count(&self, r: Rank, slot: u32) -> u64
        requires going { self.now.spent ≡ false }
        requires within { r < self.now.job.shape.clients }
        ensures { result ≡ count_in self.now r slot }
    {
        run::count(&self.run, r, slot)
    }

    /// The clients' devices, in order, in the vector that `new` was given.
    pub fn into_devices(self) -> Vec<D>
        ensures { length result.items ≡ self.entry.job.shape.clients }
    {
        run::devices(self.run)
    }
}
