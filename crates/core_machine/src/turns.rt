//! Whose turn it may be: the clients whose next line is of the phase that the run is in.

ghost use Rattle.std.specs.Prelude.{◌≡◌, ◌<◌, ◌≤◌, ◌+◌, false, [], Contains, IsTrue, Some};
ghost use Rattle.std.specs.Prelude.{IfNone, IfSome, IfOk, OnOk, replicate, slice_index, slice_set, vec_capacity};
ghost use Rattle.fs_script.specs.Job.{phase};
ghost use Rattle.core_machine.specs.Turns.{next_in, going, IsInPhase};
ghost use Rattle.core_machine.specs.Program.{next_phases, IsLeast, ArePrograms, places_of};

use crate::program::{Program, client_count, programs_of};
use fs_script::Script;
use fs_types::{LineNo, Rank, Want};
use std::alloc::Global;
use std::marker::Model;

/// Each client's program with how far it has come, and the phase of the run. A clause sees the job,
/// the clients' places in their programs, and the phase.
#[derive(Drop)]
pub struct Turns<'s> {
    script: &'s Script,
    /// For each client, by rank.
    programs: Vec<Program>,
    phase: u32,
    /// The clients that may go, ascending, with room for all, so that it takes memory only once.
    ready: Vec<Rank>,
}

impl<'s> Model for Turns<'s> {
    ghost use Rattle.std.specs.Prelude.{vec_capacity};
    ghost use Rattle.core_machine.specs.Turns.{Places};
    ghost use Rattle.core_machine.specs.Program.{places_of, IsKept};

    ghost Value = { Places };

    ghost view = { λ t. places_of t.script.now t.programs.items t.phase };

    ghost invariant = { λ t. IsKept t.script.now t.programs.items t.phase
        t.ready.items (vec_capacity t.ready) };
}

/// The least phase of the lines that are done next, or `None` where no client has a line left.
fn least_phase(s: &Script, programs: &[Program]) -> Option<u32>
    ensures none { IfNone result (next_phases s.now programs.now ≡ []) }
    ensures least { IfSome result (IsLeast (next_phases s.now programs.now)) }
{
    programs.iter().filter_map(|p| p.next_phase(s)).min()
}

/// Puts the clients that go in this phase into `ready`, which is empty and has room for all.
fn fill_ready(s: &Script, programs: &[Program], phase: u32, ready: &mut Vec<Rank>)
    requires programs { ArePrograms s.now programs.now }
    requires empty { ready.old.items ≡ [] }
    requires room { s.now.shape.clients ≤ vec_capacity ready.old }
    ensures going { ready.new.items ≡ going (places_of s.now programs.now phase) }
    ensures room { vec_capacity ready.new ≡ vec_capacity ready.old }
{
    for r in 0..client_count(s) {
        if programs[r as usize].goes_in(s, phase) {
            ready.push_reserved(Rank(r));
        }
    }
}

impl<'s> Turns<'s> {
    /// Before the first answer.
    pub fn new(alloc: Global, s: &'s Script) -> Result<Turns<'s>, Want>
        ensures job { IfOk result (λ t. t.job ≡ s.now) }
        ensures places { IfOk result (λ t. t.places ≡ replicate s.now.shape.clients 0) }
        ensures phase { IfOk result IsInPhase }
        ensures empty { IfOk result (λ t. going t ≡ [] → t.phase ≡ 0) }
    {
        let programs = programs_of(alloc, s)?;
        let mut ready = Vec::with_capacity(alloc, programs.len())?;
        let phase = least_phase(s, &programs).unwrap_or(0);
        fill_ready(s, &programs, phase, &mut ready);
        Ok(Turns {
            script: s,
            programs,
            phase,
            ready,
        })
    }

    /// The clients that may go, ascending: each has a next line in the phase that the run is in.
    pub fn ready(&self) -> &[Rank]
        ensures ready { result.now ≡ going self.now }
        ensures phase { IsInPhase self.now }
    {
        &self.ready
    }

    /// The line that a client does next.
    pub fn next(&self, r: Rank) -> LineNo
        requires { Contains (going self.now) r }
        ensures next { next_in self.now r ≡ Some result }
        ensures of_phase { phase self.now.job result ≡ self.now.phase }
        ensures phase { IsInPhase self.now }
    {
        self.programs[r.0 as usize].next().unwrap()
    }

    /// The next line of client `r` was answered. The answer says whether that began a new phase.
    /// It takes constant time while the client's next line is of the same phase. Where the client
    /// has no more line in it, the clients that go are walked, and at the phase's end all clients.
    pub fn advance(&mut self, r: Rank) -> bool
        requires { Contains (going self.old) r }
        ensures job { self.new.job ≡ self.old.job }
        ensures places { self.new.places
            ≡ slice_set self.old.places r (slice_index self.old.places r + 1) }
        ensures begins { IsTrue result → self.old.phase < self.new.phase }
        ensures goes_on { result ≡ false → self.new.phase ≡ self.old.phase }
        ensures last { going self.new ≡ [] → result ≡ false }
        ensures phase { IsInPhase self.new }
    {
        let program = &mut self.programs[r.0 as usize];
        program.advance();
        if program.goes_in(self.script, self.phase) {
            return false;
        }
        self.ready.retain(|q| *q != r);
        if !self.ready.is_empty() {
            return false;
        }
        let Some(phase) = least_phase(self.script, &self.programs) else {
            return false;
        };
        self.phase = phase;
        fill_ready(self.script, &self.programs, phase, &mut self.ready);
        true
    }
}
