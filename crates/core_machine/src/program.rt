//! A client's program: its lines in order, and how far the client has come.

ghost use Rattle.std.specs.Prelude.{◌≡◌, ◌+◌, [], ◌∷◌, ◌++◌, length, map, replicate, IsSome, IfOk, OnOk};
ghost use Rattle.std.specs.Option.{option_map};
ghost use Rattle.fs_script.specs.Job.{op_at, phase};
ghost use Rattle.core_machine.specs.LegalSoFar.{HasClients};
ghost use Rattle.core_machine.specs.Turns.{is_of_phase};
ghost use Rattle.core_machine.specs.Program.{next_of, with_program_line, ArePrograms};

use fs_script::{Line, OpLine, Script};
use fs_types::{LineNo, Want};
use std::alloc::Global;

/// A client's lines in order, and how many of them were answered.
#[derive(Drop)]
pub struct Program {
    lines: Vec<LineNo>,
    place: usize,
}

impl Program {
    /// The line that is done next, if there is one.
    pub fn next(&self) -> Option<LineNo>
        ensures { result ≡ next_of self.now }
    {
        self.lines.get(self.place).copied()
    }

    /// The phase of the line that is done next.
    pub fn next_phase(&self, s: &Script) -> Option<u32>
        ensures { result ≡ option_map (phase s.now) (next_of self.now) }
    {
        self.next().map(|n| s.phase_of(n))
    }

    /// Whether a line is done next, and it is of this phase.
    pub fn goes_in(&self, s: &Script, phase: u32) -> bool
        ensures { result ≡ is_of_phase s.now phase (next_of self.now) }
    {
        self.next_phase(s) == Some(phase)
    }

    /// Puts a line at the end.
    fn push(&mut self, n: LineNo) -> Result<(), Want>
        ensures lines { OnOk result (self.new.lines.items ≡ self.old.lines.items ++ n ∷ []) }
        ensures place { self.new.place ≡ self.old.place }
    {
        self.lines.push(n)?;
        Ok(())
    }

    /// The next line was answered.
    pub fn advance(&mut self)
        requires { IsSome (next_of self.old) }
        ensures { self.new ≡ record self.old { place = self.old.place + 1 } }
    {
        self.place += 1;
    }
}

// The next two functions give what the programs need of a job and no more, so that no proof leans
// on the limits of a script.

/// How many clients the job has. Each operation is of one of them.
pub fn client_count(s: &Script) -> u32
    ensures count { result ≡ s.now.shape.clients }
    ensures job { HasClients s.now }
{
    s.shape().clients
}

/// The number after that of the last line.
fn lines_end(s: &Script) -> u32
    ensures { result ≡ length s.now.lines + 2 }
{
    s.lines() + 1
}

/// A program without lines for each client.
fn empty_programs(alloc: Global, clients: u32) -> Result<Vec<Program>, Want>
    ensures lines { IfOk result (λ v. map (λ p. p.lines.items) v.items ≡ replicate clients []) }
    ensures places { IfOk result (λ v. map (λ p. p.place) v.items ≡ replicate clients 0) }
{
    let mut programs = Vec::with_capacity(alloc, clients as usize)?;
    for _ in 0..clients {
        programs.push(Program {
            lines: Vec::new(alloc),
            place: 0,
        })?;
    }
    Ok(programs)
}

/// Puts line `n` at the end of its client's program, if it is an operation.
fn add_line(s: &Script, n: LineNo, programs: &mut [Program]) -> Result<(), Want>
    requires job { HasClients s.now }
    requires clients { length programs.old ≡ s.now.shape.clients }
    ensures lines { OnOk result (map (λ p. p.lines.items) programs.new
        ≡ with_program_line n (op_at s.now n) (map (λ p. p.lines.items) programs.old)) }
    ensures places { map (λ p. p.place) programs.new ≡ map (λ p. p.place) programs.old }
{
    match s.line(n) {
        Some(Line::Op(OpLine { rank, .. })) => programs[rank.0 as usize].push(n),
        _ => Ok(()),
    }
}

/// The clients' programs before the first answer.
pub fn programs_of(alloc: Global, s: &Script) -> Result<Vec<Program>, Want>
    ensures programs { IfOk result (λ v. ArePrograms s.now v.items) }
    ensures places { IfOk result (λ v. map (λ p. p.place) v.items
        ≡ replicate s.now.shape.clients 0) }
    ensures job { OnOk result (HasClients s.now) }
{
    let mut programs = empty_programs(alloc, client_count(s))?;
    for n in 2..lines_end(s) {
        add_line(s, LineNo(n), &mut programs)?;
    }
    Ok(programs)
}
