//! What a run keeps, and its events: each is one of the machine of moments.

ghost use Rattle.std.specs.Prelude.{◌≡◌, ◌*◌, ◌<◌, ◌≤◌, ℕ, List, [], true, false, Some, slice_get, length, map, Contains, All, IfOk, OnOk, OnErr};
ghost use Rattle.std.specs.Option.{option_copied};
ghost use Rattle.fs_script.specs.Job.{op_at};
ghost use Rattle.fs_script.specs.Grammar.{IsJob};
ghost use Rattle.client_files.specs.Kept.{told_in};
ghost use Rattle.client_files.specs.PathMap.{Changes};
ghost use Rattle.core_machine.specs.Books.{ChangesPath, path_at};
ghost use Rattle.core_machine.specs.Core.{IsRun, moment, states};
ghost use Rattle.core_machine.specs.EventsLeft.{events_left};
ghost use Rattle.core_machine.specs.Follows.{FollowsAt, IsSoundAt};
ghost use Rattle.core_machine.specs.Gfids.{AreGfids};
ghost use Rattle.core_machine.specs.Kept.{noted_now};
ghost use Rattle.core_machine.specs.Logs.{device_state};
ghost use Rattle.core_machine.specs.Moment.{IsFirst, ready};
ghost use Rattle.core_machine.specs.MomentKept.{moment_of};
ghost use Rattle.core_machine.specs.PathStates.{AreKept, AreToldBut};
ghost use Rattle.core_machine.specs.Standing.{Holds};
ghost use Rattle.core_machine.specs.Step.{step};
ghost use Rattle.core_machine.specs.Turns.{after_line, going, turns_then, IsInPhase};

mod report;

use crate::books::{Book, new_books};
use crate::client::{Client, fresh_clients};
use crate::event;
use crate::logs::new_logs;
use crate::path_table::{Gfids, PathTable, paths_and_gfids};
use crate::task::{Task, idle_tasks};
use crate::turns::Turns;
use client_files::Board;
use fs_dev::SpillDev;
use fs_script::{Line, OpLine, Script};
use fs_types::{Answer, Answers, LineNo, Rank, Want};
use placement::owner_of;
pub use report::{census, count, devices, file, journal};
use slot_plain::PlainLog;
use std::alloc::Global;

/// What a run keeps. Before memory runs out it stands for a moment of the machine.
#[derive(Drop)]
pub struct Run<'s, D: SpillDev + Drop> {
    pub alloc: Global,
    pub script: &'s Script,
    pub paths: PathTable,
    /// The gfid of the path of each line.
    pub gfids: Gfids,
    /// What each server has of the paths that it owns.
    pub books: Vec<Book>,
    /// What all clients were told of paths.
    pub board: Board,
    /// The lines that may have changed a file since they were told last.
    pub changing: Vec<LineNo>,
    /// What each client keeps, by rank.
    pub clients: Vec<Client>,
    /// What each client is in the midst of, by rank.
    pub tasks: Vec<Task>,
    /// The log of each client, by rank.
    pub logs: Vec<PlainLog<D>>,
    /// No device, with room for those of the logs.
    pub devices: Vec<D>,
    pub answers: Answers,
    pub turns: Turns<'s>,
    /// Memory ran out.
    pub spent: bool,
}

// The operation of line `n`, if that is one.
fn operation(s: &Script, n: LineNo) -> Option<&OpLine>
    ensures { option_copied result ≡ op_at s.now n }
{
    match s.line(n) {
        Some(Line::Op(o)) => Some(o),
        _ => None,
    }
}

/// The run of a script before its first event, with a device for each client's log.
pub fn first_run<'s, D: SpillDev + Drop>(
    alloc: Global,
    s: &'s Script,
    devices: Vec<D>,
) -> Result<Run<'s, D>, Want>
    requires one_each { length devices.items ≡ s.now.shape.clients }
    requires fit { All (λ d. s.now.shape.spill * s.now.shape.chunk ≤ D.size d) devices.items }
    ensures run { IfOk result IsRun }
    ensures first { IfOk result (λ r. IsFirst s.now (moment r)) }
    ensures job { OnOk result (IsJob s.now) }
    ensures devices { IfOk result (λ r. map (λ log. log.device) r.logs.items
        ≡ map (λ d. device_state (D.size d) (D.cells d) (D.faults d)) devices.items) }
{
    let shape = s.shape();
    let (paths, gfids) = paths_and_gfids(alloc, s)?;
    let books = new_books(alloc, shape.servers)?;
    let board = Board::new(alloc)?;
    let clients = fresh_clients(alloc, shape.clients, shape.chunk)?;
    let tasks = idle_tasks(alloc, shape.clients)?;
    let mut room = devices;
    let logs = new_logs(alloc, s, &mut room)?;
    let answers = Answers::new(alloc, s.lines())?;
    let turns = Turns::new(alloc, s)?;
    Ok(Run {
        alloc,
        script: s,
        paths,
        gfids,
        books,
        board,
        changing: Vec::new(alloc),
        clients,
        tasks,
        logs,
        devices: room,
        answers,
        turns,
        spent: false,
    })
}

// The event of line `n`. After want of memory what is kept for its path and for the client, and the
// logs, are open.
fn event_on_path<D: SpillDev + Drop>(
    alloc: Global,
    s: &Script,
    gfids: &Gfids,
    n: LineNo,
    o: &OpLine,
    books: &mut [Book],
    board: &Board,
    clients: &mut [Client],
    tasks: &mut [Task],
    logs: &mut [PlainLog<D>],
) -> Result<Option<Answer>, Want>
    requires gfids { AreGfids s.now gfids.now }
    requires line { op_at s.now n ≡ Some o.now }
    requires kept { AreKept s.now books.old clients.old }
    requires sound { (lines : List ℕ) × IsSoundAt o.now.path s.now n o.now.op o.now.rank
        books.old board.now clients.old tasks.old logs.old lines }
    ensures kept { AreKept s.now books.new clients.new }
    ensures changes { ChangesPath books.old books.new o.now.path (path_at books.new o.now.path) }
    ensures follows { (lines : List ℕ) → IsSoundAt o.now.path s.now n o.now.op o.now.rank
        books.old board.now clients.old tasks.old logs.old lines
        → IfOk result (λ a. FollowsAt o.now.path s.now n o.now.op o.now.rank
        books.old books.new board.now clients.old clients.new tasks.old tasks.new
        logs.old logs.new lines a) }
{
    let gfid = gfids.of_line(n);
    let owner = owner_of(gfid, s.shape().servers);
    let book = &mut books[owner.0 as usize];
    let r = o.rank;
    let at = r.0 as usize;
    let client = &mut clients[at];
    event::event(
        alloc,
        s,
        n,
        o,
        book,
        gfid,
        board,
        client,
        &mut tasks[at],
        logs,
    )
}

// One event of the next line of a client that goes; whether the line was answered. After want of
// memory what is kept for that line's path and for the client, and the logs, are open.
fn event_of_line<D: SpillDev + Drop>(run: &mut Run<'_, D>, r: Rank) -> Result<bool, Want>
    requires run { IsRun run.old }
    requires unspent { run.old.spent ≡ false }
    requires going { Contains (going run.old.turns) r }
    ensures kept { AreKept run.new.script.now run.new.books.items run.new.clients.items }
    ensures sized { length run.new.logs.items ≡ length run.old.logs.items }
    ensures told { OnOk result (AreToldBut run.new.script.now run.new.changing.items run.new.board
        run.new.books.items) }
    ensures holds { IfOk result (λ answered. Holds run.new.script.now run.new.paths
        (states run.new) run.new.answers (turns_then answered r run.new.turns)
        run.new.tasks.items run.new.logs.items) }
    ensures step { IfOk result (λ answered. moment_of run.new.script.now run.new.paths
        (states run.new) run.new.answers (turns_then answered r run.new.turns)
        run.new.tasks.items run.new.logs.items false
        ≡ step (moment run.old) (record { client = r })) }
    ensures rest { run.new ≡ record run.old {
      books = run.new.books;
      changing = run.new.changing;
      clients = run.new.clients;
      tasks = run.new.tasks;
      logs = run.new.logs;
      answers = run.new.answers;
    } }
{
    let n = run.turns.next(r);
    let Some(o) = operation(run.script, n) else {
        unreachable!()
    };
    let answer = event_on_path(
        run.alloc,
        run.script,
        &run.gfids,
        n,
        o,
        &mut run.books,
        &run.board,
        &mut run.clients,
        &mut run.tasks,
        &mut run.logs,
    )?;
    match answer {
        Some(answer) => {
            run.answers.set(n, answer);
            if event::may_commit(&o.op) {
                run.changing.push(n)?;
            }
            Ok(true)
        }
        None => Ok(false),
    }
}

// Tells all clients of the path of line `n` what its owner has.
fn tell_path(
    alloc: Global,
    s: &Script,
    gfids: &Gfids,
    n: LineNo,
    o: &OpLine,
    books: &[Book],
    board: &mut Board,
) -> Result<(), Want>
    requires gfids { AreGfids s.now gfids.now }
    requires line { op_at s.now n ≡ Some o.now }
    requires servers { length books.now ≡ s.now.shape.servers }
    ensures { OnOk result (Changes (told_in board.old) (told_in board.new) o.now.path
        (noted_now (path_at books.now o.now.path))) }
{
    let gfid = gfids.of_line(n);
    let owner = owner_of(gfid, s.shape().servers);
    let p = &o.path;
    let (v, attr) = books[owner.0 as usize].attr(gfid, p);
    board.set(alloc, p, v, attr)
}

// Tells all clients of the paths of these lines, where they know of every other.
fn tell(
    alloc: Global,
    s: &Script,
    gfids: &Gfids,
    books: &[Book],
    board: &mut Board,
    changing: &[LineNo],
) -> Result<(), Want>
    requires gfids { AreGfids s.now gfids.now }
    requires servers { length books.now ≡ s.now.shape.servers }
    requires told { AreToldBut s.now changing.now board.old books.now }
    ensures { OnOk result (AreToldBut s.now [] board.new books.now) }
{
    for n in changing {
        if let Some(o) = operation(s, *n) {
            tell_path(alloc, s, gfids, *n, o, books, board)?;
        }
    }
    Ok(())
}

// Goes on to the next line of a client, and where that begins a phase, tells all clients of the
// paths of the lines that may have changed a file since they were told. After want of memory what
// was told is open.
fn go_on<D: SpillDev + Drop>(run: &mut Run<'_, D>, r: Rank) -> Result<(), Want>
    requires gfids { AreGfids run.old.script.now run.old.gfids }
    requires kept { AreKept run.old.script.now run.old.books.items run.old.clients.items }
    requires told { AreToldBut run.old.script.now run.old.changing.items run.old.board
        run.old.books.items }
    requires going { Contains (going run.old.turns) r }
    requires holds { Holds run.old.script.now run.old.paths (states run.old) run.old.answers
        (after_line run.old.turns r) run.old.tasks.items run.old.logs.items }
    requires unspent { run.old.spent ≡ false }
    ensures phases { IsInPhase run.new.turns }
    ensures told { OnOk result (AreToldBut run.new.script.now run.new.changing.items run.new.board
        run.new.books.items) }
    ensures holds { OnOk result (Holds run.new.script.now run.new.paths (states run.new)
        run.new.answers run.new.turns run.new.tasks.items run.new.logs.items) }
    ensures moment { OnOk result (moment run.new
        ≡ moment_of run.old.script.now run.old.paths (states run.old) run.old.answers
        (after_line run.old.turns r) run.old.tasks.items run.old.logs.items false) }
    ensures rest { run.new ≡ record run.old {
      board = run.new.board;
      changing = run.new.changing;
      turns = run.new.turns;
    } }
{
    if run.turns.advance(r) {
        tell(
            run.alloc,
            run.script,
            &run.gfids,
            &run.books,
            &mut run.board,
            &run.changing,
        )?;
        run.changing.clear();
    }
    Ok(())
}

/// One event of a client that is ready.
pub fn advance<D: SpillDev + Drop>(run: &mut Run<'_, D>, r: Rank) -> Result<(), Want>
    requires run { IsRun run.old }
    requires ready { Contains (ready (moment run.old)) r }
    ensures run { IsRun run.new }
    ensures ok { OnOk result (moment run.new ≡ step (moment run.old) (record { client = r })) }
    ensures nearer { OnOk result (events_left (moment run.new) < events_left (moment run.old)) }
    ensures spent { OnErr result (run.new.spent ≡ true) }
{
    match event_of_line(run, r) {
        Ok(true) => {
            if let Err(want) = go_on(run, r) {
                run.spent = true;
                return Err(want);
            }
            Ok(())
        }
        Ok(false) => Ok(()),
        Err(want) => {
            run.spent = true;
            Err(want)
        }
    }
}

/// The clients that may go: none once memory ran out.
pub fn ready<'r, D: SpillDev + Drop>(run: &'r Run<'_, D>) -> &'r [Rank]
    requires { IsRun run.now }
    ensures { result.now ≡ ready (moment run.now) }
{
    if run.spent { &[] } else { run.turns.ready() }
}
