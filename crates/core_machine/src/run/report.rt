//! What is read of a run: journals, files and slots for a report, and the devices at the end.

ghost use Rattle.std.specs.Prelude.{◌≡◌, ◌<◌, false, Some, slice_get, length, map, IfOk};
ghost use Rattle.fs_script.specs.Report.{file_state_of};
ghost use Rattle.core_machine.specs.Moment.{journal, file_now};
ghost use Rattle.core_machine.specs.Slots.{census, count_in};
ghost use Rattle.core_machine.specs.Logs.{device_state};
ghost use Rattle.core_machine.specs.Core.{IsRun, moment};

use crate::books;
use crate::file_state::file_state;
use crate::logs::into_devices;
use crate::run::Run;
use fs_dev::SpillDev;
use fs_types::{FileState, LineNo, Path, Rank, SlotLine, Want};
use placement::{gfid_of, owner_of};
use slot_plain::PlainLog;

/// The journal of a path, empty where the script doesn't name it.
#[tactic(auto, using(crate::proofs::Refines::Reads::kept_reads))]
pub fn journal<'r, D: SpillDev + Drop>(run: &'r Run<'_, D>, p: &Path) -> &'r [LineNo]
    requires { IsRun run.now }
    ensures { result.now ≡ journal (moment run.now) p.now }
{
    if run.paths.index_of(p).is_none() {
        return &[];
    }
    books::journal(&run.books, run.script.shape().servers, p)
}

/// The file of a path, by the bytes in the logs. Once memory ran out what is kept is open, and the
/// answer is the same want.
#[tactic(auto, using(crate::proofs::Refines::Reads::kept_reads))]
pub fn file<D: SpillDev + Drop>(run: &mut Run<'_, D>, p: &Path) -> Result<FileState, Want>
    requires { IsRun run.old }
    ensures file { IfOk result (λ f. f ≡ file_state_of (file_now (moment run.old) p.now)) }
    ensures run { IsRun run.new }
    ensures same { moment run.new ≡ moment run.old }
{
    if run.spent {
        return Err(Want);
    }
    if run.paths.index_of(p).is_none() {
        return Ok(FileState::Gone);
    }
    let gfid = gfid_of(p);
    let owner = owner_of(gfid, run.script.shape().servers);
    let book = &mut run.books[owner.0 as usize];
    file_state(run.alloc, book, gfid, p, &mut run.logs)
}

// The log of a client that the job has.
fn log<'r, D: SpillDev + Drop>(run: &'r Run<'_, D>, r: Rank) -> &'r PlainLog<D>
    requires run { IsRun run.now }
    requires going { run.now.spent ≡ false }
    requires within { r < run.now.script.now.shape.clients }
    ensures { slice_get run.now.logs.items r ≡ Some result.now }
{
    &run.logs[r.0 as usize]
}

/// What a report says of a client's slots.
pub fn census<D: SpillDev + Drop>(run: &Run<'_, D>, r: Rank) -> SlotLine
    requires run { IsRun run.now }
    requires going { run.now.spent ≡ false }
    requires within { r < run.now.script.now.shape.clients }
    ensures { result ≡ census (moment run.now) r }
{
    log(run, r).line()
}

/// How often a slot of a client's log is held.
pub fn count<D: SpillDev + Drop>(run: &Run<'_, D>, r: Rank, slot: u32) -> u64
    requires run { IsRun run.now }
    requires going { run.now.spent ≡ false }
    requires within { r < run.now.script.now.shape.clients }
    ensures { result ≡ count_in (moment run.now) r slot }
{
    log(run, r).count(slot)
}

/// The clients' devices, in the vector that was given.
pub fn devices<D: SpillDev + Drop>(run: Run<'_, D>) -> Vec<D>
    requires { IsRun run }
    ensures one_each { length result.items ≡ run.entry.script.now.shape.clients }
    ensures devices { map (λ d. device_state (D.size d) (D.cells d) (D.faults d)) result.items
        ≡ map (λ log. log.device) run.entry.logs.items }
{
    into_devices(run.logs, run.devices)
}
