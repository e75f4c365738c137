//! Running a job to its end, and what it reports then.

ghost use Rattle.std.specs.Prelude.{◌≡◌, ℕ, ◌<◌, List, [], ◌∷◌, ◌++◌, length, map, replicate, slice_get, unwrap_or, false, Some, Contains, IfNone, IfOk, OnOk};
ghost use Rattle.fs_types.specs.PathText.{IsPath};
ghost use Rattle.fs_script.specs.Report.{AreRising, IsLegal, file_state_of};
ghost use Rattle.core_machine.specs.Moment.{file_now};
ghost use Rattle.core_machine.specs.MomentReport.{report_of};
ghost use Rattle.fs_report.specs.ReportView.{report_view};
ghost use Rattle.core_run.specs.ExactSlots.{AreExactSlots};
ghost use Rattle.core_run.specs.PathReport.{journal_entry, file_entry};
ghost use Rattle.core_run.specs.PickedRun.{picked, IsRunUnder, IsReportUnder};

use crate::fault::RunFault;
use core_machine::{Core, held_is_exact, runs_are_legal};
use fs_dev::{CalmDev, Host};
use fs_plain::Journals;
use fs_report::{FileList, JobEnd, Report, SlotList};
use fs_script::Script;
use fs_types::{FileState, LineNo, Path, PathFault, Rank, Want};
use std::alloc::Global;

// What a run reports of a path.
#[derive(Debug, Drop)]
struct PathReport {
    path: Path,
    journal: Vec<LineNo>,
    state: FileState,
}

// The pick at a place; 0 where there are none.
fn pick_in(picks: &[u32], at: usize) -> u32
    ensures { result ≡ unwrap_or (slice_get picks.now at) 0 }
{
    picks.get(at).copied().unwrap_or(0)
}

// The client that a pick chooses of those that are ready, where one is.
fn picked_client(ready: &[Rank], pick: u32) -> Option<Rank>
    ensures picked { result ≡ picked pick ready.now }
    ensures none { IfNone result (ready.now ≡ []) }
{
    match ready {
        [] => None,
        _ => Some(ready[pick as usize % ready.len()]),
    }
}

// Gives each turn to the client that the next pick chooses until none is ready. The picks go round.
fn run_to_end(core: &mut Core<'_, CalmDev>, picks: &[u32]) -> Result<(), Want>
    ensures { OnOk result (IsRunUnder picks.now core.old core.new) }
{
    let mut at = 0;
    while let Some(r) = picked_client(core.ready(), pick_in(picks, at)) {
        core.step(r)?;
        at = (at + 1) % picks.len().max(1);
    }
    Ok(())
}

// The path that the bytes spell.
fn known_path(alloc: Global, bytes: &[u8]) -> Result<Path, Want>
    requires { IsPath bytes.now }
    ensures { IfOk result (λ p. p ≡ bytes.now) }
{
    match Path::read(alloc, bytes) {
        Ok(path) => Ok(path),
        Err(PathFault::Want) => Err(Want),
        Err(PathFault::BadPath) => unreachable!(),
    }
}

// What the run reports of the path at place `i` of the byte order.
fn path_report(alloc: Global, core: &mut Core<'_, CalmDev>, i: usize) -> Result<PathReport, Want>
    requires within { i < length core.old.journals }
    requires rising { AreRising (map (λ j. j.0) core.old.journals) }
    requires paths { (p : List ℕ) → Contains (map (λ j. j.0) core.old.journals) p → IsPath p }
    ensures journal { IfOk result (λ r. slice_get core.old.journals i ≡ Some (journal_entry r)) }
    ensures state { IfOk result (λ r. r.state ≡ file_state_of (file_now core.old r.path)) }
    ensures same { core.new ≡ core.old }
{
    let path = known_path(alloc, core.paths().path(i))?;
    let journal = Vec::from_slice(alloc, core.journal(&path))?;
    let state = core.file(&path)?;
    Ok(PathReport {
        path,
        journal,
        state,
    })
}

// Adds what is reported of a path.
fn add_report(
    alloc: Global,
    journals: &mut Journals,
    files: &mut FileList,
    report: PathReport,
) -> Result<(), Want>
    ensures journal { OnOk result (journals.new ≡ journals.old ++ journal_entry report ∷ []) }
    ensures file { OnOk result (files.new ≡ files.old ++ file_entry report ∷ []) }
{
    journals.add(report.path.copy(alloc)?, report.journal)?;
    files.add(report.path, report.state)
}

// What the run reports of its paths, in byte order.
fn path_lists(alloc: Global, core: &mut Core<'_, CalmDev>) -> Result<(Journals, FileList), Want>
    requires rising { AreRising (map (λ j. j.0) core.old.journals) }
    requires paths { (p : List ℕ) → Contains (map (λ j. j.0) core.old.journals) p → IsPath p }
    ensures journals { IfOk result (λ r. r.0 ≡ core.old.journals) }
    ensures files { IfOk result (λ r. r.1 ≡ (report_of core.old).files) }
    ensures same { core.new ≡ core.old }
{
    let mut journals = Journals::new(alloc);
    let mut files = FileList::new(alloc);
    for i in 0..core.paths().len() {
        let report = path_report(alloc, core, i)?;
        add_report(alloc, &mut journals, &mut files, report)?;
    }
    Ok((journals, files))
}

// What the run reports of each client's slots, by rank.
fn slot_list(alloc: Global, core: &Core<'_, CalmDev>, clients: u32) -> Result<SlotList, Want>
    requires going { core.now.spent ≡ false }
    requires clients { clients ≡ core.now.job.shape.clients }
    ensures { IfOk result (λ slots. slots ≡ (report_of core.now).slots) }
{
    let mut slots = SlotList::new(alloc);
    for r in 0..clients {
        slots.add(core.census(Rank(r)))?;
    }
    Ok(slots)
}

// For each client a device of no bytes, since no log reaches beyond the memory.
fn devices(alloc: Global, clients: u32) -> Result<Vec<CalmDev>, Want>
    ensures { IfOk result (λ devices. devices.items ≡ replicate clients []) }
{
    let mut devices = Vec::with_capacity(alloc, clients as usize)?;
    for _ in 0..clients {
        devices.push(CalmDev::new(alloc, 0)?)?;
    }
    Ok(devices)
}

// What a job reports in the end under these picks.
fn report(alloc: Global, s: &Script, picks: &[u32]) -> Result<Report, Want>
    ensures legal { IfOk result (λ r. (told : List ℕ) → IsLegal s.now (report_view r) told) }
    ensures slots { IfOk result (λ r. AreExactSlots s.now (report_view r)) }
    ensures run { IfOk result (λ r. IsReportUnder picks.now s.now (report_view r)) }
    ensures sized { IfOk result (λ r. length r.journals ≡ length r.files) }
{
    let clients = s.shape().clients;
    let mut core = Core::new(alloc, s, devices(alloc, clients)?)?;
    run_to_end(&mut core, picks)?;
    runs_are_legal();
    held_is_exact();
    let (journals, files) = path_lists(alloc, &mut core)?;
    let slots = slot_list(alloc, &core, clients)?;
    Ok(Report {
        answers: core.into_answers(),
        journals,
        files,
        slots,
    })
}

/// Runs a job to its end under these picks, and reports it. It asks the host for nothing yet.
pub fn simulate<H: Host>(
    alloc: Global,
    s: &Script,
    picks: &[u32],
    _host: &mut H,
) -> Result<JobEnd, RunFault>
    ensures legal { IfOk result
        (λ end. (told : List ℕ) → IsLegal s.now (report_view end.report) told) }
    ensures slots { IfOk result (λ end. AreExactSlots s.now (report_view end.report)) }
    ensures run { IfOk result (λ end. IsReportUnder picks.now s.now (report_view end.report)) }
    ensures sized { IfOk result (λ end. length end.report.journals ≡ length end.report.files) }
    ensures outs { IfOk result (λ end. end.outs.items ≡ []) }
    ensures host { _host.new ≡ _host.old }
{
    Ok(JobEnd {
        report: report(alloc, s, picks)?,
        outs: Vec::new(alloc),
    })
}

#[cfg(test)]
mod tests;
