//! The command `sim`: a script from the input, simulated, and its report as a text.

ghost use Rattle.std.specs.Prelude.{◌≡◌, ◌≢◌, ◌⊎◌, ℕ, List, length, Err, IfOk, IfSome, IsErrOf};
ghost use Rattle.fs_script.specs.Report.{Report, IsLegal};
ghost use Rattle.fs_script.specs.Text.{text};
ghost use Rattle.fs_types.specs.Faults.{HasRisen};
ghost use Rattle.fs_dev.specs.Told.{IsAtEnd};
ghost use Rattle.top_call.specs.UsageAndRefusals.{refusal_line};
ghost use Rattle.top_call.specs.CommandAnswer.{IsSimAnswer};
ghost use Rattle.fs_report.specs.ReportView.{report_view};
ghost use Rattle.core_run.specs.ExactSlots.{AreExactSlots};
ghost use Rattle.core_run.specs.Picks.{first_picks};
ghost use Rattle.core_run.specs.PickedRun.{IsReportUnder};

use crate::refusal::refusal_text;
use core_run::{PICK_COUNT, RunFault, picks_of, simulate};
use fs_dev::{Host, ReadAllNo, Source, read_all};
use fs_report::{JobEnd, report_text};
use fs_script::limits::SCRIPT_LIMIT;
use fs_script::{Script, ScriptFault, read_script};
use fs_types::{Status, Want};
use std::alloc::Global;
use thiserror::Error;

/// A text that is to be written, and the status of the command once it is.
#[derive(Debug, Drop)]
pub struct Reply {
    pub status: Status,
    pub text: Vec<u8>,
}

/// Why there is nothing to write.
#[derive(Clone, Copy, Debug, Drop, PartialEq, Eq, Error)]
pub enum SimFault {
    /// The input failed.
    #[error("the input failed")]
    ReadFault,
    /// Memory ran out.
    #[error("out of memory")]
    Memory,
}

// How a script's job ends where it is run under the picks of a seed.
fn run_under_seed<H: Host>(
    alloc: Global,
    seed: u64,
    s: &Script,
    host: &mut H,
) -> Result<JobEnd, RunFault>
    ensures legal { IfOk result
        (λ end. (told : List ℕ) → IsLegal s.now (report_view end.report) told) }
    ensures slots { IfOk result (λ end. AreExactSlots s.now (report_view end.report)) }
    ensures run { IfOk result
        (λ end. IsReportUnder (first_picks seed PICK_COUNT) s.now (report_view end.report)) }
    ensures sized { IfOk result (λ end. length end.report.journals ≡ length end.report.files) }
    ensures host { host.new ≡ host.old }
{
    let picks = picks_of(alloc, seed, PICK_COUNT)?;
    simulate(alloc, s, &picks, host)
}

// What that job reports, as a text.
fn report<H: Host>(alloc: Global, seed: u64, s: &Script, host: &mut H) -> Result<Reply, SimFault>
    ensures status { IfOk result (λ r. r.status ≡ Status.Done) }
    ensures report { IfOk result
        (λ r. (report : Report) × (r.text.items ≡ text report)
        × ((told : List ℕ) → IsLegal s.now report told) × AreExactSlots s.now report
        × IsReportUnder (first_picks seed PICK_COUNT) s.now report) }
    ensures memory { result ≢ Err SimFault.ReadFault }
    ensures host { host.new ≡ host.old }
{
    let Ok(end) = run_under_seed(alloc, seed, s, host) else {
        return Err(SimFault::Memory);
    };
    match report_text(alloc, &end.report) {
        Ok(text) => Ok(Reply {
            status: Status::Done,
            text,
        }),
        Err(Want) => Err(SimFault::Memory),
    }
}

// The line that says why the input is refused.
fn refusal(alloc: Global, fault: ScriptFault) -> Result<Reply, SimFault>
    ensures status { IfOk result (λ r. r.status ≡ Status.Refused) }
    ensures line { IfOk result (λ r. r.text.items ≡ refusal_line fault) }
    ensures memory { result ≢ Err SimFault.ReadFault }
{
    match refusal_text(alloc, &fault) {
        Ok(text) => Ok(Reply {
            status: Status::Refused,
            text,
        }),
        Err(Want) => Err(SimFault::Memory),
    }
}

// The answer to a script's bytes.
fn answer<H: Host>(alloc: Global, seed: u64, bytes: &[u8], host: &mut H) -> Result<Reply, SimFault>
    ensures answer { IfOk result (λ r. IsSimAnswer seed bytes.now r.status r.text.items) }
    ensures memory { result ≢ Err SimFault.ReadFault }
    ensures host { host.new ≡ host.old }
{
    match read_script(alloc, bytes) {
        Ok(script) => report(alloc, seed, &script, host),
        Err(ScriptFault::Want) => Err(SimFault::Memory),
        Err(fault) => refusal(alloc, fault),
    }
}

/// Simulates the job whose script is the input, under the picks of a seed.
pub fn sim<S: Source, H: Host>(
    alloc: Global,
    seed: u64,
    input: &mut S,
    host: &mut H,
) -> Result<Reply, SimFault>
    ensures answer { IfOk result
        (λ r. IfSome (S.left input.old) (λ bytes. IsSimAnswer seed bytes r.status r.text.items)) }
    ensures status { IfOk result (λ r. (r.status ≡ Status.Done) ⊎ (r.status ≡ Status.Refused)) }
    ensures to_end { IfOk result (λ r. r.status ≡ Status.Done → IsAtEnd (S.left input.new)) }
    ensures risen { IsErrOf result SimFault.ReadFault
        → HasRisen (S.faults input.old) (S.faults input.new) }
    ensures calm { result ≢ Err SimFault.ReadFault → S.faults input.new ≡ S.faults input.old }
    ensures host { host.new ≡ host.old }
{
    match read_all(alloc, input, SCRIPT_LIMIT) {
        Ok(bytes) => answer(alloc, seed, &bytes, host),
        Err(ReadAllNo::TooLong) => refusal(alloc, ScriptFault::TooLong),
        Err(ReadAllNo::ReadFault) => Err(SimFault::ReadFault),
        Err(ReadAllNo::Want) => Err(SimFault::Memory),
    }
}
