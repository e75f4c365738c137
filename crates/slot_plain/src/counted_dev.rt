//! Calls on a device whose failures are counted for one client.

ghost use Rattle.std.specs.Prelude.{◌≡◌, ◌≤◌, ◌<◌, ◌+◌, length, is_ok, IfErr, OnOk, OnErr};
ghost use Rattle.fs_types.specs.Faults.{HasRisen, next_count};
ghost use Rattle.fs_dev.specs.SpillDev.{Wrote, LeftOpen, WasWritten, HoldsAt};

use fs_dev::{DevFailed, SpillDev};
use fs_types::{DevFault, Rank};

// Counts a failed call.
fn counted(answer: Result<(), DevFailed>, rank: Rank, faults: &mut u64) -> Result<(), DevFault>
    ensures same { is_ok result ≡ is_ok answer }
    ensures calm { OnOk result (faults.new ≡ faults.old) }
    ensures raised { OnErr result (faults.new ≡ next_count faults.old) }
    ensures rank { IfErr result (λ fault. fault.rank ≡ rank) }
{
    match answer {
        Ok(()) => Ok(()),
        Err(DevFailed) => {
            *faults = faults.saturating_add(1);
            Err(DevFault { rank })
        }
    }
}

/// Writes all of `b` from the place `at` on.
pub fn write_counted<D: SpillDev>(
    dev: &mut D,
    at: u64,
    b: &[u8],
    rank: Rank,
    faults: &mut u64,
) -> Result<(), DevFault>
    requires some { 0 < length b.now }
    requires inside { at + length b.now ≤ D.size dev.old }
    ensures wrote { OnOk result (Wrote at b.now (D.cells dev.old) (D.cells dev.new)) }
    ensures open { OnErr result
        (LeftOpen at (length b.now) (D.cells dev.old) (D.cells dev.new)) }
    ensures same_size { D.size dev.new ≡ D.size dev.old }
    ensures calm_device { OnOk result (D.faults dev.new ≡ D.faults dev.old) }
    ensures risen { OnErr result (HasRisen (D.faults dev.old) (D.faults dev.new)) }
    ensures calm { OnOk result (faults.new ≡ faults.old) }
    ensures raised { OnErr result (faults.new ≡ next_count faults.old) }
    ensures rank { IfErr result (λ fault. fault.rank ≡ rank) }
{
    counted(dev.write_at(at, b), rank, faults)
}

/// Fills `out` with the bytes from the place `at` on.
pub fn read_counted<D: SpillDev>(
    dev: &mut D,
    at: u64,
    out: &mut [u8],
    rank: Rank,
    faults: &mut u64,
) -> Result<(), DevFault>
    requires some { 0 < length out.old }
    requires inside { at + length out.old ≤ D.size dev.old }
    requires written { WasWritten at (length out.old) (D.cells dev.old) }
    ensures given { OnOk result (HoldsAt at out.new (D.cells dev.old)) }
    ensures same_cells { D.cells dev.new ≡ D.cells dev.old }
    ensures same_size { D.size dev.new ≡ D.size dev.old }
    ensures calm_device { OnOk result (D.faults dev.new ≡ D.faults dev.old) }
    ensures risen { OnErr result (HasRisen (D.faults dev.old) (D.faults dev.new)) }
    ensures calm { OnOk result (faults.new ≡ faults.old) }
    ensures raised { OnErr result (faults.new ≡ next_count faults.old) }
    ensures rank { IfErr result (λ fault. fault.rank ≡ rank) }
{
    counted(dev.read_at(at, out), rank, faults)
}
