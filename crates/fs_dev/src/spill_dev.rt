//! Devices that hold the bytes which memory has no room for.

ghost use Rattle.std.specs.Prelude.{◌≡◌, ◌≤◌, ◌<◌, ◌+◌, ℕ, List, length, Option, IfSome, OnOk, OnErr};
ghost use Rattle.fs_types.specs.Faults.{HasRisen};
ghost use Rattle.fs_dev.specs.SpillDev.{Wrote, LeftOpen, WasWritten, HoldsAt};

use thiserror::Error;

/// A call on a device that the outside refused.
#[derive(Clone, Copy, Debug, Drop, PartialEq, Eq, Error)]
#[error("a call on a device failed")]
pub struct DevFailed;

/// A fixed number of bytes, which are read and written at any place.
pub trait SpillDev {
    /// How many bytes it has.
    ghost size: { Self → ℕ };

    /// At each place the byte that was written, if any, where the device tells its bytes.
    ghost cells: { Self → Option (List (Option ℕ)) };

    /// How many of its calls have failed.
    ghost faults: { Self → ℕ };

    /// Writes all of `b` from the place `at` on. A failed write leaves that range open.
    fn write_at(&mut self, at: u64, b: &[u8]) -> Result<(), DevFailed>
        requires some { 0 < length b.now }
        requires inside { at + length b.now ≤ size self.old }
        ensures wrote { OnOk result (Wrote at b.now (cells self.old) (cells self.new)) }
        ensures open { OnErr result (LeftOpen at (length b.now) (cells self.old) (cells self.new)) }
        ensures same_size { size self.new ≡ size self.old }
        ensures calm { OnOk result (faults self.new ≡ faults self.old) }
        ensures risen { OnErr result (HasRisen (faults self.old) (faults self.new)) };

    /// Fills `out` with the bytes from the place `at` on.
    fn read_at(&mut self, at: u64, out: &mut [u8]) -> Result<(), DevFailed>
        requires some { 0 < length out.old }
        requires inside { at + length out.old ≤ size self.old }
        requires written { WasWritten at (length out.old) (cells self.old) }
        ensures given { OnOk result (HoldsAt at out.new (cells self.old)) }
        ensures same_cells { cells self.new ≡ cells self.old }
        ensures same_size { size self.new ≡ size self.old }
        ensures calm { OnOk result (faults self.new ≡ faults self.old) }
        ensures risen { OnErr result (HasRisen (faults self.old) (faults self.new)) };

    /// There is a cell for each byte.
    ghost cell_count: { (dev : Self) → IfSome (cells dev) (λ told. length told ≡ size dev) };
}
