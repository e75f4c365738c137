//! Readers of pieces.

ghost use Rattle.std.specs.Prelude.{◌≡◌, ◌≤◌, ◌+◌, ℕ, Bool, List, length, slice_range};
ghost use Rattle.std.specs.Prelude.{IsTrue, IfErr, OnOk, OnErr};
ghost use Rattle.fs_types.specs.Faults.{HasRisen};

use crate::dev_fault::DevFault;
use std::sync::Wait;

/// Reads the bytes of one piece.
pub trait PieceReader {
    /// What is said of how it was made.
    ghost Origin: { Type 0 };

    /// How it was made.
    ghost origin: { Self → Origin };

    /// The bytes of its piece.
    ghost content: { Self → List ℕ };

    /// Whether it tells these bytes, as those in memory do, and those on some devices.
    ghost is_told: { Self → Bool };

    /// The client whose log has the piece.
    ghost rank: { Self → ℕ };

    /// How many calls on a device failed for it.
    ghost faults: { Self → ℕ };

    /// Fills `out` with the bytes from the place `from` of the piece on.
    fn read<R: Wait>(&mut self, rt: &R, from: u32, out: &mut [u8]) -> Result<(), DevFault>
        requires inside { from + length out.old ≤ length (content self.old) }
        ensures given { OnOk result (IsTrue (is_told self.old)
            → out.new ≡ slice_range (content self.old) from (from + length out.old)) }
        ensures rank { IfErr result (λ fault. fault.rank ≡ rank self.old) }
        ensures risen { OnErr result (HasRisen (faults self.old) (faults self.new)) }
        ensures no_less { faults self.old ≤ faults self.new }
        ensures same_origin { origin self.new ≡ origin self.old }
        ensures same_content { content self.new ≡ content self.old }
        ensures same_telling { is_told self.new ≡ is_told self.old }
        ensures same_rank { rank self.new ≡ rank self.old };
}
