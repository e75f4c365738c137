//! Sources of bytes.

ghost use Rattle.std.specs.Prelude.{◌≡◌, ◌≤◌, ℕ, List, length, Option, IfOk, OnOk, OnErr};
ghost use Rattle.fs_types.specs.Faults.{HasRisen};
ghost use Rattle.fs_dev.specs.Source.{IsReadOf, IsUnread};

use thiserror::Error;

/// A read that the outside refused.
#[derive(Clone, Copy, Debug, Drop, PartialEq, Eq, Error)]
#[error("a read failed")]
pub struct ReadFailed;

/// Bytes that come one after another.
pub trait Source {
    /// The bytes that are left, where the source tells them.
    ghost left: { Self → Option (List ℕ) };

    /// How many of its calls have failed.
    ghost faults: { Self → ℕ };

    /// Puts the next bytes at the front of `out` and says how many they are: at least one where
    /// `out` has room and some are left. A failed call moves nothing.
    fn read(&mut self, out: &mut [u8]) -> Result<usize, ReadFailed>
        ensures within { IfOk result (λ n. n ≤ length out.old) }
        ensures given { IfOk result
            (λ n. IsReadOf n (left self.old) (left self.new) out.old out.new) }
        ensures calm { OnOk result (faults self.new ≡ faults self.old) }
        ensures risen { OnErr result (HasRisen (faults self.old) (faults self.new)) }
        ensures unmoved { OnErr result (IsUnread (left self.old) (left self.new) out.old out.new) };
}
