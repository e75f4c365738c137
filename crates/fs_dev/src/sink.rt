//! Sinks of bytes.

ghost use Rattle.std.specs.Prelude.{◌≡◌, ◌≤◌, ◌<◌, ℕ, List, length, take, Option, IfOk, OnOk, OnErr};
ghost use Rattle.fs_types.specs.Faults.{HasRisen};
ghost use Rattle.fs_dev.specs.Told.{then_bytes};

use thiserror::Error;

/// A write that the outside refused.
#[derive(Clone, Copy, Debug, Drop, PartialEq, Eq, Error)]
#[error("a write failed")]
pub struct WriteFailed;

/// Takes bytes one after another.
pub trait Sink {
    /// The bytes that it took, where the sink tells them.
    ghost held: { Self → Option (List ℕ) };

    /// How many of its calls have failed.
    ghost faults: { Self → ℕ };

    /// Takes some of the first bytes of `b` and says how many they are: at least one where `b` has
    /// any. A failed call moves nothing.
    fn write(&mut self, b: &[u8]) -> Result<usize, WriteFailed>
        ensures within { IfOk result (λ n. n ≤ length b.now) }
        ensures progress { IfOk result (λ n. 0 < length b.now → 0 < n) }
        ensures taken { IfOk result
            (λ n. held self.new ≡ then_bytes (held self.old) (take n b.now)) }
        ensures calm { OnOk result (faults self.new ≡ faults self.old) }
        ensures risen { OnErr result (HasRisen (faults self.old) (faults self.new)) }
        ensures unmoved { OnErr result (held self.new ≡ held self.old) };
}
