//! Hosts: what a program may ask of the machine that it runs on.

ghost use Rattle.std.specs.Prelude.{◌≡◌, ◌≤◌, ◌<◌, length, take, Contains, IsSome, IfOk, OnOk, OnErr};
ghost use Rattle.fs_dev.specs.Host.{HostState, GaveDevice, TookBack, OpenedSource, OpenedSink, RefusedTo, ReadFrom, RefusedRead, WroteTo, RefusedWrite};
ghost use Rattle.fs_dev.specs.declared.refused.RefusedCall.TheVariants.{Device, Source, Sink};

use crate::sink::WriteFailed;
use crate::source::ReadFailed;
use crate::spill_dev::SpillDev;
use fs_types::Name;
use thiserror::Error;

/// A call for a device, a source or a sink that the outside refused.
#[derive(Clone, Copy, Debug, Drop, PartialEq, Eq, Error)]
#[error("a call on the host failed")]
pub struct HostFailed;

/// Gives devices by rank, and sources and sinks by name. One source and one sink are current.
pub trait Host {
    type Dev: SpillDev + Send;

    /// All that a clause says of a host.
    ghost state: { Self → HostState Self.Dev };

    /// A device of so many bytes for a rank.
    fn device(&mut self, rank: u32, bytes: u64) -> Result<Self::Dev, HostFailed>
        ensures size { IfOk result (λ dev. Self.Dev.size dev ≡ bytes) }
        ensures fresh { IfOk result (λ dev. Self.Dev.faults dev ≡ 0) }
        ensures given { OnOk result (GaveDevice rank (state self.old) (state self.new)) }
        ensures refused { OnErr result
            (RefusedTo (Device rank bytes) (state self.old) (state self.new)) };

    /// Keeps the device of a rank. It takes no memory.
    fn take_back(&mut self, rank: u32, dev: Self::Dev)
        requires { Contains (state self.old).given rank }
        ensures { TookBack rank dev (state self.old) (state self.new) };

    /// Makes the named source the current one, from its first byte on.
    fn source(&mut self, name: &Name) -> Result<(), HostFailed>
        ensures opened { OnOk result (OpenedSource name.now (state self.old) (state self.new)) }
        ensures refused { OnErr result
            (RefusedTo (Source name.now) (state self.old) (state self.new)) };

    /// Reads the current source as `Source::read` does.
    fn read(&mut self, out: &mut [u8]) -> Result<usize, ReadFailed>
        requires { IsSome (state self.old).source }
        ensures within { IfOk result (λ n. n ≤ length out.old) }
        ensures given { IfOk result
            (λ n. ReadFrom n out.old out.new (state self.old) (state self.new)) }
        ensures refused { OnErr result
            (RefusedRead out.old out.new (state self.old) (state self.new)) };

    /// Makes the named sink the current one.
    fn sink(&mut self, name: &Name) -> Result<(), HostFailed>
        ensures opened { OnOk result (OpenedSink name.now (state self.old) (state self.new)) }
        ensures refused { OnErr result
            (RefusedTo (Sink name.now) (state self.old) (state self.new)) };

    /// Writes to the current sink as `Sink::write` does.
    fn write(&mut self, b: &[u8]) -> Result<usize, WriteFailed>
        requires { IsSome (state self.old).sink }
        ensures within { IfOk result (λ n. n ≤ length b.now) }
        ensures progress { IfOk result (λ n. 0 < length b.now → 0 < n) }
        ensures taken { IfOk result
            (λ n. WroteTo (take n b.now) (state self.old) (state self.new)) }
        ensures refused { OnErr result (RefusedWrite (state self.old) (state self.new)) };
}
