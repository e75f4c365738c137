//! A host and a device that refuse all calls.

ghost use Rattle.std.specs.Prelude.{◌≡◌, [], None, Some, length, IsErr, OnErr};
ghost use Rattle.fs_types.specs.Faults.{HasRisen};
ghost use Rattle.fs_dev.specs.Host.{RefusedTo};
ghost use Rattle.fs_dev.specs.SpillDev.{LeftOpen};
ghost use Rattle.fs_dev.specs.declared.refused.RefusedCall.TheVariants.{Device, Source, Sink};

use crate::host::{Host, HostFailed};
use crate::refused::{KeptName, RefusedCall};
use crate::sink::WriteFailed;
use crate::source::ReadFailed;
use crate::spill_dev::{DevFailed, SpillDev};
use fs_types::Name;

/// A device that refuses all calls, and counts each.
#[derive(Clone, Copy, Debug)]
pub struct NoDev {
    size: u64,
    faults: u64,
}

impl NoDev {
    /// A device of so many bytes that was not asked for anything yet.
    pub fn new(size: u64) -> NoDev
        ensures { result ≡ record { size = size; faults = 0 } }
    {
        NoDev { size, faults: 0 }
    }
}

impl SpillDev for NoDev {
    ghost size = { λ dev. dev.size };

    // No byte can be written, so there is none to tell.
    ghost cells = { λ _. None };

    ghost faults = { λ dev. dev.faults };

    ghost cell_count = { λ _. tt };

    fn write_at(&mut self, _at: u64, _b: &[u8]) -> Result<(), DevFailed>
        ensures fails { IsErr result }
        ensures open { LeftOpen _at (length _b.now) None None }
        ensures rest { self.new ≡ record self.old { faults = self.new.faults } }
        ensures risen { HasRisen self.old.faults self.new.faults }
    {
        self.faults = self.faults.saturating_add(1);
        Err(DevFailed)
    }

    fn read_at(&mut self, _at: u64, _out: &mut [u8]) -> Result<(), DevFailed>
        ensures fails { IsErr result }
        ensures length { length _out.new ≡ length _out.old }
        ensures rest { self.new ≡ record self.old { faults = self.new.faults } }
        ensures risen { HasRisen self.old.faults self.new.faults }
    {
        self.faults = self.faults.saturating_add(1);
        Err(DevFailed)
    }
}

/// A host with no devices, no sources and no sinks.
#[derive(Debug, Drop)]
pub struct NoHost {
    host_faults: u64,
    read_faults: u64,
    write_faults: u64,
    refused: Option<RefusedCall>,
}

impl NoHost {
    /// A host that was not asked for anything yet.
    pub fn new() -> NoHost
        ensures { result
            ≡ record { host_faults = 0; read_faults = 0; write_faults = 0; refused = None } }
    {
        NoHost {
            host_faults: 0,
            read_faults: 0,
            write_faults: 0,
            refused: None,
        }
    }

    // Counts a refused call for a device, a source or a sink.
    fn refuse(&mut self, call: RefusedCall)
        ensures counted { self.new
            ≡ record self.old { host_faults = self.new.host_faults; refused = Some call } }
        ensures risen { HasRisen self.old.host_faults self.new.host_faults }
    {
        self.host_faults = self.host_faults.saturating_add(1);
        self.refused = Some(call);
    }
}

impl Host for NoHost {
    type Dev = NoDev;

    ghost state = { λ h. record {
      host_faults = h.host_faults;
      read_faults = h.read_faults;
      write_faults = h.write_faults;
      refused = h.refused;
      source = None;
      left = None;
      sink = None;
      contents = λ _. None;
      took = λ _. None;
      given = [];
      kept = λ _. None;
    } };

    fn device(&mut self, rank: u32, bytes: u64) -> Result<NoDev, HostFailed>
        ensures fails { IsErr result }
        ensures refused { OnErr result
            (RefusedTo (Device rank bytes)
            (⟦<NoHost as Host>⟧.state self.old) (⟦<NoHost as Host>⟧.state self.new)) }
    {
        self.refuse(RefusedCall::Device { rank, bytes });
        Err(HostFailed)
    }

    // No device was given that could come back.
    fn take_back(&mut self, _rank: u32, _dev: NoDev)
        ensures unchanged { self.new ≡ self.old }
    {}

    fn source(&mut self, name: &Name) -> Result<(), HostFailed>
        ensures fails { IsErr result }
        ensures refused { OnErr result
            (RefusedTo (Source name.now)
            (⟦<NoHost as Host>⟧.state self.old) (⟦<NoHost as Host>⟧.state self.new)) }
    {
        self.refuse(RefusedCall::Source(KeptName::new(name)));
        Err(HostFailed)
    }

    // No source is ever current, so this asks for none, and `write` asks for no sink.
    fn read(&mut self, _out: &mut [u8]) -> Result<usize, ReadFailed>
        ensures fails { IsErr result }
        ensures counted { self.new ≡ record self.old { read_faults = self.new.read_faults } }
        ensures risen { HasRisen self.old.read_faults self.new.read_faults }
    {
        self.read_faults = self.read_faults.saturating_add(1);
        Err(ReadFailed)
    }

    fn sink(&mut self, name: &Name) -> Result<(), HostFailed>
        ensures fails { IsErr result }
        ensures refused { OnErr result
            (RefusedTo (Sink name.now)
            (⟦<NoHost as Host>⟧.state self.old) (⟦<NoHost as Host>⟧.state self.new)) }
    {
        self.refuse(RefusedCall::Sink(KeptName::new(name)));
        Err(HostFailed)
    }

    fn write(&mut self, _b: &[u8]) -> Result<usize, WriteFailed>
        ensures fails { IsErr result }
        ensures counted { self.new ≡ record self.old { write_faults = self.new.write_faults } }
        ensures risen { HasRisen self.old.write_faults self.new.write_faults }
    {
        self.write_faults = self.write_faults.saturating_add(1);
        Err(WriteFailed)
    }
}
