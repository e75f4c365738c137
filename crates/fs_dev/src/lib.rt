//! The outside of a program as traits: sources and sinks of bytes, devices and hosts, with a count
//! of the calls that failed; objects in memory that meet them; and calls over any source or sink.
//! It touches nothing outside memory.
#![tactic(auto)]

mod calm_dev;
mod host;
mod memory_sink;
mod memory_source;
mod no_host;
mod portions;
mod reading;
mod refused;
mod schedule;
mod sink;
mod source;
mod spill_dev;
mod writing;

pub use calm_dev::CalmDev;
pub use host::{Host, HostFailed};
pub use memory_sink::MemSink;
pub use memory_source::{CalmSource, MemSource};
pub use no_host::{NoDev, NoHost};
pub use reading::{ReadAllNo, read_all};
pub use refused::{KeptName, RefusedCall};
pub use sink::{Sink, WriteFailed};
pub use source::{ReadFailed, Source};
pub use spill_dev::{DevFailed, SpillDev};
pub use writing::write_all;

#[cfg(test)]
mod tests;
