//! The job script: its grammar, its lines and their payloads. Its `specs/` define what a legal
//! report of a job is. It touches nothing outside memory.
#![tactic(auto)]

mod fault;
pub mod laws;
pub mod limits;
mod line;
mod read;
mod script;
mod shape;
mod text_bytes;

pub use fault::{Reason, ScriptFault};
pub use line::{Data, Line, Op, OpLine};
pub use read::{read_number, read_script};
pub use script::Script;
pub use shape::Shape;
pub use text_bytes::TextBytes;

#[cfg(test)]
mod tests;
