//! The definitions of a plain file, of pending writes and of fronts, computed line by line as they
//! are written down. It is slow and plain, and shares no code with the core. It touches nothing
//! outside memory.
#![tactic(auto)]

mod answer_kinds;
mod block;
mod front;
mod journals;
mod limits;
mod lines;
mod payload;
mod pending;
mod plain_file;
mod sparse_bytes;
mod state;

pub use front::front_of;
pub use journals::Journals;
pub use pending::pending_of;
pub use plain_file::PlainFile;
pub use state::state_at;

#[cfg(test)]
mod tests;
