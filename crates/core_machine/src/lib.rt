//! The core of a simulated run: one step is one event of one client. It keeps the journals, the
//! files and the pending writes of a job, and the clients' logs. It touches the devices that the
//! logs were given, and nothing else outside memory.
#![tactic(auto)]

mod books;
mod client;
mod digest;
mod event;
mod fetching;
mod file_state;
mod laws;
mod logs;
mod machine;
mod path_table;
mod pins;
mod plain_hold;
mod program;
mod read_runs;
mod run;
mod task;
mod turns;
mod view;

pub use laws::{
    answers_were_given, free_is_what_is_left, held_is_exact, logs_hold_exactly, no_space_is_exact,
    runs_are_legal,
};
pub use machine::Core;
pub use path_table::PathTable;

#[cfg(test)]
mod tests;
