//! Running a job under picks, from its first moment to its report: the picks of a seed, and the run
//! in which each pick chooses whose turn an event is. It touches nothing outside memory.
#![tactic(auto)]

mod fault;
mod laws;
mod picks;
mod run;

pub use fault::RunFault;
pub use laws::{
    no_space_is_reported, one_report_under, reports_say_what_was_answered,
    runs_under_picks_are_reached,
};
pub use picks::{MULTIPLIER, PICK_COUNT, picks_of};
pub use run::simulate;
