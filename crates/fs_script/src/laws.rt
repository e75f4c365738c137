//! Laws about scripts, jobs and reports. Each function does nothing: its contract is the law.

pub mod jobs;
pub mod journals;
pub mod scripts;
pub mod texts;
