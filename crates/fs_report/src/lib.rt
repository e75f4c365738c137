//! What a job reports, and the text of it. It touches nothing outside memory.
#![tactic(auto)]

mod answers;
mod file_list;
mod parts;
mod paths;
mod report;
mod slot_list;
mod slots;
mod text;

pub use file_list::FileList;
pub use parts::append_number;
pub use report::{JobEnd, Report};
pub use slot_list::SlotList;
pub use text::report_text;

#[cfg(test)]
mod tests;
