//! The call that the program makes, and what it is made of: the words, a simulated job and its
//! text. It touches nothing outside memory but by the source, the sink and the host that it is
//! handed.
#![tactic(auto)]

mod call;
mod refusal;
mod sim;
mod words;

pub use call::{top, top_calm};
