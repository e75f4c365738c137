//! The names and plain data that every layer of the file system speaks of: ranks, servers, lines,
//! versions, paths, answers, statuses and fragments; and what a hold of a piece and a reader of one
//! promise. It touches nothing outside memory.
#![tactic(auto)]

mod answer;
mod answers;
mod attr;
mod byte_list;
mod dev_fault;
mod digest;
mod file_state;
mod fragment;
mod hold;
mod laws;
mod limits;
mod mem_hold;
mod name;
mod number;
mod path;
mod piece_reader;
mod push;
mod short_bytes;
mod slice_reader;
mod slot_line;
mod staged_out;
mod status;
mod want;

pub use answer::{Answer, Body};
pub use answers::Answers;
pub use attr::Attr;
pub use byte_list::ByteList;
pub use dev_fault::DevFault;
pub use digest::Digest16;
pub use file_state::FileState;
pub use fragment::{Frag, PieceId};
pub use hold::{Hold, PinNo};
pub use laws::{
    answers_are_a_table, cutting_leaves_the_first_places, names_are_visible_texts,
    overwriting_is_by_place, paths_are_mounted_texts, showing_gives_a_range,
};
pub use limits::{HEX_LIMIT, LONGEST_FILE, LONGEST_PATH};
pub use mem_hold::MemHold;
pub use name::{Name, NameFault};
pub use number::{LineNo, Rank, ServerNo, Version};
pub use path::{Path, PathFault};
pub use piece_reader::PieceReader;
pub use push::{Push, Replica};
pub use short_bytes::ShortBytes;
pub use slice_reader::SliceReader;
pub use slot_line::SlotLine;
pub use staged_out::StagedOut;
pub use status::Status;
pub use want::Want;

#[cfg(test)]
mod tests;
