//! What a job reports, and what it leaves at its end.

use crate::file_list::FileList;
use crate::slot_list::SlotList;
use fs_plain::Journals;
use fs_types::{Answers, StagedOut};

/// What a job reports: the answers by line, for each path in byte order its journal and its file,
/// and the slots of each client's log.
#[derive(Debug, Drop)]
pub struct Report {
    pub answers: Answers,
    pub journals: Journals,
    pub files: FileList,
    pub slots: SlotList,
}

/// What a job leaves at its end: its report, and what was staged out, in rising order of lines.
#[derive(Debug, Drop)]
pub struct JobEnd {
    pub report: Report,
    pub outs: Vec<StagedOut>,
}
