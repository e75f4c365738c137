//! What a line staged out.

use crate::byte_list::ByteList;
use crate::number::LineNo;

/// The bytes that a line wrote to a file outside the shared namespace.
#[derive(Debug, Drop)]
pub struct StagedOut {
    pub line: LineNo,
    pub bytes: ByteList,
}
