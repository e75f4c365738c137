//! Why bytes are no script.

ghost use Rattle.std.specs.Prelude.{◌≡◌};
ghost use Rattle.fs_script.specs.declared.fault.ScriptFault.TheVariants.{Want};

use fs_types::LineNo;
use std::alloc::{AllocError, AllocFailed};
use thiserror::Error;

/// What is wrong with a line.
#[derive(Clone, Copy, Debug, PartialEq, Eq)]
pub enum Reason {
    /// The first word is no client of the job.
    Rank,
    /// The second word is missing, or is no operation.
    Op,
    /// The operation has too few words, or too many.
    Words,
    /// The third word is no path.
    Path,
    /// A word is no number where there has to be one.
    Number,
    /// The last word is no payload.
    Data,
}

/// The first fault of bytes that are no script, or want of memory.
#[derive(Clone, Copy, Debug, Drop, PartialEq, Eq, Error)]
pub enum ScriptFault {
    /// The first line is no header of a job.
    #[error("the first line is no header of a job")]
    BadHeader,
    /// A number of the first line, what a later line moves, or the length that it cuts a file to,
    /// is outside its limits.
    #[error("line {number} is over a limit", number = .line.0)]
    OverLimit { line: LineNo },
    /// A line after the header is none of a script.
    #[error("line {number} is none of a script", number = .line.0)]
    BadLine { line: LineNo, reason: Reason },
    /// There are more lines than [`LINE_LIMIT`](crate::limits::LINE_LIMIT).
    #[error("the script has too many lines")]
    TooManyLines,
    /// There are more bytes than [`SCRIPT_LIMIT`](crate::limits::SCRIPT_LIMIT).
    #[error("the script is too long")]
    TooLong,
    /// Memory ran out.
    #[error("out of memory")]
    Want,
}

impl From<AllocError> for ScriptFault {
    ghost from_gives = { λ _ e. e ≡ Want };

    fn from(_e: AllocError) -> ScriptFault {
        ScriptFault::Want
    }
}

impl<T: Drop> From<AllocFailed<T>> for ScriptFault {
    ghost from_gives = { λ _ e. e ≡ Want };

    fn from(_e: AllocFailed<T>) -> ScriptFault {
        ScriptFault::Want
    }
}
