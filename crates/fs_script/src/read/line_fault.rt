//! Why a line after the header was not read.

ghost use Rattle.std.specs.Prelude.{◌≡◌};
ghost use Rattle.fs_script.specs.declared.read.line_fault.LineFault.TheVariants.{Want};
ghost use Rattle.fs_script.specs.Reading.Scripts.{fault_at};

use crate::fault::{Reason, ScriptFault};
use fs_types::LineNo;
use std::alloc::AllocError;
use thiserror::Error;

/// What the reader of a line answers in place of a value.
#[derive(Clone, Copy, Debug, Drop, PartialEq, Eq, Error)]
pub enum LineFault {
    /// It is none of a script.
    #[error("none of a script")]
    Bad(Reason),
    /// It moves too many bytes, or cuts a file to more than the longest has.
    #[error("over a limit")]
    OverLimit,
    /// Memory ran out.
    #[error("out of memory")]
    Want,
}

impl LineFault {
    /// The fault of a script whose line of this number has this fault.
    pub fn at(self, line: LineNo) -> ScriptFault
        ensures { result ≡ fault_at line self }
    {
        match self {
            LineFault::Bad(reason) => ScriptFault::BadLine { line, reason },
            LineFault::OverLimit => ScriptFault::OverLimit { line },
            LineFault::Want => ScriptFault::Want,
        }
    }
}

impl From<AllocError> for LineFault {
    ghost from_gives = { λ _ e. e ≡ Want };

    fn from(_e: AllocError) -> LineFault {
        LineFault::Want
    }
}
