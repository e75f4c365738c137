//! Why a job has no report.

ghost use Rattle.std.specs.Prelude.{◌≡◌};
ghost use Rattle.core_run.specs.declared.fault.RunFault.TheVariants.{Want as IsWant};

use fs_types::Want;
use thiserror::Error;

/// Why a simulated job did not come to its end.
#[derive(Clone, Copy, Debug, Drop, PartialEq, Eq, Error)]
pub enum RunFault {
    /// Memory ran out.
    #[error("out of memory")]
    Want,
}

impl From<Want> for RunFault {
    ghost from_gives = { λ _ e. e ≡ IsWant };

    fn from(_e: Want) -> RunFault {
        RunFault::Want
    }
}
