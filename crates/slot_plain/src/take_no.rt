//! Why no slots were taken.

ghost use Rattle.std.specs.Prelude.{◌≡◌};

use fs_types::Want;
use thiserror::Error;

/// Why slots were not taken.
#[derive(Clone, Copy, Debug, Drop, PartialEq, Eq, Error)]
pub enum TakeNo {
    /// Fewer slots are free than are needed.
    #[error("{need} slots are needed, and {free} are free")]
    NoSpace { need: u64, free: u64 },
    /// Memory ran out.
    #[error("out of memory")]
    Want,
}

impl From<Want> for TakeNo {
    ghost use Rattle.slot_plain.specs.declared.take_no.TakeNo.TheVariants as answers;

    ghost from_gives = { λ _ e. e ≡ answers.Want };

    fn from(_e: Want) -> TakeNo {
        TakeNo::Want
    }
}
