//! Why a book refuses.

ghost use Rattle.std.specs.Prelude.{◌≡◌};

use fs_types::{Version, Want};
use std::alloc::AllocError;
use thiserror::Error;

/// Why a call on a path was refused. The version is that of the path.
#[derive(Clone, Copy, Debug, Drop, PartialEq, Eq, Error)]
pub enum BookNo {
    /// There is a file already.
    #[error("the file exists")]
    Exists(Version),
    /// There is no file.
    #[error("there is no file")]
    NoEnt(Version),
    /// The file is frozen.
    #[error("the file is frozen")]
    ReadOnly(Version),
    /// Memory ran out.
    #[error("out of memory")]
    Want,
}

impl From<Want> for BookNo {
    ghost use Rattle.owner_book.specs.declared.book_no.BookNo.TheVariants as answers;

    ghost from_gives = { λ _ e. e ≡ answers.Want };

    fn from(_e: Want) -> BookNo {
        BookNo::Want
    }
}

impl From<AllocError> for BookNo {
    ghost use Rattle.owner_book.specs.declared.book_no.BookNo.TheVariants as answers;

    ghost from_gives = { λ _ e. e ≡ answers.Want };

    fn from(_e: AllocError) -> BookNo {
        BookNo::Want
    }
}
