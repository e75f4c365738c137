//! Reading a source to its end.

ghost use Rattle.std.specs.Prelude.{◌≡◌, ◌≢◌, ◌≤◌, ◌<◌, IfOk, OnOk, IfSome, IsErrOf, is_some, vec_len, length, Err};
ghost use Rattle.fs_types.specs.Faults.{HasRisen};
ghost use Rattle.fs_dev.specs.Told.{IsAtEnd};
ghost use Rattle.fs_dev.specs.ReadAll.{TookMoreThan, TookAtMost};
ghost use Rattle.fs_dev.specs.declared.reading.ReadAllNo.TheVariants.{ReadFault, Want};

use crate::source::{ReadFailed, Source};
use std::alloc::{AllocError, Global};
use thiserror::Error;

/// Why a source was not read to its end.
#[derive(Clone, Copy, Debug, Drop, PartialEq, Eq, Error)]
pub enum ReadAllNo {
    /// The source failed.
    #[error("the source failed")]
    ReadFault,
    /// The source gave more bytes than the limit.
    #[error("the source gave too many bytes")]
    TooLong,
    /// Memory ran out.
    #[error("out of memory")]
    Want,
}

impl From<ReadFailed> for ReadAllNo {
    ghost from_gives = { λ _ e. e ≡ ReadFault };

    fn from(_: ReadFailed) -> ReadAllNo {
        ReadAllNo::ReadFault
    }
}

impl From<AllocError> for ReadAllNo {
    ghost from_gives = { λ _ e. e ≡ Want };

    fn from(_: AllocError) -> ReadAllNo {
        ReadAllNo::Want
    }
}

/// How many bytes are asked for at a time.
const CHUNK: usize = 4096;

/// All bytes that the source has left, if they are no more than `limit`.
#[tactic(auto, using(crate::proofs::ToldLemmas::bytes_steps))]
pub fn read_all<S: Source>(alloc: Global, src: &mut S, limit: usize) -> Result<Vec<u8>, ReadAllNo>
    ensures whole { IfOk result (λ v. IfSome (S.left src.old) (λ bytes. v.items ≡ bytes)) }
    ensures at_end { OnOk result (IsAtEnd (S.left src.new)) }
    ensures within { IfOk result (λ v. vec_len v ≤ limit) }
    ensures fault { IsErrOf result ReadAllNo.ReadFault
        → HasRisen (S.faults src.old) (S.faults src.new) }
    ensures fault_took { IsErrOf result ReadAllNo.ReadFault
        → TookAtMost limit (S.left src.old) (S.left src.new) }
    ensures too_long { IsErrOf result ReadAllNo.TooLong
        → TookMoreThan limit (S.left src.old) (S.left src.new) }
    ensures had_more { IsErrOf result ReadAllNo.TooLong
        → IfSome (S.left src.old) (λ bytes. limit < length bytes) }
    ensures want_took { IsErrOf result ReadAllNo.Want
        → TookAtMost limit (S.left src.old) (S.left src.new) }
    ensures calm { result ≢ Err ReadAllNo.ReadFault → S.faults src.new ≡ S.faults src.old }
    ensures tells { is_some (S.left src.new) ≡ is_some (S.left src.old) }
{
    let mut bytes = Vec::new(alloc);
    let mut buffer = [0; CHUNK];
    loop {
        let n = src.read(&mut buffer)?;
        if n == 0 {
            return Ok(bytes);
        }
        if limit - bytes.len() < n {
            return Err(ReadAllNo::TooLong);
        }
        bytes.extend_from_slice(&buffer[..n])?;
    }
}
