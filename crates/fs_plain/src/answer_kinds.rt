//! What answers say of the lines that had them.

ghost use Rattle.std.specs.Prelude.{◌≡◌};
ghost use Rattle.fs_script.specs.AnswerKinds.{empties, is_accepted, version_of};

use fs_types::{Answer, Version};

/// The version that an answer prints.
pub fn version_of(a: &Answer) -> Option<Version>
    ensures { result ≡ version_of a.now }
{
    match a {
        Answer::Done { v }
        | Answer::Staged { v, .. }
        | Answer::Sized { v, .. }
        | Answer::Shown { v, .. }
        | Answer::Exists { v }
        | Answer::NoEnt { v }
        | Answer::ReadOnly { v }
        | Answer::TooBigAt { v } => Some(*v),
        Answer::Wrote { .. }
        | Answer::BadF
        | Answer::TooBig
        | Answer::NoSpace { .. }
        | Answer::DevFault { .. } => None,
    }
}

/// Whether the bytes that a line brings were accepted.
pub fn is_accepted(a: &Answer) -> bool
    ensures { result ≡ is_accepted a.now }
{
    match a {
        Answer::Wrote { .. } | Answer::Staged { .. } => true,
        Answer::Done { .. }
        | Answer::Sized { .. }
        | Answer::Shown { .. }
        | Answer::BadF
        | Answer::Exists { .. }
        | Answer::NoEnt { .. }
        | Answer::ReadOnly { .. }
        | Answer::TooBig
        | Answer::TooBigAt { .. }
        | Answer::NoSpace { .. }
        | Answer::DevFault { .. } => false,
    }
}

/// Whether an operation that takes in or drops what is pending leaves nothing pending.
pub fn empties(a: &Answer) -> bool
    ensures { result ≡ empties a.now }
{
    match a {
        Answer::Done { .. }
        | Answer::Wrote { .. }
        | Answer::Staged { .. }
        | Answer::Sized { .. }
        | Answer::Shown { .. }
        | Answer::Exists { .. }
        | Answer::NoEnt { .. }
        | Answer::ReadOnly { .. } => true,
        Answer::BadF
        | Answer::TooBig
        | Answer::TooBigAt { .. }
        | Answer::NoSpace { .. }
        | Answer::DevFault { .. } => false,
    }
}
