//! What a legal journal has after a lamination.

ghost use Rattle.fs_script.specs.FrozenFiles.{OnlyAnUnlinkFollows};

/// The line after a lamination is an unlink: between a lamination and the next unlink nothing is
/// committed to the path.
#[tactic(auto, using(crate::proofs::FrozenFiles::only_unlinks))]
pub fn only_an_unlink_follows_a_lamination()
    ensures { OnlyAnUnlinkFollows }
{}
