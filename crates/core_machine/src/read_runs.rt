//! Runs of bytes that a read fetches, each as long as it can be.

ghost use Rattle.std.specs.Prelude.{◌≡◌, ◌<◌, ◌≤◌, ◌+◌, ◌^◌, All, IfOk, OnOk};
ghost use Rattle.fs_script.specs.Vocabulary.{goes_on};
ghost use Rattle.core_machine.specs.ReadRuns.{joined_from, with_last};

use fs_types::{Frag, Want};
use std::alloc::Global;

// Whether a run goes on in another, in the file as in the piece.
fn goes_on(f: &Frag, g: &Frag) -> bool
    ensures { result ≡ goes_on f.now g.now }
{
    g.piece == f.piece
        && g.at.checked_sub(f.at) == Some(f.len)
        && g.from.checked_sub(f.from).map(u64::from) == Some(f.len)
}

// Adds a run behind the others: one with the last of them, where that goes on in it.
fn push_run(runs: &mut Vec<Frag>, f: Frag) -> Result<(), Want>
    requires { f.at + f.len < 2 ^ 64 }
    ensures { OnOk result (runs.new.items ≡ with_last runs.old.items f) }
{
    if let Some(last) = runs.last_mut() {
        if goes_on(last, &f) {
            last.len += f.len;
            return Ok(());
        }
    }
    runs.push(f)?;
    Ok(())
}

/// The runs of bytes that these parts of a range make, with their places counted from `off`, where
/// the range begins.
pub fn runs_of(alloc: Global, parts: &[Frag], off: u64) -> Result<Vec<Frag>, Want>
    requires behind { All (λ f. off ≤ f.at) parts.now }
    requires small { All (λ f. f.at + f.len < 2 ^ 64) parts.now }
    ensures { IfOk result (λ v. v.items ≡ joined_from off parts.now) }
{
    let mut runs = Vec::new(alloc);
    for part in parts {
        push_run(
            &mut runs,
            Frag {
                at: part.at - off,
                ..*part
            },
        )?;
    }
    Ok(runs)
}
