//! Picks: the numbers by which a seed chooses which client has the next turn. It touches nothing
//! outside memory.

ghost use Rattle.std.specs.Prelude.{◌≡◌, IfOk};
ghost use Rattle.core_run.specs.Picks.{first_picks};

use fs_types::Want;
use std::alloc::Global;

/// The picks of a seed that a simulated job is run under.
pub const PICK_COUNT: usize = 4_096;

/// What a step of the generator multiplies its state by.
pub const MULTIPLIER: u64 = 6_364_136_223_846_793_005;

/// The first `n` picks of a seed: the high halves of the states that follow the seed.
pub fn picks_of(alloc: Global, seed: u64, n: usize) -> Result<Vec<u32>, Want>
    ensures { IfOk result (λ picks. picks.items ≡ first_picks seed n) }
{
    let mut picks = Vec::with_capacity(alloc, n)?;
    let mut state = seed;
    for _k in 0..n {
        state = state.wrapping_mul(MULTIPLIER).wrapping_add(seed);
        picks.push((state >> 32) as u32)?;
    }
    Ok(picks)
}

#[cfg(test)]
mod tests;
