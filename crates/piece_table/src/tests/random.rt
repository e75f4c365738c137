//! Random puts and cuts, beside a plain array of the lines that stand at each place.

ghost use Rattle.std.specs.Prelude.{◌<◌, true};
ghost use Rattle.piece_table.specs.HeldSpans.{AreHeld, held};

use super::{Kept, held_of, lines, put};
use fs_types::MemHold;
use std::alloc::Global;
use std::test::Fail;

// How many places the random pieces are put in.
const PLACES: u64 = 260;

// A number below this one, from a linear generator.
fn pick(state: &mut u64, below: u64) -> u64
    requires { 0 < below }
    ensures { result < below }
{
    *state = state
        .wrapping_mul(6_364_136_223_846_793_005)
        .wrapping_add(1_442_695_040_888_963_407);
    (*state >> 33) % below
}

// The lines of `old` that aren't in `new`, each once and in order; 0 is no line.
fn gone(alloc: Global, old: &[u32], new: &[u32]) -> Result<Vec<u32>, Fail> {
    let mut all = Vec::new(alloc);
    for line in old {
        if *line != 0 && !new.contains(line) && !all.contains(line) {
            all.push(*line)?;
        }
    }
    all.sort_unstable();
    Ok(all)
}

// Sets the line that stands at each place of a range.
fn mark(marks: &mut [u32], from: u64, to: u64, line: u32) {
    for at in from..to {
        if let Some(mark) = marks.get_mut(at as usize) {
            *mark = line;
        }
    }
}

// Puts a piece, or cuts, in fragments with holds and in a plain array of the lines that stand at
// each place.
fn change(
    kept: &mut Kept,
    marks: &mut [u32],
    state: &mut u64,
    line: u32,
    dead: &mut Vec<MemHold>,
) -> Result<(), Fail>
    requires { AreHeld (λ _. true) (λ h. h.piece) (λ h. h.bytes) (held kept.old) }
    ensures { AreHeld (λ _. true) (λ h. h.piece) (λ h. h.bytes) (held kept.new) }
{
    let at = pick(state, PLACES - 60);
    if line % 16 == 0 {
        mark(marks, at, PLACES, 0);
        kept.cut(at, dead).ok().ok_or("there is memory")?;
        return Ok(());
    }
    let len = 1 + pick(state, 60);
    mark(marks, at, at + len, line);
    put(kept, at, len as u32, line, dead)
}

#[test]
fn the_holds_of_a_plain_array_come_out(rt: HostRuntime) -> Result<(), Fail> {
    let alloc = rt.alloc();
    let mut empty = Vec::new(alloc);
    let mut kept = held_of(alloc, &[], &mut empty)?;
    let mut marks: Vec<u32> = vec![in alloc; 0; PLACES as usize]?;
    let mut state = 1;
    for line in 1..2_000u32 {
        let mut dead = Vec::new(alloc);
        let old = marks.clone()?;
        change(&mut kept, &mut marks, &mut state, line, &mut dead)?;
        let want = gone(alloc, &old, &marks)?;
        let found = lines(alloc, &dead)?;
        assert_eq!(rt; found.as_slice(), want.as_slice(), "line {line}");
    }
    Ok(())
}
