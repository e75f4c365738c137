//! Random writes to two paths, beside plain arrays of what stands at each place.

ghost use Rattle.std.specs.Prelude.{◌≡◌, ◌<◌, true, OnOk};
ghost use Rattle.client_map.specs.Calls.{AllHaveHolds};

use super::*;

// How many places the random writes are put in.
const PLACES: u64 = 200;

// The line, the part and the place in the part of the byte that stands at a place.
type Cell = Option<(u32, u32, u64)>;

// A number below this one, from a linear generator.
fn pick(state: &mut u64, below: u64) -> u64
    requires { 0 < below }
    ensures { result < below }
{
    *state = state
        .wrapping_mul(6_364_136_223_846_793_005)
        .wrapping_add(1_442_695_040_888_963_407);
    (*state >> 33) % below
}

// Puts what a line writes, byte by byte.
fn write(cells: &mut [Cell], line: u32, off: u64, len: u64)
    requires { (off < PLACES) × (len < PLACES) }
{
    for i in 0..len {
        if let Some(cell) = cells.get_mut((off + i) as usize) {
            *cell = Some((line, (i / CHUNK) as u32, i % CHUNK));
        }
    }
}

// The pieces of `old` that aren't in `new`, each once and in order.
fn gone(alloc: Global, old: &[Cell], new: &[Cell]) -> Result<Vec<(u32, u32)>, Fail> {
    let mut all = Vec::new(alloc);
    for cell in old {
        let Some((line, part, _)) = *cell else {
            continue;
        };
        let still = new.iter().any(|c| matches!(c, Some((l, p, _)) if *l == line && *p == part));
        if !still && !all.contains(&(line, part)) {
            all.push((line, part))?;
        }
    }
    all.sort_unstable();
    Ok(all)
}

// Whether each place has the byte that a look-up gives there, and the last byte ends where the map
// says.
fn agrees(map: &Map, path: &Path, cells: &[Cell]) -> bool {
    let last = cells.iter().rposition(|cell| cell.is_some());
    let ends = map.end(path) == last.map_or(0, |i| i as u64 + 1);
    ends && cells.iter().enumerate().all(|(i, cell)| {
        let at = i as u64;
        match map.next(path, at) {
            Some(f) if f.at <= at => {
                let place = u64::from(f.from).wrapping_add(at - f.at);
                *cell == Some((f.piece.line.0, f.piece.part, place))
            }
            _ => cell.is_none(),
        }
    })
}

// Writes a line to a path, and to the array beside it. Whether the holds that come out are of the
// pieces that the array has no more.
fn hands_out(
    alloc: Global,
    map: &mut Map,
    path: &Path,
    cells: &mut [Cell],
    state: &mut u64,
    line: u32,
) -> Result<bool, Fail>
    requires chunk { map.old.chunk ≡ 8 }
    requires holds { AllHaveHolds (λ _. true) (λ h. h.piece) (λ h. h.bytes) map.old }
    ensures chunk { OnOk result (map.new.chunk ≡ 8) }
    ensures holds { OnOk result
        (AllHaveHolds (λ _. true) (λ h. h.piece) (λ h. h.bytes) map.new) }
{
    let off = pick(state, PLACES - 40);
    let len = 1 + pick(state, 40);
    let old = cells.to_vec(alloc)?;
    write(cells, line, off, len);
    let wanted = gone(alloc, &old, cells)?;
    let dead = add(alloc, map, path, line, off, len, None)?;
    Ok(pieces(alloc, &dead)? == wanted)
}

#[test]
fn random_writes_give_what_plain_arrays_give(rt: HostRuntime) -> Result<(), Fail> {
    let alloc = rt.alloc();
    let a = Path::read(alloc, b"/unifyfs/a")?;
    let b = Path::read(alloc, b"/unifyfs/b")?;
    let mut cells_a: Vec<Cell> = vec![in alloc; None; PLACES as usize]?;
    let mut cells_b: Vec<Cell> = vec![in alloc; None; PLACES as usize]?;
    let mut map = fresh(alloc)?;
    let mut state = 1;
    for round in 0..10u32 {
        for line in round * 100..round * 100 + 100 {
            let at_a = hands_out(alloc, &mut map, &a, &mut cells_a, &mut state, line)?;
            let at_b = hands_out(alloc, &mut map, &b, &mut cells_b, &mut state, line)?;
            assert!(rt; at_a && at_b, "line {line}");
            let agree = agrees(&map, &a, &cells_a) && agrees(&map, &b, &cells_b);
            assert!(rt; agree, "after line {line}");
        }
        take(&mut map, &a);
        cells_a.iter_mut().for_each(|cell| *cell = None);
    }
    Ok(())
}
