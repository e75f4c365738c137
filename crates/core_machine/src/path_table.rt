//! The paths that a script names, each found by a look-up, and the gfids of the paths by line.

ghost use Rattle.std.specs.Prelude.{◌≡◌, ◌<◌, Some, length, map, position, slice_get, Contains, is_some, IfSome, IfNone, IfOk, OnOk};
ghost use Rattle.std.specs.List.{list_any};
ghost use Rattle.std.specs.Str.{bytes_eq};
ghost use Rattle.fs_script.specs.Job.{Job, op_at};
ghost use Rattle.fs_script.specs.Report.{ArePaths, AreRising};
ghost use Rattle.fs_script.specs.declared.line.OpLine.{OpLine};
ghost use Rattle.placement.specs.Placement.{gfid};
ghost use Rattle.core_machine.specs.Gfids.{AreGfids, gfid_in, gfids_of};
ghost use Rattle.core_machine.specs.PathTable.{texts, with_path, with_op, paths_of};

use fs_script::{Line, Script};
use fs_types::{LineNo, Path, Want};
use indexmap::IndexSet;
use placement::gfid_of_bytes;
use std::alloc::Global;
use std::marker::Model;

/// The paths that a script names, in byte order. A clause sees the list of them.
#[derive(Drop)]
pub struct PathTable {
    paths: IndexSet<Vec<u8>>,
}

impl Model for PathTable {
    ghost use Rattle.std.specs.Prelude.{ℕ, List};
    ghost use Rattle.fs_script.specs.Report.{AreRising};
    ghost use Rattle.core_machine.specs.PathTable.{texts};

    ghost Value = { List (List ℕ) };

    ghost view = { λ t. texts t.paths.keys };

    ghost invariant = { λ t. AreRising (texts t.paths.keys) };
}

/// The gfid of the path of each line that is an operation. A clause sees the list of them, with 0
/// for every other line.
#[derive(Drop)]
pub struct Gfids {
    by_line: Vec<u64>,
}

impl Model for Gfids {
    ghost use Rattle.std.specs.Prelude.{ℕ, List};

    ghost Value = { List ℕ };

    ghost view = { λ g. g.by_line.items };
}

// The place of a path, if it is there. It may well be that of the line before, which stands at the
// place `last`, so it is compared with that before it is looked up.
fn place_of(paths: &IndexSet<Vec<u8>>, last: usize, p: &[u8]) -> Option<usize>
    ensures there { IfSome result (λ i. slice_get (texts paths.now.keys) i ≡ Some p.now) }
    ensures found { is_some result ≡ list_any (λ v. bytes_eq p.now v.items) paths.now.keys }
{
    if let Some(before) = paths.get_index(last) {
        if p == before.as_slice() {
            return Some(last);
        }
    }
    paths.get_index_of(p)
}

// Adds a path, unless it is there, and gives its gfid, which is computed for a new path alone:
// `known` has those of the paths that are there, in their order. Its place is left in `last`.
#[tactic(auto, using(crate::proofs::PathTables::added_paths))]
fn add_path(
    alloc: Global,
    paths: &mut IndexSet<Vec<u8>>,
    known: &mut Vec<u64>,
    last: &mut usize,
    p: &[u8],
) -> Result<u64, Want>
    requires { known.old.items ≡ map gfid (texts paths.old.keys) }
    ensures paths { OnOk result (texts paths.new.keys ≡ with_path (texts paths.old.keys) p.now) }
    ensures known { OnOk result (known.new.items ≡ map gfid (texts paths.new.keys)) }
    ensures gfid { IfOk result (λ g. g ≡ gfid p.now) }
{
    if let Some(i) = place_of(paths, *last, p) {
        *last = i;
        return Ok(known[i]);
    }
    *last = known.len();
    let number = gfid_of_bytes(p);
    paths.insert(Vec::from_slice(alloc, p)?)?;
    known.push(number)?;
    Ok(number)
}

// Adds the path of line `n`, if that is an operation, and gives its gfid; 0 if it is none.
fn add_path_of_line(
    alloc: Global,
    s: &Script,
    n: LineNo,
    paths: &mut IndexSet<Vec<u8>>,
    known: &mut Vec<u64>,
    last: &mut usize,
) -> Result<u64, Want>
    requires { known.old.items ≡ map gfid (texts paths.old.keys) }
    ensures paths { OnOk result (texts paths.new.keys
        ≡ with_op (texts paths.old.keys) (op_at s.now n)) }
    ensures known { OnOk result (known.new.items ≡ map gfid (texts paths.new.keys)) }
    ensures gfid { IfOk result (λ g. g ≡ gfid_in (op_at s.now n)) }
{
    match s.line(n) {
        Some(Line::Op(o)) => add_path(alloc, paths, known, last, o.path.as_bytes()),
        _ => Ok(0),
    }
}

// The paths in the order of the first lines that name them, and the gfids by line.
#[tactic(auto, using(crate::proofs::PathTables::named_paths))]
fn paths_by_line(alloc: Global, s: &Script) -> Result<(IndexSet<Vec<u8>>, Vec<u64>), Want>
    ensures paths { IfOk result (λ r. texts r.0.keys ≡ paths_of s.now.lines) }
    ensures gfids { IfOk result (λ r. r.1.items ≡ gfids_of s.now.lines) }
{
    let mut paths = IndexSet::new(alloc);
    let mut known = Vec::new(alloc);
    let mut last = 0;
    let mut by_line = Vec::with_capacity(alloc, s.lines() as usize - 1)?;
    for n in 2..s.lines() + 1 {
        let line = LineNo(n);
        by_line.push(add_path_of_line(alloc, s, line, &mut paths, &mut known, &mut last)?)?;
    }
    Ok((paths, by_line))
}

/// The paths that the script names, and the gfids of its lines' paths, each computed once for all
/// lines that name the path.
#[tactic(auto, using(crate::proofs::PathTables::sorted_paths))]
pub fn paths_and_gfids(alloc: Global, s: &Script) -> Result<(PathTable, Gfids), Want>
    ensures paths { IfOk result (λ r. ArePaths s.now r.0) }
    ensures gfids { IfOk result (λ r. AreGfids s.now r.1) }
{
    let (mut paths, by_line) = paths_by_line(alloc, s)?;
    paths.sort()?;
    Ok((PathTable { paths }, Gfids { by_line }))
}

impl PathTable {
    /// How many paths there are.
    pub fn len(&self) -> usize
        ensures len { result ≡ length self.now }
        ensures rising { AreRising self.now }
    {
        self.paths.len()
    }

    /// The place of a path, if the script names it.
    pub fn index_of(&self, p: &Path) -> Option<usize>
        ensures place { result ≡ position (λ q. bytes_eq q p.now) self.now }
        ensures within { IfSome result (λ i. i < length self.now) }
        ensures there { IfSome result (λ i. slice_get self.now i ≡ Some p.now) }
        ensures absent { IfNone result (Contains self.now p.now → ⊥) }
        ensures rising { AreRising self.now }
    {
        self.paths.get_index_of(p.as_bytes())
    }

    /// The path at a place of the byte order.
    pub fn path(&self, i: usize) -> &[u8]
        requires { i < length self.now }
        ensures { slice_get self.now i ≡ Some result.now }
    {
        self.paths.as_slice()[i].as_slice()
    }
}

impl Gfids {
    /// The gfid of the path of line `n`, an operation.
    pub fn of_line(&self, n: LineNo) -> u64
        requires { (s : Job) × (o : OpLine) × AreGfids s self.now × (op_at s n ≡ Some o) }
        ensures { (s : Job) (o : OpLine) → AreGfids s self.now → op_at s n ≡ Some o
            → result ≡ gfid o.path }
    {
        self.by_line[n.0 as usize - 2]
    }
}
