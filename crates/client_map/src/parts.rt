//! The parts of a write as fragments.

ghost use Rattle.std.specs.Prelude.{◌≡◌, ◌≤◌, ◌<◌, ◌+◌, All, IsTrue, IfOk};
ghost use Rattle.fs_types.specs.Fragments.{held_pieces};
ghost use Rattle.fs_types.specs.declared.limits.TheConstants.{LONGEST_FILE};
ghost use Rattle.client_map.specs.Writes.{parts_of, pieces_of, write_of};

use fs_types::{Frag, Hold, Want};
use std::alloc::Global;

/// The parts of a write, which has a hold of each, as fragments.
pub fn parts<H: Hold>(
    alloc: Global,
    chunk: u32,
    off: u64,
    len: u64,
    holds: &[H],
) -> Result<Vec<Frag>, Want>
    requires chunk { 0 < chunk }
    requires in_file { off + len ≤ LONGEST_FILE }
    requires ready { All (λ h. IsTrue (H.is_ready h)) holds.now }
    requires pieces { let w = write_of H.piece off len holds.now in
        held_pieces H.piece H.bytes holds.now ≡ pieces_of chunk w }
    ensures { let w = write_of H.piece off len holds.now in
        IfOk result (λ frags. frags.items ≡ parts_of chunk w) }
{
    let chunk = u64::from(chunk);
    let mut frags = Vec::with_capacity(alloc, holds.len())?;
    let mut begin = 0;
    for hold in holds {
        frags.push_reserved(Frag {
            at: off + begin,
            len: chunk.min(len - begin),
            piece: hold.piece(),
            from: 0,
        });
        begin += chunk;
    }
    Ok(frags)
}
