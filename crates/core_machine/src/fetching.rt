//! The bytes of a file's runs, fetched from the slots that have their pieces.

ghost use Rattle.std.specs.Prelude.{◌≡◌, ◌≤◌, ◌<◌, ◌+◌, ℕ, length, slice_get, slice_index, replicate, IfSome, if◌then◌else◌, Some};
ghost use Rattle.fs_types.specs.Fragments.{end_of};
ghost use Rattle.fs_types.specs.FragmentMarks.{is_within, mark_within};
ghost use Rattle.fs_script.specs.Vocabulary.{Job, marked_byte};
ghost use Rattle.piece_table.specs.PieceTable.{hold_of};
ghost use Rattle.core_machine.specs.Fetching.{AreFetchable, HasBytes};
ghost use Rattle.core_machine.specs.Logs.{AreInMemory, HoldsStand, IsHeldIn, IsInMemory};

use crate::logs::fetch;
use crate::plain_hold::PlainHold;
use fs_dev::SpillDev;
use fs_types::Frag;
use piece_table::PieceTable;
use slot_plain::PlainLog;

/// Puts the bytes of a run in their places, from the slot of a hold of its piece.
pub fn fetch_run<D: SpillDev + Drop>(
    logs: &mut [PlainLog<D>],
    hold: &PlainHold,
    run: &Frag,
    bytes: &mut [u8],
)
    requires held { (s : Job) × IsHeldIn s logs.old hold.now
        × IfSome (slice_get logs.old hold.now.rank) (IsInMemory s) }
    requires piece { hold.now.piece ≡ run.now.piece }
    requires within { run.now.from + run.now.len ≤ hold.now.bytes }
    requires end { end_of run.now ≤ length bytes.old }
    ensures put { (s : Job) → IsHeldIn s logs.old hold.now
        → (k : ℕ) → k < length bytes.old → slice_index bytes.new k
        ≡ (if is_within run.now k then marked_byte s (Some (mark_within run.now k))
        else slice_index bytes.old k) }
    ensures logs { logs.new ≡ logs.old }
{
    let at = run.at as usize;
    fetch(logs, hold, run.from, &mut bytes[at..at + run.len as usize]);
}

/// Puts the bytes of all of these runs in their places, over zeros, by the holds that were found.
pub fn fetch_all<D: SpillDev + Drop>(
    found: &PieceTable<PlainHold>,
    runs: &[Frag],
    logs: &mut [PlainLog<D>],
    bytes: &mut [u8],
)
    requires runs { AreFetchable (hold_of found.now) (length bytes.old) runs.now }
    requires stand { (s : Job) × HoldsStand s logs.old (hold_of found.now)
        × AreInMemory s logs.old }
    requires zeros { bytes.old ≡ replicate (length bytes.old) 0 }
    ensures bytes { (s : Job) → HoldsStand s logs.old (hold_of found.now)
        → HasBytes s runs.now bytes.new }
    ensures logs { logs.new ≡ logs.old }
{
    for run in runs {
        let Some(hold) = found.get(run.piece) else {
            unreachable!()
        };
        fetch_run(logs, hold, run, bytes);
    }
}
