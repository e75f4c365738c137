//! Pins of the pieces that a read fetches: while it is under way, their slots are held once more.

ghost use Rattle.std.specs.Prelude.{◌≡◌, ◌<◌, ◌-◌, ◌^◌, ℕ, true, false, is_some, None, find, All, AllPairs, IsSome, IfSome, IfOk, OnOk};
ghost use Rattle.fs_types.specs.Fragments.{fragment_count, piece_eq};
ghost use Rattle.fs_types.specs.Pieces.{Piece};
ghost use Rattle.client_map.specs.Kept.{pending_in};
ghost use Rattle.piece_table.specs.HeldSpans.{is_named};
ghost use Rattle.piece_table.specs.PieceTable.{AreTheirs, hold_of, number_of};
ghost use Rattle.core_machine.specs.Logs.{AreHeldSlots, AreInOneSlot, IsHeld, slot_in};
ghost use Rattle.core_machine.specs.Pins.{ArePins, HaveSlots, LetsGoOnce, PinsOnce, either_hold, no_count, pin_count};
ghost use Rattle.core_machine.specs.Settling.{Settles};

use crate::client::Client;
use crate::logs::{pin, release};
use crate::plain_hold::PlainHold;
use fs_dev::SpillDev;
use fs_types::{Frag, Path, PieceId, Want};
use piece_table::PieceTable;
use slot_plain::PlainLog;
use std::alloc::Global;

/// The holds that a look-up handed out, each by its piece.
pub fn table_of(alloc: Global, holds: &[PlainHold]) -> Result<PieceTable<PlainHold>, Want>
    requires apart { AllPairs (λ g h. piece_eq g.piece h.piece ≡ false) holds.now }
    ensures { IfOk result (λ t. (q : Piece)
        → hold_of t q ≡ find (λ h. piece_eq h.piece q) holds.now) }
{
    let mut found = PieceTable::new(alloc);
    for hold in holds {
        if let Err((want, _)) = found.enter(*hold) {
            return Err(want);
        }
    }
    Ok(found)
}

// The hold of a piece: the one that was found, or else the client's own.
fn hold_among(
    found: &PieceTable<PlainHold>,
    client: &Client,
    p: &Path,
    piece: PieceId,
) -> Option<PlainHold>
    ensures { result ≡ either_hold (hold_of found.now)
        (pending_in client.now.pending p.now).hold_of piece }
{
    match found.get(piece) {
        Some(hold) => Some(*hold),
        None => client.pending.hold(p, piece).copied(),
    }
}

// Counts one run more of a piece that has a hold, and pins the piece if it is the first.
fn pin_once<D: SpillDev + Drop>(
    found: &PieceTable<PlainHold>,
    client: &Client,
    p: &Path,
    piece: PieceId,
    pins: &mut PieceTable<PlainHold>,
    logs: &mut [PlainLog<D>],
) -> Result<(), Want>
    requires there { IsSome (either_hold (hold_of found.now)
        (pending_in client.now.pending p.now).hold_of piece) }
    requires same { is_some (hold_of pins.old piece) ≡ true → hold_of pins.old piece
        ≡ either_hold (hold_of found.now) (pending_in client.now.pending p.now).hold_of piece }
    requires counted { is_some (hold_of pins.old piece) ≡ true → 0 < number_of pins.old piece }
    requires theirs { AreTheirs (λ h. h.piece)
        (either_hold (hold_of found.now) (pending_in client.now.pending p.now).hold_of) }
    requires number { number_of pins.old piece < 2 ^ 64 - 1 }
    requires held { hold_of pins.old piece ≡ None
        → IfSome (either_hold (hold_of found.now)
        (pending_in client.now.pending p.now).hold_of piece)
        (IsHeld logs.old) }
    requires few { hold_of pins.old piece ≡ None
        → IfSome (either_hold (hold_of found.now)
        (pending_in client.now.pending p.now).hold_of piece)
        (λ h. (slot_in logs.old h.rank h.slot).count < 2 ^ 64 - 1) }
    ensures { OnOk result (PinsOnce
        (either_hold (hold_of found.now) (pending_in client.now.pending p.now).hold_of) piece
        pins.old pins.new logs.old logs.new) }
{
    if pins.get(piece).is_some() {
        pins.more(piece);
        return Ok(());
    }
    let Some(hold) = hold_among(found, client, p, piece) else {
        unreachable!()
    };
    if let Err((want, _)) = pins.enter(hold) {
        return Err(want);
    }
    pin(logs, &hold);
    Ok(())
}

/// A pin of each piece that these runs are of, by the holds that were found and the client's own.
/// After want of memory the logs are open.
pub fn pin_runs<D: SpillDev + Drop>(
    alloc: Global,
    found: &PieceTable<PlainHold>,
    client: &Client,
    p: &Path,
    runs: &[Frag],
    logs: &mut [PlainLog<D>],
) -> Result<PieceTable<PlainHold>, Want>
    requires named { All (λ f. IsSome (either_hold (hold_of found.now)
        (pending_in client.now.pending p.now).hold_of f.piece)) runs.now }
    requires theirs { AreTheirs (λ h. h.piece)
        (either_hold (hold_of found.now) (pending_in client.now.pending p.now).hold_of) }
    requires slots { HaveSlots logs.old
        (either_hold (hold_of found.now) (pending_in client.now.pending p.now).hold_of) }
    requires once { AreInOneSlot logs.old }
    requires held { AreHeldSlots logs.old }
    requires few { (r i : ℕ) → (slot_in logs.old r i).count < 2 ^ 64 - 1 }
    ensures { IfOk result (λ pins. ArePins no_count
        (either_hold (hold_of found.now) (pending_in client.now.pending p.now).hold_of)
        runs.now pins logs.old logs.new) }
{
    let mut pins = PieceTable::new(alloc);
    for run in runs {
        pin_once(found, client, p, run.piece, &mut pins, logs)?;
    }
    Ok(pins)
}

// Counts one run fewer of a piece, and lets the piece go if it was the last.
fn let_go_once<D: SpillDev + Drop>(
    piece: PieceId,
    pins: &mut PieceTable<PlainHold>,
    logs: &mut [PlainLog<D>],
)
    requires number { 0 < number_of pins.old piece }
    requires held { IfSome (hold_of pins.old piece) (IsHeld logs.old) }
    ensures { LetsGoOnce piece pins.old pins.new logs.old logs.new }
{
    if let Some(hold) = pins.less(piece) {
        release(logs, &hold);
    }
}

/// Lets go of all that is pinned, by the runs that it was pinned for.
pub fn let_go<D: SpillDev + Drop>(
    runs: &[Frag],
    pins: &mut PieceTable<PlainHold>,
    logs: &mut [PlainLog<D>],
)
    requires numbers { (q : Piece) → number_of pins.old q ≡ fragment_count q runs.now }
    requires named { (q : Piece) → is_some (hold_of pins.old q) ≡ is_named runs.now q }
    requires slots { HaveSlots logs.old (hold_of pins.old) }
    requires once { AreInOneSlot logs.old }
    requires held { AreHeldSlots logs.old }
    ensures { Settles (pin_count pins.old) no_count logs.old logs.new }
{
    for run in runs {
        let_go_once(run.piece, pins, logs);
    }
}
