//! Holds of pieces that lie in the slots of plain logs.

ghost use Rattle.std.specs.Prelude.{◌≡◌, ℕ, true, None};

use fs_types::{Hold, PieceId, PinNo, Rank};

/// A hold of a piece, by the slot that the piece lies in. Any number of them are had of one, so a
/// pin of it is a copy; how many there are is counted elsewhere.
#[derive(Clone, Copy, Debug)]
pub struct PlainHold {
    pub piece: PieceId,
    /// How many bytes the piece has.
    pub bytes: u32,
    /// Whose log the slot is of.
    pub rank: Rank,
    pub slot: u32,
}

impl Hold for PlainHold {
    ghost is_ready = { λ _. true };

    ghost piece = { λ h. h.piece };

    ghost bytes = { λ h. h.bytes };

    ghost room = { λ _. None };

    ghost Place = { ℕ × ℕ };

    ghost place = { λ h. (h.rank, h.slot) };

    fn piece(&self) -> PieceId {
        self.piece
    }

    fn bytes(&self) -> u32 {
        self.bytes
    }

    fn pin(&mut self, _asked: u64) -> Result<PlainHold, PinNo> {
        Ok(*self)
    }
}
