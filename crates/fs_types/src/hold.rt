//! Holds of pieces: while a piece is held, its bytes stay.

ghost use Rattle.std.specs.Prelude.{◌≡◌, ◌↔◌, ℕ, Bool, Option, IsTrue, IfOk, OnOk, OnErr, IsErrOf};
ghost use Rattle.fs_types.specs.Room.{is_at_most, lowered, IsAtLeast};
ghost use Rattle.fs_types.specs.Pieces.{Piece};

use crate::fragment::PieceId;
use thiserror::Error;

/// Why a hold was not pinned.
#[derive(Clone, Copy, Debug, Drop, PartialEq, Eq, Error)]
pub enum PinNo {
    /// Its room is at most the room that was asked for.
    #[error("the hold has too little room")]
    NoRoom,
    /// Memory ran out.
    #[error("out of memory")]
    Want,
}

/// A hold of a piece. Only a ready one is asked for anything: its piece is whole.
pub trait Hold: Sized {
    /// Whether its piece is whole.
    ghost is_ready: { Self → Bool };

    /// The piece that it holds.
    ghost piece: { Self → Piece };

    /// How many bytes the piece has.
    ghost bytes: { Self → ℕ };

    /// How much can be given to pins of it; `None` is a room without end.
    ghost room: { Self → Option ℕ };

    /// What the places are that pieces lie in.
    ghost Place: { Type 0 };

    /// The place that its piece lies in. Its pins are of the same.
    ghost place: { Self → Place };

    /// The piece that it holds.
    fn piece(&self) -> PieceId
        requires { IsTrue (is_ready self.now) }
        ensures { result ≡ piece self.now };

    /// How many bytes the piece has.
    fn bytes(&self) -> u32
        requires { IsTrue (is_ready self.now) }
        ensures { result ≡ bytes self.now };

    /// One more hold of the same piece, with at least the room that is asked for. That room and 1
    /// more are taken from the room of this hold.
    fn pin(&mut self, asked: u64) -> Result<Self, PinNo>
        requires { IsTrue (is_ready self.old) }
        ensures no_room { IsErrOf result PinNo.NoRoom ↔ IsTrue (is_at_most (room self.old) asked) }
        ensures pin_ready { IfOk result (λ pin. IsTrue (is_ready pin)) }
        ensures pin_piece { IfOk result (λ pin. piece pin ≡ piece self.old) }
        ensures pin_bytes { IfOk result (λ pin. bytes pin ≡ bytes self.old) }
        ensures pin_place { IfOk result (λ pin. place pin ≡ place self.old) }
        ensures pin_room { IfOk result (λ pin. IsAtLeast asked (room pin)) }
        ensures lowered { OnOk result (room self.new ≡ lowered asked (room self.old)) }
        ensures same_room { OnErr result (room self.new ≡ room self.old) }
        ensures ready { IsTrue (is_ready self.new) }
        ensures same_piece { piece self.new ≡ piece self.old }
        ensures same_bytes { bytes self.new ≡ bytes self.old }
        ensures same_place { place self.new ≡ place self.old };
}
