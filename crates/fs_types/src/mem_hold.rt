//! Holds that say of what they are, and count their room; what they hold is kept elsewhere.

ghost use Rattle.std.specs.Prelude.{◌≡◌, true};

use crate::fragment::PieceId;
use crate::hold::{Hold, PinNo};

/// A hold that is always ready, with a room, or one without end.
#[derive(Debug, Drop)]
pub struct MemHold {
    piece: PieceId,
    bytes: u32,
    room: Option<u64>,
}

impl MemHold {
    /// A hold of a piece of so many bytes; `None` is a room without end.
    pub fn new(piece: PieceId, bytes: u32, room: Option<u64>) -> MemHold
        ensures { result ≡ record { piece = piece; bytes = bytes; room = room } }
    {
        MemHold { piece, bytes, room }
    }
}

impl Hold for MemHold {
    ghost is_ready = { λ _. true };

    ghost piece = { λ h. h.piece };

    ghost bytes = { λ h. h.bytes };

    ghost room = { λ h. h.room };

    ghost Place = { Unit {0} };

    ghost place = { λ _. tt };

    fn piece(&self) -> PieceId {
        self.piece
    }

    fn bytes(&self) -> u32 {
        self.bytes
    }

    fn pin(&mut self, asked: u64) -> Result<MemHold, PinNo> {
        let Some(room) = self.room else {
            return Ok(MemHold {
                room: None,
                ..*self
            });
        };
        if room <= asked {
            return Err(PinNo::NoRoom);
        }
        self.room = Some(room - asked - 1);
        Ok(MemHold {
            room: Some(asked),
            ..*self
        })
    }
}
