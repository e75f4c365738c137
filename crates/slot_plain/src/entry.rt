//! What is kept of a slot that was taken at some time.

use fs_types::PieceId;

/// The piece that a slot was filled with.
#[derive(Debug, Drop)]
pub struct FilledPiece {
    pub id: PieceId,
    /// How many bytes it has.
    pub len: u32,
}

/// What is kept of a slot.
#[derive(Debug, Drop)]
pub struct Entry {
    /// How often it is held.
    pub count: u64,
    /// Its piece, once it was filled.
    pub piece: Option<FilledPiece>,
    /// The bytes of a slot of shared memory: as many as the slot has room for, of which its piece
    /// is the first ones. A slot of the spill device has none here.
    pub buffer: Vec<u8>,
}
