//! Pieces of written bytes, and the fragments of a file that name them. A clause sees each as its
//! fields.

use crate::number::LineNo;
use std::marker::Model;

/// A part of what a line wrote: its first bytes are part 0.
#[derive(Clone, Copy, Debug, PartialEq, Eq, PartialOrd, Ord, Hash)]
pub struct PieceId {
    pub line: LineNo,
    pub part: u32,
}

// A struct round a `LineNo` is copied only where it has a model of its own.
impl Model for PieceId {
    ghost use Rattle.fs_types.specs.Pieces.{Piece};

    ghost Value = { Piece };

    ghost view = { λ p. record { line = p.line; part = p.part } };

    ghost inverse = { λ p. record { line = p.line; part = p.part } };
}

/// A range of a file, and the bytes of a piece that stand there.
#[derive(Clone, Copy, Debug, PartialEq, Eq)]
pub struct Frag {
    /// Where it begins in the file.
    pub at: u64,
    /// How many bytes it has.
    pub len: u64,
    pub piece: PieceId,
    /// Where its first byte stands in the piece.
    pub from: u32,
}

impl Model for Frag {
    ghost use Rattle.fs_types.specs.Pieces.{Fragment};

    ghost Value = { Fragment };

    ghost view = { λ f. record { at = f.at; len = f.len; piece = f.piece; from = f.from } };

    ghost inverse = { λ f. record { at = f.at; len = f.len; piece = f.piece; from = f.from } };
}
