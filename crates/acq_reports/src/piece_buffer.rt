//! Bytes of one piece.

ghost use Rattle.std.specs.Prelude.{◌≡◌, ◌+◌, ◌≤◌, ◌++◌, [], length};
ghost use Rattle.acq_reports.specs.Pieces.{longest_piece};

use std::marker::Model;

/// How many bytes a piece has at most.
pub(crate) const LONGEST_PIECE: usize = 64 * 1024;

/// Bytes of one piece, in order. Contracts see the list of them. It stands in the value itself:
/// beside a writer that is lent, memory of its own would hide what the writer ends as.
#[derive(Drop)]
pub(crate) struct PieceBuffer {
    bytes: [u8; LONGEST_PIECE],
    held: usize,
}

impl Model for PieceBuffer {
    ghost use Rattle.std.specs.Prelude.{◌≤◌, ℕ, List, take};
    ghost use Rattle.acq_reports.specs.Pieces.{longest_piece};

    ghost Value = { List ℕ };

    ghost view = { λ b. take b.held b.bytes };

    ghost invariant = { λ b. b.held ≤ longest_piece };
}

impl PieceBuffer {
    /// No byte.
    pub(crate) fn new() -> PieceBuffer
        ensures { result ≡ [] }
    {
        PieceBuffer {
            bytes: [0; LONGEST_PIECE],
            held: 0,
        }
    }

    /// How many bytes it has room for.
    pub(crate) fn room(&self) -> usize
        ensures { result + length self.now ≡ longest_piece }
    {
        LONGEST_PIECE - self.held
    }

    /// Puts bytes behind the others.
    pub(crate) fn push(&mut self, text: &[u8])
        requires { length self.old + length text.now ≤ longest_piece }
        ensures { self.new ≡ self.old ++ text.now }
    {
        let end = self.held + text.len();
        self.bytes[self.held..end].copy_from_slice(text);
        self.held = end;
    }

    /// Holds no byte any more.
    pub(crate) fn clear(&mut self)
        ensures { self.new ≡ [] }
    {
        self.held = 0;
    }

    pub(crate) fn as_slice(&self) -> &[u8]
        ensures { result.now ≡ self.now }
    {
        &self.bytes[..self.held]
    }
}
