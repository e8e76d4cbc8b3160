//! Bytes of one frame.

ghost use Rattle.std.specs.Prelude.{◌≡◌, ◌+◌, ◌≤◌, ◌++◌, [], length};
ghost use Rattle.acq_link.specs.Deframing.{longest_frame};

use acq_link::LONGEST_FRAME;
use std::marker::Model;

/// Bytes of one frame, in order. Contracts see the list of them.
#[derive(Drop)]
pub(crate) struct FrameBuffer {
    bytes: [u8; LONGEST_FRAME],
    held: usize,
}

impl Model for FrameBuffer {
    ghost use Rattle.std.specs.Prelude.{◌≤◌, ℕ, List, take};
    ghost use Rattle.acq_link.specs.Deframing.{longest_frame};

    ghost Value = { List ℕ };

    ghost view = { λ b. take b.held b.bytes };

    ghost invariant = { λ b. b.held ≤ longest_frame };
}

impl FrameBuffer {
    /// No byte.
    pub(crate) fn new() -> FrameBuffer
        ensures { result ≡ [] }
    {
        FrameBuffer {
            bytes: [0; LONGEST_FRAME],
            held: 0,
        }
    }

    /// How many bytes it has room for.
    pub(crate) fn room(&self) -> usize
        ensures { result + length self.now ≡ longest_frame }
    {
        LONGEST_FRAME - self.held
    }

    /// Puts bytes behind the others.
    pub(crate) fn push(&mut self, piece: &[u8])
        requires { length self.old + length piece.now ≤ longest_frame }
        ensures { self.new ≡ self.old ++ piece.now }
    {
        let end = self.held + piece.len();
        self.bytes[self.held..end].copy_from_slice(piece);
        self.held = end;
    }

    /// Holds no byte any more.
    pub(crate) fn clear(&mut self)
        ensures { self.new ≡ [] }
    {
        self.held = 0;
    }

    pub(crate) fn as_slice(&self) -> &[u8]
        ensures { result.now ≡ self.now }
    {
        &self.bytes[..self.held]
    }
}
