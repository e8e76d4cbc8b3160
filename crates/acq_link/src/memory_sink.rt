//! Sinks over memory.

ghost use Rattle.std.specs.Prelude.{◌≡◌, ◌+◌, ◌<◌, length, min, IfOk, OnErr};
ghost use Rattle.std.specs.Io.{WritesAtMost};
ghost use Rattle.acq_link.specs.Moves.{Sends, CountsFailure};

use crate::call::Call;
use crate::failed::Failed;
use crate::sink::Sink;
use crate::transcript::Transcript;
use std::alloc::Global;

/// A sink over memory. For tests it can take the bytes in pieces, and only some of them. A write
/// also fails where a growth is refused.
#[derive(Drop)]
pub struct MemorySink {
    bytes: Vec<u8>,
    piece: usize,
    room: usize,
    transcript: Transcript,
}

impl MemorySink {
    ghost use Rattle.acq_link.specs.MemorySink.{IsFresh, sent_of, piece_of, room_of, failures_of};

    /// Takes every byte.
    pub fn new(alloc: Global) -> MemorySink
        ensures { IsFresh result usize.MAX usize.MAX }
    {
        MemorySink::with(alloc, usize::MAX, usize::MAX)
    }

    /// A write takes at most `piece` bytes. With 0 each write fails.
    pub fn in_pieces(alloc: Global, piece: usize) -> MemorySink
        ensures { IsFresh result piece usize.MAX }
    {
        MemorySink::with(alloc, piece, usize::MAX)
    }

    /// A write takes at most `piece` bytes, and after `room` bytes each write fails.
    pub fn failing_after(alloc: Global, piece: usize, room: usize) -> MemorySink
        ensures { IsFresh result piece room }
    {
        MemorySink::with(alloc, piece, room)
    }

    /// The bytes that went out so far.
    pub fn as_bytes(&self) -> &[u8]
        ensures { result.now ≡ sent_of self.now }
    {
        self.bytes.as_slice()
    }

    fn with(alloc: Global, piece: usize, room: usize) -> MemorySink
        ensures { IsFresh result piece room }
    {
        MemorySink {
            bytes: Vec::new(alloc),
            piece,
            room,
            transcript: Transcript::new(),
        }
    }

    fn fail(&mut self)
        ensures sent { sent_of self.new ≡ sent_of self.old }
        ensures failures { failures_of self.new ≡ failures_of self.old + 1 }
        ensures piece { piece_of self.new ≡ piece_of self.old }
        ensures room { room_of self.new ≡ room_of self.old }
    {
        self.transcript = self.transcript.after(&Call::Failed);
    }
}

impl Sink for MemorySink {
    ghost use Rattle.acq_link.specs.MemorySink.{sent_of, piece_of, room_of, failures_of};

    ghost sent = { sent_of };

    ghost failures = { failures_of };

    fn write(&mut self, bytes: &[u8]) -> Result<usize, Failed>
        ensures bound { WritesAtMost result bytes.now }
        ensures some { IfOk result (λ n. 0 < length bytes.now → 0 < n) }
        ensures sent { Sends (sent_of self.old) (sent_of self.new) result bytes.now }
        ensures failures { CountsFailure (failures_of self.old) (failures_of self.new) result }

        // It takes as much as a piece and the room allow.
        ensures takes { IfOk result (λ n.
            n ≡ min (length bytes.now) (min (piece_of self.old) (room_of self.old))) }
        ensures room { IfOk result (λ n. room_of self.new + n ≡ room_of self.old) }
        ensures kept { OnErr result (room_of self.new ≡ room_of self.old) }
        ensures piece { piece_of self.new ≡ piece_of self.old }
    {
        let n = bytes.len().min(self.piece.min(self.room));
        if n == 0 && !bytes.is_empty() {
            self.fail();
            return Err(Failed);
        }
        if self.bytes.extend_from_slice(&bytes[..n]).is_err() {
            self.fail();
            return Err(Failed);
        }
        self.room -= n;
        Ok(n)
    }
}
