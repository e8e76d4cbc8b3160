//! Sources over bytes in memory.

ghost use Rattle.std.specs.Prelude.{◌≡◌, ◌-◌, ◌<◌, length, min, Some, None, Ok, IsErr};
ghost use Rattle.std.specs.Prelude.{true, false};
ghost use Rattle.std.specs.Io.{ReadsAtMost};
ghost use Rattle.std.specs.Io.KnownBytes.{ReadConsumes};
ghost use Rattle.acq_link.specs.Moves.{Receives, CountsFailure};

use crate::call::Call;
use crate::failed::Failed;
use crate::source::Source;
use crate::transcript::Transcript;

/// A source over bytes in memory. For tests it can give them in pieces, and one read can fail.
#[derive(Drop)]
pub struct SliceSource<'a> {
    rest: &'a [u8],
    piece: usize,
    before_failure: Option<u64>,
    reads_left: u64,
    transcript: Transcript,
    ghost some: { 0 < piece },
}

impl<'a> SliceSource<'a> {
    ghost use Rattle.acq_link.specs.SliceSource.{IsFresh, received_of, rest_of, piece_of};
    ghost use Rattle.acq_link.specs.SliceSource.{before_failure, failures_of, reads_left_of};
    ghost use Rattle.acq_link.specs.SliceSource.{fails_next, before_after};

    /// A read gives as many bytes as there are and the buffer has room for.
    pub fn new(bytes: &'a [u8]) -> SliceSource<'a>
        ensures { IsFresh result bytes.entry.now usize.MAX None }
    {
        SliceSource::with(bytes, usize::MAX, None)
    }

    /// A read gives at most `piece` bytes.
    pub fn in_pieces(bytes: &'a [u8], piece: usize) -> SliceSource<'a>
        requires { 0 < piece }
        ensures { IsFresh result bytes.entry.now piece None }
    {
        SliceSource::with(bytes, piece, None)
    }

    /// A read gives at most `piece` bytes, and the one after `before` reads fails.
    pub fn failing_after(bytes: &'a [u8], piece: usize, before: u64) -> SliceSource<'a>
        requires { 0 < piece }
        ensures { IsFresh result bytes.entry.now piece (Some before) }
    {
        SliceSource::with(bytes, piece, Some(before))
    }

    fn with(bytes: &'a [u8], piece: usize, before_failure: Option<u64>) -> SliceSource<'a>
        requires { 0 < piece }
        ensures { IsFresh result bytes.entry.now piece before_failure }
    {
        SliceSource {
            rest: bytes,
            piece,
            before_failure,
            reads_left: u64::MAX,
            transcript: Transcript::new(),
        }
    }

    // Whether the next read fails; if not, one read fewer comes before the one that does.
    fn count_read(&mut self) -> bool
        ensures rest { rest_of self.new ≡ rest_of self.old }
        ensures piece { piece_of self.new ≡ piece_of self.old }
        ensures received { received_of self.new ≡ received_of self.old }
        ensures failures { failures_of self.new ≡ failures_of self.old }
        ensures reads_left { reads_left_of self.new ≡ reads_left_of self.old - 1 }
        ensures fails { result ≡ fails_next self.old }
        ensures before { before_failure self.new ≡ before_after self.old }
    {
        if self.reads_left == 0 {
            return true;
        }
        self.reads_left -= 1;
        match self.before_failure {
            None => false,
            Some(0) => {
                self.before_failure = None;
                true
            }
            Some(before) => {
                self.before_failure = Some(before - 1);
                false
            }
        }
    }
}

impl Source for SliceSource<'_> {
    ghost use Rattle.acq_link.specs.SliceSource.{received_of, rest_of, piece_of};
    ghost use Rattle.acq_link.specs.SliceSource.{before_failure, failures_of, reads_left_of};
    ghost use Rattle.acq_link.specs.SliceSource.{fails_next, before_after};

    ghost received = { received_of };

    ghost remaining = { λ s. Some (rest_of s) };

    ghost failures = { failures_of };

    ghost reads_left = { reads_left_of };

    fn reads_left(&self) -> u64 {
        self.reads_left
    }

    fn read(&mut self, buffer: &mut [u8]) -> Result<usize, Failed>
        ensures bound { ReadsAtMost result buffer.new }
        ensures received { Receives (received_of self.old) (received_of self.new) result
            buffer.new }
        ensures remaining { ReadConsumes (Some (rest_of self.old)) (Some (rest_of self.new)) result
            buffer.new }
        ensures failures { CountsFailure (failures_of self.old) (failures_of self.new) result }
        ensures reads_left { reads_left_of self.new ≡ reads_left_of self.old - 1 }
        ensures spent { reads_left_of self.old ≡ 0 → IsErr result }

        // It fails at this read alone, and at those past the last.
        ensures fails { fails_next self.old ≡ true → IsErr result }
        ensures gives { fails_next self.old ≡ false → result
            ≡ Ok (min (length buffer.old) (min (piece_of self.old) (length (rest_of self.old)))) }
        ensures piece { piece_of self.new ≡ piece_of self.old }
        ensures before { before_failure self.new ≡ before_after self.old }
    {
        if self.count_read() {
            self.transcript = self.transcript.after(&Call::Failed);
            return Err(Failed);
        }
        let n = buffer.len().min(self.piece.min(self.rest.len()));
        let (front, back) = self.rest.split_at(n);
        buffer[..n].copy_from_slice(front);
        self.rest = back;
        self.transcript = self.transcript.after(&Call::Moved(front));
        Ok(n)
    }
}
