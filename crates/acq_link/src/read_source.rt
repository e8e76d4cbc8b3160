//! Sources over readers.

ghost use Rattle.std.specs.Prelude.{◌≡◌, ◌-◌, ◌^◌, []};

use crate::call::Call;
use crate::failed::Failed;
use crate::source::Source;
use crate::transcript::Transcript;
use std::io::Read;

/// A source over any reader. An interrupted read fails. It serves 2^64 - 1 reads.
#[derive(Drop)]
pub struct ReadSource<R> {
    reader: R,
    reads_left: u64,
    transcript: Transcript,
}

impl<R> ReadSource<R> {
    ghost use Rattle.acq_link.specs.ReadSource.{reader_of, received_of, failures_of, reads_left_of};

    /// A source of what the reader gives from now on.
    pub fn new(reader: R) -> ReadSource<R>
        ensures reader { reader_of result ≡ reader }
        ensures received { received_of result ≡ [] }
        ensures failures { failures_of result ≡ 0 }
        ensures reads_left { reads_left_of result ≡ 2 ^ 64 - 1 }
    {
        ReadSource {
            reader,
            reads_left: u64::MAX,
            transcript: Transcript::new(),
        }
    }

    /// The reader, which may have more to give.
    pub fn into_inner(self) -> R
        ensures { result ≡ reader_of self }
    {
        self.reader
    }
}

impl<R: Read> Source for ReadSource<R> {
    ghost use Rattle.acq_link.specs.ReadSource.{reader_of, received_of, failures_of, reads_left_of};

    ghost received = { received_of };

    ghost remaining = { λ s. R.remaining (reader_of s) };

    ghost failures = { failures_of };

    ghost reads_left = { reads_left_of };

    fn reads_left(&self) -> u64 {
        self.reads_left
    }

    fn read(&mut self, buffer: &mut [u8]) -> Result<usize, Failed> {
        if self.reads_left == 0 {
            self.transcript = self.transcript.after(&Call::Failed);
            return Err(Failed);
        }
        self.reads_left -= 1;
        match self.reader.read(buffer) {
            Ok(n) => {
                self.transcript = self.transcript.after(&Call::Moved(&buffer[..n]));
                Ok(n)
            }
            Err(_) => {
                self.transcript = self.transcript.after(&Call::Failed);
                Err(Failed)
            }
        }
    }
}
