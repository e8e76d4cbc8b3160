//! Ends of connections, behind those of earlier ones.

ghost use Rattle.std.specs.Prelude.{◌≡◌};

use acq_link::{Call, Failed, Sink, Source, Transcript};

/// An end of a connection that came behind others: what passes over it goes on what passed over
/// theirs.
#[derive(Drop)]
pub struct LaterEnd<E> {
    end: E,
    transcript: Transcript,
}

impl<E: Drop> LaterEnd<E> {
    ghost use Rattle.acq_serving.specs.Passing.{bytes_of, end_of, failures_of};

    /// This end, behind those over which so much passed.
    pub fn new(end: E, so_far: &Transcript) -> LaterEnd<E>
        ensures end { end_of result ≡ end }
        ensures bytes { bytes_of result ≡ so_far.now.bytes }
        ensures failures { failures_of result ≡ so_far.now.failures }
    {
        LaterEnd {
            end,
            transcript: so_far.after(&Call::Moved(&[])),
        }
    }

    /// What passed over it and those before it.
    pub fn into_transcript(self) -> Transcript
        ensures bytes { result.bytes ≡ bytes_of self }
        ensures failures { result.failures ≡ failures_of self }
    {
        self.transcript
    }
}

impl<S: Source> Source for LaterEnd<S> {
    ghost use Rattle.acq_serving.specs.Passing.{bytes_of, end_of, failures_of};

    ghost received = { bytes_of };

    ghost remaining = { λ e. S.remaining (end_of e) };

    ghost failures = { failures_of };

    ghost reads_left = { λ e. S.reads_left (end_of e) };

    fn reads_left(&self) -> u64 {
        self.end.reads_left()
    }

    fn read(&mut self, buffer: &mut [u8]) -> Result<usize, Failed> {
        match self.end.read(buffer) {
            Ok(n) => {
                self.transcript = self.transcript.after(&Call::Moved(&buffer[..n]));
                Ok(n)
            }
            Err(Failed) => {
                self.transcript = self.transcript.after(&Call::Failed);
                Err(Failed)
            }
        }
    }
}

impl<K: Sink> Sink for LaterEnd<K> {
    ghost use Rattle.acq_serving.specs.Passing.{bytes_of, failures_of};

    ghost sent = { bytes_of };

    ghost failures = { failures_of };

    fn write(&mut self, bytes: &[u8]) -> Result<usize, Failed> {
        match self.end.write(bytes) {
            Ok(n) => {
                self.transcript = self.transcript.after(&Call::Moved(&bytes[..n]));
                Ok(n)
            }
            Err(Failed) => {
                self.transcript = self.transcript.after(&Call::Failed);
                Err(Failed)
            }
        }
    }
}
