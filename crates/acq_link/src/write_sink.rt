//! Sinks over writers.

ghost use Rattle.std.specs.Prelude.{◌≡◌, ◌<◌, [], length, IfOk};
ghost use Rattle.std.specs.Io.{WritesAtMost};
ghost use Rattle.std.specs.Io.KnownBytes.{WriteAppends};
ghost use Rattle.acq_link.specs.Moves.{Sends, CountsFailure};

use crate::call::Call;
use crate::failed::Failed;
use crate::sink::Sink;
use crate::transcript::Transcript;
use std::io::Write;

/// A sink over any writer. An interrupted write fails, and so does one that takes none of some
/// bytes.
#[derive(Drop)]
pub struct WriteSink<W> {
    writer: W,
    transcript: Transcript,
}

impl<W> WriteSink<W> {
    ghost use Rattle.acq_link.specs.WriteSink.{writer_of, sent_of, failures_of};

    /// A sink into this writer.
    pub fn new(writer: W) -> WriteSink<W>
        ensures writer { writer_of result ≡ writer }
        ensures sent { sent_of result ≡ [] }
        ensures failures { failures_of result ≡ 0 }
    {
        WriteSink {
            writer,
            transcript: Transcript::new(),
        }
    }

    /// The writer, with what it took.
    pub fn into_inner(self) -> W
        ensures { result ≡ writer_of self }
    {
        self.writer
    }
}

impl<W: Write> Sink for WriteSink<W> {
    ghost use Rattle.acq_link.specs.WriteSink.{writer_of, sent_of, failures_of};

    ghost sent = { sent_of };

    ghost failures = { failures_of };

    fn write(&mut self, bytes: &[u8]) -> Result<usize, Failed>
        ensures bound { WritesAtMost result bytes.now }
        ensures some { IfOk result (λ n. 0 < length bytes.now → 0 < n) }
        ensures sent { Sends (sent_of self.old) (sent_of self.new) result bytes.now }
        ensures failures { CountsFailure (failures_of self.old) (failures_of self.new) result }

        // What the writer holds grows by these bytes, where it is known.
        ensures contents { WriteAppends (W.contents (writer_of self.old))
            (W.contents (writer_of self.new)) result bytes.now }
    {
        match self.writer.write(bytes) {
            Ok(n) if n > 0 || bytes.is_empty() => {
                self.transcript = self.transcript.after(&Call::Moved(&bytes[..n]));
                Ok(n)
            }
            Ok(_) | Err(_) => {
                self.transcript = self.transcript.after(&Call::Failed);
                Err(Failed)
            }
        }
    }
}
