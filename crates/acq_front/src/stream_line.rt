//! Lines over streams.

ghost use Rattle.std.specs.Prelude.{◌≡◌, [], false};

use crate::line::Line;
use acq_link::{Call, Failed, Transcript};
use std::io::{ErrorKind, Read, Write};

/// A line over any stream whose reads and writes answer `WouldBlock` where they would wait.
#[derive(Drop)]
pub struct StreamLine<S> {
    stream: S,
    received: Transcript,
    sent: Transcript,
    has_ended: bool,
}

impl<S> StreamLine<S> {
    ghost use Rattle.acq_front.specs.Lines.{stream_of, received_of, sent_of, has_ended};
    ghost use Rattle.acq_front.specs.Lines.{read_failures_of, write_failures_of};

    /// A line over what this stream gives and takes from now on.
    pub fn new(stream: S) -> StreamLine<S>
        ensures stream { stream_of result ≡ stream }
        ensures received { received_of result ≡ [] }
        ensures sent { sent_of result ≡ [] }
        ensures ended { has_ended result ≡ false }
        ensures reads { read_failures_of result ≡ 0 }
        ensures writes { write_failures_of result ≡ 0 }
    {
        StreamLine {
            stream,
            received: Transcript::new(),
            sent: Transcript::new(),
            has_ended: false,
        }
    }

    /// What came so far.
    pub fn received(&self) -> &Transcript
        ensures { result.now.bytes ≡ received_of self.now }
    {
        &self.received
    }

    /// What went out so far.
    pub fn sent(&self) -> &Transcript
        ensures { result.now.bytes ≡ sent_of self.now }
    {
        &self.sent
    }

    /// The stream.
    pub fn stream(&self) -> &S
        ensures { result.now ≡ stream_of self.now }
    {
        &self.stream
    }
}

impl<S: Read + Write> Line for StreamLine<S> {
    ghost use Rattle.acq_front.specs.Lines.{received_of, sent_of, has_ended};
    ghost use Rattle.acq_front.specs.Lines.{read_failures_of, write_failures_of};

    ghost received = { received_of };

    ghost sent = { sent_of };

    ghost has_ended = { has_ended };

    ghost read_failures = { read_failures_of };

    ghost write_failures = { write_failures_of };

    fn read(&mut self, buffer: &mut [u8]) -> Result<Option<usize>, Failed> {
        match self.stream.read(buffer) {
            Ok(n) => {
                self.has_ended = self.has_ended || n == 0;
                self.received = self.received.after(&Call::Moved(&buffer[..n]));
                Ok(Some(n))
            }
            Err(fault) if fault.kind() == ErrorKind::WouldBlock => Ok(None),
            Err(_) => {
                self.received = self.received.after(&Call::Failed);
                Err(Failed)
            }
        }
    }

    fn write(&mut self, bytes: &[u8]) -> Result<Option<usize>, Failed> {
        match self.stream.write(bytes) {
            Ok(n) if n > 0 || bytes.is_empty() => {
                self.sent = self.sent.after(&Call::Moved(&bytes[..n]));
                Ok(Some(n))
            }
            Err(fault) if fault.kind() == ErrorKind::WouldBlock => Ok(None),
            Ok(_) | Err(_) => {
                self.sent = self.sent.after(&Call::Failed);
                Err(Failed)
            }
        }
    }
}
