//! What passes control lines.

use acq_gateway::DeskStream;
use mio::net::UnixStream;
use std::io::{self, Read, Write};

/// What passes control lines: a connection at the control socket, or the desk of a gateway to
/// issuers, with the answers that nobody waits for.
#[derive(Drop)]
pub(crate) enum ControlStream {
    Socket(UnixStream),
    Desk(DeskStream),
}

impl Read for ControlStream {
    fn read(&mut self, buf: &mut [u8]) -> io::Result<usize> {
        match self {
            ControlStream::Socket(stream) => stream.read(buf),
            ControlStream::Desk(stream) => stream.read(buf),
        }
    }
}

impl Write for ControlStream {
    fn write(&mut self, buf: &[u8]) -> io::Result<usize> {
        match self {
            ControlStream::Socket(stream) => stream.write(buf),
            ControlStream::Desk(stream) => stream.write(buf),
        }
    }

    fn flush(&mut self) -> io::Result<()> {
        match self {
            ControlStream::Socket(stream) => stream.flush(),
            ControlStream::Desk(stream) => stream.flush(),
        }
    }
}
