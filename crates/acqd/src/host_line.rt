//! A connection to a host.

use std::cell::Cell;
use std::io::{self, ErrorKind, Read, Write};

/// One side of a connection to a host, whose reads and writes wait so long at most.
#[derive(Drop)]
pub struct HostLine<'a, T> {
    stream: T,
    /// Whether the last read waited too long.
    silent: &'a Cell<bool>,
}

impl<'a, T> HostLine<'a, T> {
    /// Over this stream; what it says of its reads stands there.
    pub(crate) fn new(stream: T, silent: &'a Cell<bool>) -> HostLine<'a, T> {
        HostLine { stream, silent }
    }
}

impl<T: Read> Read for HostLine<'_, T> {
    fn read(&mut self, buf: &mut [u8]) -> io::Result<usize> {
        let read = self.stream.read(buf);
        let is_silent = match &read {
            Err(fault) => fault.kind() == ErrorKind::WouldBlock,
            Ok(_) => false,
        };
        self.silent.set(is_silent);
        read
    }
}

impl<T: Write> Write for HostLine<'_, T> {
    fn write(&mut self, buf: &[u8]) -> io::Result<usize> {
        self.stream.write(buf)
    }

    fn flush(&mut self) -> io::Result<()> {
        self.stream.flush()
    }
}
