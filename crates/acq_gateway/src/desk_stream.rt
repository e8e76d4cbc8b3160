//! The host's own control lines, of answers that nobody waits for.

use crate::gateway_desk::GatewayDesk;
use std::alloc::Global;
use std::io::{self, ErrorKind, Read, Write};

/// The host's own control lines, of answers that nobody waits for, as a stream: what comes are the
/// lines that the desk hands on. What is said to them is said to nobody: the gateway is told what
/// became of its answers by what the book has.
#[derive(Drop)]
pub struct DeskStream {
    desk: GatewayDesk,
    lines: Vec<u8>,
    /// How much of them came.
    gone: usize,
}

impl DeskStream {
    /// The lines that this desk hands on.
    pub fn new(alloc: Global, desk: GatewayDesk) -> DeskStream {
        DeskStream {
            desk,
            lines: Vec::new(alloc),
            gone: 0,
        }
    }
}

impl Read for DeskStream {
    fn read(&mut self, buf: &mut [u8]) -> io::Result<usize> {
        if self.gone >= self.lines.len() {
            match self.desk.take_lines() {
                Some(lines) => self.lines = lines,
                None => return Err(io::Error::from(ErrorKind::WouldBlock)),
            }
            self.gone = 0;
        }
        let rest = self.lines.get(self.gone..).unwrap_or(&[]);
        let n = rest.len().min(buf.len());
        if n == 0 {
            return Err(io::Error::from(ErrorKind::WouldBlock));
        }
        buf[..n].copy_from_slice(&rest[..n]);
        self.gone = self.gone.saturating_add(n);
        Ok(n)
    }
}

impl Write for DeskStream {
    fn write(&mut self, buf: &[u8]) -> io::Result<usize> {
        Ok(buf.len())
    }

    fn flush(&mut self) -> io::Result<()> {
        Ok(())
    }
}
