//! Standard error.

use crate::at_once::open_at_once;
use acq_commands::Outlet;
use libc::net::{POLLOUT, poll};
use libc::types::pollfd;
use std::fs::File;
use std::io;
use std::io::{ErrorKind, IsTerminal, Write};
use std::os::fd::AsRawFd;
use std::rt::Stderr;

/// What standard error is open on, under a path.
const THIS_TERMINAL: &str = "/proc/self/fd/2";

/// Standard error, to which lines may be written that don't wait.
#[derive(Drop)]
pub struct StandardError {
    stream: Stderr,
    /// Where it is a terminal, that terminal, opened so that no write to it waits: one that stands
    /// still says that it is ready, and then isn't for a whole line.
    terminal: Option<File>,
}

impl StandardError {
    /// That of this program.
    pub(crate) fn new(rt: &HostRuntime) -> StandardError {
        let stream = rt.stderr();
        let terminal = if stream.is_terminal() {
            open_at_once(rt, THIS_TERMINAL, 0).ok()
        } else {
            None
        };
        StandardError { stream, terminal }
    }

    /// Whether the write of a line would not wait. A pipe is ready where it has room for a page,
    /// which a line fits.
    fn is_ready(&self) -> bool {
        let mut asked = [pollfd {
            fd: self.stream.as_raw_fd(),
            events: POLLOUT,
            revents: 0,
        }];
        poll(&mut asked, 0) > 0
    }
}

impl Write for StandardError {
    fn write(&mut self, buf: &[u8]) -> io::Result<usize> {
        self.stream.write(buf)
    }

    fn flush(&mut self) -> io::Result<()> {
        self.stream.flush()
    }
}

impl Outlet for StandardError {
    fn write_at_once(&mut self, line: &[u8]) -> io::Result<usize> {
        if !self.is_ready() {
            return Err(io::Error::from(ErrorKind::WouldBlock));
        }
        match &mut self.terminal {
            Some(terminal) => terminal.write(line),
            None => self.stream.write(line),
        }
    }
}
