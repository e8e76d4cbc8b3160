//! The two ends of a connection that waits.

use crate::frame_clock::FrameClock;
use crate::time_limits::{TimeLimits, left_of, shorter};
use std::io::{ErrorKind, Read, Write};
use std::net::TcpStream;
use std::time::{Duration, Instant};
use std::{io, time};

/// What comes over a connection. A read waits as long as the limits allow: in silence, and from a
/// frame's first byte on. A signal doesn't end it.
#[derive(Drop)]
pub(crate) struct PatientReader<'s, 't, T> {
    stream: &'s TcpStream,
    frames: FrameClock<'t, T>,
    limits: TimeLimits,
    /// For how long the system lets a read wait.
    set: Option<Duration>,
}

impl<'s, 't, T: time::Clock> PatientReader<'s, 't, T> {
    /// What comes over this connection, whose reads wait as long as it may be silent.
    pub(crate) fn new(
        stream: &'s TcpStream,
        time: &'t T,
        limits: TimeLimits,
    ) -> PatientReader<'s, 't, T> {
        PatientReader {
            stream,
            frames: FrameClock::new(time),
            limits,
            set: limits.idle,
        }
    }

    /// Has the next read wait no longer than is left, for one that began to wait then.
    fn set_timeout(&mut self, since: Option<Instant>) -> io::Result<()> {
        let now = self.frames.now();
        let silent = self.limits.idle.map(|idle| left_of(idle, since, now));
        let began = self.frames.frame_began();
        let frame = match (began, self.limits.frame) {
            (Some(_), Some(frame)) => Some(left_of(frame, began, now)),
            _ => None,
        };
        let left = shorter(silent, frame);
        if left != self.set {
            self.stream.set_read_timeout(left)?;
            self.set = left;
        }
        Ok(())
    }
}

impl<T: time::Clock> Read for PatientReader<'_, '_, T> {
    fn read(&mut self, buf: &mut [u8]) -> io::Result<usize> {
        let since = self.frames.now();
        for _ in 0..u64::MAX {
            self.set_timeout(since)?;
            match self.stream.read(buf) {
                Ok(n) => {
                    self.frames.came(&buf[..n]);
                    return Ok(n);
                }
                Err(fault) if fault.kind() == ErrorKind::Interrupted => {}
                Err(fault) => return Err(fault),
            }
        }
        Err(io::Error::from(ErrorKind::Interrupted))
    }
}

/// What goes out over a connection. A signal doesn't end a write.
#[derive(Drop)]
pub(crate) struct PatientWriter<'a> {
    stream: &'a TcpStream,
}

impl<'a> PatientWriter<'a> {
    /// What goes out over this connection.
    pub(crate) fn new(stream: &'a TcpStream) -> PatientWriter<'a> {
        PatientWriter { stream }
    }
}

impl Write for PatientWriter<'_> {
    fn write(&mut self, buf: &[u8]) -> io::Result<usize> {
        for _ in 0..u64::MAX {
            match self.stream.write(buf) {
                Err(fault) if fault.kind() == ErrorKind::Interrupted => {}
                ended => return ended,
            }
        }
        Err(io::Error::from(ErrorKind::Interrupted))
    }

    fn flush(&mut self) -> io::Result<()> {
        Ok(())
    }
}
