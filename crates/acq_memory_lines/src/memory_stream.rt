//! Streams in memory.

ghost use Rattle.std.specs.Prelude.{◌≤◌, vec_len};

use crate::chance::Chance;
use crate::habits::Habits;
use std::alloc::Global;
use std::io::{self, ErrorKind, Read, Write};

/// A stream that gives these bytes and then ends, and keeps what is written to it, both by its
/// habits.
#[derive(Drop)]
pub struct MemoryStream {
    chance: Chance,
    habits: Habits,
    coming: Vec<u8>,
    at: usize,
    went: Vec<u8>,
    /// How often it said that it would wait.
    waits: u64,
    ghost within: { at ≤ vec_len coming },
}

impl MemoryStream {
    /// A stream over which nothing passed yet.
    pub fn new(alloc: Global, coming: Vec<u8>, habits: Habits, chance: Chance) -> MemoryStream {
        MemoryStream {
            chance,
            habits,
            coming,
            at: 0,
            went: Vec::new(alloc),
            waits: 0,
        }
    }

    /// What was written to it.
    pub fn went(&self) -> &[u8] {
        self.went.as_slice()
    }

    /// How often it said that it would wait.
    pub fn waits(&self) -> u64 {
        self.waits
    }

    /// The fault that it would wait, which counts.
    fn wait(&mut self) -> io::Error {
        self.waits = self.waits.wrapping_add(1);
        io::Error::from(ErrorKind::WouldBlock)
    }

    /// The most bytes that pass now: one at least.
    fn piece(&mut self) -> usize {
        self.chance.below(self.habits.piece).saturating_add(1) as usize
    }
}

impl Read for MemoryStream {
    fn read(&mut self, buf: &mut [u8]) -> io::Result<usize> {
        if self.chance.below(8) < self.habits.read_waits {
            return Err(self.wait());
        }
        let piece = self.piece();
        let rest = &self.coming.as_slice()[self.at..];
        if rest.is_empty() && self.habits.resets {
            return Err(io::Error::from(ErrorKind::ConnectionReset));
        }
        let n = rest.len().min(buf.len()).min(piece);
        buf[..n].copy_from_slice(&rest[..n]);
        self.at += n;
        Ok(n)
    }
}

impl Write for MemoryStream {
    fn write(&mut self, buf: &[u8]) -> io::Result<usize> {
        if self.chance.below(8) < self.habits.write_waits {
            return Err(self.wait());
        }
        let room = self.habits.room.saturating_sub(self.went.len());
        let n = buf.len().min(room).min(self.piece());
        if n == 0 && !buf.is_empty() {
            return Err(io::Error::from(ErrorKind::BrokenPipe));
        }
        match self.went.extend_from_slice(&buf[..n]) {
            Ok(()) => Ok(n),
            Err(_) => Err(io::Error::from(ErrorKind::OutOfMemory)),
        }
    }

    fn flush(&mut self) -> io::Result<()> {
        Ok(())
    }
}
