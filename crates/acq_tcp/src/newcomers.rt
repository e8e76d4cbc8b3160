//! Connections that came through a proxy, and whose headers are still to come.

use crate::newcomer::{Heading, Newcomer};
use crate::standing::Standing;
use crate::time_limits::{TimeLimits, between, has_come};
use mio::net::TcpStream;
use mio::{Interest, Registry, Token};
use std::alloc::Global;
use std::io;
use std::io::ErrorKind;
use std::net::SocketAddr;
use std::time::{Duration, Instant};

/// The tokens of newcomers stand from here on.
const FIRST: usize = usize::MAX / 2;

/// Connections whose proxy's headers are still to come, the first one that came in front. Each has
/// a place.
#[derive(Drop)]
pub(crate) struct Newcomers {
    alloc: Global,
    list: Vec<Box<Newcomer>>,
    /// How many came: the number of the next one.
    came: u64,
}

impl Newcomers {
    /// None came yet.
    pub(crate) fn new(alloc: Global) -> Newcomers {
        Newcomers {
            alloc,
            list: Vec::new(alloc),
            came: 0,
        }
    }

    /// How many are there.
    pub(crate) fn len(&self) -> usize {
        self.list.len()
    }

    /// Whether one of them may have something to read.
    pub(crate) fn has_ready(&self) -> bool {
        for newcomer in self.list.iter() {
            if newcomer.is_ready {
                return true;
            }
        }
        false
    }

    /// Takes in one that comes now, from there.
    pub(crate) fn take_in(
        &mut self,
        registry: &Registry,
        stream: TcpStream,
        address: SocketAddr,
        now: Option<Instant>,
    ) -> io::Result<()> {
        let number = self.came;
        self.came = self.came.wrapping_add(1);
        let mut stream = stream;
        registry.register(&mut stream, token_of(number), Interest::READABLE)?;
        let newcomer = Newcomer::new(number, stream, address, now);
        let Ok(newcomer) = Box::new(self.alloc, newcomer) else {
            return Err(io::Error::from(ErrorKind::OutOfMemory));
        };
        if self.list.push(newcomer).is_err() {
            return Err(io::Error::from(ErrorKind::OutOfMemory));
        }
        Ok(())
    }

    /// Wakes the one of this token, and returns whether it is one of theirs.
    pub(crate) fn wake(&mut self, token: usize) -> bool {
        if token < FIRST {
            return false;
        }
        let number = (token - FIRST) as u64;
        for newcomer in self.list.iter_mut() {
            if newcomer.number == number {
                newcomer.is_ready = true;
                break;
            }
        }
        true
    }

    /// The next one that waits no longer for its header, and what was found.
    pub(crate) fn next(&mut self) -> Option<(Box<Newcomer>, Heading)> {
        let mut found = None;
        for (at, newcomer) in self.list.iter_mut().enumerate() {
            match newcomer.read_header() {
                Heading::Waits => {}
                heading => {
                    found = Some((at, heading));
                    break;
                }
            }
        }
        let (at, heading) = found?;
        Some((self.remove(at)?, heading))
    }

    /// The first one, where its header has taken too long.
    pub(crate) fn late(
        &mut self,
        limits: TimeLimits,
        now: Option<Instant>,
    ) -> Option<Box<Newcomer>> {
        let first = self.list.first()?;
        if has_come(first.deadline(limits), now) {
            self.remove(0)
        } else {
            None
        }
    }

    /// How long it is until its header will have.
    pub(crate) fn time_left(&self, limits: TimeLimits, now: Option<Instant>) -> Option<Duration> {
        between(now, self.list.first()?.deadline(limits))
    }

    /// The first one, where it may have to make room by now for those that have waited without a
    /// break since then.
    pub(crate) fn leaves(
        &mut self,
        wanted: Option<Instant>,
        now: Option<Instant>,
    ) -> Option<Box<Newcomer>> {
        if has_come(self.room_at(wanted), now) {
            self.remove(0)
        } else {
            None
        }
    }

    /// How long it is until it may.
    pub(crate) fn room_left(
        &self,
        wanted: Option<Instant>,
        now: Option<Instant>,
    ) -> Option<Duration> {
        between(now, self.room_at(wanted))
    }

    /// When it may.
    fn room_at(&self, wanted: Option<Instant>) -> Option<Instant> {
        Standing::new(self.list.first()?.came()).room_at(None, wanted)
    }

    /// The last one, where there is one.
    pub(crate) fn pop(&mut self) -> Option<Box<Newcomer>> {
        self.list.pop()
    }

    fn remove(&mut self, at: usize) -> Option<Box<Newcomer>> {
        if at < self.list.len() {
            Some(self.list.remove(at))
        } else {
            None
        }
    }
}

/// By which token the system names the newcomer of this number.
fn token_of(number: u64) -> Token {
    Token(FIRST.saturating_add(number as usize))
}
