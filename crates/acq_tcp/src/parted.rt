//! Terminals' connections that are parted with.

use crate::parting::{PIECE, Parting};
use crate::terminal_talk::TerminalPlace;
use std::io::{ErrorKind, Read};
use std::net::Shutdown;
use std::time::{Duration, Instant};

/// A connection that is parted with: what was to be told of it was told.
#[derive(Drop)]
pub(crate) struct Parted<'r> {
    place: TerminalPlace<'r>,
    parting: Parting,
    /// Whether something may be there to read away.
    is_ready: bool,
}

impl<'r> Parted<'r> {
    /// One whose sending side ends now, if that can be.
    pub(crate) fn new(place: TerminalPlace<'r>, now: Option<Instant>) -> Option<Parted<'r>> {
        if place.line().stream().shutdown(Shutdown::Write).is_err() {
            return None;
        }
        Some(Parted {
            place,
            parting: Parting::new(now),
            is_ready: true,
        })
    }

    /// The system says that something may be there.
    pub(crate) fn make_ready(&mut self) {
        self.is_ready = true;
    }

    /// For how long it may stay as it is.
    pub(crate) fn time_left(&self, now: Option<Instant>) -> Duration {
        if self.is_ready {
            Duration::ZERO
        } else {
            self.parting.time_left(now)
        }
    }

    /// Reads away what came, and returns whether it is over.
    pub(crate) fn read_away(&mut self, now: Option<Instant>) -> bool {
        if self.is_ready {
            let mut thrown_away = [0; PIECE];
            let mut stream = self.place.line().stream();
            match stream.read(&mut thrown_away) {
                Ok(n) if n > 0 => self.parting.took(n),
                Err(fault) if fault.kind() == ErrorKind::WouldBlock => self.is_ready = false,
                Ok(_) | Err(_) => return true,
            }
        }
        self.parting.time_left(now).is_zero()
    }
}
