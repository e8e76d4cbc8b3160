//! Connections of readers.

use crate::step::Step;
use acq_page::HttpConnection;
use mio::net::TcpStream;
use std::alloc::Global;
use std::io::{ErrorKind, Read, Write};
use std::net::Shutdown;
use std::time::{Duration, Instant};

/// For how many seconds one may be there.
const LONGEST: u64 = 5;

/// How many bytes one read asks for.
const PIECE: usize = 4096;

/// How many reads let go what comes behind a request. An end with more of it there would cut off
/// the reply, too.
const MOST_LET_GO: usize = 64;

/// A connection of a reader.
#[derive(Drop)]
pub(crate) struct OpenPage {
    stream: TcpStream,
    connection: HttpConnection,
    /// How many came before it.
    number: u64,
    since: Instant,
    /// Whether its reply is made, and whether it is told that nothing comes behind that.
    is_answered: bool,
    is_shut: bool,
}

impl OpenPage {
    /// One that came now, behind so many others.
    pub(crate) fn new(alloc: Global, stream: TcpStream, now: Instant, number: u64) -> OpenPage {
        OpenPage {
            stream,
            connection: HttpConnection::new(alloc),
            number,
            since: now,
            is_answered: false,
            is_shut: false,
        }
    }

    /// How many came before it.
    pub(crate) fn number(&self) -> u64 {
        self.number
    }

    /// How much of its time is left.
    pub(crate) fn time_left(&self, now: Instant) -> Duration {
        Duration::from_secs(LONGEST).saturating_sub(now.saturating_duration_since(self.since))
    }

    /// Goes on with its reply.
    pub(crate) fn answer(&mut self, reply: Vec<u8>) -> Step {
        self.connection.reply(reply);
        self.is_answered = true;
        self.go_on()
    }

    /// Goes on as far as it can without waiting.
    pub(crate) fn go_on(&mut self) -> Step {
        if !self.is_answered {
            return self.read_head();
        }
        if !self.connection.is_over() {
            match self.write_on() {
                Step::Ended if self.connection.is_over() => {}
                step => return step,
            }
        }
        if !self.is_shut {
            if self.stream.shutdown(Shutdown::Write).is_err() {
                return Step::Ended;
            }
            self.is_shut = true;
        }
        self.let_go()
    }

    /// Reads until it asks.
    fn read_head(&mut self) -> Step {
        let mut piece = [0; PIECE];
        for _ in 0..u64::MAX {
            match self.stream.read(&mut piece) {
                Ok(0) => return Step::Ended,
                Ok(bytes) => match self.connection.feed(&piece[..bytes]) {
                    Ok(Some(request)) => return Step::Asks(request),
                    Ok(None) => {}
                    Err(_) => return Step::Ended,
                },
                Err(fault) if fault.kind() == ErrorKind::Interrupted => {}
                Err(fault) if fault.kind() == ErrorKind::WouldBlock => return Step::Waits,
                Err(_) => return Step::Ended,
            }
        }
        Step::Ended
    }

    /// Writes what is left of the reply. It has ended where all is written, too.
    fn write_on(&mut self) -> Step {
        for _ in 0..u64::MAX {
            if self.connection.to_write().is_empty() {
                return Step::Ended;
            }
            match self.stream.write(self.connection.to_write()) {
                Ok(0) => return Step::Ended,
                Ok(bytes) => self.connection.wrote(bytes),
                Err(fault) if fault.kind() == ErrorKind::Interrupted => {}
                Err(fault) if fault.kind() == ErrorKind::WouldBlock => return Step::Waits,
                Err(_) => return Step::Ended,
            }
        }
        Step::Ended
    }

    /// Reads what comes behind the request, until the other side has the reply and ends.
    fn let_go(&mut self) -> Step {
        let mut piece = [0; PIECE];
        for _ in 0..MOST_LET_GO {
            match self.stream.read(&mut piece) {
                Ok(0) => return Step::Ended,
                Ok(_) => {}
                Err(fault) if fault.kind() == ErrorKind::Interrupted => {}
                Err(fault) if fault.kind() == ErrorKind::WouldBlock => return Step::Waits,
                Err(_) => return Step::Ended,
            }
        }
        Step::Ended
    }
}
