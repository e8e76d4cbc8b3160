//! Connections whose proxy's header is still to come.

ghost use Rattle.std.specs.Prelude.{◌≤◌};

use crate::first_bytes::FirstBytes;
use crate::refusal::Refusal;
use crate::time_limits::{TimeLimits, deadline, earlier};
use acq_proxy::{Header, LONGEST_HEADER, header_at};
use mio::net::TcpStream;
use std::io::{ErrorKind, Read};
use std::net::SocketAddr;
use std::time::Instant;

/// A connection whose proxy's header is still to come. What came of it is read; what stands behind
/// it isn't.
#[derive(Drop)]
pub(crate) struct Newcomer {
    /// It is woken by this number.
    pub(crate) number: u64,
    stream: TcpStream,
    /// Whence it came, by the system.
    address: SocketAddr,
    came: Option<Instant>,
    /// What came of its header: so many bytes.
    header: [u8; LONGEST_HEADER],
    count: usize,
    /// Whether something may be there to read.
    pub(crate) is_ready: bool,
}

/// What a look at a newcomer found.
#[derive(Clone, Copy)]
pub(crate) enum Heading {
    /// Its header isn't whole.
    Waits,
    /// It is, and this is who is behind the proxy.
    Peer(SocketAddr),
    /// It isn't served.
    Refused(Refusal),
}

impl Newcomer {
    /// One that comes now, from there.
    pub(crate) fn new(
        number: u64,
        stream: TcpStream,
        address: SocketAddr,
        now: Option<Instant>,
    ) -> Newcomer {
        Newcomer {
            number,
            stream,
            address,
            came: now,
            header: [0; LONGEST_HEADER],
            count: 0,
            is_ready: true,
        }
    }

    /// Whence it came, by the system.
    pub(crate) fn address(&self) -> SocketAddr {
        self.address
    }

    /// When it came.
    pub(crate) fn came(&self) -> Option<Instant> {
        self.came
    }

    /// When its header will have taken too long.
    pub(crate) fn deadline(&self, limits: TimeLimits) -> Option<Instant> {
        earlier(
            deadline(limits.frame, self.came),
            deadline(limits.idle, self.came),
        )
    }

    /// How what came of it begins.
    pub(crate) fn first_bytes(&self) -> FirstBytes {
        FirstBytes::of(self.header.get(..self.count).unwrap_or(&[]))
    }

    /// The connection behind its header.
    pub(crate) fn into_stream(self) -> TcpStream {
        self.stream
    }

    /// Reads what came of the header, and nothing behind it.
    pub(crate) fn read_header(&mut self) -> Heading {
        if !self.is_ready {
            return Heading::Waits;
        }
        let held = self.count;
        if held >= LONGEST_HEADER {
            return Heading::Refused(Refusal::NoHeader);
        }
        match self.stream.peek(&mut self.header[held..]) {
            Ok(0) if held == 0 => Heading::Refused(Refusal::Ended),
            Ok(0) => Heading::Refused(Refusal::NoHeader),
            Ok(n) => self.take(held, held + n),
            Err(fault) if fault.kind() == ErrorKind::WouldBlock => {
                self.is_ready = false;
                Heading::Waits
            }
            Err(fault) if fault.kind() == ErrorKind::Interrupted => Heading::Waits,
            Err(_) => Heading::Refused(Refusal::Failed),
        }
    }

    /// Takes the header's bytes up to there, of which those behind the ones that were held are
    /// still to be read.
    fn take(&mut self, held: usize, end: usize) -> Heading
        requires order { held ≤ end }
        requires room { end ≤ 536 }
    {
        self.count = end;
        match header_at(&self.header[..end]) {
            Header::Partial => self.read_on(held, end, Heading::Waits),
            Header::Whole { bytes, peer } if held <= bytes => {
                let peer = peer.unwrap_or(self.address);
                self.read_on(held, bytes, Heading::Peer(peer))
            }
            Header::Whole { .. } | Header::Missing => Heading::Refused(Refusal::NoHeader),
        }
    }

    /// Reads on up to there, and then this is what was found.
    fn read_on(&mut self, held: usize, end: usize, found: Heading) -> Heading
        requires order { held ≤ end }
        requires room { end ≤ 536 }
    {
        match self.stream.read(&mut self.header[held..end]) {
            Ok(n) if held + n == end => {
                self.count = end;
                found
            }
            _ => Heading::Refused(Refusal::Failed),
        }
    }
}
