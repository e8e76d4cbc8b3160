//! What is noted of connections while they are served.

ghost use Rattle.acq_book.specs.Calls.{Looks};
ghost use Rattle.acq_reports.specs.Faults.{CountsStore, is_settled};

use crate::book_files::BookSizes;
use crate::connection_name::ConnectionName;
use crate::ending::Ending;
use crate::first_bytes::FirstBytes;
use crate::first_seen::FirstSeen;
use crate::frame_head::FrameHead;
use crate::held_reply::HeldReply;
use crate::host_log::HostLog;
use crate::log_target::LogTarget;
use crate::places::Places;
use crate::refusal::Refusal;
use crate::serving_counts::ServingCounts;
use acq_book::Book;
use acq_control::FirstWaiting;
use acq_front::{FrontFault, Unanswered};
use acq_host::Host;
use acq_link::MemorySink;
use acq_reports::ReportFault;
use acq_status::Serving;
use day_totals::Day;
use iso_codec::decode;
use std::alloc::Global;
use std::net::SocketAddr;
use std::time;
use std::time::{Duration, Instant};

/// How many bytes of a frame are its length.
const HEADER: usize = 2;

/// What is noted of connections while they are served: counts, and lines of a log where there is
/// one.
#[derive(Drop)]
pub(crate) struct Journal<'a, T, W> {
    alloc: Global,
    time: &'a T,
    log: Option<HostLog<W>>,
    counts: ServingCounts,
    first_waiting: FirstSeen,
    /// How many bytes the book's files had when figures were last asked for.
    book_sizes: BookSizes,
    /// How many control connections were taken, and how many of gateways to issuers.
    controls: u64,
    gateways: u64,
    /// How many gateways are connected, where one can come.
    open_gateways: Option<u64>,
}

impl<'a, T: time::Clock, W: LogTarget> Journal<'a, T, W> {
    /// Nothing was noted yet, of a host to which a gateway can come or none.
    pub(crate) fn new(
        alloc: Global,
        time: &'a T,
        log: Option<HostLog<W>>,
        can_gateways_come: bool,
    ) -> Journal<'a, T, W> {
        Journal {
            alloc,
            time,
            log,
            counts: ServingCounts::new(),
            first_waiting: FirstSeen::nobody(alloc),
            book_sizes: BookSizes {
                book: None,
                wal: None,
            },
            controls: 0,
            gateways: 0,
            open_gateways: if can_gateways_come { Some(0) } else { None },
        }
    }

    /// Whether there is a log.
    pub(crate) fn has_log(&self) -> bool {
        self.log.is_some()
    }

    /// What is served, where so many of the places for terminals are free.
    pub(crate) fn serving(&self, places: Places, now: Option<Instant>) -> Serving {
        Serving {
            places: places.all,
            open_places: places.open,
            connections: self.counts.connections,
            events: self.counts.events,
            lines: self.counts.lines,
            refused_frames: self.counts.refused_frames,
            unanswered: self.counts.unanswered,
            replies: self.counts.replies,
            durations: self.counts.durations,
            lost_lines: self.lost_lines(),
            gateways: self.open_gateways,
            rows_missing: self.rows_missing_told(),
            last_event_age: age_of(self.counts.last_event, now),
            oldest_pending_age: self.first_waiting.age(now),
            book_bytes: self.book_sizes.book,
            wal_bytes: self.book_sizes.wal,
        }
    }

    /// How many lines of the log were lost.
    fn lost_lines(&self) -> u64 {
        match &self.log {
            Some(log) => log.lost(),
            None => 0,
        }
    }

    /// How many times a gateway was told that rows are missing, where one can come.
    fn rows_missing_told(&self) -> Option<u64> {
        match self.open_gateways {
            Some(_) => Some(self.counts.rows_missing),
            None => None,
        }
    }

    /// The log goes on in the file that stands at its path now. Returns whether that could be had,
    /// or there is no log.
    pub(crate) fn reopen(&mut self) -> bool {
        match &mut self.log {
            Some(log) => log.reopen(self.time).is_ok(),
            None => true,
        }
    }

    /// Looks which request waits the longest for its issuer's answer.
    pub(crate) fn look_at_waiting<B: Book + Drop>(
        &mut self,
        alloc: Global,
        host: &mut Host<B>,
        now: Option<Instant>,
    ) -> Result<(), ReportFault>
        ensures looks { Looks B.Book host.old host.new (is_settled result) }
        ensures store { CountsStore result (B.failures host.old) (B.failures host.new) }
    {
        let mut name = MemorySink::new(alloc);
        let looked = host.write_text(&FirstWaiting, &mut name);
        if looked.is_ok() {
            self.first_waiting.saw(name, now);
        }
        looked
    }

    /// The book's files have so many bytes.
    pub(crate) fn saw_files(&mut self, sizes: BookSizes) {
        self.book_sizes = sizes;
    }

    /// The time, where there is a log and the system tells it.
    pub(crate) fn time_for_log(&self) -> Option<Instant> {
        if self.has_log() {
            Instant::now(self.time).ok()
        } else {
            None
        }
    }

    /// How long it is since then.
    fn since(&self, began: Option<Instant>) -> Option<Duration> {
        let began = began?;
        let now = Instant::now(self.time).ok()?;
        Some(now.duration_since(began))
    }

    /// The host listens at this address, on this business day.
    pub(crate) fn listening(&mut self, address: Option<SocketAddr>, day: Day) {
        if let Some(log) = &mut self.log {
            log.listening(self.time, address, day);
        }
    }

    /// Names a terminal's connection that got a place.
    pub(crate) fn terminal(&mut self, peer: SocketAddr) -> ConnectionName {
        self.counts.connections = self.counts.connections.saturating_add(1);
        let name = ConnectionName::Terminal(self.counts.connections, peer);
        self.opened(name)
    }

    /// Names a control connection that got a place.
    pub(crate) fn control(&mut self) -> ConnectionName {
        self.controls = self.controls.saturating_add(1);
        let name = ConnectionName::Control(self.controls);
        self.opened(name)
    }

    /// Names the connection of a gateway, which is the only one now.
    pub(crate) fn gateway(&mut self) -> ConnectionName {
        self.open_gateways = Some(1);
        self.gateways = self.gateways.saturating_add(1);
        let name = ConnectionName::Gateway(self.gateways);
        self.opened(name)
    }

    fn opened(&mut self, name: ConnectionName) -> ConnectionName {
        if let Some(log) = &mut self.log {
            log.opened(self.time, name);
        }
        name
    }

    /// A gateway asked for the rows behind more than the book has, which are so many.
    pub(crate) fn rows_missing(&mut self, name: ConnectionName, rows: u64) {
        self.counts.rows_missing = self.counts.rows_missing.saturating_add(1);
        if let Some(log) = &mut self.log {
            log.rows_missing(self.time, name, rows);
        }
    }

    /// A connection that came from there isn't served, for this reason; where it has no header this
    /// is how it begins.
    pub(crate) fn refused(&mut self, address: SocketAddr, refusal: Refusal, first: FirstBytes) {
        if let Some(log) = &mut self.log {
            log.refused(self.time, address, refusal, first);
        }
    }

    /// A connection ended so.
    pub(crate) fn closed(
        &mut self,
        name: ConnectionName,
        ended: &Result<(), FrontFault>,
        ending: Ending,
    ) {
        if let Some(log) = &mut self.log {
            log.closed(self.time, name, ended.err(), ending);
        }
    }

    /// The gateway's connection ended so.
    pub(crate) fn gateway_closed(
        &mut self,
        name: ConnectionName,
        ended: &Result<(), FrontFault>,
        ending: Ending,
    ) {
        self.open_gateways = Some(0);
        self.closed(name, ended, ending);
    }

    /// A terminal's connection ended for this fault of a frame, which begins so.
    pub(crate) fn refused_frame(
        &mut self,
        name: ConnectionName,
        fault: FrontFault,
        frame: FrameHead,
    ) {
        self.counts.refused_frames = self.counts.refused_frames.saturating_add(1);
        if let Some(log) = &mut self.log {
            log.closed_at_frame(self.time, name, fault, frame);
        }
    }

    /// A message of a terminal was taken at this time, and the terminal gets the first bytes of
    /// this frame now, of which this is known.
    pub(crate) fn replied(
        &mut self,
        name: ConnectionName,
        frame: &[u8],
        held: HeldReply,
        now: Option<Instant>,
    ) {
        self.counts.answered(now);
        let reply = frame
            .get(HEADER..)
            .and_then(|text| decode(self.alloc, text).ok());
        let code = reply.as_ref().and_then(|reply| reply.get(39));
        self.counts.replied(code.unwrap_or(b""), held.total);
        if let (Some(log), Some(reply)) = (&mut self.log, &reply) {
            log.replied(self.time, name, reply, &held);
        }
    }

    /// A message of a terminal was taken that gets no reply.
    pub(crate) fn unanswered(
        &mut self,
        name: ConnectionName,
        message: Unanswered,
        now: Option<Instant>,
    ) {
        self.counts.left_unanswered(message.why, now);
        if let Some(log) = &mut self.log {
            log.unanswered(self.time, name, message);
        }
    }

    /// A control connection gets this answer to a line that begins with this word, at which the
    /// host began then.
    pub(crate) fn answered(
        &mut self,
        name: ConnectionName,
        word: &str,
        answer: &[u8],
        began: Option<Instant>,
    ) {
        self.counts.lines = self.counts.lines.saturating_add(1);
        let took = self.since(began);
        if let Some(log) = &mut self.log {
            log.answered(self.time, name, word, answer, took);
        }
    }
}

/// How many whole seconds ago something was, where both times are known.
fn age_of(then: Option<Instant>, now: Option<Instant>) -> Option<u64> {
    Some(now?.duration_since(then?).as_secs())
}
