//! The log of a host, for those who run it.

use crate::connection_name::ConnectionName;
use crate::ending::Ending;
use crate::first_bytes::FirstBytes;
use crate::frame_head::FrameHead;
use crate::held_reply::HeldReply;
use crate::line_rate::LineRate;
use crate::log_line::LogLine;
use crate::log_target::LogTarget;
use crate::log_time::{LogTime, second_of};
use crate::refusal::Refusal;
use acq_front::{FrontFault, Silence, Unanswered};
use card_no::CardNumber;
use day_totals::Day;
use iso_codec::{DecodeFault, Message};
use std::alloc::Global;
use std::net::SocketAddr;
use std::time::Duration;
use std::{io, time};

/// The elements of a reply that its line has as they stand, each under its key.
const ELEMENTS: [(&str, u8); 6] = [
    ("processing", 3),
    ("merchant", 42),
    ("terminal", 41),
    ("trace", 11),
    ("reference", 37),
    ("code", 39),
];

/// How many digits a card number has at least whose mask stands in a line. A shorter one's mask
/// would leave little of it out.
const LEAST_MASKED: usize = 13;

/// The log of a host: a line in logfmt for its beginning, for each connection's begin and end, and
/// for each message and each line of a control connection that was taken (own profile). No line has
/// a card number or a track. Each line goes out in one write, and one that can't is lost and
/// counted: nothing waits for a log, or ends by it. Lines of which anybody may cause as many as
/// they like are left out past the first ones of a second, and counted, too.
#[derive(Drop)]
pub struct HostLog<W> {
    alloc: Global,
    target: W,
    line: LogLine,
    time: LogTime,
    /// The last write took a piece of a line.
    is_behind_piece: bool,
    /// How many lines were lost, and how many of them no line has told yet.
    lost: u64,
    lost_untold: u64,
    /// Connections that begin, replies of network management, and frames that are refused or of a
    /// type that isn't served.
    opened: LineRate,
    echoes: LineRate,
    refused: LineRate,
}

impl<W: LogTarget> HostLog<W> {
    /// A log that goes on there.
    pub fn new(alloc: Global, target: W) -> HostLog<W> {
        HostLog {
            alloc,
            target,
            line: LogLine::new(alloc),
            time: LogTime::new(),
            is_behind_piece: false,
            lost: 0,
            lost_untold: 0,
            opened: LineRate::new(),
            echoes: LineRate::new(),
            refused: LineRate::new(),
        }
    }

    /// How many lines were lost.
    pub(crate) fn lost(&self) -> u64 {
        self.lost
    }

    /// The log goes on in the file that stands at its path now, if that can be had, and says so.
    pub(crate) fn reopen<T: time::Clock>(&mut self, clock: &T) -> io::Result<()> {
        let opened = self.target.reopen();
        self.begin_line(clock, "reopened");
        if opened.is_err() {
            self.line.put("reason", b"the file can't be had");
        } else {
            self.is_behind_piece = false;
        }
        self.end_line();
        opened
    }

    /// The host listens at this address, on this business day.
    pub(crate) fn listening<T: time::Clock>(
        &mut self,
        clock: &T,
        address: Option<SocketAddr>,
        day: Day,
    ) {
        self.begin_line(clock, "listening");
        if let Some(address) = address {
            self.put_address("address", address);
        }
        self.line.put("day", &day.date_text());
        self.end_line();
    }

    /// A connection was taken.
    pub(crate) fn opened<T: time::Clock>(&mut self, clock: &T, name: ConnectionName) {
        if !self.opened.admits(second_of(clock)) {
            return;
        }
        self.begin_line(clock, "opened");
        self.put_connection(name);
        self.end_line();
    }

    /// A connection ended, perhaps by a fault; by one of reading or writing perhaps since it took
    /// too long, or since the host ended.
    pub(crate) fn closed<T: time::Clock>(
        &mut self,
        clock: &T,
        name: ConnectionName,
        fault: Option<FrontFault>,
        ending: Ending,
    ) {
        let made_room = ending == Ending::MadeRoom;
        let is_bounded = made_room || fault.is_some_and(is_of_frame);
        if is_bounded && !self.refused.admits(second_of(clock)) {
            return;
        }
        self.begin_line(clock, "closed");
        self.put_connection(name);
        if let Some(fault) = fault {
            self.put_fault(fault, name, ending);
        } else if made_room {
            self.line.put("reason", b"it made room for another one");
        }
        self.end_line();
    }

    /// A connection that came from there isn't served, for this reason; where it has no header this
    /// is how it begins.
    pub(crate) fn refused<T: time::Clock>(
        &mut self,
        clock: &T,
        address: SocketAddr,
        refusal: Refusal,
        first: FirstBytes,
    ) {
        if !self.refused.admits(second_of(clock)) {
            return;
        }
        self.begin_line(clock, "refused");
        self.put_address("peer", address);
        if let Some(number) = refusal.number() {
            self.line.put_number("fault", number);
        }
        self.line.put("reason", refusal.words().as_bytes());
        if refusal == Refusal::NoHeader && !first.text().is_empty() {
            self.line.put("first", first.text());
        }
        self.end_line();
    }

    /// A terminal's connection ended for this fault of a frame, which begins so.
    pub(crate) fn closed_at_frame<T: time::Clock>(
        &mut self,
        clock: &T,
        name: ConnectionName,
        fault: FrontFault,
        frame: FrameHead,
    ) {
        if !self.refused.admits(second_of(clock)) {
            return;
        }
        self.begin_line(clock, "closed");
        self.put_connection(name);
        self.put_fault(fault, name, Ending::Own);
        if let FrontFault::Undecodable(cause) = fault {
            if cause.element() > 0 {
                self.line.put_number("element", u64::from(cause.element()));
            }
        }
        self.put_frame(fault, frame);
        self.end_line();
    }

    /// A terminal gets this reply, of which this is known.
    pub(crate) fn replied<T: time::Clock>(
        &mut self,
        clock: &T,
        name: ConnectionName,
        message: &Message,
        held: &HeldReply,
    ) {
        if is_of_network(&message.kind()) && !self.echoes.admits(second_of(clock)) {
            return;
        }
        self.begin_line(clock, "reply");
        self.put_connection(name);
        self.put_elements(message);
        if let Some(reason) = &held.reason {
            self.line.put_why(reason);
        }
        self.put_duration("microseconds", held.took);
        self.put_duration("total_microseconds", held.total);
        self.end_line();
    }

    /// A message of a terminal gets no reply.
    pub(crate) fn unanswered<T: time::Clock>(
        &mut self,
        clock: &T,
        name: ConnectionName,
        message: Unanswered,
    ) {
        if !self.refused.admits(second_of(clock)) {
            return;
        }
        self.begin_line(clock, "unanswered");
        self.put_connection(name);
        self.line.put("type", &message.kind);
        self.line.put("why", word_of(message.why).as_bytes());
        self.end_line();
    }

    /// A gateway asked for the rows behind more than the book has, which are so many.
    pub(crate) fn rows_missing<T: time::Clock>(
        &mut self,
        clock: &T,
        name: ConnectionName,
        rows: u64,
    ) {
        self.begin_line(clock, "rows-missing");
        self.put_connection(name);
        self.line.put_number("fault", 65);
        self.line.put_number("rows", rows);
        self.end_line();
    }

    /// A control connection gets this answer to a line that begins with this word, for which the
    /// host took so long.
    pub(crate) fn answered<T: time::Clock>(
        &mut self,
        clock: &T,
        name: ConnectionName,
        word: &str,
        answer: &[u8],
        took: Option<Duration>,
    ) {
        self.begin_line(clock, "line");
        self.put_connection(name);
        self.line.put("word", word.as_bytes());
        if let Some(number) = fault_told(answer) {
            self.line.put("fault", number);
        }
        self.put_duration("microseconds", took);
        self.end_line();
    }

    /// The host ended by the fault of this number and this name. Its cause is in these words, and
    /// is about this path, address or option, if it is about one.
    pub fn failed<T: time::Clock>(
        &mut self,
        clock: &T,
        number: u64,
        name: &str,
        cause: &str,
        about: Option<&str>,
    ) {
        self.begin_line(clock, "fault");
        self.line.put_number("number", number);
        self.line.put("name", name.as_bytes());
        self.line.put("cause", cause.as_bytes());
        if let Some(about) = about {
            self.line.put("path", about.as_bytes());
        }
        self.end_line();
    }

    /// Begins the line of an event, behind those that tell how many were lost or left out.
    fn begin_line<T: time::Clock>(&mut self, clock: &T, event: &str) {
        self.tell_lost(clock);
        self.tell_left_out(clock);
        self.begin(clock, event);
    }

    fn begin<T: time::Clock>(&mut self, clock: &T, event: &str) {
        self.line.begin(self.is_behind_piece);
        if let Some(text) = self.time.text(clock) {
            self.line.put("time", &text);
        }
        self.line.put("event", event.as_bytes());
    }

    /// Tells how many lines were lost, if some were, once there is room.
    fn tell_lost<T: time::Clock>(&mut self, clock: &T) {
        if self.lost_untold == 0 {
            return;
        }
        self.begin(clock, "lost");
        self.line.put_number("lines", self.lost_untold);
        if self.write_line() {
            self.lost_untold = 0;
        }
    }

    /// Tells how many lines were left out in seconds that are over, if some were.
    fn tell_left_out<T: time::Clock>(&mut self, clock: &T) {
        let second = second_of(clock);
        let opened = self.opened.left_out(second);
        let echoes = self.echoes.left_out(second);
        let refused = self.refused.left_out(second);
        if opened == 0 && echoes == 0 && refused == 0 {
            return;
        }
        self.begin(clock, "left-out");
        self.line.put_number("opened", opened);
        self.line.put_number("echoes", echoes);
        self.line.put_number("refused", refused);
        if self.write_line() {
            forget_told(&mut self.opened, opened);
            forget_told(&mut self.echoes, echoes);
            forget_told(&mut self.refused, refused);
        }
    }

    /// Writes the line, or counts it as lost.
    fn end_line(&mut self) {
        if !self.write_line() {
            self.lost = self.lost.saturating_add(1);
            self.lost_untold = self.lost_untold.saturating_add(1);
        }
    }

    /// Writes the line, and returns whether all of it went out.
    fn write_line(&mut self) -> bool {
        let Some(line) = self.line.ended() else {
            return false;
        };
        let n = self.target.take(line);
        if n > 0 {
            self.is_behind_piece = n < line.len();
        }
        n == line.len()
    }

    fn put_connection(&mut self, name: ConnectionName) {
        match name {
            ConnectionName::Terminal(number, peer) => {
                self.line.put_number("connection", number);
                self.put_address("peer", peer);
            }
            ConnectionName::Control(number) => {
                if let Ok(text) = format!(in self.alloc; "control-{number}") {
                    self.line.put("connection", text.as_bytes());
                }
            }
            ConnectionName::Gateway(number) => {
                if let Ok(text) = format!(in self.alloc; "gateway-{number}") {
                    self.line.put("connection", text.as_bytes());
                }
            }
        }
    }

    fn put_address(&mut self, key: &str, address: SocketAddr) {
        if let Ok(text) = format!(in self.alloc; "{address}") {
            self.line.put(key, text.as_bytes());
        }
    }

    /// Puts the type of a reply and its elements, as many as are there.
    fn put_elements(&mut self, message: &Message) {
        self.line.put("type", &message.kind());
        for (key, number) in ELEMENTS {
            if let Some(content) = message.get(number) {
                self.line.put(key, content);
            }
        }
        if let Some(amount) = message.get(4) {
            self.line.put("amount", without_zeros(amount));
        }
        if let Some(card) = message.get(2).and_then(CardNumber::read) {
            if card.digits().len() >= LEAST_MASKED {
                self.line.put("card", card.masked().as_bytes());
            }
        }
    }

    fn put_duration(&mut self, key: &str, duration: Option<Duration>) {
        if let Some(duration) = duration {
            let microseconds = u64::try_from(duration.as_micros()).unwrap_or(u64::MAX);
            self.line.put_number(key, microseconds);
        }
    }

    /// Puts what is known of a bad frame: its length, where that is what is wrong with it, and its
    /// first bytes, from its length on or of its message.
    fn put_frame(&mut self, fault: FrontFault, frame: FrameHead) {
        let mut bytes = frame.message();
        if fault == FrontFault::BadLength {
            bytes = frame.bytes();
            if let Some(length) = frame.length() {
                self.line.put_number("length", length);
            }
        }
        let first = FirstBytes::of(bytes);
        if !first.text().is_empty() {
            self.line.put("first", first.text());
        }
    }

    fn put_fault(&mut self, fault: FrontFault, name: ConnectionName, ending: Ending) {
        self.line.put_number("fault", u64::from(fault.number()));
        self.put_reason(fault, name, ending);
    }

    fn put_reason(&mut self, fault: FrontFault, name: ConnectionName, ending: Ending) {
        if let FrontFault::Undecodable(cause) = fault {
            self.put_cause(cause);
        } else {
            let reason = reason_of(fault, name, ending);
            self.line.put("reason", reason.as_bytes());
        }
    }

    fn put_cause(&mut self, cause: DecodeFault) {
        if let Ok(text) = format!(in self.alloc; "a frame spells no message: {cause}") {
            self.line.put("reason", text.as_bytes());
        }
    }
}

/// Digits without zeros in front, at least one.
fn without_zeros(digits: &[u8]) -> &[u8] {
    match digits.iter().position(|digit| *digit != b'0') {
        Some(place) => &digits[place..],
        None => b"0",
    }
}

/// Whether a fault is one of what came, not of reading or writing.
fn is_of_frame(fault: FrontFault) -> bool {
    matches!(
        fault,
        FrontFault::BadLength | FrontFault::Ended | FrontFault::Undecodable(_)
    )
}

/// Whether a type is one of network management: an echo test, a sign-on or a sign-off (ISO
/// 8583:1987, message class 8).
fn is_of_network(kind: &[u8; 4]) -> bool {
    kind[1] == b'8'
}

/// Why a message gets no reply, in a word.
fn word_of(why: Silence) -> &'static str {
    match why {
        Silence::Unserved => "unserved",
        Silence::Waiting => "waiting",
        Silence::Late => "late",
    }
}

/// So many lines that were left out were told, or none.
fn forget_told(rate: &mut LineRate, told: u64) {
    if told > 0 {
        rate.forget();
    }
}

/// Why a connection ended, in words.
fn reason_of(fault: FrontFault, name: ConnectionName, ending: Ending) -> &'static str {
    if ending == Ending::Stopped {
        return "the host ended";
    }
    let is_late = ending == Ending::Late;
    let is_control = !matches!(name, ConnectionName::Terminal(..));
    match fault {
        FrontFault::Memory => "memory ran out",
        FrontFault::Store => "the store failed",
        FrontFault::BadLength => "a frame's length is 0 or above 4096",
        FrontFault::Ended if is_control => "the input ended inside a line",
        FrontFault::Ended => "the input ended inside a frame",
        FrontFault::Undecodable(_) => "a frame spells no message",
        FrontFault::Read if is_late && is_control => "it was silent too long",
        FrontFault::Read if is_late => "it was silent, or took for a frame, too long",
        FrontFault::Read => "a read failed",
        FrontFault::Write(_) if is_late => "it took nothing of a reply for too long",
        FrontFault::Write(_) => "a write failed",
    }
}

/// The number of the fault that an answer tells, if it is a fault's line.
fn fault_told(answer: &[u8]) -> Option<&[u8]> {
    let heading = b"acqd: ";
    if !answer.starts_with(heading) {
        return None;
    }
    let fault = &answer[heading.len()..];
    let end = fault.iter().position(|byte| !byte.is_ascii_digit())?;
    Some(&fault[..end])
}
