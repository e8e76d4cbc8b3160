//! The places of terminals, while they are served.

ghost use Rattle.std.specs.Prelude.{◌≡◌, ℕ, OnOk};
ghost use Rattle.acq_controls.specs.Aside.{aside_of};
ghost use Rattle.acq_controls.specs.Following.{Stays};
ghost use Rattle.acq_front.specs.Stops.{left_of};
ghost use Rattle.acq_gateways.specs.Following.{GatewaysStay, LooksOn};
ghost use Rattle.acq_gateways.specs.Told.{told_of};
ghost use Rattle.acq_rounds.specs.Reaching.{ReachesBy};
ghost use Rattle.acq_rounds.specs.Runs.{OthersGoOn};
ghost use Rattle.acq_rounds.specs.Taking.{TellsFault};
ghost use Rattle.acq_tcp.specs.Others.{OthersFollow, beside_of};
ghost use Rattle.acq_tcp.specs.Rounds.{Looked};

use crate::connection_name::ConnectionName;
use crate::control_stream::ControlStream;
use crate::control_time::ControlTime;
use crate::ending::Ending;
use crate::first_bytes::FirstBytes;
use crate::held_reply::HeldReply;
use crate::log_target::LogTarget;
use crate::look::Look;
use crate::newcomer::{Heading, Newcomer};
use crate::others::Others;
use crate::parted::Parted;
use crate::parting::ends_in_bad_frame;
use crate::places::Places;
use crate::refusal::Refusal;
use crate::round_time::RoundTime;
use crate::standing::answers_terminal;
use crate::tcp_server::TcpServer;
use crate::terminal_talk::TerminalPlace;
use crate::time_limits::{between, shorter};
use acq_book::{Book, BookFault};
use acq_controls::Controls;
use acq_faults::{end_connection, write_fault_line};
use acq_front::{Clock, FrontFault};
use acq_gateways::Gateways;
use acq_host::Host;
use acq_link::Sink;
use acq_rounds::{Stage, Talk};
use mio::net::{TcpStream, UnixStream};
use std::alloc::Global;
use std::fs::Files;
use std::net::SocketAddr;
use std::time;
use std::time::{Duration, Instant};

/// The places of terminals, while they are served: which of them are taken, and for how long.
#[derive(Drop)]
pub(crate) struct OpenPlaces<'s, 'r, 'a, T, W, F> {
    server: &'s mut TcpServer<'a, T, W>,
    faults: &'s mut F,
    time: &'r RoundTime,
    /// How many connections are still to come.
    left: u64,
    /// How many are open.
    open: usize,
    /// Those that are parted with. They have a place until that is over.
    parted: Vec<Parted<'r>>,
    look: Look,
    /// When what was said in this round was known.
    said: Option<Instant>,
    /// The host was asked to end.
    is_stopping: bool,
    /// And what is there is cut off, since the time for it is over.
    is_over: bool,
    /// The system couldn't be waited for.
    has_failed: bool,
}

impl<'s, 'r, 'a, T: time::Clock + Files, W: LogTarget + Drop, F: Sink> OpenPlaces<
    's,
    'r,
    'a,
    T,
    W,
    F,
> {
    /// None is taken, and so many connections are to come.
    pub(crate) fn new(
        alloc: Global,
        server: &'s mut TcpServer<'a, T, W>,
        faults: &'s mut F,
        time: &'r RoundTime,
        count: u64,
    ) -> OpenPlaces<'s, 'r, 'a, T, W, F> {
        let look = Look::new(server.limits);
        OpenPlaces {
            server,
            faults,
            time,
            left: count,
            open: 0,
            parted: Vec::new(alloc),
            look,
            said: None,
            is_stopping: false,
            is_over: false,
            has_failed: false,
        }
    }

    /// Whether the system couldn't be waited for.
    pub(crate) fn has_failed(&self) -> bool {
        self.has_failed
    }

    /// Cuts off the control connections, where the host ends since its time is over.
    pub(crate) fn end(&mut self, controls: &mut Controls<ControlStream>)
        ensures stays { Stays (aside_of controls.old) (aside_of controls.new) }
    {
        if self.is_over {
            self.server.cut_off_controls(controls, self.faults);
        }
    }

    /// Parts with the gateway, since the host ends.
    pub(crate) fn close_gateway(&mut self, gateways: &mut Gateways<UnixStream>)
        ensures stays { GatewaysStay (told_of gateways.old) (told_of gateways.new) }
    {
        self.server.close_gateway(gateways);
    }

    /// Waits until there is something to do, for this time at most, if one is given, and not at all
    /// where there is already; and begins the next round. Returns whether there is one.
    pub(crate) fn wait(
        &mut self,
        gateways: &Gateways<UnixStream>,
        has_already: bool,
        at_most: Option<Duration>,
    ) -> bool {
        let begins_to_stop = self.note_stop();
        if self.is_over || self.is_done() {
            return false;
        }
        let longest = if has_already || begins_to_stop || self.has_ready(gateways) {
            Some(Duration::ZERO)
        } else {
            shorter(self.longest_wait(), at_most)
        };
        if self.server.wait(longest).is_err() {
            self.has_failed = true;
            return false;
        }
        let now = self.server.now();
        self.time.set(now);
        self.said = None;
        self.read_away(now);
        self.end_late_newcomers(now);
        true
    }

    /// Whether a newcomer or a gateway has something to do, though nothing comes.
    fn has_ready(&self, gateways: &Gateways<UnixStream>) -> bool {
        self.server.newcomers.has_ready() || self.server.has_gateway_ready(gateways)
    }

    /// Notes that the host was asked to end, if it was, and whether what is there is cut off.
    /// Returns whether it was asked since the last wait.
    fn note_stop(&mut self) -> bool {
        if !self.server.has_stopped() {
            return false;
        }
        let now = self.server.now();
        if self.server.stopping.is_none() {
            self.server.stopping = now;
        }
        self.is_over = self
            .server
            .stop_left(now)
            .is_some_and(|left| left.is_zero());
        let begins = !self.is_stopping;
        self.is_stopping = true;
        self.left = 0;
        self.end_newcomers();
        begins
    }

    /// Whether nothing is left to do.
    fn is_done(&self) -> bool {
        self.left == 0 && self.taken() == 0 && !self.server.is_answering()
    }

    /// How long it may wait where no connection has something to do: until the first one may have
    /// taken too long, or, where more are taken, one may be had.
    fn longest_wait(&self) -> Option<Duration> {
        let now = self.server.now();
        let mut longest = match &self.server.control {
            Some(control) => control.time_left(now, self.server.limits),
            None => None,
        };
        longest = shorter(longest, self.server.stop_left(now));
        longest = shorter(longest, self.arrival_left(now));
        for parted in self.parted.iter() {
            longest = shorter(longest, Some(parted.time_left(now)));
        }
        if self.open > 0 {
            longest = shorter(longest, self.look.time_left(now));
        }
        let newcomers = &self.server.newcomers;
        longest = shorter(longest, newcomers.time_left(self.server.limits, now));
        if self.wants_room() {
            longest = shorter(longest, newcomers.room_left(self.look.wanted(), now));
            longest = shorter(longest, self.look.room_left(now));
        }
        longest
    }

    /// How long it is until a connection may be had, where more are taken and one may be there.
    fn arrival_left(&self, now: Option<Instant>) -> Option<Duration> {
        if !self.takes_more() {
            None
        } else if self.server.waiting.is_some() {
            self.has_room().then_some(Duration::ZERO)
        } else if self.server.may_come {
            Some(self.server.pause_left(now))
        } else {
            None
        }
    }

    /// Whether one more is to be served than are there.
    fn takes_more(&self) -> bool {
        self.left > self.server.newcomers.len() as u64
    }

    /// How many places are taken.
    fn taken(&self) -> usize {
        self.open
            .saturating_add(self.parted.len())
            .saturating_add(self.server.newcomers.len())
    }

    /// Whether a place is free.
    fn has_room(&self) -> bool {
        self.taken() < self.server.places
    }

    /// Whether a connection waits for a place that it is to have, and none is free.
    fn wants_room(&self) -> bool {
        self.left > 0 && self.server.waiting.is_some() && !self.has_room()
    }

    /// How many places there are, and how many are free.
    fn places(&self) -> Places {
        Places {
            all: self.server.places as u64,
            open: self.server.places.saturating_sub(self.taken()) as u64,
        }
    }

    /// Reads away what came over those that are parted with.
    fn read_away(&mut self, now: Option<Instant>) {
        let may_have = !self.server.woken.is_empty();
        let mut at = 0;
        while at < self.parted.len() {
            let parted = &mut self.parted[at];
            if may_have {
                parted.make_ready();
            }
            if parted.read_away(now) {
                drop(self.parted.swap_remove(at));
            } else {
                at += 1;
            }
        }
    }

    /// The number of the next connection that has something to do, if one has.
    pub(crate) fn woken(&mut self) -> Option<u64> {
        self.server.woken.pop()
    }

    /// The next connection that came, if one did: it gets this number. Where no place is free it
    /// waits, and doesn't count yet; so does one whose proxy's header is to come. One that can't be
    /// had counts, and is told.
    pub(crate) fn next(&mut self, number: u64) -> Option<(ConnectionName, TcpStream)> {
        let now = self.time.get();
        if self.takes_more() {
            self.let_wait(now);
            self.let_in(now);
        }
        let (stream, peer) = if self.server.is_proxied {
            self.next_headed()?
        } else {
            self.next_waiting()?
        };
        match self.server.take_in(number, stream, peer) {
            Ok(next) => {
                self.left = self.left.saturating_sub(1);
                self.open = self.open.saturating_add(1);
                // So the next one has room made for it in the same round.
                if self.takes_more() {
                    self.let_wait(now);
                }
                Some(next)
            }
            Err(_) => {
                self.tell_lost();
                None
            }
        }
    }

    /// Has the next one that came wait, if none waits. One of an address that has as many as it may
    /// isn't served.
    fn let_wait(&mut self, now: Option<Instant>) {
        if self.server.let_wait(now).is_err() {
            self.tell_lost();
        }
        if self.server.is_proxied {
            return;
        }
        let server = &*self.server;
        let refused = match &server.waiting {
            Some((_, peer)) if !server.addresses.admits(*peer) => Some(*peer),
            _ => None,
        };
        if let Some(peer) = refused {
            self.server.waiting = None;
            self.tell_refused(peer, Refusal::TooMany, FirstBytes::of(&[]));
        }
    }

    /// Gives a place to the one that waits, if one is free and its proxy's header is to come.
    fn let_in(&mut self, now: Option<Instant>) {
        if self.server.is_proxied && self.has_room() && self.server.let_in(now).is_err() {
            self.tell_lost();
        }
    }

    /// The one that waits, if one does, a place is free, and one more is to be served.
    fn next_waiting(&mut self) -> Option<(TcpStream, SocketAddr)> {
        if self.left > 0 && self.has_room() {
            self.server.waiting.take()
        } else {
            None
        }
    }

    /// The next one whose proxy's header is whole, and who is behind the proxy.
    fn next_headed(&mut self) -> Option<(TcpStream, SocketAddr)> {
        for _ in 0..self.server.newcomers.len() {
            let (newcomer, heading) = self.server.newcomers.next()?;
            match heading {
                Heading::Peer(peer) if self.server.addresses.admits(peer) => {
                    return Some((Box::into_inner(newcomer).into_stream(), peer));
                }
                Heading::Peer(peer) => {
                    self.tell_refused(peer, Refusal::TooMany, FirstBytes::of(&[]));
                }
                Heading::Refused(refusal) => self.refuse(&newcomer, refusal),
                Heading::Waits => {}
            }
        }
        None
    }

    /// A connection couldn't be had: it counts, and is told.
    fn tell_lost(&mut self) {
        self.left = self.left.saturating_sub(1);
        let _ = end_connection(Err(FrontFault::Read), self.faults);
    }

    /// A newcomer isn't served: it is told.
    fn refuse(&mut self, newcomer: &Newcomer, refusal: Refusal) {
        self.tell_refused(newcomer.address(), refusal, newcomer.first_bytes());
    }

    /// Tells of one that isn't served.
    fn tell_refused(&mut self, peer: SocketAddr, refusal: Refusal, first: FirstBytes) {
        self.server.journal.refused(peer, refusal, first);
        if let Some(fault) = refusal.fault() {
            let _ = write_fault_line(&fault, self.faults);
        }
    }

    /// Ends the newcomers whose headers have taken too long.
    fn end_late_newcomers(&mut self, now: Option<Instant>) {
        for _ in 0..self.server.newcomers.len() {
            let limits = self.server.limits;
            let Some(newcomer) = self.server.newcomers.late(limits, now) else {
                return;
            };
            self.refuse(&newcomer, Refusal::Late);
        }
    }

    /// Ends all newcomers, since the host ends.
    fn end_newcomers(&mut self) {
        for _ in 0..self.server.newcomers.len() {
            if let Some(newcomer) = self.server.newcomers.pop() {
                self.refuse(&newcomer, Refusal::Stopped);
            }
        }
    }

    /// Makes room for one that waits, where no place is free, without one that is served: of one
    /// that is parted with, or else of the first newcomer, once it may have to.
    fn make_room(&mut self, now: Option<Instant>) {
        if !self.wants_room() {
            return;
        }
        if !self.parted.is_empty() {
            drop(self.parted.swap_remove(0));
            return;
        }
        let wanted = self.look.wanted();
        if let Some(newcomer) = self.server.newcomers.leaves(wanted, now) {
            self.refuse(&newcomer, Refusal::MadeRoom);
        }
    }

    /// Notes whether others wait for a place.
    fn note_waiting(&mut self, now: Option<Instant>) {
        if self.wants_room() {
            self.look.one_waits(now);
        } else if self.server.waiting.is_none() && !self.server.may_come {
            self.look.nobody_waits();
        }
    }

    /// Looks at the book where figures are to be told, and gives control connections a round, and
    /// the host's own control lines.
    pub(crate) fn between<B: Book + Drop, C: Clock>(
        &mut self,
        alloc: Global,
        others: &mut Others,
        host: &mut Host<B>,
        clock: &mut C,
    ) -> Result<(), BookFault>
        ensures reaches { B.is_honest host.new → B.is_open host.old
            → ReachesBy (B.tables host.old) (left_of B.Book host.new)
            (OthersGoOn OthersFollow (B.tables host.old)
            (beside_of others.old) (beside_of others.new)) result }
        ensures stays_open { B.is_honest host.new → B.is_open host.old
            → OnOk result (B.is_open host.new) }
        ensures was_honest { B.is_honest host.new → B.is_honest host.old }
        ensures given_later { (m : ℕ) → C.may_give clock.new m → C.may_give clock.old m }
        ensures store { TellsFault result (B.failures host.old) (B.failures host.new)
            (B.is_honest host.new → B.is_open host.old → ⊥) }
    {
        let time = ControlTime {
            places: self.places(),
            now: self.time.get(),
            limits: self.server.limits,
        };
        self.look(alloc, others, host, clock)?;
        self.server
            .give_rounds(&mut others.controls, host, clock, time, self.faults)
    }

    /// Looks at the book where figures are to be told, and for a gateway.
    fn look<B: Book + Drop, C: Clock>(
        &mut self,
        alloc: Global,
        others: &mut Others,
        host: &mut Host<B>,
        clock: &mut C,
    ) -> Result<(), BookFault>
        ensures told { B.is_honest host.new → B.is_open host.old
            → LooksOn (B.tables host.old) (told_of others.old.gateways)
            (told_of others.new.gateways) }
        ensures controls { aside_of others.new.controls ≡ aside_of others.old.controls }
        ensures looked { B.is_honest host.new → B.is_open host.old
            → Looked (B.tables host.old) (left_of B.Book host.new) }
        ensures stays_open { B.is_honest host.new → B.is_open host.old
            → OnOk result (B.is_open host.new) }
        ensures was_honest { B.is_honest host.new → B.is_honest host.old }
        ensures given_later { (m : ℕ) → C.may_give clock.new m → C.may_give clock.old m }
        ensures store { TellsFault result (B.failures host.old) (B.failures host.new)
            (B.is_honest host.new → B.is_open host.old → ⊥) }
    {
        let now = self.time.get();
        self.server
            .look_at_book(alloc, &others.controls, host, now)?;
        self.server
            .tell_gateway(alloc, &mut others.gateways, host, clock, self.faults)
    }

    /// Whether the open connections are looked at in this round.
    pub(crate) fn looks(&mut self) -> bool {
        let now = self.time.get();
        self.note_waiting(now);
        self.make_room(now);
        let wants_room = self.wants_room();
        let looks = self.is_stopping || wants_room || self.look.is_due(now);
        if looks {
            self.look.begin(now, wants_room);
        }
        looks
    }

    /// How a connection is to end now, if it is: it took too long, or makes room, or the host ends
    /// and it has its replies.
    pub(crate) fn ends(&mut self, place: &TerminalPlace<'r>) -> Option<Result<(), FrontFault>> {
        if place.ended().is_some() {
            self.look.has_room();
            return None;
        }
        // Whoever asks for an issuer bounds how long that takes, also where the host ends.
        if !place.is_listening() {
            return None;
        }
        let talk = place.talk();
        if self.is_stopping && !place.is_ready() && talk.unsent().is_empty() {
            return Some(Ok(()));
        }
        let ending = self.look.ends(place, self.time.get())?;
        talk.end_by(ending);
        if ending == Ending::MadeRoom {
            Some(Ok(()))
        } else {
            Some(Err(talk.late_fault()))
        }
    }

    /// A turn of this connection was taken: its reply is about to be written, or it gets none, or
    /// its issuer answers later.
    pub(crate) fn said(&mut self, place: &TerminalPlace<'r>) {
        self.note_turn(place);
        let (talk, now) = (place.talk(), self.time.get());
        let frame = talk.unsent();
        if !frame.is_empty() {
            if self.said.is_none() {
                self.said = self.server.now();
            }
            let held = HeldReply {
                took: between(now, self.said),
                total: between(talk.came(), self.said),
                reason: talk.reason(),
            };
            if answers_terminal(frame, held.reason) {
                talk.sold(now);
            }
            self.server.journal.replied(talk.name(), frame, held, now);
        } else if let Some(message) = talk.unanswered() {
            self.server.journal.unanswered(talk.name(), message, now);
        }
    }

    /// Notes for a gateway that a turn was taken, and the message whose issuer is asked.
    fn note_turn(&mut self, place: &TerminalPlace<'r>) {
        let Some(gateway) = &mut self.server.gateway else {
            return;
        };
        gateway.note_news();
        if let Stage::Asking(query) = place.stage() {
            if let Some(message) = place.talk().take_asking() {
                gateway.note_message(query, message);
            }
        }
    }

    /// A connection ended, or is cut off where the host ends since its time is over. Where memory
    /// ran out or the store failed nothing is told of it.
    pub(crate) fn part(&mut self, place: TerminalPlace<'r>) {
        self.open = self.open.saturating_sub(1);
        if let ConnectionName::Terminal(_, peer) = place.talk().name() {
            self.server.addresses.went(peer);
        }
        match place.ended() {
            Some(ended) => self.part_with(place, ended),
            None if self.is_over => {
                let ended = Err(place.talk().late_fault());
                let name = place.talk().name();
                self.server.journal.closed(name, &ended, Ending::Stopped);
                drop(place);
                let _ = end_connection(ended, self.faults);
            }
            None => {}
        }
    }

    /// Tells how a connection ended. Behind a bad frame, and where the host ends, it is parted
    /// with: what it still sends is read away, or the system would throw away replies that it has
    /// yet to send.
    fn part_with(&mut self, place: TerminalPlace<'r>, ended: Result<(), FrontFault>) {
        let talk = place.talk();
        let is_bad_frame = ends_in_bad_frame(&ended);
        match ended {
            Err(fault) if is_bad_frame => {
                let frame = talk.frame_head();
                self.server.journal.refused_frame(talk.name(), fault, frame);
            }
            _ => {
                let ending = talk.ending();
                self.server.journal.closed(talk.name(), &ended, ending);
            }
        }
        if is_bad_frame || self.is_stopping && ended.is_ok() {
            if let Some(parted) = Parted::new(place, self.time.get()) {
                // Without memory for it, it is closed at once.
                let _ = self.parted.push(parted);
            }
        } else {
            drop(place);
        }
        let _ = end_connection(ended, self.faults);
    }
}
