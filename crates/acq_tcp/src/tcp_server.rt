//! Connections over TCP that are served at once.

ghost use Rattle.std.specs.Prelude.{◌≡◌, ℕ, IfErr, IfOk, OnOk};
ghost use Rattle.acq_controls.specs.Aside.{aside_of};
ghost use Rattle.acq_controls.specs.Following.{ControlsFollow, Stays};
ghost use Rattle.acq_faults.specs.Faults.{IsOfListening, TellsStore};
ghost use Rattle.acq_front.specs.Stops.{left_of};
ghost use Rattle.acq_gateways.specs.Following.{GatewaysStay, LooksOn};
ghost use Rattle.acq_gateways.specs.Told.{told_of};
ghost use Rattle.acq_rounds.specs.Reaching.{ReachesBy};
ghost use Rattle.acq_rounds.specs.Runs.{OthersGoOn};
ghost use Rattle.acq_rounds.specs.Taking.{TellsFault};
ghost use Rattle.acq_tcp.specs.Others.{OthersHadNone, beside_of};
ghost use Rattle.acq_tcp.specs.Rounds.{Looked, of_looked};
ghost use Rattle.acq_tcp.specs.Terminals.{others_by};

use crate::addresses::Addresses;
use crate::arrivals::Arrivals;
use crate::book_files::BookFiles;
use crate::connection_name::ConnectionName;
use crate::control_server::{ControlServer, end_control};
use crate::control_stream::ControlStream;
use crate::control_time::ControlTime;
use crate::ending::Ending;
use crate::gateway_server::GatewayServer;
use crate::had::Had;
use crate::host_log::HostLog;
use crate::journal::Journal;
use crate::listening::{FIRST_TERMINAL, GATEWAY, LISTENER, Listening, OWN_LINES};
use crate::log_target::LogTarget;
use crate::newcomers::Newcomers;
use crate::open_control::OpenControl;
use crate::others::Others;
use crate::round_time::RoundTime;
use crate::sockets::Sockets;
use crate::tcp_connections::PAUSE;
use crate::time_limits::{TimeLimits, left_of};
use crate::timed_issuer::TimedIssuer;
use acq_book::{Book, BookFault};
use acq_controls::Controls;
use acq_faults::{Fault, ListenOptions, Server};
use acq_front::{Clock, Issuer};
use acq_gateways::Gateways;
use acq_host::Host;
use acq_link::Sink;
use acq_reports::ReportFault;
use acq_rounds::{Past, serve};
use mio::net::{TcpListener, TcpStream, UnixStream};
use mio::{Events, Interest, Poll, Token};
use std::alloc::Global;
use std::fs::Files;
use std::io::ErrorKind;
use std::net::{Net, SocketAddr};
use std::time::{Duration, Instant};
use std::{io, mem, time};

/// How many rounds the host's own control lines get at once: for a line a read, a turn and a write.
const MOST_OWN_ROUNDS: u32 = 4096;

/// Connections that come in at a port and are served at once, in rounds: each reads what came and
/// has a message taken of it, so that none waits for another one's bytes.
#[derive(Drop)]
pub struct TcpServer<'a, T, W> {
    listener: TcpListener,
    poll: Poll,
    events: Events,
    /// The numbers of the connections that have something to do since the last wait.
    pub(crate) woken: Vec<u64>,
    time: &'a T,
    pub(crate) limits: TimeLimits,
    /// How many connections have a place at once.
    pub(crate) places: usize,
    /// Whether connections may be there that weren't taken yet.
    pub(crate) may_come: bool,
    /// When one last couldn't be had.
    refused: Option<Instant>,
    /// One that came, and has no place yet.
    pub(crate) waiting: Option<(TcpStream, SocketAddr)>,
    /// Whether each begins with the header of a proxy.
    pub(crate) is_proxied: bool,
    /// Those whose header is still to come.
    pub(crate) newcomers: Newcomers,
    /// How many connections each address has.
    pub(crate) addresses: Addresses,
    /// Control connections, where they can come, and a gateway to issuers, where one can.
    pub(crate) control: Option<ControlServer>,
    pub(crate) gateway: Option<GatewayServer>,
    /// What passes over them.
    others: Others,
    /// The host's own control lines.
    own_lines: OpenControl,
    /// When the host was asked to end, where that time is known.
    pub(crate) stopping: Option<Instant>,
    book_files: BookFiles,
    /// Whether it was looked which request waits the longest.
    has_looked: bool,
    pub(crate) journal: Journal<'a, T, W>,
    /// What connections that ended have had, and how many it had.
    past: Past,
    had: Had,
}

impl<'a, T: time::Clock + Files, W: LogTarget + Drop> TcpServer<'a, T, W> {
    /// Listens at the address and the port that are asked for, for so many connections at once. One
    /// that takes longer than its patience lasts is closed. Beside them control connections come to
    /// these sockets, and gateways. What is served is told to the log, where there is one.
    pub fn listen<N: Net>(
        net: &N,
        time: &'a T,
        alloc: Global,
        asked: &ListenOptions,
        sockets: Sockets,
        log: Option<HostLog<W>>,
    ) -> Result<TcpServer<'a, T, W>, Fault>
        ensures fault { IfErr result IsOfListening }
        ensures none_came { IfOk result (λ server. OthersHadNone (others_by server)) }
    {
        match Listening::begin(net, time, alloc, asked, sockets) {
            Ok(listening) => {
                let journal = Journal::new(alloc, time, log, listening.gateway.is_some());
                Ok(TcpServer::new(alloc, listening, asked, time, journal))
            }
            Err(fault) => Err(fault),
        }
    }

    /// Nothing has come yet.
    fn new(
        alloc: Global,
        listening: Listening,
        asked: &ListenOptions,
        time: &'a T,
        journal: Journal<'a, T, W>,
    ) -> TcpServer<'a, T, W>
        ensures { others_by result ≡ beside_of listening.others }
    {
        TcpServer {
            listener: listening.listener,
            poll: listening.poll,
            events: listening.events,
            woken: listening.woken,
            time,
            limits: TimeLimits::new(asked.patience),
            places: asked.together,
            may_come: true,
            refused: None,
            waiting: None,
            is_proxied: asked.proxy_protocol,
            newcomers: Newcomers::new(alloc),
            addresses: Addresses::new(alloc, asked.from_one_address),
            control: listening.control,
            gateway: listening.gateway,
            others: listening.others,
            own_lines: OpenControl::new(ConnectionName::Control(0), None),
            stopping: None,
            book_files: listening.book_files,
            has_looked: false,
            journal,
            past: Past::new(),
            had: Had::none(),
        }
    }

    /// The clock that it was given.
    pub fn clock(&self) -> &'a T {
        self.time
    }

    /// The address that it listens at.
    pub fn local_addr(&self) -> io::Result<SocketAddr> {
        self.listener.local_addr()
    }

    /// The time, where the system tells it.
    pub(crate) fn now(&self) -> Option<Instant> {
        Instant::now(self.time).ok()
    }

    /// Takes in this connection under this number, and returns what it is called.
    pub(crate) fn take_in(
        &mut self,
        number: u64,
        mut stream: TcpStream,
        peer: SocketAddr,
    ) -> io::Result<(ConnectionName, TcpStream)> {
        stream.set_nodelay(true)?;
        let token = Token((number as usize).saturating_add(FIRST_TERMINAL));
        let interest = Interest::READABLE | Interest::WRITABLE;
        let registry = self.poll.registry();
        if self.is_proxied {
            // It was registered as a newcomer.
            registry.reregister(&mut stream, token, interest)?;
        } else {
            registry.register(&mut stream, token, interest)?;
        }
        self.addresses.came(peer);
        Ok((self.journal.terminal(peer), stream))
    }

    /// Takes in the one that waits as one whose proxy's header is to come, if one waits.
    pub(crate) fn let_in(&mut self, now: Option<Instant>) -> io::Result<()> {
        match self.waiting.take() {
            Some((stream, address)) => {
                self.newcomers
                    .take_in(self.poll.registry(), stream, address, now)
            }
            None => Ok(()),
        }
    }

    /// Has the next connection that came wait, if there is one and none waits.
    pub(crate) fn let_wait(&mut self, now: Option<Instant>) -> io::Result<()> {
        if self.waiting.is_none() {
            self.waiting = self.accept(now)?;
        }
        Ok(())
    }

    /// The next connection that came, and whence, if one did. Behind one that couldn't be had it
    /// pauses.
    fn accept(&mut self, now: Option<Instant>) -> io::Result<Option<(TcpStream, SocketAddr)>> {
        if !self.may_come || !self.pause_left(now).is_zero() {
            return Ok(None);
        }
        self.refused = None;
        match self.listener.accept() {
            Ok(next) => Ok(Some(next)),
            Err(fault) if fault.kind() == ErrorKind::WouldBlock => {
                self.may_come = false;
                Ok(None)
            }
            Err(fault) => {
                self.refused = now;
                Err(fault)
            }
        }
    }

    /// How much is left of the pause behind a connection that couldn't be had: nothing, where one
    /// may be had.
    pub(crate) fn pause_left(&self, now: Option<Instant>) -> Duration {
        match self.refused {
            Some(_) => left_of(Duration::from_millis(PAUSE), self.refused, now),
            None => Duration::ZERO,
        }
    }

    /// Waits so long at most until a connection has something to do or one comes, and notes which.
    pub(crate) fn wait(&mut self, longest: Option<Duration>) -> io::Result<()> {
        self.woken.clear();
        self.poll.poll(&mut self.events, longest)?;
        for event in self.events.iter() {
            let Token(token) = event.token();
            if token == LISTENER {
                self.may_come = true;
            } else if self.newcomers.wake(token) {
                continue;
            } else if let Some(number) = token.checked_sub(FIRST_TERMINAL) {
                // There is room for as many as there are events.
                let _ = self.woken.push(number as u64);
            } else if token >= GATEWAY {
                if let Some(gateway) = &mut self.gateway {
                    gateway.make_ready(token);
                }
            } else if let Some(control) = &mut self.control {
                control.make_ready(token);
            }
        }
        Ok(())
    }

    /// Where the host was asked to end, how much is left to those that are there, if they have a
    /// limit.
    pub(crate) fn stop_left(&self, now: Option<Instant>) -> Option<Duration> {
        match (self.limits.stop, self.stopping) {
            (Some(stop), Some(_)) => Some(left_of(stop, self.stopping, now)),
            _ => None,
        }
    }

    /// Whether a control connection asked that the host ends.
    pub(crate) fn has_stopped(&self) -> bool {
        match &self.control {
            Some(control) => control.has_stopped(),
            None => false,
        }
    }

    /// Whether something that is said to a control connection is still to be written, or to be
    /// made.
    pub(crate) fn is_answering(&self) -> bool {
        match &self.control {
            Some(control) => control.is_answering(),
            None => false,
        }
    }

    /// Cuts off the control connections, since the host ends.
    pub(crate) fn cut_off_controls<F: Sink>(
        &mut self,
        controls: &mut Controls<ControlStream>,
        faults: &mut F,
    )
        ensures stays { Stays (aside_of controls.old) (aside_of controls.new) }
    {
        if let Some(control) = &mut self.control {
            control.cut_off(controls, &mut self.journal, faults);
        }
    }

    /// Parts with the gateway, since the host ends.
    pub(crate) fn close_gateway(&mut self, gateways: &mut Gateways<UnixStream>)
        ensures stays { GatewaysStay (told_of gateways.old) (told_of gateways.new) }
    {
        if let Some(gateway) = &mut self.gateway {
            gateway.close(gateways, &mut self.journal);
        }
    }

    /// Looks which request waits the longest, and how many bytes the book's files have, at first
    /// and where figures are about to be asked for.
    pub(crate) fn look_at_book<B: Book + Drop>(
        &mut self,
        alloc: Global,
        controls: &Controls<ControlStream>,
        host: &mut Host<B>,
        now: Option<Instant>,
    ) -> Result<(), BookFault>
        ensures looked { B.is_honest host.new → B.is_open host.old
            → Looked (B.tables host.old) (left_of B.Book host.new) }
        ensures stays_open { B.is_honest host.new → B.is_open host.old
            → OnOk result (B.is_open host.new) }
        ensures was_honest { B.is_honest host.new → B.is_honest host.old }
        ensures store { TellsFault result (B.failures host.old) (B.failures host.new)
            (B.is_honest host.new → B.is_open host.old → ⊥) }
    {
        let Some(control) = &self.control else {
            return Ok(());
        };
        if self.has_looked && !control.asks_figures(controls) {
            return Ok(());
        }
        self.has_looked = true;
        self.journal.saw_files(self.book_files.sizes(self.time));
        match self.journal.look_at_waiting(alloc, host, now) {
            Ok(()) => Ok(()),
            Err(fault) => Err(fault_of_looking(fault)),
        }
    }

    /// Gives control connections a round, and the host's own control lines.
    pub(crate) fn give_rounds<B: Book + Drop, C: Clock, F: Sink>(
        &mut self,
        controls: &mut Controls<ControlStream>,
        host: &mut Host<B>,
        clock: &mut C,
        time: ControlTime,
        faults: &mut F,
    ) -> Result<(), BookFault>
        ensures reaches { B.is_honest host.new → B.is_open host.old
            → ReachesBy (B.tables host.old) (left_of B.Book host.new)
            (OthersGoOn ControlsFollow (B.tables host.old)
            (aside_of controls.old) (aside_of controls.new)) result }
        ensures stays_open { B.is_honest host.new → B.is_open host.old
            → OnOk result (B.is_open host.new) }
        ensures was_honest { B.is_honest host.new → B.is_honest host.old }
        ensures given_later { (m : ℕ) → C.may_give clock.new m → C.may_give clock.old m }
        ensures store { TellsFault result (B.failures host.old) (B.failures host.new)
            (B.is_honest host.new → B.is_open host.old → ⊥) }
    {
        self.give_control_rounds(controls, host, clock, time, faults)?;
        self.take_own_lines(controls, host, clock, time, faults)
    }

    /// Takes in the control connections that came, and gives each that is ready a round.
    fn give_control_rounds<B: Book + Drop, C: Clock, F: Sink>(
        &mut self,
        controls: &mut Controls<ControlStream>,
        host: &mut Host<B>,
        clock: &mut C,
        time: ControlTime,
        faults: &mut F,
    ) -> Result<(), BookFault>
        ensures reaches { B.is_honest host.new → B.is_open host.old
            → ReachesBy (B.tables host.old) (left_of B.Book host.new)
            (OthersGoOn ControlsFollow (B.tables host.old)
            (aside_of controls.old) (aside_of controls.new)) result }
        ensures stays_open { B.is_honest host.new → B.is_open host.old
            → OnOk result (B.is_open host.new) }
        ensures was_honest { B.is_honest host.new → B.is_honest host.old }
        ensures given_later { (m : ℕ) → C.may_give clock.new m → C.may_give clock.old m }
        ensures store { TellsFault result (B.failures host.old) (B.failures host.new)
            (B.is_honest host.new → B.is_open host.old → ⊥) }
    {
        let Some(control) = &mut self.control else {
            return Ok(());
        };
        let journal = &mut self.journal;
        control.admit(controls, self.poll.registry(), journal, time.now, faults);
        control.give_rounds(controls, host, clock, journal, time, faults)
    }

    /// Whether a gateway has something to do, though nothing comes.
    pub(crate) fn has_gateway_ready(&self, gateways: &Gateways<UnixStream>) -> bool {
        match &self.gateway {
            Some(gateway) => gateway.is_ready(gateways),
            None => false,
        }
    }

    /// Takes in what came of a gateway, looks in the book what it is to be told, and tells it.
    pub(crate) fn tell_gateway<B: Book + Drop, C: Clock, F: Sink>(
        &mut self,
        alloc: Global,
        gateways: &mut Gateways<UnixStream>,
        host: &mut Host<B>,
        clock: &mut C,
        faults: &mut F,
    ) -> Result<(), BookFault>
        ensures told { B.is_honest host.new → B.is_open host.old
            → LooksOn (B.tables host.old) (told_of gateways.old) (told_of gateways.new) }
        ensures looked { B.is_honest host.new → B.is_open host.old
            → Looked (B.tables host.old) (left_of B.Book host.new) }
        ensures stays_open { B.is_honest host.new → B.is_open host.old
            → OnOk result (B.is_open host.new) }
        ensures was_honest { B.is_honest host.new → B.is_honest host.old }
        ensures given_later { (m : ℕ) → C.may_give clock.new m → C.may_give clock.old m }
        ensures store { TellsFault result (B.failures host.old) (B.failures host.new)
            (B.is_honest host.new → B.is_open host.old → ⊥) }
    {
        let Some(gateway) = &mut self.gateway else {
            return Ok(());
        };
        let journal = &mut self.journal;
        gateway.take_in(alloc, gateways, self.poll.registry(), journal, faults);
        let moment = clock.now();
        match gateway.tell(gateways, host, moment, journal, faults) {
            Ok(()) => Ok(()),
            Err(fault) => Err(fault),
        }
    }

    /// Has the host take its own control lines, which are answers that nobody waits for.
    fn take_own_lines<B: Book + Drop, C: Clock, F: Sink>(
        &mut self,
        controls: &mut Controls<ControlStream>,
        host: &mut Host<B>,
        clock: &mut C,
        time: ControlTime,
        faults: &mut F,
    ) -> Result<(), BookFault>
        ensures reaches { B.is_honest host.new → B.is_open host.old
            → ReachesBy (B.tables host.old) (left_of B.Book host.new)
            (OthersGoOn ControlsFollow (B.tables host.old)
            (aside_of controls.old) (aside_of controls.new)) result }
        ensures stays_open { B.is_honest host.new → B.is_open host.old
            → OnOk result (B.is_open host.new) }
        ensures was_honest { B.is_honest host.new → B.is_honest host.old }
        ensures given_later { (m : ℕ) → C.may_give clock.new m → C.may_give clock.old m }
        ensures store { TellsFault result (B.failures host.old) (B.failures host.new)
            (B.is_honest host.new → B.is_open host.old → ⊥) }
    {
        for _ in 0..self.own_rounds() {
            self.give_own_round(controls, host, clock, time, faults)?;
        }
        Ok(())
    }

    /// How many rounds they get: none, unless there are lines.
    fn own_rounds(&mut self) -> u32 {
        let has_lines = match &self.gateway {
            Some(gateway) => gateway.has_lines(),
            None => false,
        };
        if has_lines {
            self.own_lines.make_ready();
        }
        if self.own_lines.is_ready() {
            MOST_OWN_ROUNDS
        } else {
            0
        }
    }

    /// Gives them a round, if there is something to do.
    fn give_own_round<B: Book + Drop, C: Clock, F: Sink>(
        &mut self,
        controls: &mut Controls<ControlStream>,
        host: &mut Host<B>,
        clock: &mut C,
        time: ControlTime,
        faults: &mut F,
    ) -> Result<(), BookFault>
        ensures reaches { B.is_honest host.new → B.is_open host.old
            → ReachesBy (B.tables host.old) (left_of B.Book host.new)
            (OthersGoOn ControlsFollow (B.tables host.old)
            (aside_of controls.old) (aside_of controls.new)) result }
        ensures stays_open { B.is_honest host.new → B.is_open host.old
            → OnOk result (B.is_open host.new) }
        ensures was_honest { B.is_honest host.new → B.is_honest host.old }
        ensures given_later { (m : ℕ) → C.may_give clock.new m → C.may_give clock.old m }
        ensures store { TellsFault result (B.failures host.old) (B.failures host.new)
            (B.is_honest host.new → B.is_open host.old → ⊥) }
    {
        let serving = self.journal.serving(time.places, time.now);
        let time = time.without_end();
        let ended = self
            .own_lines
            .give_round(controls, OWN_LINES, host, clock, serving, time);
        let Some(ended) = ended else {
            return Ok(());
        };
        controls.part(OWN_LINES);
        end_control(ended, faults)
    }

    /// Tells the log, where there is one, that it listens, and on which business day.
    fn begin<B: Book + Drop>(&mut self, host: &mut Host<B>) -> Result<(), BookFault>
        ensures looked { B.is_honest host.new → B.is_open host.old
            → Looked (B.tables host.old) (left_of B.Book host.new) }
        ensures stays_open { B.is_honest host.new → B.is_open host.old
            → OnOk result (B.is_open host.new) }
        ensures was_honest { B.is_honest host.new → B.is_honest host.old }
        ensures store { TellsFault result (B.failures host.old) (B.failures host.new)
            (B.is_honest host.new → B.is_open host.old → ⊥) }
        ensures past { self.new.past ≡ self.old.past }
        ensures had { self.new.had ≡ self.old.had }
        ensures others { self.new.others ≡ self.old.others }
    {
        if !self.journal.has_log() {
            return Ok(());
        }
        let day = host.day()?;
        let address = self.local_addr().ok();
        self.journal.listening(address, day);
        Ok(())
    }
}

impl<T: time::Clock + Files, W: LogTarget + Drop> Server for TcpServer<'_, T, W> {
    ghost use Rattle.acq_tcp.specs.Others.{Beside, OthersFollow};
    ghost use Rattle.acq_tcp.specs.Terminals.{had_by, many_by};

    ghost had = { had_by };

    ghost many = { many_by };

    ghost aside = { Beside };

    ghost others = { others_by };

    ghost follow = { OthersFollow };

    fn serve_all<B: Book + Drop, C: Clock, I: Issuer, F: Sink>(
        &mut self,
        alloc: Global,
        host: &mut Host<B>,
        count: u64,
        clock: &mut C,
        issuer: &mut I,
        faults: &mut F,
    ) -> Result<(), Fault> {
        if let Err(fault) = self.begin(host) {
            return Err(Fault::from(fault));
        }
        let past = mem::replace(&mut self.past, Past::new());
        let had = mem::replace(&mut self.had, Had::none());
        let others = mem::replace(&mut self.others, Others::without_places(alloc));
        let time = RoundTime::new();
        let mut issuer = TimedIssuer::new(alloc, issuer, &time, self.limits.answer);
        let mut arrivals = Arrivals::new(alloc, self, faults, &time, others, count);
        let served = serve(alloc, host, clock, &mut issuer, &mut arrivals, u64::MAX);
        drop(issuer);
        let last = arrivals.end();
        self.past = past.then(&last.past);
        self.had = had.plus(&last.given);
        self.others = last.others;
        match served {
            Ok(()) if last.has_failed => Err(Fault::Read),
            Ok(()) => Ok(()),
            Err(fault) => Err(Fault::from(fault)),
        }
    }
}

/// What a fault is of looking which request waits the longest. What else there is to fail than the
/// store is the memory that its name is written to.
fn fault_of_looking(fault: ReportFault) -> BookFault
    ensures { result ≡ of_looked fault }
{
    match fault {
        ReportFault::Store => BookFault::Store,
        _ => BookFault::Memory,
    }
}
