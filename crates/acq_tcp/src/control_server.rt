//! Control connections that are served beside those of terminals.

ghost use Rattle.std.specs.Prelude.{◌≡◌, ℕ, IfErr, OnOk};
ghost use Rattle.acq_controls.specs.Aside.{aside_of};
ghost use Rattle.acq_controls.specs.Following.{ControlsFollow, Stays};
ghost use Rattle.acq_faults.specs.Faults.{IsOfListening};
ghost use Rattle.acq_front.specs.Stops.{left_of};
ghost use Rattle.acq_rounds.specs.Reaching.{ReachesBy};
ghost use Rattle.acq_rounds.specs.Runs.{OthersGoOn};
ghost use Rattle.acq_rounds.specs.Taking.{TellsFault};
ghost use Rattle.acq_tcp.specs.Rounds.{going_on};

use crate::control_stream::ControlStream;
use crate::control_time::ControlTime;
use crate::ending::Ending;
use crate::journal::Journal;
use crate::line_word::line_word;
use crate::log_target::LogTarget;
use crate::open_control::OpenControl;
use crate::tcp_connections::PAUSE;
use crate::time_limits::{TimeLimits, left_of, shorter};
use acq_book::{Book, BookFault};
use acq_controls::Controls;
use acq_faults::{Fault, end_connection};
use acq_front::{Clock, FrontFault};
use acq_host::Host;
use acq_link::Sink;
use mio::net::UnixListener;
use mio::{Interest, Registry, Token};
use std::alloc::Global;
use std::io::{self, ErrorKind};
use std::time;
use std::time::{Duration, Instant};

/// How many control connections are served at once.
pub(crate) const CONTROLS: usize = 8;

/// Control connections that come in at a socket's file and are served at once, each in its turn.
/// What passes over them is in `Controls`, in the same places.
#[derive(Drop)]
pub(crate) struct ControlServer {
    listener: UnixListener,
    /// The token of the first place; those of the others stand behind it.
    first: usize,
    places: Vec<Option<OpenControl>>,
    /// Whether connections may be there that weren't taken yet.
    may_come: bool,
    /// When one last couldn't be had.
    refused: Option<Instant>,
    /// Whether one asked that the host ends.
    has_stopped: bool,
}

impl ControlServer {
    /// The connections of this listener, which waits under this token, and they under the first and
    /// those behind it.
    pub(crate) fn new(
        alloc: Global,
        mut listener: UnixListener,
        registry: &Registry,
        token: Token,
        first: usize,
    ) -> Result<ControlServer, Fault>
        ensures { IfErr result IsOfListening }
    {
        let mut places = Vec::with_capacity(alloc, CONTROLS)?;
        for _ in 0..CONTROLS {
            if places.push(None).is_err() {
                return Err(Fault::Memory);
            }
        }
        let waits = registry.register(&mut listener, token, Interest::READABLE);
        if waits.is_err() {
            return Err(Fault::Read);
        }
        Ok(ControlServer {
            listener,
            first,
            places,
            may_come: true,
            refused: None,
            has_stopped: false,
        })
    }

    /// Whether one asked that the host ends.
    pub(crate) fn has_stopped(&self) -> bool {
        self.has_stopped
    }

    /// Whether something that is said to one is still to be written, or to be made.
    pub(crate) fn is_answering(&self) -> bool {
        self.places.iter().any(|place| place.as_ref().is_some_and(|one| one.is_answering()))
    }

    /// Whether one is about to ask for figures.
    pub(crate) fn asks_figures(&self, controls: &Controls<ControlStream>) -> bool {
        for (at, place) in self.places.iter().enumerate() {
            if let Some(connection) = place {
                if connection.is_ready()
                    && !connection.is_answering()
                    && matches!(next_word(controls, at), "status" | "metrics")
                {
                    return true;
                }
            }
        }
        false
    }

    /// How much is left of the pause behind a connection that couldn't be had: nothing, where one
    /// may be had.
    fn pause_left(&self, now: Option<Instant>) -> Duration {
        match self.refused {
            Some(_) => left_of(Duration::from_millis(PAUSE), self.refused, now),
            None => Duration::ZERO,
        }
    }

    /// Cuts off those that are there, since the host ends.
    pub(crate) fn cut_off<T: time::Clock, W: LogTarget, F: Sink>(
        &mut self,
        controls: &mut Controls<ControlStream>,
        journal: &mut Journal<'_, T, W>,
        faults: &mut F,
    )
        ensures stays { Stays (aside_of controls.old) (aside_of controls.new) }
    {
        for place in 0..self.places.len() {
            let Some(taken) = self.places.get_mut(place) else {
                return;
            };
            if let Some(connection) = taken.take() {
                let ended = Err(cut_off(controls, place));
                journal.closed(connection.name(), &ended, Ending::Stopped);
                let _ = end_connection(ended, faults);
            }
            controls.part(place);
        }
    }

    /// Takes in the connections that came, while there are places. One that can't be had is told,
    /// and tried again after a pause.
    pub(crate) fn admit<T: time::Clock, W: LogTarget, F: Sink>(
        &mut self,
        controls: &mut Controls<ControlStream>,
        registry: &Registry,
        journal: &mut Journal<'_, T, W>,
        now: Option<Instant>,
        faults: &mut F,
    )
        ensures stays { Stays (aside_of controls.old) (aside_of controls.new) }
    {
        for place in 0..self.places.len() {
            if !self.may_come || !self.pause_left(now).is_zero() {
                return;
            }
            self.admit_at(controls, registry, journal, place, now, faults);
        }
    }

    /// Takes in the next connection that came, if one did, where this place is free.
    fn admit_at<T: time::Clock, W: LogTarget, F: Sink>(
        &mut self,
        controls: &mut Controls<ControlStream>,
        registry: &Registry,
        journal: &mut Journal<'_, T, W>,
        place: usize,
        now: Option<Instant>,
        faults: &mut F,
    )
        ensures stays { Stays (aside_of controls.old) (aside_of controls.new) }
    {
        let Some(None) = self.places.get(place) else {
            return;
        };
        self.refused = None;
        let filled = self.fill(controls, registry, journal, place, now);
        if filled.is_err() {
            self.refused = now;
            let _ = end_connection(Err(FrontFault::Read), faults);
        }
    }

    /// Gives a place to the next connection that came, if one did.
    fn fill<T: time::Clock, W: LogTarget>(
        &mut self,
        controls: &mut Controls<ControlStream>,
        registry: &Registry,
        journal: &mut Journal<'_, T, W>,
        place: usize,
        now: Option<Instant>,
    ) -> io::Result<()>
        ensures stays { Stays (aside_of controls.old) (aside_of controls.new) }
    {
        let mut stream = match self.listener.accept() {
            Ok((stream, _)) => stream,
            Err(fault) if fault.kind() == ErrorKind::WouldBlock => {
                self.may_come = false;
                return Ok(());
            }
            Err(fault) => return Err(fault),
        };
        registry.register(
            &mut stream,
            Token(self.first.saturating_add(place)),
            Interest::READABLE | Interest::WRITABLE,
        )?;
        if controls.admit(place, ControlStream::Socket(stream)) {
            if let Some(empty) = self.places.get_mut(place) {
                *empty = Some(OpenControl::new(journal.control(), now));
            }
        }
        Ok(())
    }

    /// The system says that there may be something to do under this token.
    pub(crate) fn make_ready(&mut self, token: usize) {
        let Some(place) = token.checked_sub(self.first) else {
            self.may_come = true;
            return;
        };
        if let Some(Some(connection)) = self.places.get_mut(place) {
            connection.make_ready();
        }
    }

    /// How long none of them has to be looked at: not at all where one is ready.
    pub(crate) fn time_left(&self, now: Option<Instant>, limits: TimeLimits) -> Option<Duration> {
        let mut longest = None;
        for place in self.places.iter() {
            match place {
                Some(connection) if connection.is_ready() => return Some(Duration::ZERO),
                Some(connection) => longest = shorter(longest, connection.time_left(now, limits)),
                None if self.may_come => longest = shorter(longest, Some(self.pause_left(now))),
                None => {}
            }
        }
        longest
    }

    /// Gives each connection that is ready a round.
    pub(crate) fn give_rounds<B: Book + Drop, C: Clock, T: time::Clock, W: LogTarget, F: Sink>(
        &mut self,
        controls: &mut Controls<ControlStream>,
        host: &mut Host<B>,
        clock: &mut C,
        journal: &mut Journal<'_, T, W>,
        time: ControlTime,
        faults: &mut F,
    ) -> Result<(), BookFault>
        ensures reaches { B.is_honest host.new → B.is_open host.old
            → ReachesBy (B.tables host.old) (left_of B.Book host.new)
            (OthersGoOn ControlsFollow (B.tables host.old)
            (aside_of controls.old) (aside_of controls.new)) result }
        ensures stays_open { B.is_honest host.new → B.is_open host.old
            → OnOk result (B.is_open host.new) }
        ensures was_honest { B.is_honest host.new → B.is_honest host.old }
        ensures given_later { (m : ℕ) → C.may_give clock.new m → C.may_give clock.old m }
        ensures store { TellsFault result (B.failures host.old) (B.failures host.new)
            (B.is_honest host.new → B.is_open host.old → ⊥) }
    {
        for place in 0..self.places.len() {
            self.give_round(controls, place, host, clock, journal, time, faults)?;
        }
        Ok(())
    }

    /// Gives the connection in a place a round, notes whether it asked that the host ends, and
    /// frees the place at its end.
    fn give_round<B: Book + Drop, C: Clock, T: time::Clock, W: LogTarget, F: Sink>(
        &mut self,
        controls: &mut Controls<ControlStream>,
        place: usize,
        host: &mut Host<B>,
        clock: &mut C,
        journal: &mut Journal<'_, T, W>,
        time: ControlTime,
        faults: &mut F,
    ) -> Result<(), BookFault>
        ensures reaches { B.is_honest host.new → B.is_open host.old
            → ReachesBy (B.tables host.old) (left_of B.Book host.new)
            (OthersGoOn ControlsFollow (B.tables host.old)
            (aside_of controls.old) (aside_of controls.new)) result }
        ensures stays_open { B.is_honest host.new → B.is_open host.old
            → OnOk result (B.is_open host.new) }
        ensures was_honest { B.is_honest host.new → B.is_honest host.old }
        ensures given_later { (m : ℕ) → C.may_give clock.new m → C.may_give clock.old m }
        ensures store { TellsFault result (B.failures host.old) (B.failures host.new)
            (B.is_honest host.new → B.is_open host.old → ⊥) }
    {
        let Some(Some(connection)) = self.places.get_mut(place) else {
            return Ok(());
        };
        let next = NextLine::of(connection, controls, place, journal);
        let serving = journal.serving(time.places, time.now);
        let ended = connection.give_round(controls, place, host, clock, serving, time);
        next.note(connection, controls, place, journal);
        self.has_stopped = self.has_stopped || connection.has_stopped();
        if connection.take_reopening() && !journal.reopen() {
            let _ = end_connection(Err(FrontFault::Read), faults);
        }
        let Some(ended) = ended else {
            return Ok(());
        };
        journal.closed(connection.name(), &ended, ending_of(connection));
        controls.part(place);
        self.free(place);
        end_control(ended, faults)
    }

    /// The connection in a place ended.
    fn free(&mut self, place: usize) {
        if let Some(taken) = self.places.get_mut(place) {
            *taken = None;
        }
    }
}

/// Ends a connection: want of memory and the store's fault end the program too, and any other fault
/// is a line of `faults`.
pub(crate) fn end_control<F: Sink>(
    ended: Result<(), FrontFault>,
    faults: &mut F,
) -> Result<(), BookFault>
    ensures { result ≡ going_on ended }
{
    match ended {
        Err(FrontFault::Memory) => Err(BookFault::Memory),
        Err(FrontFault::Store) => Err(BookFault::Store),
        ended => {
            let _ = end_connection(ended, faults);
            Ok(())
        }
    }
}

/// What ends a connection that ended in a round.
fn ending_of(connection: &OpenControl) -> Ending {
    if connection.is_ready() {
        Ending::Own
    } else {
        Ending::Late
    }
}

/// The word that the line begins with which the connection in a place may take next.
fn next_word(controls: &Controls<ControlStream>, place: usize) -> &'static str {
    match controls.in_place(place) {
        Some(exchange) => line_word(exchange.front()),
        None => line_word(&[]),
    }
}

/// What it is that the host cuts off the connection in a place: an answer wasn't written whole, or
/// it was read in vain.
fn cut_off(controls: &Controls<ControlStream>, place: usize) -> FrontFault {
    match controls.in_place(place) {
        Some(exchange) if exchange.is_answering() => FrontFault::Write(exchange.gone()),
        _ => FrontFault::Read,
    }
}

/// The line that a connection may take in a round.
#[derive(Clone, Copy)]
struct NextLine {
    /// What it begins with; `None` where an answer is still to be written.
    word: Option<&'static str>,
    began: Option<Instant>,
}

impl NextLine {
    /// That of a round that begins now.
    fn of<T: time::Clock, W: LogTarget>(
        connection: &OpenControl,
        controls: &Controls<ControlStream>,
        place: usize,
        journal: &Journal<'_, T, W>,
    ) -> NextLine {
        let word = if connection.is_answering() {
            None
        } else {
            Some(next_word(controls, place))
        };
        NextLine {
            word,
            began: journal.time_for_log(),
        }
    }

    /// Notes the line behind the round, where it was taken.
    fn note<T: time::Clock, W: LogTarget>(
        &self,
        connection: &OpenControl,
        controls: &Controls<ControlStream>,
        place: usize,
        journal: &mut Journal<'_, T, W>,
    ) {
        if let (Some(word), Some(exchange)) = (self.word, controls.in_place(place)) {
            if exchange.is_answering() {
                journal.answered(connection.name(), word, exchange.unsent(), self.began);
            }
        }
    }
}
