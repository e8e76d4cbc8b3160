//! Where terminals' connections come from, and where they go.

ghost use Rattle.std.specs.Prelude.{◌≡◌, ◌++◌, [], ◌∷◌, false};
ghost use Rattle.acq_tcp.specs.Others.{Beside, OthersFollow, OthersStay, beside_of};
ghost use Rattle.acq_tcp.specs.Past.{past_group, past_untold};
ghost use Rattle.acq_tcp.specs.Terminals.{connection_of, ended_at, given_at, others_at};
ghost use Rattle.acq_tcp.specs.Terminals.{stopped_at};

use crate::had::Given;
use crate::log_target::LogTarget;
use crate::open_places::OpenPlaces;
use crate::others::Others;
use crate::round_time::RoundTime;
use crate::tcp_server::TcpServer;
use crate::terminal_talk::{TerminalPlace, TerminalTalk};
use acq_book::{Book, BookFault};
use acq_front::{Clock, FrontFault, StreamLine};
use acq_host::Host;
use acq_link::Sink;
use acq_rounds::{Gate, Last, Past, Talk};
use mio::net::TcpStream;
use std::alloc::Global;
use std::fs::Files;
use std::time;
use std::time::Duration;

/// Where terminals' connections come from, and where they go.
#[derive(Drop)]
pub(crate) struct Arrivals<'s, 'r, 'a, T, W, F> {
    places: OpenPlaces<'s, 'r, 'a, T, W, F>,
    time: &'r RoundTime,
    /// The memory for messages that are kept for a gateway, where one may connect.
    keeper: Option<Global>,
    others: Others,
    past: Past,
    /// How many came.
    given: u64,
    has_stopped: bool,
}

/// What is known behind the last of them: what they have had, how many came, what others have had,
/// and whether the system couldn't be waited for.
#[derive(Drop)]
pub(crate) struct Departed {
    pub(crate) past: Past,
    pub(crate) given: Given,
    pub(crate) others: Others,
    pub(crate) has_failed: bool,
}

impl<'s, 'r, 'a, T: time::Clock + Files, W: LogTarget + Drop, F: Sink> Arrivals<
    's,
    'r,
    'a,
    T,
    W,
    F,
> {
    /// None came yet, and so many are to come.
    pub(crate) fn new(
        alloc: Global,
        server: &'s mut TcpServer<'a, T, W>,
        faults: &'s mut F,
        time: &'r RoundTime,
        others: Others,
        count: u64,
    ) -> Arrivals<'s, 'r, 'a, T, W, F>
        ensures ended { ended_at result ≡ [] }
        ensures given { given_at result ≡ 0 }
        ensures others { others_at result ≡ beside_of others }
    {
        let keeper = server.gateway.is_some().then_some(alloc);
        Arrivals {
            places: OpenPlaces::new(alloc, server, faults, time, count),
            time,
            keeper,
            others,
            past: Past::new(),
            given: 0,
            has_stopped: false,
        }
    }

    /// The last of them went.
    pub(crate) fn end(self) -> Departed
        ensures ended { result.past.list ≡ ended_at self.entry }
        ensures given { result.given.number ≡ given_at self.entry }
        ensures others { OthersStay (others_at self.entry) (beside_of result.others) }
    {
        let Arrivals {
            mut places,
            time: _,
            keeper: _,
            mut others,
            past,
            given,
            has_stopped: _,
        } = self;
        places.close_gateway(&mut others.gateways);
        places.end(&mut others.controls);
        Departed {
            past,
            given: Given { number: given },
            others,
            has_failed: places.has_failed(),
        }
    }
}

impl<'s, 'r, 'a, T: time::Clock + Files, W: LogTarget + Drop, F: Sink> Gate<
    StreamLine<TcpStream>,
    TerminalTalk<'r>,
> for Arrivals<'s, 'r, 'a, T, W, F> {
    ghost ended = { ended_at };

    ghost given = { given_at };

    ghost has_stopped = { stopped_at };

    ghost aside = { Beside };

    ghost others = { others_at };

    ghost follow = { OthersFollow };

    ghost past_group = { past_group };

    ghost past_untold = { past_untold };

    fn wait(&mut self, has_already: bool, at_most: Option<Duration>) -> bool {
        let goes_on = self
            .places
            .wait(&self.others.gateways, has_already, at_most);
        self.has_stopped = !goes_on;
        goes_on
    }

    fn woken(&mut self) -> Option<u64> {
        self.places.woken()
    }

    fn next(&mut self) -> Option<(StreamLine<TcpStream>, TerminalTalk<'r>)> {
        if self.given == u64::MAX {
            return None;
        }
        let (name, stream) = self.places.next(self.given)?;
        self.given += 1;
        let talk = TerminalTalk::new(name, self.time, self.keeper);
        Some((StreamLine::new(stream), talk))
    }

    fn between<B: Book + Drop, C: Clock>(
        &mut self,
        alloc: Global,
        host: &mut Host<B>,
        clock: &mut C,
    ) -> Result<(), BookFault> {
        self.places.between(alloc, &mut self.others, host, clock)
    }

    fn looks(&mut self) -> bool {
        self.places.looks()
    }

    fn ends(&mut self, place: &TerminalPlace<'r>) -> Option<Result<(), FrontFault>> {
        self.places.ends(place)
    }

    fn said(&mut self, place: &TerminalPlace<'r>) {
        self.places.said(place);
    }

    fn part(&mut self, place: TerminalPlace<'r>)
        ensures given { given_at self.new ≡ given_at self.old }
        ensures others { others_at self.new ≡ others_at self.old }
        ensures stopped { stopped_at self.new ≡ stopped_at self.old }
        ensures ended { ended_at self.new ≡ ended_at self.old ++ connection_of place.entry ∷ [] }
    {
        let (line, talk) = (place.line(), place.talk());
        self.past = self.past.after(&Last {
            number: place.number(),
            came: line.received(),
            held: talk.held(),
            went: line.sent(),
            unsent: talk.unsent(),
            stage: place.stage(),
        });
        self.places.part(place);
    }
}
