//! The server of a page.

use crate::asked_host::AskedHost;
use crate::last_said::LastSaid;
use crate::open_page::OpenPage;
use crate::page_places::{PLACES, PagePlaces};
use crate::step::Step;
use acq_page::{Asked, Request, reply_to};
use httpdate::HttpDate;
use mio::net::TcpListener;
use mio::{Events, Interest, Poll, Token};
use std::alloc::Global;
use std::io::{self, ErrorKind};
use std::net::{Net, SocketAddr};
use std::time::{Clock, Duration, Instant, SystemTime};

/// The token of the listener; those of the places stand behind it.
const LISTENER: usize = 0;

/// For how many milliseconds it pauses behind a connection that couldn't be had.
const PAUSE: u64 = 50;

/// Serves a host's page to those who connect.
#[derive(Drop)]
pub struct PageServer {
    listener: TcpListener,
    poll: Poll,
    events: Events,
    places: PagePlaces,
    last: LastSaid,
    /// How many connections came.
    came: u64,
    /// Whether connections may be there that weren't taken yet.
    may_come: bool,
}

impl PageServer {
    /// Listens at an address and a port.
    pub fn listen<N: Net>(net: &N, alloc: Global, address: SocketAddr) -> io::Result<PageServer> {
        let mut listener = TcpListener::bind(net, address)?;
        let poll = Poll::new(net)?;
        poll.registry()
            .register(&mut listener, Token(LISTENER), Interest::READABLE)?;
        Ok(PageServer {
            listener,
            poll,
            events: Events::with_capacity(alloc, PLACES + 1)?,
            places: PagePlaces::new(alloc)?,
            last: LastSaid::new(alloc),
            came: 0,
            may_come: true,
        })
    }

    /// Serves all who come, until the system can't be waited for or tells no time.
    pub fn serve<H: AskedHost, C: Clock>(
        &mut self,
        alloc: Global,
        host: &H,
        clock: &C,
    ) -> io::Result<()> {
        for _ in 0..u64::MAX {
            self.wait(Instant::now(clock)?)?;
            let now = Instant::now(clock)?;
            self.places.free_late(now);
            self.admit(alloc, now);
            for place in 0..PLACES {
                self.go_on(alloc, host, clock, place);
            }
        }
        Ok(())
    }

    /// Waits until a connection comes or can go on, or the time of one is over.
    fn wait(&mut self, now: Instant) -> io::Result<()> {
        let mut longest = self.places.time_left(now);
        if self.may_come {
            longest = Some(Duration::from_millis(PAUSE));
        }
        match self.poll.poll(&mut self.events, longest) {
            Err(fault) if fault.kind() != ErrorKind::Interrupted => Err(fault),
            _ => {
                self.note_listener();
                Ok(())
            }
        }
    }

    /// Notes whether connections came.
    fn note_listener(&mut self) {
        for event in self.events.iter() {
            if event.token() == Token(LISTENER) {
                self.may_come = true;
            }
        }
    }

    /// Takes in connections that came. One that can't be had is tried again after a pause.
    fn admit(&mut self, alloc: Global, now: Instant) {
        for _ in 0..PLACES {
            if !self.may_come {
                return;
            }
            if self.admit_next(alloc, now).is_err() {
                return;
            }
        }
    }

    /// Takes in the next connection, if one came.
    fn admit_next(&mut self, alloc: Global, now: Instant) -> io::Result<()> {
        let mut stream = match self.listener.accept() {
            Ok((stream, _)) => stream,
            Err(fault) if fault.kind() == ErrorKind::WouldBlock => {
                self.may_come = false;
                return Ok(());
            }
            Err(fault) => return Err(fault),
        };
        let place = self.places.next_place();
        self.poll.registry().register(
            &mut stream,
            Token(place.saturating_add(LISTENER + 1)),
            Interest::READABLE | Interest::WRITABLE,
        )?;
        self.places
            .put(place, OpenPage::new(alloc, stream, now, self.came));
        self.came = self.came.saturating_add(1);
        Ok(())
    }

    /// Goes on with the connection at a place, if one is there.
    fn go_on<H: AskedHost, C: Clock>(&mut self, alloc: Global, host: &H, clock: &C, place: usize) {
        let mut step = self.places.go_on(place);
        if let Step::Asks(request) = step {
            step = match self.reply(alloc, host, clock, request) {
                Ok(reply) => self.places.answer(place, reply),
                // There is no memory, or no time: who asked may ask again.
                Err(_) => Step::Ended,
            };
        }
        if matches!(step, Step::Ended) {
            self.places.free(place);
        }
    }

    /// The reply to a request, by what the host says, which is asked if it hasn't been lately.
    fn reply<H: AskedHost, C: Clock>(
        &mut self,
        alloc: Global,
        host: &H,
        clock: &C,
        request: Request,
    ) -> io::Result<Vec<u8>> {
        let now = Instant::now(clock)?;
        if self.last.is_old(now) && asks_host(request) {
            self.last.renew(alloc, host, now);
            self.last.renewed(Instant::now(clock)?);
        }
        Ok(reply_to(alloc, request, self.last.said(), date(clock))?)
    }
}

/// Whether what the host says is asked for.
fn asks_host(request: Request) -> bool {
    matches!(request.asked, Asked::Page | Asked::Metrics)
}

/// The date of now, if the system tells it.
fn date<C: Clock>(clock: &C) -> Option<HttpDate> {
    let now = SystemTime::now(clock).ok()?;
    let since = now.duration_since(SystemTime::UNIX_EPOCH).ok()?;
    HttpDate::from_unix_secs(since.as_secs()).ok()
}
