//! A gateway to issuers that connects at a socket's file.

ghost use Rattle.std.specs.Prelude.{ℕ, is_ok, IfErr};
ghost use Rattle.acq_book.specs.Calls.{Looks};
ghost use Rattle.acq_book.specs.Promise.{CountsFault};
ghost use Rattle.acq_faults.specs.Faults.{IsOfListening};
ghost use Rattle.acq_gateways.specs.Following.{GatewaysStay, LooksOn};
ghost use Rattle.acq_gateways.specs.Told.{told_of};

use crate::ending::Ending;
use crate::journal::Journal;
use crate::log_target::LogTarget;
use crate::open_gateway::OpenGateway;
use acq_book::{Book, BookFault};
use acq_core::{Moment, Query};
use acq_faults::{Fault, end_connection, write_fault_line};
use acq_front::FrontFault;
use acq_gateway::GatewayDesk;
use acq_gateways::Gateways;
use acq_host::Host;
use acq_link::Sink;
use mio::net::{UnixListener, UnixStream};
use mio::{Interest, Registry, Token};
use std::alloc::Global;
use std::io::ErrorKind;
use std::{mem, time};

/// A gateway to issuers that connects at a socket's file, one at a time: the next one waits until
/// it is gone. What passes over their sockets is in `Gateways`.
#[derive(Drop)]
pub(crate) struct GatewayServer {
    listener: UnixListener,
    /// The token of the connection; that of the listener stands before it.
    token: usize,
    desk: GatewayDesk,
    open: Option<OpenGateway>,
    /// Whether one may be there that wasn't taken yet.
    may_come: bool,
    /// Whether the last one couldn't be had.
    is_refused: bool,
}

impl GatewayServer {
    /// At this listener, which waits under this token, and its connection under the next one.
    pub(crate) fn new(
        mut listener: UnixListener,
        registry: &Registry,
        token: usize,
        desk: GatewayDesk,
    ) -> Result<GatewayServer, Fault>
        ensures { IfErr result IsOfListening }
    {
        let waits = registry.register(&mut listener, Token(token), Interest::READABLE);
        if waits.is_err() {
            return Err(Fault::Read);
        }
        Ok(GatewayServer {
            listener,
            token: token.saturating_add(1),
            desk,
            open: None,
            may_come: true,
            is_refused: false,
        })
    }

    /// The system says that there may be something to do under this token.
    pub(crate) fn make_ready(&mut self, token: usize) {
        if token != self.token {
            self.may_come = true;
        } else if let Some(open) = &mut self.open {
            open.make_ready();
        }
    }

    /// Whether a round finds something to do, though nothing comes.
    pub(crate) fn is_ready(&self, gateways: &Gateways<UnixStream>) -> bool {
        match (&self.open, gateways.here()) {
            (Some(open), Some(gateway)) => open.is_ready(gateway),
            _ => self.may_come && !self.is_refused,
        }
    }

    /// The host took turns: there may be new rows.
    pub(crate) fn note_news(&mut self) {
        if let Some(open) = &mut self.open {
            open.has_news = true;
        }
    }

    /// Whether there are lines for the host, of answers that nobody waits for.
    pub(crate) fn has_lines(&self) -> bool {
        self.desk.has_lines()
    }

    /// The message of a query came so.
    pub(crate) fn note_message(&self, query: &Query, message: Vec<u8>) {
        self.desk.note_message(query, message);
    }

    /// Takes in the next one that came, where none is connected, and what came of it.
    pub(crate) fn take_in<T: time::Clock, W: LogTarget, F: Sink>(
        &mut self,
        alloc: Global,
        gateways: &mut Gateways<UnixStream>,
        registry: &Registry,
        journal: &mut Journal<'_, T, W>,
        faults: &mut F,
    )
        ensures stays { GatewaysStay (told_of gateways.old) (told_of gateways.new) }
    {
        if self.open.is_none() && self.may_come {
            self.admit(alloc, gateways, registry, journal);
        }
        let Some(open) = &mut self.open else {
            return;
        };
        let ended = gateways.receive(&mut open.ready);
        self.end_by(ended, journal, faults);
    }

    /// Takes in the next one that came, if one did.
    fn admit<T: time::Clock, W: LogTarget>(
        &mut self,
        alloc: Global,
        gateways: &mut Gateways<UnixStream>,
        registry: &Registry,
        journal: &mut Journal<'_, T, W>,
    )
        ensures stays { GatewaysStay (told_of gateways.old) (told_of gateways.new) }
    {
        // One that can't be had now is tried again in a later round.
        let Ok(desk) = self.desk.share() else {
            self.is_refused = true;
            return;
        };
        let mut stream = match self.listener.accept() {
            Ok((stream, _)) => stream,
            Err(fault) => {
                self.may_come = fault.kind() != ErrorKind::WouldBlock;
                self.is_refused = self.may_come;
                return;
            }
        };
        self.is_refused = false;
        let interest = Interest::READABLE | Interest::WRITABLE;
        if registry
            .register(&mut stream, Token(self.token), interest)
            .is_ok()
        {
            if gateways.connect(alloc, desk, stream) {
                self.open = Some(OpenGateway::new(journal.gateway()));
            }
        }
    }

    /// Looks in the book what it is to be told, and writes what can go.
    pub(crate) fn tell<B: Book + Drop, T: time::Clock, W: LogTarget, F: Sink>(
        &mut self,
        gateways: &mut Gateways<UnixStream>,
        host: &mut Host<B>,
        moment: Moment,
        journal: &mut Journal<'_, T, W>,
        faults: &mut F,
    ) -> Result<(), BookFault>
        ensures told { B.is_honest host.new → B.is_open host.old
            → LooksOn (B.tables host.old) (told_of gateways.old) (told_of gateways.new) }
        ensures looks { Looks B.Book host.old host.new (is_ok result) }
        ensures store { CountsFault result (B.failures host.old) (B.failures host.new) }
    {
        self.pass_news(gateways);
        match gateways.look(host, moment) {
            Ok(()) => {
                self.send(gateways, journal, faults);
                Ok(())
            }
            Err(fault) => Err(fault),
        }
    }

    /// Passes on that there may be new rows, if there may be.
    fn pass_news(&mut self, gateways: &mut Gateways<UnixStream>)
        ensures stays { GatewaysStay (told_of gateways.old) (told_of gateways.new) }
    {
        if let Some(open) = &mut self.open {
            if mem::take(&mut open.has_news) {
                gateways.note_news();
            }
        }
    }

    /// Writes what can go, and tells what it is told of rows that are missing.
    fn send<T: time::Clock, W: LogTarget, F: Sink>(
        &mut self,
        gateways: &mut Gateways<UnixStream>,
        journal: &mut Journal<'_, T, W>,
        faults: &mut F,
    )
        ensures stays { GatewaysStay (told_of gateways.old) (told_of gateways.new) }
    {
        let missing = gateways.take_missing();
        self.note_missing(missing, journal, faults);
        let Some(open) = &mut self.open else {
            return;
        };
        let ended = gateways.send(&mut open.ready);
        self.end_by(ended, journal, faults);
    }

    /// Tells that it knows of more rows than these, which are all, if it does.
    fn note_missing<T: time::Clock, W: LogTarget, F: Sink>(
        &self,
        missing: Option<u64>,
        journal: &mut Journal<'_, T, W>,
        faults: &mut F,
    ) {
        if let (Some(open), Some(rows)) = (&self.open, missing) {
            let _ = write_fault_line(&Fault::RowsMissing(rows), faults);
            journal.rows_missing(open.name(), rows);
        }
    }

    /// Tells how it ended, where it did.
    fn end_by<T: time::Clock, W: LogTarget, F: Sink>(
        &mut self,
        ended: Option<Result<(), FrontFault>>,
        journal: &mut Journal<'_, T, W>,
        faults: &mut F,
    ) {
        let Some(ended) = ended else {
            return;
        };
        self.note_end(&ended, Ending::Own, journal);
        let _ = end_connection(ended, faults);
    }

    /// Parts with it, if one is connected, since the host ends.
    pub(crate) fn close<T: time::Clock, W: LogTarget>(
        &mut self,
        gateways: &mut Gateways<UnixStream>,
        journal: &mut Journal<'_, T, W>,
    )
        ensures stays { GatewaysStay (told_of gateways.old) (told_of gateways.new) }
    {
        self.note_end(&Ok(()), Ending::Stopped, journal);
        gateways.part();
    }

    /// Notes that it is gone, if one was connected.
    fn note_end<T: time::Clock, W: LogTarget>(
        &mut self,
        ended: &Result<(), FrontFault>,
        ending: Ending,
        journal: &mut Journal<'_, T, W>,
    ) {
        if let Some(open) = self.open.take() {
            journal.gateway_closed(open.name(), ended, ending);
        }
    }
}
