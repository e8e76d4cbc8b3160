//! Gateways to issuers that connect one after the other.

ghost use Rattle.std.specs.Prelude.{ℕ, is_ok};
ghost use Rattle.acq_book.specs.Calls.{Looks};
ghost use Rattle.acq_book.specs.Promise.{CountsFault};
ghost use Rattle.acq_gateways.specs.Following.{GatewaysStay, HadNone, LooksOn};
ghost use Rattle.acq_gateways.specs.Parting.{EndsAs};
ghost use Rattle.acq_gateways.specs.Told.{seen, told_of};

use crate::open_gateway::OpenGateway;
use crate::readiness::Readiness;
use acq_book::{Book, BookFault};
use acq_core::Moment;
use acq_front::{FrontFault, StreamLine};
use acq_gateway::{Gateway, GatewayDesk};
use acq_host::Host;
use acq_rounds::{Last, Past, Stage};
use std::alloc::Global;
use std::io::{Read, Write};

/// Gateways to issuers that connect one after the other: the one that is there, and what went over
/// the connections of those that went.
#[derive(Drop)]
pub struct Gateways<S> {
    here: Option<OpenGateway<S>>,
    past: Past,
    /// How many came, and so the number of the next one.
    count: u64,
}

impl<S: Read + Write + Drop> Gateways<S> {
    /// None came yet.
    pub fn new() -> Gateways<S>
        ensures { HadNone (told_of result) }
    {
        Gateways {
            here: None,
            past: Past::new(),
            count: 0,
        }
    }

    /// The one that is there.
    pub fn here(&self) -> Option<&Gateway> {
        match &self.here {
            Some(here) => Some(&here.gateway),
            None => None,
        }
    }

    /// One connects to this desk over a stream, if none is there. Returns whether it did.
    pub fn connect(&mut self, alloc: Global, desk: GatewayDesk, stream: S) -> bool
        ensures stays { GatewaysStay (told_of self.old) (told_of self.new) }
    {
        if self.here.is_some() || self.count == u64::MAX {
            return false;
        }
        let number = self.count;
        self.count += 1;
        self.here = Some(OpenGateway {
            number,
            line: StreamLine::new(stream),
            gateway: Gateway::connect(alloc, desk),
        });
        true
    }

    /// There may be new rows.
    pub fn note_news(&mut self)
        ensures stays { GatewaysStay (told_of self.old) (told_of self.new) }
    {
        if let Some(here) = &mut self.here {
            here.gateway.note_news();
        }
    }

    /// Reads what came, and takes its lines. Returns how it ended, if it did: it is gone then.
    pub fn receive(&mut self, ready: &mut Readiness) -> Option<Result<(), FrontFault>>
        ensures stays { GatewaysStay (told_of self.old) (told_of self.new) }
    {
        let mut here = self.here.take()?;
        match here.receive(ready) {
            None => {
                self.here = Some(here);
                None
            }
            Some(ended) => {
                self.note(here);
                Some(ended)
            }
        }
    }

    /// Looks in the book what it is to be told. Where that was refused it is gone.
    pub fn look<B: Book + Drop>(
        &mut self,
        host: &mut Host<B>,
        moment: Moment,
    ) -> Result<(), BookFault>
        ensures told { B.is_honest host.new → B.is_open host.old
            → LooksOn (B.tables host.old) (told_of self.old) (told_of self.new) }
        ensures looks { Looks B.Book host.old host.new (is_ok result) }
        ensures store { CountsFault result (B.failures host.old) (B.failures host.new) }
    {
        let Some(mut here) = self.here.take() else {
            return Ok(());
        };
        match here.gateway.look(host, moment) {
            Ok(()) => {
                self.here = Some(here);
                Ok(())
            }
            Err(fault) => {
                self.note(here);
                Err(fault)
            }
        }
    }

    /// The number of the book's rows, where it knew of more: told once.
    pub fn take_missing(&mut self) -> Option<u64>
        ensures stays { GatewaysStay (told_of self.old) (told_of self.new) }
    {
        match &mut self.here {
            Some(here) => here.gateway.take_missing(),
            None => None,
        }
    }

    /// Writes what can go. Returns how it ended, if it did: it is gone then.
    pub fn send(&mut self, ready: &mut Readiness) -> Option<Result<(), FrontFault>>
        ensures stays { GatewaysStay (told_of self.old) (told_of self.new) }
    {
        let mut here = self.here.take()?;
        match here.send(ready) {
            None => {
                self.here = Some(here);
                None
            }
            Some(ended) => {
                self.note(here);
                Some(ended)
            }
        }
    }

    /// It is parted with, if one is there.
    pub fn part(&mut self)
        ensures stays { GatewaysStay (told_of self.old) (told_of self.new) }
    {
        if let Some(here) = self.here.take() {
            self.note(here);
        }
    }

    /// One went: what went over its connection is kept in mind, for proofs alone.
    fn note(&mut self, last: OpenGateway<S>)
        ensures { EndsAs (seen last) (told_of self.old) (told_of self.new) }
    {
        let stage = Stage::Listening;
        self.past = self.past.after(&Last {
            number: last.number,
            came: last.line.received(),
            held: &[],
            went: last.line.sent(),
            unsent: last.gateway.unsent(),
            stage: &stage,
        });
        last.gateway.disconnect();
    }
}
