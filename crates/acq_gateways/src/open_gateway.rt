//! A gateway that is connected.

ghost use Rattle.std.specs.Prelude.{◌≡◌, IfNone};
ghost use Rattle.acq_front.specs.Lines.{sent_of};
ghost use Rattle.acq_gateway.specs.Telling.{Stays, Takes};
ghost use Rattle.acq_gateways.specs.Following.{GoesOn};
ghost use Rattle.acq_gateways.specs.Told.{seen};

use crate::readiness::Readiness;
use acq_front::{FrontFault, Line, StreamLine};
use acq_gateway::Gateway;
use acq_link::Failed;
use std::io::{Read, Write};

/// How many bytes are read at once.
const PIECE: usize = 4096;

/// How many pieces are read in a round, or written.
const MOST_PIECES: u32 = 16;

/// A gateway that is connected: its number, and what passes over its stream.
#[derive(Drop)]
pub(crate) struct OpenGateway<S> {
    pub(crate) number: u64,
    pub(crate) line: StreamLine<S>,
    pub(crate) gateway: Gateway,
}

impl<S: Read + Write + Drop> OpenGateway<S> {
    /// Reads what came, and takes its lines. Returns how it ended, if it did: what doesn't fit a
    /// line ends it.
    #[tactic(auto, using(acq_gateway::proofs::Taking::takes_both, acq_gateway::proofs::Taking::takes_stays,))]
    pub(crate) fn receive(&mut self, ready: &mut Readiness) -> Option<Result<(), FrontFault>>
        ensures went { sent_of self.new.line ≡ sent_of self.old.line }
        ensures number { self.new.number ≡ self.old.number }
        ensures takes { IfNone result (Takes self.old.gateway self.new.gateway) }
    {
        let ended = self.read(ready);
        if self.gateway.take_lines().is_err() {
            return Some(Err(FrontFault::Memory));
        }
        if self.gateway.is_flooded() {
            return Some(Err(FrontFault::Read));
        }
        ended
    }

    /// Reads what came.
    fn read(&mut self, ready: &mut Readiness) -> Option<Result<(), FrontFault>>
        ensures went { sent_of self.new.line ≡ sent_of self.old.line }
        ensures number { self.new.number ≡ self.old.number }
        ensures stays { Stays self.old.gateway self.new.gateway }
    {
        for _ in 0..MOST_PIECES {
            if !ready.may_read || !self.gateway.has_room() {
                return None;
            }
            let ended = self.read_piece(ready);
            if ended.is_some() {
                return ended;
            }
        }
        None
    }

    /// Reads a piece of it.
    fn read_piece(&mut self, ready: &mut Readiness) -> Option<Result<(), FrontFault>>
        ensures went { sent_of self.new.line ≡ sent_of self.old.line }
        ensures number { self.new.number ≡ self.old.number }
        ensures stays { Stays self.old.gateway self.new.gateway }
    {
        let mut buffer = [0; PIECE];
        match self.line.read(&mut buffer) {
            Ok(Some(0)) => Some(Ok(())),
            Ok(Some(n)) => match self.gateway.feed(&buffer[..n]) {
                Ok(()) => None,
                Err(_) => Some(Err(FrontFault::Memory)),
            },
            Ok(None) => {
                ready.may_read = false;
                None
            }
            Err(Failed) => Some(Err(FrontFault::Read)),
        }
    }

    /// Writes what can go. Returns how it ended, if it did.
    pub(crate) fn send(&mut self, ready: &mut Readiness) -> Option<Result<(), FrontFault>>
        ensures goes { GoesOn (seen self.old) (seen self.new) }
        ensures number { self.new.number ≡ self.old.number }
    {
        for _ in 0..MOST_PIECES {
            if !ready.may_write || self.gateway.unsent().is_empty() {
                return None;
            }
            let ended = self.write_piece(ready);
            if ended.is_some() {
                return ended;
            }
        }
        None
    }

    /// Writes a piece of it.
    fn write_piece(&mut self, ready: &mut Readiness) -> Option<Result<(), FrontFault>>
        ensures goes { GoesOn (seen self.old) (seen self.new) }
        ensures number { self.new.number ≡ self.old.number }
    {
        match self.line.write(self.gateway.unsent()) {
            Ok(Some(n)) => {
                self.gateway.advance(n);
                None
            }
            Ok(None) => {
                ready.may_write = false;
                None
            }
            Err(Failed) => Some(Err(FrontFault::Write(self.gateway.gone()))),
        }
    }
}
