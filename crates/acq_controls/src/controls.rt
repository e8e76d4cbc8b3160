//! Control connections in their places.

ghost use Rattle.std.specs.Prelude.{ℕ, IfOk};
ghost use Rattle.acq_front.specs.Stops.{left_of};
ghost use Rattle.acq_rounds.specs.Runs.{OthersGoOn};
ghost use Rattle.acq_controls.specs.Aside.{aside_of, seen};
ghost use Rattle.acq_controls.specs.Following.{ControlsFollow, HadNone, Stays};
ghost use Rattle.acq_controls.specs.Parting.{EndsAs};
ghost use Rattle.acq_controls.specs.Going.{ReachesIf, TellsIf, UnlessRefused};

use crate::control::Control;
use acq_book::{Book, BookFault};
use acq_control::{ControlExchange, ControlRound};
use acq_front::{Clock, FrontFault, StreamLine};
use acq_host::Host;
use acq_rounds::{Last, Past, Stage};
use acq_status::Serving;
use std::alloc::Global;
use std::io::{Read, Write};

/// Control connections, each in its place, and what those had that ended.
#[derive(Drop)]
pub struct Controls<S> {
    alloc: Global,
    places: Vec<Option<Control<S>>>,
    past: Past,
    /// How many came, and so the number of the next one.
    count: u64,
}

impl<S: Read + Write + Drop> Controls<S> {
    /// So many places, and no connection yet.
    pub fn new(alloc: Global, places: usize) -> Result<Controls<S>, BookFault>
        ensures { IfOk result (λ controls. HadNone (aside_of controls)) }
    {
        let mut all = Vec::with_capacity(alloc, places)?;
        for _ in 0..places {
            if all.push(None).is_err() {
                return Err(BookFault::Memory);
            }
        }
        Ok(Controls {
            alloc,
            places: all,
            past: Past::new(),
            count: 0,
        })
    }

    /// No place at all.
    pub fn without_places(alloc: Global) -> Controls<S>
        ensures { HadNone (aside_of result) }
    {
        Controls {
            alloc,
            places: Vec::new(alloc),
            past: Past::new(),
            count: 0,
        }
    }

    /// The connection in a place, if one is there.
    pub fn in_place(&self, place: usize) -> Option<&ControlExchange<StreamLine<S>>> {
        match self.places.get(place) {
            Some(Some(control)) => Some(&control.exchange),
            _ => None,
        }
    }

    /// A connection comes over a stream, and takes this place if none is there. Returns whether it
    /// did.
    pub fn admit(&mut self, place: usize, stream: S) -> bool
        ensures stays { Stays (aside_of self.old) (aside_of self.new) }
    {
        if place >= self.places.len() || self.count == u64::MAX || self.places[place].is_some() {
            return false;
        }
        let number = self.count;
        self.count += 1;
        self.places[place] = Some(Control {
            number,
            exchange: ControlExchange::new(self.alloc, StreamLine::new(stream)),
        });
        true
    }

    /// A round of the connection in a place, if one is there, while so much is served. It leaves
    /// its place where it ended.
    pub fn round<B: Book + Drop, C: Clock>(
        &mut self,
        place: usize,
        host: &mut Host<B>,
        clock: &mut C,
        serving: Serving,
    ) -> Option<Result<ControlRound, FrontFault>>
        // All of them go on to follow what the host did.
        ensures reaches { B.is_honest host.new → B.is_open host.old
            → ReachesIf (B.tables host.old) (left_of B.Book host.new)
            (OthersGoOn ControlsFollow (B.tables host.old) (aside_of self.old) (aside_of self.new))
            result }
        ensures stays_open { B.is_honest host.new → B.is_open host.old
            → UnlessRefused result (B.is_open host.new) }
        ensures was_honest { B.is_honest host.new → B.is_honest host.old }
        ensures given_later { (m : ℕ) → C.may_give clock.new m → C.may_give clock.old m }
        // The store's fault comes only where a call of it failed, or of a book that doesn't add up;
        // and with any other end none failed.
        ensures store { TellsIf result (B.failures host.old) (B.failures host.new)
            (B.is_honest host.new → B.is_open host.old → ⊥) }
    {
        if place >= self.places.len() {
            return None;
        }
        let Some(mut control) = self.places[place].take() else {
            return None;
        };
        match control.exchange.round(self.alloc, host, clock, serving) {
            Ok(ControlRound::Ended) => {
                self.note(control);
                Some(Ok(ControlRound::Ended))
            }
            Ok(round) => {
                self.places[place] = Some(control);
                Some(Ok(round))
            }
            Err(fault) => {
                self.note(control);
                Some(Err(fault))
            }
        }
    }

    /// The connection in a place is cut off, if one is there.
    pub fn part(&mut self, place: usize)
        ensures stays { Stays (aside_of self.old) (aside_of self.new) }
    {
        if place >= self.places.len() {
            return;
        }
        if let Some(control) = self.places[place].take() {
            self.note(control);
        }
    }

    /// A connection ended: what it had is kept in mind, for proofs alone.
    fn note(&mut self, control: Control<S>)
        ensures { EndsAs (seen control) (aside_of self.old) (aside_of self.new) }
    {
        let line = control.exchange.line();
        let stage = Stage::Listening;
        self.past = self.past.after(&Last {
            number: control.number,
            came: line.received(),
            held: control.exchange.front(),
            went: line.sent(),
            unsent: control.exchange.unsent(),
            stage: &stage,
        });
        drop(control);
    }
}
