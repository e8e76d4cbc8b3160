//! A control connection among others.

ghost use Rattle.std.specs.Prelude.{ℕ};
ghost use Rattle.acq_controls.specs.Aside.{aside_of};
ghost use Rattle.acq_controls.specs.Following.{ControlsFollow};
ghost use Rattle.acq_controls.specs.Going.{ReachesIf, TellsIf, UnlessRefused};
ghost use Rattle.acq_front.specs.Stops.{left_of};
ghost use Rattle.acq_rounds.specs.Runs.{OthersGoOn};
ghost use Rattle.acq_tcp.specs.Rounds.{IsNotStores};

use crate::connection_name::ConnectionName;
use crate::control_stream::ControlStream;
use crate::control_time::ControlTime;
use crate::time_limits::{TimeLimits, left_of};
use acq_book::Book;
use acq_control::{ControlRound, Wish};
use acq_controls::Controls;
use acq_front::{Clock, FrontFault};
use acq_host::Host;
use acq_status::Serving;
use std::mem;
use std::time::{Duration, Instant};

/// A control connection among others: what is known of it beside what passes over it.
#[derive(Drop)]
pub(crate) struct OpenControl {
    name: ConnectionName,
    /// Whether a round may find something to do.
    is_ready: bool,
    /// When something last happened.
    last_moved: Option<Instant>,
    /// Whether something that is said is still to be written, or to be made.
    is_answering: bool,
    /// Whether it asked that the host ends.
    has_stopped: bool,
    /// Whether it asked that the log is opened anew, which wasn't done yet.
    reopens: bool,
}

impl OpenControl {
    /// A connection of this name that came at this time, where the time is known.
    pub(crate) fn new(name: ConnectionName, now: Option<Instant>) -> OpenControl {
        OpenControl {
            name,
            is_ready: true,
            last_moved: now,
            is_answering: false,
            has_stopped: false,
            reopens: false,
        }
    }

    /// What it is called.
    pub(crate) fn name(&self) -> ConnectionName {
        self.name
    }

    /// Whether it asked that the host ends.
    pub(crate) fn has_stopped(&self) -> bool {
        self.has_stopped
    }

    /// Whether it asked that the log is opened anew; from now on that was done.
    pub(crate) fn take_reopening(&mut self) -> bool {
        mem::take(&mut self.reopens)
    }

    /// Whether a round may find something to do.
    pub(crate) fn is_ready(&self) -> bool {
        self.is_ready
    }

    /// The system says that a round may find something to do.
    pub(crate) fn make_ready(&mut self) {
        self.is_ready = true;
    }

    /// Whether something that is said is still to be written, or to be made.
    pub(crate) fn is_answering(&self) -> bool {
        self.is_answering
    }

    /// For how long it may stay as it is; `None` is for ever.
    pub(crate) fn time_left(&self, now: Option<Instant>, limits: TimeLimits) -> Option<Duration> {
        limits.idle.map(|idle| left_of(idle, self.last_moved, now))
    }

    /// Gives it a round in its place, if it is ready, while so much is served, and returns how it
    /// ended, if it did. One that is silent too long ended with a failed read.
    pub(crate) fn give_round<B: Book + Drop, C: Clock>(
        &mut self,
        controls: &mut Controls<ControlStream>,
        place: usize,
        host: &mut Host<B>,
        clock: &mut C,
        serving: Serving,
        time: ControlTime,
    ) -> Option<Result<(), FrontFault>>
        ensures reaches { B.is_honest host.new → B.is_open host.old
            → ReachesIf (B.tables host.old) (left_of B.Book host.new)
            (OthersGoOn ControlsFollow (B.tables host.old)
            (aside_of controls.old) (aside_of controls.new)) result }
        ensures stays_open { B.is_honest host.new → B.is_open host.old
            → UnlessRefused result (B.is_open host.new) }
        ensures was_honest { B.is_honest host.new → B.is_honest host.old }
        ensures given_later { (m : ℕ) → C.may_give clock.new m → C.may_give clock.old m }
        ensures store { TellsIf result (B.failures host.old) (B.failures host.new)
            (B.is_honest host.new → B.is_open host.old → ⊥) }
    {
        if !self.is_ready {
            return self.end_late(time);
        }
        let went = controls.round(place, host, clock, serving);
        self.is_answering = match controls.in_place(place) {
            Some(exchange) => exchange.is_answering(),
            None => false,
        };
        match went {
            Some(Ok(ControlRound::GoesOn | ControlRound::Made)) => {
                self.last_moved = time.now;
                None
            }
            Some(Ok(ControlRound::Took(wish))) => {
                self.took(wish, time.now);
                None
            }
            Some(Ok(ControlRound::Waits)) => {
                self.is_ready = false;
                self.end_late(time)
            }
            Some(Ok(ControlRound::Ended)) | None => Some(Ok(())),
            Some(Err(fault)) => Some(Err(fault)),
        }
    }

    /// A line with this wish was taken.
    fn took(&mut self, wish: Wish, now: Option<Instant>) {
        self.last_moved = now;
        match wish {
            Wish::Stop => self.has_stopped = true,
            Wish::Reopen => self.reopens = true,
            Wish::Nothing => {}
        }
    }

    /// How it ended, if it was silent too long.
    fn end_late(&self, time: ControlTime) -> Option<Result<(), FrontFault>>
        ensures { IsNotStores result }
    {
        let is_late = self
            .time_left(time.now, time.limits)
            .is_some_and(|left| left.is_zero());
        if is_late {
            Some(Err(FrontFault::Read))
        } else {
            None
        }
    }
}
