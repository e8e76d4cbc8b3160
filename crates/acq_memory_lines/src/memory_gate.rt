//! A gate in memory.

ghost use Rattle.std.specs.Prelude.{◌≡◌, ◌≤◌, ◌++◌, [], ◌∷◌, vec_len};

use crate::chance::Chance;
use crate::manner::Manner;
use crate::memory_stream::MemoryStream;
use crate::noted::Noted;
use crate::one_event::take_one_event;
use crate::parted::Parted;
use crate::watch::Watch;
use acq_book::{Book, BookFault};
use acq_core::Event;
use acq_front::{Clock, Conversation, FrontFault, StreamLine};
use acq_host::Host;
use acq_rounds::{Gate, Last, Past, Place};
use std::alloc::Global;
use std::time::Duration;

/// The most waits at which nothing was to be woken and none came: one that sleeps then, and never
/// said that it would wait, was forgotten.
const MOST_IDLE: u32 = 4;

/// A gate at which connections over these streams come, the last of them first, and events are
/// asked, the last of them first. It stops once all were parted with, or where it would wait for
/// ever. What it can't note for want of memory is missing there.
#[derive(Drop)]
pub struct MemoryGate {
    alloc: Global,
    chance: Chance,
    manner: Manner,
    coming: Vec<MemoryStream>,
    all: usize,
    events: Vec<Event>,
    /// What it watches of each connection that came, by its number.
    watches: Vec<Watch>,
    /// The numbers of the connections that it still wakes in this round.
    woken: Vec<u64>,
    /// How many waits there were with nothing to wait for.
    idle: u32,
    past: Past,
    parted: Vec<Parted>,
    noted: Vec<Noted>,
    has_stopped: bool,
    ghost within: { vec_len coming ≤ all },
}

impl MemoryGate {
    ghost use Rattle.acq_memory_lines.specs.Gates.{ended_at, given_at};

    /// A gate at which none came yet.
    pub fn new(
        alloc: Global,
        coming: Vec<MemoryStream>,
        events: Vec<Event>,
        manner: Manner,
        chance: Chance,
    ) -> MemoryGate
        ensures ended { ended_at result ≡ [] }
        ensures given { given_at result ≡ 0 }
    {
        let all = coming.len();
        MemoryGate {
            alloc,
            chance,
            manner,
            coming,
            all,
            events,
            watches: Vec::new(alloc),
            woken: Vec::new(alloc),
            idle: 0,
            past: Past::new(),
            parted: Vec::new(alloc),
            noted: Vec::new(alloc),
            has_stopped: false,
        }
    }

    /// The connections that were parted with, in order.
    pub fn parted(&self) -> &[Parted] {
        self.parted.as_slice()
    }

    /// What happened, in order.
    pub fn noted(&self) -> &[Noted] {
        self.noted.as_slice()
    }

    fn note(&mut self, noted: Noted)
        ensures given { given_at self.new ≡ given_at self.old }
        ensures ended { ended_at self.new ≡ ended_at self.old }
    {
        let _ = self.noted.push(noted);
    }

    /// Draws which of the connections that wait are woken, and returns whether any waits.
    fn draw_woken(&mut self) -> bool
        ensures given { given_at self.new ≡ given_at self.old }
        ensures ended { ended_at self.new ≡ ended_at self.old }
    {
        self.woken.clear();
        let mut waits = false;
        for (number, watch) in self.watches.iter_mut().enumerate() {
            if watch.is_waiting() {
                waits = true;
                if watch.is_woken(self.chance.one_in(self.manner.wakes)) {
                    let _ = self.woken.push(number as u64);
                }
            }
        }
        shuffle(&mut self.woken, &mut self.chance);
        waits
    }

    /// Looks at a connection before a round reads, and notes it if the last group left it out.
    fn look(&mut self, place: &Place<StreamLine<MemoryStream>, Conversation>)
        ensures given { given_at self.new ≡ given_at self.old }
        ensures ended { ended_at self.new ≡ ended_at self.old }
    {
        let number = place.number();
        let waits = place.line().stream().waits();
        let is_writing = !place.talk().unsent().is_empty();
        let is_heard = place.is_heard();
        let Some(watch) = self.watches.get_mut(number as usize) else {
            return;
        };
        if watch.see(waits, place.is_ready(), is_writing, is_heard) {
            self.note(Noted::LeftOut(number));
        }
    }
}

/// Puts numbers into an order that is drawn.
fn shuffle(numbers: &mut Vec<u64>, chance: &mut Chance) {
    for last in 1..numbers.len() {
        let place = chance.place(last + 1);
        numbers.swap(place, last);
    }
}

impl Gate<StreamLine<MemoryStream>, Conversation> for MemoryGate {
    ghost use Rattle.acq_memory_lines.specs.Gates.{ended_at, given_at};
    ghost use Rattle.acq_memory_lines.specs.Gates.{connection_of, follow, others_at, stopped_at};

    ghost ended = { ended_at };

    ghost given = { given_at };

    ghost has_stopped = { stopped_at };

    ghost aside = { Unit {0} };

    ghost others = { others_at };

    ghost follow = { follow };

    ghost past_group = { λ t steps g others is. tt };

    ghost past_untold = { λ t steps events others is. tt };

    fn wait(&mut self, has_already: bool, at_most: Option<Duration>) -> bool {
        self.note(Noted::Waited);
        let waits = self.draw_woken();
        if has_already || waits || at_most.is_some() || !self.coming.is_empty() {
            self.idle = 0;
        } else {
            self.idle = self.idle.saturating_add(1);
        }
        let are_all_gone = self.coming.is_empty() && self.parted.len() >= self.all;
        self.has_stopped = are_all_gone || self.idle > MOST_IDLE;
        !self.has_stopped
    }

    fn woken(&mut self) -> Option<u64> {
        self.woken.pop()
    }

    fn next(&mut self) -> Option<(StreamLine<MemoryStream>, Conversation)> {
        if !self.chance.one_in(self.manner.comes) {
            return None;
        }
        match self.coming.pop() {
            Some(stream) => {
                let _ = self.watches.push(Watch::new());
                Some((StreamLine::new(stream), Conversation::new()))
            }
            None => None,
        }
    }

    fn between<B: Book + Drop, C: Clock>(
        &mut self,
        _alloc: Global,
        host: &mut Host<B>,
        _clock: &mut C,
    ) -> Result<(), BookFault> {
        if !self.chance.one_in(self.manner.asks) {
            return Ok(());
        }
        let Some(event) = self.events.pop() else {
            return Ok(());
        };
        let taken = take_one_event(host, &event);
        drop(event);
        if taken.is_ok() {
            self.note(Noted::Asked);
        }
        taken
    }

    fn looks(&mut self) -> bool {
        true
    }

    fn ends(
        &mut self,
        place: &Place<StreamLine<MemoryStream>, Conversation>,
    ) -> Option<Result<(), FrontFault>> {
        self.look(place);
        if place.ended().is_none() && self.chance.one_in(self.manner.ends) {
            self.note(Noted::Ended(place.number()));
            return Some(Ok(()));
        }
        None
    }

    fn said(&mut self, place: &Place<StreamLine<MemoryStream>, Conversation>) {
        let number = place.number();
        let is_answer = match self.watches.get_mut(number as usize) {
            Some(watch) => watch.serve(),
            None => false,
        };
        self.note(if is_answer {
            Noted::Answered(number)
        } else {
            Noted::Taken(number)
        });
    }

    fn part(&mut self, place: Place<StreamLine<MemoryStream>, Conversation>)
        ensures given { given_at self.new ≡ given_at self.old }
        ensures stopped { stopped_at self.new ≡ stopped_at self.old }
        ensures ended { ended_at self.new ≡ ended_at self.old ++ connection_of place ∷ [] }
    {
        let (line, talk) = (place.line(), place.talk());
        self.past = self.past.after(&Last {
            number: place.number(),
            came: line.received(),
            held: talk.held(),
            went: line.sent(),
            unsent: talk.unsent(),
            stage: place.stage(),
        });
        let Ok(went) = Vec::from_slice(self.alloc, line.stream().went()) else {
            return;
        };
        let _ = self.parted.push(Parted {
            number: place.number(),
            went,
            ended: place.ended(),
        });
    }
}
