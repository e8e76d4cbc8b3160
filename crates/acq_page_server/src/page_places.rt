//! Places for connections.

use crate::open_page::OpenPage;
use crate::step::Step;
use std::alloc::{AllocError, Global};
use std::time::{Duration, Instant};

/// How many connections are there at once.
pub(crate) const PLACES: usize = 64;

/// Places for connections. If all are taken the oldest makes room.
#[derive(Drop)]
pub(crate) struct PagePlaces {
    places: Vec<Option<OpenPage>>,
}

impl PagePlaces {
    /// Each is free.
    pub(crate) fn new(alloc: Global) -> Result<PagePlaces, AllocError> {
        let mut places = Vec::with_capacity(alloc, PLACES)?;
        for _ in 0..PLACES {
            places.push(None)?;
        }
        Ok(PagePlaces { places })
    }

    /// The next place for a connection: one that is free, or else that of the oldest.
    pub(crate) fn next_place(&self) -> usize {
        let mut next = 0;
        let mut oldest = None;
        for (place, taken) in self.places.iter().enumerate() {
            let Some(page) = taken else {
                return place;
            };
            let number = page.number();
            match oldest {
                Some(before) if before <= number => {}
                _ => {
                    oldest = Some(number);
                    next = place;
                }
            }
        }
        next
    }

    /// Gives a place to a connection; what was there is let go.
    pub(crate) fn put(&mut self, place: usize, page: OpenPage) {
        if let Some(taken) = self.places.get_mut(place) {
            *taken = Some(page);
        }
    }

    /// The connection at a place, if one is there, goes on.
    pub(crate) fn go_on(&mut self, place: usize) -> Step {
        match self.places.get_mut(place) {
            Some(Some(page)) => page.go_on(),
            _ => Step::Waits,
        }
    }

    /// The connection at a place goes on with its reply.
    pub(crate) fn answer(&mut self, place: usize, reply: Vec<u8>) -> Step {
        match self.places.get_mut(place) {
            Some(Some(page)) => page.answer(reply),
            _ => Step::Waits,
        }
    }

    /// Lets the connection at a place go.
    pub(crate) fn free(&mut self, place: usize) {
        if let Some(taken) = self.places.get_mut(place) {
            *taken = None;
        }
    }

    /// Lets those go whose time is over.
    pub(crate) fn free_late(&mut self, now: Instant) {
        for place in 0..PLACES {
            if self.is_late(place, now) {
                self.free(place);
            }
        }
    }

    fn is_late(&self, place: usize, now: Instant) -> bool {
        match self.places.get(place) {
            Some(Some(page)) => page.time_left(now).is_zero(),
            _ => false,
        }
    }

    /// Within how long the time of one is over.
    pub(crate) fn time_left(&self, now: Instant) -> Option<Duration> {
        let mut least = None;
        for place in self.places.iter() {
            if let Some(page) = place {
                least = shorter(least, page.time_left(now));
            }
        }
        least
    }
}

/// The shorter of two times, of which the first may be none.
fn shorter(one: Option<Duration>, other: Duration) -> Option<Duration> {
    match one {
        Some(one) => Some(one.min(other)),
        None => Some(other),
    }
}
