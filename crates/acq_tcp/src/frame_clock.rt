//! When the frame that comes in began.

use crate::frame_place::FramePlace;
use std::time;
use std::time::Instant;

/// When the frame that comes in began: it is told each piece of the stream, and looks at the clock.
#[derive(Drop)]
pub(crate) struct FrameClock<'a, T> {
    time: &'a T,
    place: FramePlace,
    /// When the first byte of the last frame came.
    began: Option<Instant>,
}

impl<'a, T: time::Clock> FrameClock<'a, T> {
    /// At a stream's beginning, by this clock.
    pub(crate) fn new(time: &'a T) -> FrameClock<'a, T> {
        FrameClock {
            time,
            place: FramePlace::Between,
            began: None,
        }
    }

    /// The time, where the system tells it.
    pub(crate) fn now(&self) -> Option<Instant> {
        Instant::now(self.time).ok()
    }

    /// The next piece of the stream came.
    pub(crate) fn came(&mut self, piece: &[u8]) {
        let now = self.now();
        for byte in piece.iter() {
            if self.place == FramePlace::Between {
                self.began = now;
            }
            self.place = self.place.after(*byte);
        }
    }

    /// When the frame that isn't whole yet began, if there is one and the time was known.
    pub(crate) fn frame_began(&self) -> Option<Instant> {
        match self.place {
            FramePlace::Between => None,
            FramePlace::InLength(_) | FramePlace::InMessage(_) => self.began,
        }
    }
}
