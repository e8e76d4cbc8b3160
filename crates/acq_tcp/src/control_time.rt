//! What a round of control connections goes by.

use crate::places::Places;
use crate::time_limits::TimeLimits;
use std::time::Instant;

/// What a round of control connections goes by: how many places of terminals are free, what time it
/// is, where that is known, and how long a connection may take.
#[derive(Clone, Copy)]
pub(crate) struct ControlTime {
    pub(crate) places: Places,
    pub(crate) now: Option<Instant>,
    pub(crate) limits: TimeLimits,
}

impl ControlTime {
    /// The same, where one may be silent for ever.
    pub(crate) fn without_end(self) -> ControlTime {
        ControlTime {
            limits: TimeLimits {
                idle: None,
                ..self.limits
            },
            ..self
        }
    }
}
