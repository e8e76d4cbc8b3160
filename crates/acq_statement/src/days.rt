//! The days of a statement.

ghost use Rattle.std.specs.Prelude.{◌≡◌, IfOk};
ghost use Rattle.acq_statement.specs.Span.{days_of, is_within};

use day_totals::Day;
use std::alloc::{AllocError, Global};

/// The days of a statement: from the first to the last, both included; none where the last lies
/// before the first.
#[derive(Clone, Copy, Debug)]
pub struct Days {
    pub first: Day,
    pub last: Day,
}

impl Days {
    /// Whether a day is one of them.
    pub(crate) fn is_within(&self, day: Day) -> bool
        ensures { result ≡ is_within self.now day }
    {
        self.first.number() <= day.number() && day.number() <= self.last.number()
    }

    /// The days, the earliest first.
    pub(crate) fn list(&self, alloc: Global) -> Result<Vec<Day>, AllocError>
        ensures { IfOk result (λ days. days.items ≡ days_of self.now) }
    {
        let first = self.first.number();
        let mut days = Vec::new(alloc);
        for after in 0..(self.last.number() + 1).saturating_sub(first) {
            let Some(day) = Day::from_number(first + after) else {
                unreachable!();
            };
            days.push(day)?;
        }
        Ok(days)
    }
}
