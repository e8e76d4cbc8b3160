//! The ranges that stood when a request came.

use crate::finder::Finder;
use crate::frames::is_refused_with;
use acq_core::{Event, Request, Service};
use card_no::{CardNumber, IssuerId, Prefix, Range, RangeFault};
use std::alloc::AllocError;

/// The issuer of a range of which no row is left. Which it was, no row of a request says.
const ISSUER: &[u8] = b"0";

impl<'a> Finder<'a> {
    /// Makes the range of a request's card one that the request can have met: with its hold days
    /// where it was admitted, none where no issuer had the card.
    pub(crate) fn set_range_of(&mut self, row: &Request) -> Result<(), AllocError> {
        if !matches!(row.key.service, Service::Authorization | Service::Financial) {
            return Ok(());
        }
        let Some(text) = &row.card else {
            return Ok(());
        };
        let Some(card) = CardNumber::read(text.as_bytes()) else {
            return Ok(());
        };
        let prefix = card.prefix();
        let standing = self.ranges.find(prefix).map(|range| range.hold_days);
        match row.hold_days {
            Some(days) if standing != Some(days) => {
                self.drop_range(prefix)?;
                self.add_range(prefix, days)
            }
            None if is_refused_with(row, &[*b"15"]) => self.drop_range(prefix),
            None if standing.is_none() && is_refused_with(row, &[*b"65"]) => {
                self.add_range(prefix, Range::LEAST_HOLD_DAYS)
            }
            _ => Ok(()),
        }
    }

    /// Drops the range that holds a prefix, if there is one.
    fn drop_range(&mut self, prefix: Prefix) -> Result<(), AllocError> {
        let Some(range) = self.ranges.find(prefix) else {
            return Ok(());
        };
        let (low, high) = (range.low, range.high);
        self.events.push(Event::DropRange(low, high))?;
        unless_short(self.ranges.remove(low, high))
    }

    /// Adds a range of one prefix.
    fn add_range(&mut self, prefix: Prefix, hold_days: u8) -> Result<(), AllocError> {
        let range = Range {
            low: prefix.number(),
            high: prefix.number(),
            issuer: IssuerId::from_slice(self.alloc, ISSUER)?,
            hold_days,
        };
        self.events
            .push(Event::AddRange(range.copied(self.alloc)?))?;
        unless_short(self.ranges.add(range))
    }
}

/// Nothing, unless memory ran out: a range that a list can't take is told by what differs then.
pub(crate) fn unless_short(changed: Result<(), RangeFault>) -> Result<(), AllocError> {
    match changed {
        Err(RangeFault::Memory) => Err(AllocError),
        _ => Ok(()),
    }
}
