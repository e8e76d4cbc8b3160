//! Places of the requests that are found, gathered.

ghost use Rattle.std.specs.Prelude.{◌≡◌, ◌++◌, ◌+◌, OnOk};
ghost use Rattle.acq_reports.specs.Slices.{goes_on};
ghost use Rattle.acq_inquiry.specs.Gathering.{place_if};

use crate::search::Search;
use acq_book::Visit;
use acq_core::Request;
use acq_reports::goes_on;
use day_totals::Day;
use std::alloc::AllocError;

/// The places of the requests that a search finds by its references, up to a row.
#[derive(Drop)]
pub(crate) struct Looking<'s> {
    pub(crate) search: &'s Search,
    pub(crate) places: Vec<u64>,
    /// How many rows were looked at, with those before the walk.
    pub(crate) looked: u64,
    /// The days of those that are found.
    pub(crate) on: Vec<Day>,
    /// With so many the walk ends.
    pub(crate) end: Option<u64>,
    /// Memory ran out.
    pub(crate) is_short: bool,
}

impl Looking<'_> {
    /// Adds the place of a request, if it is found.
    fn add(&mut self, row: &Request) -> Result<(), AllocError>
        ensures places { OnOk result (self.new.places.items
            ≡ self.old.places.items
            ++ place_if self.old.search.now.merchant self.old.search.now.inquiry
            self.old.search.now.references.items self.old.looked row.now) }
        ensures looked { OnOk result (self.new.looked ≡ self.old.looked + 1) }
        ensures end { self.new.end ≡ self.old.end }
        ensures search { self.new.search ≡ self.old.search }
    {
        let Some(looked) = self.looked.checked_add(1) else {
            return Err(AllocError);
        };
        if self.search.finds(row) {
            self.places.push(self.looked)?;
            push_day(&mut self.on, row.day)?;
        }
        self.looked = looked;
        Ok(())
    }

    /// Whether the walk is to go on.
    pub(crate) fn goes_on(&self) -> bool
        ensures { result ≡ goes_on self.now.end self.now.looked }
    {
        goes_on(self.end, self.looked)
    }
}

impl Visit<Request> for Looking<'_> {
    ghost use Rattle.acq_inquiry.specs.Gathering.{LooksAt};

    ghost sees = { LooksAt };

    fn row(&mut self, row: &Request) -> bool {
        match self.add(row) {
            Ok(()) => self.goes_on(),
            Err(AllocError) => {
                self.is_short = true;
                false
            }
        }
    }
}

/// Puts a day behind others, unless it is one of them.
fn push_day(days: &mut Vec<Day>, day: Day) -> Result<(), AllocError> {
    if !days.as_slice().contains(&day) {
        days.push(day)?;
    }
    Ok(())
}
