//! References of the requests that are asked for, gathered.

ghost use Rattle.std.specs.Prelude.{◌≡◌, ◌++◌, ◌+◌, OnOk};
ghost use Rattle.acq_reports.specs.Slices.{goes_on};
ghost use Rattle.acq_inquiry.specs.Gathering.{references_if};
ghost use Rattle.acq_inquiry.specs.Inquiries.{reference_if};

use crate::search::Search;
use acq_book::Visit;
use acq_core::{Reference, Request};
use acq_reports::goes_on;
use std::alloc::AllocError;

/// The references of a merchant's requests that are asked for, and of those that they follow, up to
/// a row.
#[derive(Drop)]
pub(crate) struct Seeing<'s> {
    pub(crate) search: &'s Search,
    pub(crate) references: Vec<Reference>,
    /// How many rows were seen, with those before the walk.
    pub(crate) seen: u64,
    /// With so many the walk ends.
    pub(crate) end: Option<u64>,
    /// Memory ran out.
    pub(crate) is_short: bool,
}

impl Seeing<'_> {
    /// Adds the references of a request, if it is the merchant's and asked for.
    fn add(&mut self, row: &Request) -> Result<(), AllocError>
        ensures references { OnOk result (self.new.references.items
            ≡ self.old.references.items
            ++ references_if self.old.search.now.merchant self.old.search.now.inquiry row.now) }
        ensures seen { OnOk result (self.new.seen ≡ self.old.seen + 1) }
        ensures end { self.new.end ≡ self.old.end }
        ensures search { self.new.search ≡ self.old.search }
    {
        let Some(seen) = self.seen.checked_add(1) else {
            return Err(AllocError);
        };
        if self.search.asks_for(row) {
            push_reference(&mut self.references, row.reference)?;
            push_reference(&mut self.references, row.follows)?;
        }
        self.seen = seen;
        Ok(())
    }

    /// Whether the walk is to go on.
    pub(crate) fn goes_on(&self) -> bool
        ensures { result ≡ goes_on self.now.end self.now.seen }
    {
        goes_on(self.end, self.seen)
    }
}

impl Visit<Request> for Seeing<'_> {
    ghost use Rattle.acq_inquiry.specs.Gathering.{Sees};

    ghost sees = { Sees };

    fn row(&mut self, row: &Request) -> bool {
        match self.add(row) {
            Ok(()) => self.goes_on(),
            Err(AllocError) => {
                self.is_short = true;
                false
            }
        }
    }
}

/// Puts a reference behind others, where it is there.
fn push_reference(
    references: &mut Vec<Reference>,
    reference: Option<Reference>,
) -> Result<(), AllocError>
    ensures { OnOk result (references.new.items
        ≡ references.old.items ++ reference_if reference) }
{
    if let Some(reference) = reference {
        references.push(reference)?;
    }
    Ok(())
}
