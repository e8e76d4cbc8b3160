//! Postings of what is found, gathered.

ghost use Rattle.std.specs.Prelude.{◌≡◌, ◌++◌, ◌+◌, OnOk};
ghost use Rattle.acq_inquiry.specs.Gathering.{kept_if};

use acq_book::Visit;
use acq_core::{Posting, Reference};
use acq_reports::goes_on;
use std::alloc::{AllocError, Global};

/// The postings that have one of these references, up to a row.
#[derive(Drop)]
pub(crate) struct Keeping<'r> {
    pub(crate) alloc: Global,
    pub(crate) references: &'r [Reference],
    pub(crate) postings: Vec<(u64, Posting)>,
    /// The number of the last posting that was gone over.
    pub(crate) number: u64,
    /// How many postings were gone over.
    pub(crate) gone: u64,
    /// With so many the walk ends.
    pub(crate) end: Option<u64>,
    /// Memory ran out.
    pub(crate) is_short: bool,
}

impl Keeping<'_> {
    /// Adds a posting, if it has one of the references.
    fn add(&mut self, row: &(u64, Posting)) -> Result<(), AllocError>
        ensures postings { OnOk result (self.new.postings.items
            ≡ self.old.postings.items ++ kept_if self.old.references.now row.now) }
        ensures number { OnOk result (self.new.number ≡ row.now.0) }
        ensures gone { OnOk result (self.new.gone ≡ self.old.gone + 1) }
        ensures end { self.new.end ≡ self.old.end }
        ensures references { self.new.references ≡ self.old.references }
    {
        let Some(gone) = self.gone.checked_add(1) else {
            return Err(AllocError);
        };
        if self.references.contains(&row.1.reference) {
            let copy = row.1.copied(self.alloc)?;
            self.postings.push((row.0, copy))?;
        }
        self.number = row.0;
        self.gone = gone;
        Ok(())
    }
}

impl Visit<(u64, Posting)> for Keeping<'_> {
    ghost use Rattle.acq_inquiry.specs.Gathering.{KeepsOne};

    ghost sees = { KeepsOne };

    fn row(&mut self, row: &(u64, Posting)) -> bool {
        match self.add(row) {
            Ok(()) => goes_on(self.end, self.gone),
            Err(AllocError) => {
                self.is_short = true;
                false
            }
        }
    }
}
