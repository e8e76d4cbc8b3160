//! What is kept of a day's postings.

ghost use Rattle.std.specs.Prelude.{◌≡◌, ◌++◌, ◌∷◌, [], IfOk, OnOk};
ghost use Rattle.acq_inquiry.specs.KeptPostings.{IsSameDay, KeepsDays};

use acq_core::Posting;
use day_totals::Day;
use std::alloc::{AllocError, Global};

/// A merchant's postings of a day that have one of a search's references, up to a number.
#[derive(Drop)]
pub(crate) struct PostedDay {
    pub(crate) day: Day,
    /// The number of the last posting that was gone over.
    pub(crate) number: u64,
    /// Those with one of the references, in order of their numbers.
    pub(crate) postings: Vec<(u64, Posting)>,
    /// The last walk came to the end of the day's postings.
    pub(crate) is_at_end: bool,
}

impl PostedDay {
    /// A copy.
    fn copied(&self, alloc: Global) -> Result<PostedDay, AllocError>
        ensures { IfOk result (IsSameDay self.now) }
    {
        let postings = postings_copied(alloc, self.postings.as_slice())?;
        Ok(PostedDay {
            day: self.day,
            number: self.number,
            postings,
            is_at_end: self.is_at_end,
        })
    }
}

/// Puts one behind others.
pub(crate) fn put_day(days: &mut Vec<PostedDay>, day: PostedDay) -> Result<(), AllocError>
    ensures { OnOk result (days.new.items ≡ days.old.items ++ day ∷ []) }
{
    days.push(day)?;
    Ok(())
}

/// Copies.
pub(crate) fn days_copied(alloc: Global, days: &[PostedDay]) -> Result<Vec<PostedDay>, AllocError>
    ensures { IfOk result (λ copies. KeepsDays days.now copies.items) }
{
    let mut copies = Vec::new(alloc);
    for day in days {
        let copy = day.copied(alloc)?;
        put_day(&mut copies, copy)?;
    }
    Ok(copies)
}

/// Copies.
pub(crate) fn postings_copied(
    alloc: Global,
    postings: &[(u64, Posting)],
) -> Result<Vec<(u64, Posting)>, AllocError>
    ensures { IfOk result (λ copies. copies.items ≡ postings.now) }
{
    let mut copies = Vec::new(alloc);
    for posted in postings {
        let copy = posted.1.copied(alloc)?;
        copies.push((posted.0, copy))?;
    }
    Ok(copies)
}
