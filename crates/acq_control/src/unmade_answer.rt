//! What of an answer is still to be made.

ghost use Rattle.std.specs.Prelude.{◌≡◌, Some, false, true, is_ok, IfOk};
ghost use Rattle.acq_book.specs.Calls.{Looks};
ghost use Rattle.acq_book.specs.Promise.{CountsFault};
ghost use Rattle.acq_control.specs.Unmade.{GoesOn, MayBeUnmade, is_said, unmade_at};

use crate::clearing_answer::ClearingAnswer;
use crate::comparison_look::ComparisonLook;
use crate::gathering_look::GatheringLook;
use crate::said::Said;
use crate::search_look::SearchLook;
use acq_book::{Book, BookFault};
use acq_host::Host;
use acq_inquiry::Search;
use acq_link::MemorySink;
use acq_reports::DayComparison;
use acq_statement::Gathering;
use std::alloc::Global;

/// What of an answer is still to be made, slice by slice.
#[derive(Drop)]
pub enum UnmadeAnswer {
    /// The rest of a clearing file, whose line was taken.
    Clearing(ClearingAnswer),
    /// What became of requests: rows are gone over before the line that asks it is taken, so that
    /// the answer is of one moment.
    Finding(Search),
    /// A statement of a merchant's day, alike.
    Stating(Gathering),
    /// A settlement report: the day's postings are compared with its totals, alike.
    Comparing(DayComparison),
}

impl UnmadeAnswer {
    /// Whether more of it is to be made before the next line is taken.
    pub(crate) fn goes_on(&self) -> bool
        ensures { result ≡ false → is_said (Some self.now) ≡ true }
    {
        match self {
            UnmadeAnswer::Clearing(_) => true,
            UnmadeAnswer::Finding(search) => !search.is_done(),
            UnmadeAnswer::Stating(gathering) => !gathering.is_done(),
            UnmadeAnswer::Comparing(comparison) => !comparison.is_done(),
        }
    }

    /// Goes on by a slice: what is said next, if anything, and what is then still to be made.
    pub(crate) fn go_on<B: Book + Drop>(
        &self,
        alloc: Global,
        host: &mut Host<B>,
    ) -> Result<Said, BookFault>
        ensures goes { B.is_honest host.new → B.is_open host.old
            → MayBeUnmade (B.tables host.old) (Some self.now) → IfOk result
            (GoesOn (B.tables host.old) (unmade_at (B.tables host.old) (Some self.now))) }
        ensures looks { Looks B.Book host.old host.new (is_ok result) }
        ensures store { CountsFault result (B.failures host.old) (B.failures host.new) }
    {
        match self {
            UnmadeAnswer::Clearing(answer) => answer.go_on(alloc, host),
            UnmadeAnswer::Finding(search) => {
                let next = host.look(&SearchLook { search })?;
                Ok(Said {
                    text: MemorySink::new(alloc),
                    unmade: Some(UnmadeAnswer::Finding(next)),
                })
            }
            UnmadeAnswer::Stating(gathering) => {
                let next = host.look(&GatheringLook { gathering })?;
                Ok(Said {
                    text: MemorySink::new(alloc),
                    unmade: Some(UnmadeAnswer::Stating(next)),
                })
            }
            UnmadeAnswer::Comparing(comparison) => {
                let next = host.look(&ComparisonLook { comparison })?;
                Ok(Said {
                    text: MemorySink::new(alloc),
                    unmade: Some(UnmadeAnswer::Comparing(next)),
                })
            }
        }
    }
}
