//! A clearing file that is said in slices.

ghost use Rattle.std.specs.Prelude.{◌≡◌, is_ok, IfOk};
ghost use Rattle.acq_book.specs.Calls.{Looks};
ghost use Rattle.acq_book.specs.Promise.{CountsFault};
ghost use Rattle.acq_control.specs.Unmade.{GoesOn, IsUnmade, at_first, rest_of};

use crate::answering::{put, put_heading};
use crate::clearing_stage::ClearingStage;
use crate::said::Said;
use crate::unmade_answer::UnmadeAnswer;
use acq_book::{Book, BookFault};
use acq_clearing::Bookmark;
use acq_host::Host;
use acq_link::MemorySink;
use day_totals::Day;
use std::alloc::Global;

/// A clearing file that a line asked for, as far as it is still to be made. Its day is over, so it
/// doesn't change while others are served between two slices. It is gone over twice, since how many
/// bytes it has stands in front of it.
#[derive(Clone, Copy)]
pub struct ClearingAnswer {
    day: Day,
    stage: ClearingStage,
}

impl ClearingAnswer {
    /// That of a day that is over, of which nothing is made yet.
    pub(crate) fn of(day: Day) -> ClearingAnswer
        ensures { result ≡ at_first day }
    {
        ClearingAnswer {
            day,
            stage: ClearingStage::Counting(Bookmark::Beginning, 0),
        }
    }

    /// Goes on by a slice: what is said next, if anything, and what is then still to be made.
    pub(crate) fn go_on<B: Book + Drop>(
        &self,
        alloc: Global,
        host: &mut Host<B>,
    ) -> Result<Said, BookFault>
        ensures goes { B.is_honest host.new → B.is_open host.old
            → IsUnmade (B.tables host.old) self.now
            → IfOk result (GoesOn (B.tables host.old)
            (rest_of (B.tables host.old) self.now.day self.now.stage)) }
        ensures looks { Looks B.Book host.old host.new (is_ok result) }
        ensures store { CountsFault result (B.failures host.old) (B.failures host.new) }
    {
        match &self.stage {
            ClearingStage::Counting(from, bytes) => self.count(alloc, host, *from, *bytes),
            ClearingStage::Saying(from) => self.say(alloc, host, *from),
        }
    }

    /// Counts on. How many bytes the file has is said once all are counted.
    fn count<B: Book + Drop>(
        &self,
        alloc: Global,
        host: &mut Host<B>,
        from: Bookmark,
        bytes: u64,
    ) -> Result<Said, BookFault>
        requires { self.now.stage ≡ ClearingStage.Counting from bytes }
        ensures goes { B.is_honest host.new → B.is_open host.old
            → IsUnmade (B.tables host.old) self.now
            → IfOk result (GoesOn (B.tables host.old)
            (rest_of (B.tables host.old) self.now.day self.now.stage)) }
        ensures looks { Looks B.Book host.old host.new (is_ok result) }
        ensures store { CountsFault result (B.failures host.old) (B.failures host.new) }
    {
        let slice = host.clearing_slice(self.day, from)?;
        let Some(bytes) = bytes.checked_add(slice.text.len() as u64) else {
            return Err(BookFault::Memory);
        };
        let mut text = MemorySink::new(alloc);
        let stage = match &slice.next {
            Bookmark::End => {
                put_heading(bytes, &mut text)?;
                ClearingStage::Saying(Bookmark::Beginning)
            }
            next => ClearingStage::Counting(*next, bytes),
        };
        Ok(Said {
            text,
            unmade: Some(UnmadeAnswer::Clearing(ClearingAnswer {
                day: self.day,
                stage,
            })),
        })
    }

    /// Says on.
    fn say<B: Book + Drop>(
        &self,
        alloc: Global,
        host: &mut Host<B>,
        from: Bookmark,
    ) -> Result<Said, BookFault>
        requires { self.now.stage ≡ ClearingStage.Saying from }
        ensures goes { B.is_honest host.new → B.is_open host.old
            → IsUnmade (B.tables host.old) self.now
            → IfOk result (GoesOn (B.tables host.old)
            (rest_of (B.tables host.old) self.now.day self.now.stage)) }
        ensures looks { Looks B.Book host.old host.new (is_ok result) }
        ensures store { CountsFault result (B.failures host.old) (B.failures host.new) }
    {
        let slice = host.clearing_slice(self.day, from)?;
        let mut text = MemorySink::new(alloc);
        put(slice.text.as_slice(), &mut text)?;
        let unmade = match &slice.next {
            Bookmark::End => None,
            next => Some(UnmadeAnswer::Clearing(ClearingAnswer {
                day: self.day,
                stage: ClearingStage::Saying(*next),
            })),
        };
        Ok(Said { text, unmade })
    }
}
