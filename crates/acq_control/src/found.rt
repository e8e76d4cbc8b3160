//! What became of requests, as a look at a book.

ghost use Rattle.std.specs.Prelude.{◌≡◌, Some, is_ok, IfOk, IfSome};
ghost use Rattle.acq_book.specs.Calls.{Looks};
ghost use Rattle.acq_book.specs.Promise.{CountsFault};
ghost use Rattle.acq_inquiry.specs.Searching.{Asks};
ghost use Rattle.acq_control.specs.Found.{found_text};
ghost use Rattle.acq_control.specs.Unmade.{MayBeUnmade};
ghost use Rattle.acq_control.specs.declared.unmade_answer.UnmadeAnswer.TheVariants.{Finding};

use crate::sought::Sought;
use crate::unmade_answer::UnmadeAnswer;
use acq_book::{Book, BookFault};
use acq_host::BookLook;
use acq_inquiry::{MOST_TOLD, Search};
use std::alloc::Global;

/// What became of requests of which rows may have been gone over.
#[derive(Clone, Copy)]
pub(crate) struct Found<'a> {
    pub(crate) sought: Sought,
    pub(crate) unmade: &'a Option<UnmadeAnswer>,
}

impl BookLook<Option<Vec<u8>>> for Found<'_> {
    ghost use Rattle.acq_control.specs.Found.{IsFound};
    ghost use Rattle.acq_control.specs.Unmade.{MayBeUnmade};

    ghost makes = { λ asked t found. MayBeUnmade t asked.unmade.now
        → IsFound t asked.sought found };

    /// The text, unless the merchant isn't enrolled.
    #[tactic(auto, using(acq_book::proofs::Chains::looks_more))]
    fn look<B: Book>(&self, alloc: Global, book: &mut B) -> Result<Option<Vec<u8>>, BookFault> {
        if book.merchant(self.sought.merchant)?.is_none() {
            return Ok(None);
        }
        let text = self.text(alloc, book)?;
        Ok(Some(text))
    }
}

impl Found<'_> {
    /// The text.
    fn text<B: Book>(&self, alloc: Global, book: &mut B) -> Result<Vec<u8>, BookFault>
        ensures text { B.is_honest book.new → B.is_open book.old
            → MayBeUnmade (B.tables book.old) self.now.unmade.now → IfOk result (λ text.
            text.items ≡ found_text (B.tables book.old) self.now.sought) }
        ensures looks { Looks B.Book book.old book.new (is_ok result) }
        ensures store { CountsFault result (B.failures book.old) (B.failures book.new) }
    {
        match self.search() {
            Some(search) => search.text(alloc, book, Some(MOST_TOLD)),
            None => {
                let search = Search::of(alloc, self.sought.merchant, self.sought.inquiry);
                search.text(alloc, book, Some(MOST_TOLD))
            }
        }
    }

    /// The search that went over rows for this.
    fn search(&self) -> Option<&Search>
        ensures { IfSome result (λ search.
            (self.now.unmade.now ≡ Some (Finding search.now))
            × Asks self.now.sought.merchant self.now.sought.inquiry search.now) }
    {
        match self.unmade {
            Some(UnmadeAnswer::Finding(search)) => {
                if search.is_for(self.sought.merchant, &self.sought.inquiry) {
                    Some(search)
                } else {
                    None
                }
            }
            _ => None,
        }
    }
}
