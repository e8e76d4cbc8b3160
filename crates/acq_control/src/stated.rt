//! A statement, as a look at a book.

ghost use Rattle.std.specs.Prelude.{◌≡◌, Some, is_ok, IfOk, IfSome};
ghost use Rattle.acq_book.specs.Calls.{Looks};
ghost use Rattle.acq_book.specs.Promise.{CountsFault};
ghost use Rattle.acq_statement.specs.Gathered.{Asks};
ghost use Rattle.acq_control.specs.Stated.{text_stated};
ghost use Rattle.acq_control.specs.Unmade.{MayBeUnmade};
ghost use Rattle.acq_control.specs.declared.unmade_answer.UnmadeAnswer.TheVariants.{Stating};

use crate::merchant_statement::MerchantStatement;
use crate::unmade_answer::UnmadeAnswer;
use acq_book::{Book, BookFault};
use acq_host::BookLook;
use acq_statement::Gathering;
use std::alloc::Global;

/// The statement of a merchant's day of which rows may have been gone over.
#[derive(Clone, Copy)]
pub(crate) struct Stated<'a> {
    pub(crate) asked: MerchantStatement,
    pub(crate) unmade: &'a Option<UnmadeAnswer>,
}

impl BookLook<Option<Vec<u8>>> for Stated<'_> {
    ghost use Rattle.acq_control.specs.Stated.{IsStated};
    ghost use Rattle.acq_control.specs.Unmade.{MayBeUnmade};

    ghost makes = { λ look t stated. MayBeUnmade t look.unmade.now
        → IsStated t look.asked stated };

    /// The text, unless the merchant isn't enrolled.
    #[tactic(auto, using(acq_book::proofs::Chains::looks_more))]
    fn look<B: Book>(&self, alloc: Global, book: &mut B) -> Result<Option<Vec<u8>>, BookFault> {
        if book.merchant(self.asked.merchant)?.is_none() {
            return Ok(None);
        }
        let text = self.text(alloc, book)?;
        Ok(Some(text))
    }
}

impl Stated<'_> {
    /// The text.
    fn text<B: Book>(&self, alloc: Global, book: &mut B) -> Result<Vec<u8>, BookFault>
        ensures text { B.is_honest book.new → B.is_open book.old
            → MayBeUnmade (B.tables book.old) self.now.unmade.now → IfOk result (λ text.
            text.items ≡ text_stated (B.tables book.old) self.now.asked) }
        ensures looks { Looks B.Book book.old book.new (is_ok result) }
        ensures store { CountsFault result (B.failures book.old) (B.failures book.new) }
    {
        match self.gathering() {
            Some(gathering) => gathering.text(alloc, book),
            None => {
                let asked = self.asked;
                let gathering = Gathering::of(alloc, asked.merchant, asked.day, asked.form);
                gathering.text(alloc, book)
            }
        }
    }

    /// What was gathered for this.
    fn gathering(&self) -> Option<&Gathering>
        ensures { IfSome result (λ gathering.
            (self.now.unmade.now ≡ Some (Stating gathering.now))
            × Asks self.now.asked.merchant self.now.asked.day self.now.asked.form gathering.now) }
    {
        match self.unmade {
            Some(UnmadeAnswer::Stating(gathering)) => {
                let asked = self.asked;
                if gathering.is_for(asked.merchant, asked.day, asked.form) {
                    Some(gathering)
                } else {
                    None
                }
            }
            _ => None,
        }
    }
}
