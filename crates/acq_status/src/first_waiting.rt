//! The request that waits the longest.

ghost use Rattle.std.specs.Prelude.{◌≡◌, is_ok, option_map, IfOk};
ghost use Rattle.acq_book.specs.Calls.{Looks};
ghost use Rattle.acq_book.specs.Promise.{CountsFault};
ghost use Rattle.acq_status.specs.Figures.{first_waiting, waiting_of};

use acq_book::{Book, BookFault, Visit};
use acq_core::{Request, RequestKey};
use day_totals::Day;

/// A request that waits: its business day, and its key.
#[derive(Clone, Copy)]
pub struct Waiting {
    pub(crate) day: Day,
    pub(crate) key: RequestKey,
}

/// The first of the requests that were handed over.
#[derive(Drop)]
struct First {
    row: Option<Waiting>,
}

impl Visit<Request> for First {
    ghost use Rattle.acq_status.specs.Visitors.{KeepsOne};

    ghost sees = { KeepsOne };

    fn row(&mut self, row: &Request) -> bool {
        self.row = Some(Waiting {
            day: row.day,
            key: row.key,
        });
        false
    }
}

/// The request that has waited the longest for its issuer's answer, if one waits.
#[tactic(auto, using(acq_book::proofs::Chains::looks_more, crate::proofs::NoneWaits::none_first))]
pub(crate) fn first_waiting<B: Book>(book: &mut B) -> Result<Option<Waiting>, BookFault>
    ensures first { B.is_honest book.new → B.is_open book.old → IfOk result (λ first.
        first ≡ option_map waiting_of (first_waiting (B.tables book.old))) }
    ensures looks { Looks B.Book book.old book.new (is_ok result) }
    ensures store { CountsFault result (B.failures book.old) (B.failures book.new) }
{
    if book.waiting_count()? == 0 {
        return Ok(None);
    }
    let mut first = First { row: None };
    book.walk_pending(&mut first)?;
    Ok(first.row)
}
