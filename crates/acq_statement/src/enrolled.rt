//! The merchants of a book.

ghost use Rattle.std.specs.Prelude.{◌≡◌, is_ok, IfOk};
ghost use Rattle.acq_book.specs.Lookups.{merchants_at};
ghost use Rattle.acq_book.specs.Calls.{Looks};
ghost use Rattle.acq_book.specs.Promise.{CountsFault};

use acq_book::{Book, BookFault, Visit};
use acq_core::Merchant;
use std::alloc::Global;

/// The merchants that were handed over, unless memory ran out.
#[derive(Drop)]
struct Enrolled {
    merchants: Vec<Merchant>,
    is_short: bool,
}

impl Visit<Merchant> for Enrolled {
    ghost use Rattle.acq_statement.specs.Rows.{EnrolsOne};

    ghost sees = { EnrolsOne };

    fn row(&mut self, row: &Merchant) -> bool {
        match self.merchants.push(*row) {
            Ok(()) => true,
            Err(_) => {
                self.is_short = true;
                false
            }
        }
    }
}

/// The merchants, in order of their bytes.
pub(crate) fn enrolled_merchants<B: Book>(
    alloc: Global,
    book: &mut B,
) -> Result<Vec<Merchant>, BookFault>
    ensures rows { B.is_honest book.new → B.is_open book.old → IfOk result (λ rows.
        rows.items ≡ merchants_at (B.tables book.old)) }
    ensures looks { Looks B.Book book.old book.new (is_ok result) }
    ensures store { CountsFault result (B.failures book.old) (B.failures book.new) }
{
    let mut seen = Enrolled {
        merchants: Vec::new(alloc),
        is_short: false,
    };
    book.walk_merchants(&mut seen)?;
    if seen.is_short {
        return Err(BookFault::Memory);
    }
    Ok(seen.merchants)
}
