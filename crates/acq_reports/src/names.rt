//! Names of all merchants.

ghost use Rattle.std.specs.Prelude.{◌≡◌, ◌++◌, ◌∷◌, [], is_ok, IfOk};
ghost use Rattle.acq_book.specs.Lookups.{merchants_at};
ghost use Rattle.acq_book.specs.Calls.{Looks};
ghost use Rattle.acq_book.specs.Promise.{CountsFault};
ghost use Rattle.acq_reports.specs.SettlementReport.{names_of};

use acq_book::{Book, BookFault, Visit};
use acq_core::{Merchant, MerchantId};
use std::alloc::Global;

/// The names of the merchants that were handed over, unless memory ran out.
#[derive(Drop)]
struct Names {
    names: Vec<MerchantId>,
    is_short: bool,
}

impl Visit<Merchant> for Names {
    ghost use Rattle.acq_reports.specs.Naming.{NamesOne};

    ghost sees = { NamesOne };

    fn row(&mut self, row: &Merchant) -> bool {
        match self.names.push(row.id) {
            Ok(()) => true,
            Err(_) => {
                self.is_short = true;
                false
            }
        }
    }
}

/// The names of all merchants, in order of their bytes.
pub fn merchant_names<B: Book>(alloc: Global, book: &mut B) -> Result<Vec<MerchantId>, BookFault>
    ensures names { B.is_honest book.new → B.is_open book.old → IfOk result (λ names.
        names.items ≡ names_of (merchants_at (B.tables book.old))) }
    ensures looks { Looks B.Book book.old book.new (is_ok result) }
    ensures store { CountsFault result (B.failures book.old) (B.failures book.new) }
{
    let mut seen = Names {
        names: Vec::new(alloc),
        is_short: false,
    };
    book.walk_merchants(&mut seen)?;
    if seen.is_short {
        return Err(BookFault::Memory);
    }
    Ok(seen.names)
}
