//! The terminals of a book.

ghost use Rattle.std.specs.Prelude.{◌≡◌, is_ok, IfOk};
ghost use Rattle.acq_book.specs.Lookups.{terminals_at};
ghost use Rattle.acq_book.specs.Calls.{Looks};
ghost use Rattle.acq_book.specs.Promise.{CountsFault};

use acq_book::{Book, BookFault, Visit};
use acq_core::Terminal;
use std::alloc::Global;

/// The terminals that were handed over, unless memory ran out.
#[derive(Drop)]
struct Terminals {
    terminals: Vec<Terminal>,
    is_short: bool,
}

impl Visit<Terminal> for Terminals {
    ghost use Rattle.acq_statement.specs.TerminalRows.{KeepsTerminal};

    ghost sees = { KeepsTerminal };

    fn row(&mut self, row: &Terminal) -> bool {
        match self.terminals.push(*row) {
            Ok(()) => true,
            Err(_) => {
                self.is_short = true;
                false
            }
        }
    }
}

/// The terminals of all merchants, in order of merchant and name.
pub(crate) fn all_terminals<B: Book>(
    alloc: Global,
    book: &mut B,
) -> Result<Vec<Terminal>, BookFault>
    ensures rows { B.is_honest book.new → B.is_open book.old → IfOk result (λ rows.
        rows.items ≡ terminals_at (B.tables book.old)) }
    ensures looks { Looks B.Book book.old book.new (is_ok result) }
    ensures store { CountsFault result (B.failures book.old) (B.failures book.new) }
{
    let mut seen = Terminals {
        terminals: Vec::new(alloc),
        is_short: false,
    };
    book.walk_terminals(&mut seen)?;
    if seen.is_short {
        return Err(BookFault::Memory);
    }
    Ok(seen.terminals)
}
