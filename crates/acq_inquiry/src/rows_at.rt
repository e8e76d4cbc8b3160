//! Requests at their places.

ghost use Rattle.std.specs.Prelude.{◌≡◌, ◌++◌, flat_map, is_ok, IfOk, OnOk};
ghost use Rattle.acq_book.specs.Calls.{Looks};
ghost use Rattle.acq_book.specs.Promise.{CountsFault};
ghost use Rattle.acq_inquiry.specs.Searching.{row_at};

use acq_book::{Book, BookFault, Visit};
use acq_core::Request;
use std::alloc::Global;

/// Copies of the first requests of walks.
#[derive(Drop)]
struct Copying {
    alloc: Global,
    rows: Vec<Request>,
    /// Memory ran out.
    is_short: bool,
}

impl Visit<Request> for Copying {
    ghost use Rattle.acq_inquiry.specs.Gathering.{Copies};

    ghost sees = { Copies };

    fn row(&mut self, row: &Request) -> bool {
        let Ok(copy) = row.copied(self.alloc) else {
            self.is_short = true;
            return false;
        };
        if self.rows.push(copy).is_err() {
            self.is_short = true;
        }
        false
    }
}

/// The requests at these places, as they are.
#[tactic(auto, using(acq_book::proofs::Chains::looks_more))]
pub(crate) fn rows_at<B: Book>(
    alloc: Global,
    book: &mut B,
    places: &[u64],
) -> Result<Vec<Request>, BookFault>
    ensures rows { B.is_honest book.new → B.is_open book.old → IfOk result (λ rows.
        rows.items ≡ flat_map (row_at (B.tables book.old)) places.now) }
    ensures looks { Looks B.Book book.old book.new (is_ok result) }
    ensures store { CountsFault result (B.failures book.old) (B.failures book.new) }
{
    let mut copying = Copying {
        alloc,
        rows: Vec::new(alloc),
        is_short: false,
    };
    for place in places {
        copy_at(book, *place, &mut copying)?;
    }
    Ok(copying.rows)
}

/// Copies the request at a place.
fn copy_at<B: Book>(book: &mut B, place: u64, copying: &mut Copying) -> Result<(), BookFault>
    ensures rows { B.is_honest book.new → B.is_open book.old → OnOk result
        (copying.new.rows.items ≡ copying.old.rows.items ++ row_at (B.tables book.old) place) }
    ensures looks { Looks B.Book book.old book.new (is_ok result) }
    ensures store { CountsFault result (B.failures book.old) (B.failures book.new) }
{
    book.walk_requests_behind(place, copying)?;
    if copying.is_short {
        return Err(BookFault::Memory);
    }
    Ok(())
}
