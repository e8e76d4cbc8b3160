//! New books in memory.

ghost use Rattle.std.specs.Prelude.{◌≡◌};
ghost use Rattle.acq_core.specs.Pasts.{HasPast};
ghost use Rattle.acq_core.specs.Tables.{new_tables};
ghost use Rattle.acq_list_book.specs.declared.group.Group.TheVariants.{NotBegun};

use acq_core::Limit;
use acq_list_book::ListBook;
use acq_soundness::book_laws::books_are_sound;
use acq_soundness::every_opening;
use day_totals::Day;
use std::alloc::Global;
use std::hash::RandomState;

/// A new book in memory, whose rows are found by hash under these keys. It takes no memory.
pub(crate) fn new_list_book(
    alloc: Global,
    keys: RandomState,
    limit: Limit,
    first_day: Day,
) -> ListBook
    ensures tables { result.tables ≡ new_tables
        (record { limit = limit; first_day = first_day }) }
    // A new book began so, and no event has come, in a group or by itself.
    ensures past { HasPast result.tables }
    ensures outside { result.group ≡ NotBegun }
{
    every_opening(limit, first_day);
    books_are_sound();
    ListBook::new(alloc, keys, limit, first_day)
}
