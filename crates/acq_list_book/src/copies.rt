//! Copies of rows.

ghost use Rattle.std.specs.Prelude.{◌≡◌, IfOk};
ghost use Rattle.std.specs.Option.{option_copied};
ghost use Rattle.acq_book.specs.Promise.{CountsFault};

use acq_book::BookFault;
use acq_core::Request;
use card_no::Range;
use std::alloc::Global;

/// A copy of a request, where one was found.
pub(crate) fn found_copied(
    alloc: Global,
    row: Option<&Request>,
) -> Result<Option<Request>, BookFault>
    ensures copy { IfOk result (λ copy. copy ≡ option_copied row.entry) }
    ensures store { CountsFault result 0 0 }
{
    match row {
        Some(row) => Ok(Some(row.copied(alloc)?)),
        None => Ok(None),
    }
}

/// A copy of a range, where one was found.
pub(crate) fn range_copied(alloc: Global, range: Option<&Range>) -> Result<Option<Range>, BookFault>
    ensures copy { IfOk result (λ copy. copy ≡ option_copied range.entry) }
    ensures store { CountsFault result 0 0 }
{
    match range {
        Some(range) => Ok(Some(range.copied(alloc)?)),
        None => Ok(None),
    }
}
