//! A book's ranges, gathered into a list.

ghost use Rattle.std.specs.Prelude.{◌≡◌, ◌++◌, ◌∷◌, [], true, is_ok, IfOk, OnOk};
ghost use Rattle.std.specs.List.{list_all};
ghost use Rattle.card_no.specs.Ranges.{is_before, with_range};
ghost use Rattle.acq_book.specs.Calls.{Looks};
ghost use Rattle.acq_book.specs.Lookups.{ranges_at};
ghost use Rattle.acq_book.specs.Promise.{CountsFault};

use acq_book::{Book, BookFault, Visit};
use card_no::{Prefix, Range, RangeFault, RangeList};
use std::alloc::Global;

/// The ranges that were handed over, unless one couldn't be added.
#[derive(Drop)]
struct Gathered {
    alloc: Global,
    ranges: RangeList,
    is_short: bool,
}

impl Visit<Range> for Gathered {
    ghost use Rattle.acq_range_changes.specs.Gathering.{GathersOne};

    ghost sees = { GathersOne };

    fn row(&mut self, row: &Range) -> bool {
        match put_last(self.alloc, &mut self.ranges, row) {
            Ok(()) => true,
            Err(_) => {
                self.is_short = true;
                false
            }
        }
    }
}

/// The ranges of a book, by one walk.
///
/// A book's ranges are in order of `low`, and no two of them overlap. Rows that aren't so, as a
/// store that isn't honest may hand over, are no list: then it answers as if memory had run out,
/// since the store itself has met no fault.
pub(crate) fn book_ranges<B: Book>(alloc: Global, book: &mut B) -> Result<RangeList, BookFault>
    ensures ranges { B.is_honest book.new → B.is_open book.old → IfOk result (λ list.
        list ≡ ranges_at (B.tables book.old)) }
    ensures looks { Looks B.Book book.old book.new (is_ok result) }
    ensures store { CountsFault result (B.failures book.old) (B.failures book.new) }
{
    let mut seen = Gathered {
        alloc,
        ranges: RangeList::new(alloc),
        is_short: false,
    };
    book.walk_ranges(&mut seen)?;
    if seen.is_short {
        return Err(BookFault::Memory);
    }
    Ok(seen.ranges)
}

/// Adds a copy of a range behind those of a list. It fails where memory runs out, where the range
/// doesn't lie behind all of them, and where its values are bad.
fn put_last(alloc: Global, list: &mut RangeList, range: &Range) -> Result<(), RangeFault>
    ensures { OnOk result (list.new ≡ list.old ++ range.now ∷ []) }
{
    if !lies_behind(list, range) {
        return Err(RangeFault::BadRange);
    }
    let copy = range.copied(alloc)?;
    list.add(copy)
}

/// Whether a range begins behind each of a list: none overlaps what reaches from its lower end to
/// the greatest prefix.
fn lies_behind(list: &RangeList, range: &Range) -> bool
    ensures behind { result ≡ list_all (λ other. is_before other range.now) list.now }
    ensures last { result ≡ true
        → with_range list.now range.now ≡ list.now ++ range.now ∷ [] }
{
    let _ranges = list.as_slice();
    list.overlapping(range.low, Prefix::GREATEST).is_none()
}
