//! What is to change of ranges.

ghost use Rattle.std.specs.Prelude.{◌≡◌, ◌≤◌, ◌++◌, ◌∷◌, [], true, not, is_ok, IfOk, OnOk};
ghost use Rattle.std.specs.Prelude.{length, map, filter, take, drop};
ghost use Rattle.std.specs.Option.{option_copied};
ghost use Rattle.card_no.specs.Ranges.{are_ranges, is_before};
ghost use Rattle.acq_core.specs.declared.event.Event.TheVariants.{AddRange};
ghost use Rattle.acq_book.specs.Calls.{Looks};
ghost use Rattle.acq_book.specs.Promise.{CountsFault};
ghost use Rattle.acq_range_changes.specs.Changes.{changes_between, changes_to, drop_of, is_among};
ghost use Rattle.acq_range_changes.specs.Changes.{is_same, others, same_range};

use crate::gathering::book_ranges;
use acq_book::{Book, BookFault};
use acq_core::Event;
use card_no::{Prefix, Range, RangeList};
use std::alloc::{AllocError, Global};

/// The events by which a list becomes a book's ranges (own profile; `specs/Changes.antt`): those of
/// [`list_changes`], of the book's ranges and the list.
///
/// The book's ranges are gathered by one walk, and held in memory with the events. The book stays
/// as it is. It fails only where memory runs out or the store fails, or hands over what are no
/// ranges of a book.
pub fn range_changes<B: Book>(
    alloc: Global,
    book: &mut B,
    list: &RangeList,
) -> Result<Vec<Event>, BookFault>
    ensures events { B.is_honest book.new → B.is_open book.old → IfOk result (λ events.
        events.items ≡ changes_to list.now (B.tables book.old)) }
    ensures looks { Looks B.Book book.old book.new (is_ok result) }
    ensures store { CountsFault result (B.failures book.old) (B.failures book.new) }
{
    let old = book_ranges(alloc, book)?;
    let events = list_changes(alloc, &old, list)?;
    Ok(events)
}

/// The events by which one list becomes another (own profile; `specs/Changes.antt`): an addition of
/// each range of the new list that isn't in the old one just so, in order of `low`, and right
/// before it a drop of each range of the old list that isn't in the new one just so and doesn't lie
/// behind it; at the end the drops that are left. A range of which the issuer or the hold days
/// differ is dropped and added anew.
///
/// Each range is looked up once in the other list, by halves. It fails only where memory runs out.
pub fn list_changes(
    alloc: Global,
    old: &RangeList,
    new: &RangeList,
) -> Result<Vec<Event>, AllocError>
    ensures { IfOk result (λ events. events.items ≡ changes_between old.now new.now) }
{
    let mut events = Vec::new(alloc);
    let mut left = old.as_slice();
    for range in new.as_slice().iter() {
        if !is_listed(old, range) {
            let (near, behind) = left.split_at(up_to(left, range));
            put_drops(new, near, &mut events)?;
            put_add(alloc, range, &mut events)?;
            left = behind;
        }
    }
    put_drops(new, left, &mut events)?;
    Ok(events)
}

/// How many of these ranges don't lie behind a range.
fn up_to(rows: &[Range], range: &Range) -> usize
    requires { are_ranges rows.now ≡ true }
    ensures within { result ≤ length rows.now }
    ensures near { take result rows.now ≡ filter (λ row. not (is_before range.now row)) rows.now }
    ensures behind { drop result rows.now ≡ filter (is_before range.now) rows.now }
{
    let end = range.high;
    rows.partition_point(|row| row.low <= end)
}

/// Puts a drop of each of these ranges that isn't in a list.
fn put_drops(list: &RangeList, rows: &[Range], events: &mut Vec<Event>) -> Result<(), AllocError>
    ensures { OnOk result
        (events.new.items ≡ events.old.items ++ map drop_of (others list.now rows.now)) }
{
    for row in rows.iter() {
        if !is_listed(list, row) {
            events.push(Event::DropRange(row.low, row.high))?;
        }
    }
    Ok(())
}

/// Puts the addition of a range.
fn put_add(alloc: Global, range: &Range, events: &mut Vec<Event>) -> Result<(), AllocError>
    ensures { OnOk result (events.new.items ≡ events.old.items ++ AddRange range.now ∷ []) }
{
    let copy = range.copied(alloc)?;
    events.push(Event::AddRange(copy))?;
    Ok(())
}

/// Whether a range is in a list just so.
fn is_listed(list: &RangeList, range: &Range) -> bool
    ensures { result ≡ is_among list.now range.now }
{
    match Prefix::from_number(range.low) {
        Some(prefix) => is_same(range, list.find(prefix)),
        None => {
            // The ranges of a list are valid, as its slice tells: they hold prefixes alone.
            let _ranges = list.as_slice();
            false
        }
    }
}

/// Whether what was found for a range is the same.
fn is_same(range: &Range, found: Option<&Range>) -> bool
    ensures { result ≡ is_same range.now (option_copied found.entry) }
{
    match found {
        Some(other) => same_range(range, other),
        None => false,
    }
}

/// Whether two ranges have the same ends, issuer and hold days.
fn same_range(range: &Range, other: &Range) -> bool
    ensures { result ≡ same_range range.now other.now }
{
    range.low == other.low
        && range.high == other.high
        && range.issuer.as_bytes() == other.issuer.as_bytes()
        && range.hold_days == other.hold_days
}
