//! Rows in the order of a walk.

ghost use Rattle.std.specs.Prelude.{◌≡◌, ℕ, List, map, is_ok, IfOk, OnOk, OnErr};
ghost use Rattle.std.specs.Map.Iter.{deref};
ghost use Rattle.acq_core.specs.declared.merchant.Merchant.{Merchant};
ghost use Rattle.acq_core.specs.declared.posting.Posting.{Posting};
ghost use Rattle.acq_core.specs.declared.request.Request.{Request};
ghost use Rattle.acq_core.specs.declared.terminal.Terminal.{Terminal};
ghost use Rattle.acq_book.specs.Lookups.{is_merchant_before, is_posting_before};
ghost use Rattle.acq_book.specs.Lookups.{is_reference_before, is_terminal_before};
ghost use Rattle.acq_book.specs.Order.{in_order};
ghost use Rattle.acq_book.specs.Promise.{CountsFault};
ghost use Rattle.acq_book.specs.Visits.{SawAll, SawRows, SawSome};

use acq_book::{BookFault, Visit};
use acq_core::{Merchant, Posting, Request, Terminal};
use std::alloc::AllocError;

/// Hands over rows in turn, to the last or until the visitor wants no more; none, where memory ran
/// out before.
pub(crate) fn show<Row, V: Visit<Row>>(
    rows: Result<Vec<&Row>, AllocError>,
    visitor: &mut V,
) -> Result<(), BookFault>
    ensures seen { (all : List Row) → IfOk rows.entry (λ rows. map deref rows.items ≡ all)
        → OnOk result (SawAll V.sees all visitor.old visitor.new) }
    ensures begun { (all : List Row) → OnErr result (SawSome V.sees all visitor.old visitor.new) }
    ensures shown { SawRows V.sees visitor.old visitor.new (is_ok result) }
    ensures store { CountsFault result 0 0 }
{
    show_each(rows?.as_slice(), visitor);
    Ok(())
}

fn show_each<Row, V: Visit<Row>>(rows: &[&Row], visitor: &mut V)
    ensures { SawAll V.sees (map deref rows.now) visitor.old visitor.new }
{
    for row in rows.iter() {
        if !visitor.row(*row) {
            return;
        }
    }
}

/// Postings by merchant, and of one merchant by number.
pub(crate) fn in_order_of_numbers(
    rows: Result<Vec<&(u64, Posting)>, AllocError>,
) -> Result<Vec<&(u64, Posting)>, AllocError>
    ensures { (all : List (ℕ × Posting)) → IfOk rows.entry (λ rows. map deref rows.items ≡ all)
        → IfOk result (λ sorted. map deref sorted.items ≡ in_order is_posting_before all) }
{
    let mut rows = rows?;
    rows.sort_by_key(
        |row: &&(u64, Posting)|
            ensures { result ≡ (row.now.now.1.merchant, row.now.now.0) }
        { (row.1.merchant.to_bytes(), row.0) },
    )?;
    Ok(rows)
}

/// Merchants by name.
pub(crate) fn in_order_of_names(
    rows: Result<Vec<&Merchant>, AllocError>,
) -> Result<Vec<&Merchant>, AllocError>
    ensures { (all : List Merchant) → IfOk rows.entry (λ rows. map deref rows.items ≡ all)
        → IfOk result (λ sorted. map deref sorted.items ≡ in_order is_merchant_before all) }
{
    let mut rows = rows?;
    rows.sort_by_key(
        |row: &&Merchant|
            ensures { result ≡ row.now.now.id }
        { row.id.to_bytes() },
    )?;
    Ok(rows)
}

/// Terminals by merchant, and of one merchant by name.
pub(crate) fn in_order_of_terminals(
    rows: Result<Vec<&Terminal>, AllocError>,
) -> Result<Vec<&Terminal>, AllocError>
    ensures { (all : List Terminal) → IfOk rows.entry (λ rows. map deref rows.items ≡ all)
        → IfOk result (λ sorted. map deref sorted.items ≡ in_order is_terminal_before all) }
{
    let mut rows = rows?;
    rows.sort_by_key(
        |row: &&Terminal|
            ensures { result ≡ (row.now.now.merchant, row.now.now.id) }
        { (row.merchant.to_bytes(), row.id.to_bytes()) },
    )?;
    Ok(rows)
}

/// Requests by reference.
pub(crate) fn in_order_of_references(
    rows: Result<Vec<&Request>, AllocError>,
) -> Result<Vec<&Request>, AllocError>
    ensures { (all : List Request) → IfOk rows.entry (λ rows. map deref rows.items ≡ all)
        → IfOk result (λ sorted. map deref sorted.items
        ≡ in_order (λ a b. is_reference_before a.reference b.reference) all) }
{
    let mut rows = rows?;
    rows.sort_by_key(
        |row: &&Request|
            ensures { result ≡ row.now.now.reference }
        { reference_of(*row) },
    )?;
    Ok(rows)
}

fn reference_of(row: &Request) -> Option<u64>
    ensures { result ≡ row.now.reference }
{
    match row.reference {
        Some(reference) => Some(reference.number()),
        None => None,
    }
}
