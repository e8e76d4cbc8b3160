//! Rows of two answers.

ghost use Rattle.std.specs.Prelude.{◌≡◌, ◌≢◌, [], None, IfSome, false, true, option_copied};
ghost use Rattle.std.specs.Prelude.{slice_get, slice_index_or, take};
ghost use Rattle.acq_sql_audit.specs.Compared.{columns_of};
ghost use Rattle.acq_sql_audit.specs.Differences.{Compare};

use crate::{How, Table};
use sqlite::Row;
use sqlite_value::order::is_same;

/// How the next rows of two answers compare.
#[derive(Clone, Copy)]
pub(crate) enum Next {
    /// They are the same.
    Same,
    /// There are none.
    End,
    Differ(How),
}

/// How the next row of a table in a file compares with that of a book that was made.
pub(crate) fn compare(table: Table, theirs: Option<&Row>, ours: Option<&Row>) -> Next
    ensures { Compare table (option_copied theirs.entry) (option_copied ours.entry) result }
{
    match (theirs, ours) {
        (None, None) => Next::End,
        (None, Some(_)) => Next::Differ(How::Missing),
        (Some(_), None) => Next::Differ(How::Surplus),
        (Some(theirs), Some(ours)) => match first_differing(theirs, ours) {
            Some(at) => Next::Differ(How::Column(column_name(table, at))),
            None => Next::Same,
        },
    }
}

/// The first column in which two rows differ.
fn first_differing(a: &Row, b: &Row) -> Option<usize>
    ensures same { result ≡ None → a.now ≡ b.now }
    ensures differ { IfSome result (λ at. (take at a.now ≡ take at b.now)
        × (slice_get a.now at ≢ slice_get b.now at)) }
{
    let width = a.column_count().max(b.column_count());
    for at in 0..width {
        if !has_same(a, b, at) {
            return Some(at);
        }
    }
    None
}

/// Whether two rows have the same value in a column, or none has that column.
fn has_same(a: &Row, b: &Row, at: usize) -> bool
    ensures same { result ≡ true → slice_get a.now at ≡ slice_get b.now at }
    ensures differ { result ≡ false → slice_get a.now at ≢ slice_get b.now at }
{
    match (a.get_ref(at), b.get_ref(at)) {
        (Ok(x), Ok(y)) => is_same(x, y),
        (Err(_), Err(_)) => true,
        _ => false,
    }
}

/// A column's name, or nothing where the table has no such column.
fn column_name(table: Table, at: usize) -> &'static str
    ensures { result.now ≡ slice_index_or (columns_of table) at [] }
{
    match table.columns().get(at) {
        Some(name) => name,
        None => "",
    }
}
