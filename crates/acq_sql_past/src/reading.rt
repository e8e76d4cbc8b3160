//! The rows of a book, each table as far as it can be read.

use crate::listed::Listed;
use acq_core::Limit;
use acq_past::BookRows;
use acq_sql_reads::limit_and_day;
use card_no::{Range, RangeFault, RangeList};
use day_totals::Day;
use sqlite::{Alter, Connection, Error, ErrorCode};
use std::alloc::Global;

/// The rows of the book in a database. A table ends before the first row that no host wrote, and a
/// limit or a day that is none reads as the least.
pub(crate) fn book_rows<S: Alter>(
    alloc: Global,
    conn: &mut Connection<S>,
) -> Result<BookRows, Error> {
    let (limit, day) = limit_and_day_or_least(conn)?;
    let merchants = list(alloc, conn)?;
    let terminals = list(alloc, conn)?;
    let ranges = list(alloc, conn)?;
    let requests = list(alloc, conn)?;
    let postings = list(alloc, conn)?;
    Ok(BookRows {
        limit,
        day,
        merchants,
        terminals,
        ranges: range_list(alloc, ranges)?,
        requests,
        postings,
    })
}

fn limit_and_day_or_least<S: Alter>(conn: &mut Connection<S>) -> Result<(Limit, Day), Error> {
    match limit_and_day(conn) {
        Err(Error::SqliteFailure(ErrorCode::DatabaseCorrupt)) => {}
        known => return known,
    }
    let (Some(limit), Some(day)) = (Limit::from_number(1), Day::from_number(0)) else {
        unreachable!();
    };
    Ok((limit, day))
}

/// The rows of a table, up to one that isn't such as a host writes.
fn list<S: Alter, T: Listed + Drop>(
    alloc: Global,
    conn: &mut Connection<S>,
) -> Result<Vec<T>, Error> {
    let mut found = Vec::new(alloc);
    let mut rows = conn.query(T::query(), &[])?;
    for _ in 0..u64::MAX {
        let Some(row) = rows.next()? else {
            return Ok(found);
        };
        match T::read(alloc, row) {
            Ok(row) => found.push(row)?,
            Err(Error::SqliteFailure(ErrorCode::OutOfMemory)) => return Err(out_of_memory()),
            Err(_) => return Ok(found),
        }
    }
    Ok(found)
}

fn out_of_memory() -> Error {
    Error::SqliteFailure(ErrorCode::OutOfMemory)
}

/// The list of these ranges, up to one that isn't valid or overlaps another.
fn range_list(alloc: Global, ranges: Vec<Range>) -> Result<RangeList, Error> {
    let mut list = RangeList::new(alloc);
    for range in ranges.into_iter() {
        match list.add(range) {
            Ok(()) => {}
            Err(RangeFault::Memory) => return Err(out_of_memory()),
            Err(_) => return Ok(list),
        }
    }
    Ok(list)
}
