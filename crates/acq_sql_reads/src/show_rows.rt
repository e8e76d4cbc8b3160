//! The rows of a query, shown to a visitor.

ghost use Rattle.std.specs.Prelude.{is_ok, IfErr, OnErr, OnOk};
ghost use Rattle.sqlite.specs.Held.{state};
ghost use Rattle.sqlite.specs.State.{HasCleanDisk};
ghost use Rattle.sqlite.specs.Values.{bound};
ghost use Rattle.row_lemmas.specs.Selects.{IsSelect};
ghost use Rattle.acq_book.specs.Visits.{SawRows};
ghost use Rattle.acq_sql_reads.specs.Looked.{LooksOnly};
ghost use Rattle.acq_sql_reads.specs.Shown.{FailsToHandOver, SawEnough, SawFirst, ShowsOnly};

use crate::read_row::ReadRow;
use acq_book::Visit;
use sqlite::types::ValueRef;
use sqlite::{Alter, Connection, Error, ErrorCode};

/// Hands over what the rows of a query are read as, one at a time, to the last or until the visitor
/// wants no more.
pub(crate) fn show_rows<S: Alter, T: Drop, R: ReadRow<T>, V: Visit<T>>(
    conn: &mut Connection<S>,
    sql: &str,
    params: &[ValueRef<'_>],
    reader: &R,
    visitor: &mut V,
) -> Result<(), Error>
    ensures seen { HasCleanDisk (state S.Store conn.new)
        → IsSelect sql.now → OnOk result
        (SawEnough sql.now (bound params.now) (state S.Store conn.old)
        R.shows V.sees visitor.old visitor.new) }
    ensures begun { HasCleanDisk (state S.Store conn.new)
        → IsSelect sql.now → OnErr result
        (SawFirst sql.now (bound params.now) (state S.Store conn.old)
        R.shows V.sees visitor.old visitor.new) }
    ensures shown { SawRows V.sees visitor.old visitor.new (is_ok result) }
    ensures looks { IsSelect sql.now
        → LooksOnly (state S.Store conn.old) (state S.Store conn.new) (is_ok result) }
    ensures fails { HasCleanDisk (state S.Store conn.new) → IsSelect sql.now
        → ShowsOnly sql.now (bound params.now) (state S.Store conn.old) R.fits
        → IfErr result (FailsToHandOver sql.now (bound params.now) (state S.Store conn.old)
        (state S.Store conn.new)) }
{
    let mut rows = conn.query(sql, params)?;
    'rows: for _ in 0..u64::MAX {
        let Some(row) = rows.next()? else {
            return Ok(());
        };
        let shown = reader.read(row)?;
        if !visitor.row(&shown) {
            return Ok(());
        }
    }
    Err(Error::SqliteFailure(ErrorCode::DatabaseCorrupt))
}
