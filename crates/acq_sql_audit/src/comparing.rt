//! The rows of two books.

ghost use Rattle.std.specs.Prelude.{◌≡◌, ◌↔◌, IfOk, None, is_ok};
ghost use Rattle.sqlite.specs.Held.{state};
ghost use Rattle.sqlite.specs.State.{HasCleanDisk};
ghost use Rattle.row_lemmas.specs.Selects.{IsSelect};
ghost use Rattle.acq_sql_reads.specs.Looked.{LooksOnly};
ghost use Rattle.acq_sql_audit.specs.Compared.{HaveSameRows, IsComparable, select_of};
ghost use Rattle.acq_sql_audit.specs.Answered.{Tells};
ghost use Rattle.acq_sql_audit.specs.Differences.{IsFirstDifference};

use crate::rows::{Next, compare};
use crate::table::TABLES;
use crate::{Difference, Table};
use sqlite::{Alter, Connection, Error, ErrorCode};

/// The first row in which a file differs from a book that was made, of the first table that
/// differs; or `None` where no table does. Both are only looked at.
pub fn first_difference<S: Alter, M: Alter>(
    file: &mut Connection<S>,
    made: &mut Connection<M>,
) -> Result<Option<Difference>, Error>
    ensures compares { HasCleanDisk (state S.Store file.new)
        → HasCleanDisk (state M.Store made.new)
        → IsComparable (state S.Store file.old).now → IsComparable (state M.Store made.old).now
        → IfOk result (IsFirstDifference (state S.Store file.old).now.trees
        (state M.Store made.old).now.trees) }
    ensures same { HasCleanDisk (state S.Store file.new) → HasCleanDisk (state M.Store made.new)
        → IsComparable (state S.Store file.old).now → IsComparable (state M.Store made.old).now
        → IfOk result (λ difference. (difference ≡ None) ↔ HaveSameRows
        (state S.Store file.old).now.trees (state M.Store made.old).now.trees) }
    ensures looks { LooksOnly (state S.Store file.old) (state S.Store file.new) (is_ok result) }
    ensures looks_at_made { LooksOnly (state M.Store made.old) (state M.Store made.new)
        (is_ok result) }
{
    for table in TABLES {
        if let Some(difference) = difference_in(file, made, *table)? {
            return Ok(Some(difference));
        }
    }
    Ok(None)
}

/// The first row in which a table differs.
fn difference_in<S: Alter, M: Alter>(
    file: &mut Connection<S>,
    made: &mut Connection<M>,
    table: Table,
) -> Result<Option<Difference>, Error>
    ensures tells { HasCleanDisk (state S.Store file.new) → HasCleanDisk (state M.Store made.new)
        → IsSelect (select_of table) → IfOk result (Tells table (state S.Store file.old)
        (state M.Store made.old)) }
    ensures looks { IsSelect (select_of table)
        → LooksOnly (state S.Store file.old) (state S.Store file.new) (is_ok result) }
    ensures looks_at_made { IsSelect (select_of table)
        → LooksOnly (state M.Store made.old) (state M.Store made.new) (is_ok result) }
{
    let mut theirs = file.query(table.select(), &[])?;
    let mut ours = made.query(table.select(), &[])?;
    for row in 1..u64::MAX {
        theirs.advance()?;
        ours.advance()?;
        match compare(table, theirs.get(), ours.get()) {
            Next::Same => {}
            Next::End => return Ok(None),
            Next::Differ(how) => return Ok(Some(Difference { table, row, how })),
        }
    }
    Err(Error::SqliteFailure(ErrorCode::DatabaseCorrupt))
}
