//! The book's row.

ghost use Rattle.std.specs.Prelude.{◌≡◌, ◌∷◌, [], ℕ, true, IfOk, is_ok, length};
ghost use Rattle.sqlite.specs.State.{HasCleanDisk};
ghost use Rattle.sqlite.specs.Held.{state};
ghost use Rattle.row_lemmas.specs.Values.{number};
ghost use Rattle.day_totals.specs.Day.{IsDayNumber};
ghost use Rattle.acq_core.specs.Numbers.{is_limit};
ghost use Rattle.acq_core.specs.Tables.{Tables};
ghost use Rattle.acq_sql_rows.specs.Relation.{Holds};
ghost use Rattle.acq_sql_reads.specs.Looked.{Answers, LooksOnly};
ghost use Rattle.acq_sql_reads.specs.Failing.{FailsForMemory, FailsOnlyExcused};

use crate::columns::{day_at, limit_at};
use acq_core::Limit;
use day_totals::Day;
use sqlite::{Alter, Connection, Error, ErrorCode, Row};

const LIMIT_AND_DAY: &str = "SELECT max_a_day, day FROM book";

/// How many messages of a merchant a day admits, and the business day.
pub fn limit_and_day<S: Alter>(conn: &mut Connection<S>) -> Result<(Limit, Day), Error>
    ensures answers { Answers (state S.Store conn.old) (state S.Store conn.new) result
        (λ t. (t.limit, t.day)) }
    ensures looks { LooksOnly (state S.Store conn.old) (state S.Store conn.new) (is_ok result) }
    ensures fails { FailsOnlyExcused (state S.Store conn.old) (state S.Store conn.new) result }
{
    let rows = book_rows(conn)?;
    match rows.first() {
        Some(row) => read_row(row),
        None => Err(Error::SqliteFailure(ErrorCode::DatabaseCorrupt)),
    }
}

/// The one row.
fn book_rows<S: Alter>(conn: &mut Connection<S>) -> Result<Vec<Row>, Error>
    ensures answers { HasCleanDisk (state S.Store conn.new) → (t : Tables)
        → Holds (state S.Store conn.old).now t → IfOk result
        (λ rows. rows.items ≡ (number t.limit ∷ number t.day ∷ []) ∷ []) }
    ensures looks { LooksOnly (state S.Store conn.old) (state S.Store conn.new) (is_ok result) }
    ensures fails { FailsOnlyExcused (state S.Store conn.old) (state S.Store conn.new) result }
{
    conn.query_all(LIMIT_AND_DAY, &[])
}

fn read_row(row: &Row) -> Result<(Limit, Day), Error>
    ensures value { IfOk result
        (λ x. length row.now ≡ 2 → row.now ≡ number x.0 ∷ number x.1 ∷ []) }
    ensures fails { (limit day : ℕ) → row.now ≡ number limit ∷ number day ∷ []
        → is_limit limit ≡ true → IsDayNumber day → FailsForMemory result }
{
    Ok((limit_at(row, 0)?, day_at(row, 1)?))
}
