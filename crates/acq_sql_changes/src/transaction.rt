//! A transaction that stays open between calls.

ghost use Rattle.std.specs.Prelude.{false, true};
ghost use Rattle.sqlite.specs.Held.{state};
ghost use Rattle.acq_sql_writes.specs.Written.{CommitsNothing};
ghost use Rattle.acq_sql_changes.specs.Transactions.{Begins, CommitsShown, Ends, FailsWhile};
ghost use Rattle.acq_sql_changes.specs.Transactions.{Keeps, Returns, ReturnsOnErr, StaysAt};
ghost use Rattle.acq_sql_changes.specs.Transactions.{StaysOutside};

use acq_sql_rows::texts;
use acq_sql_writes::execute;
use sqlite::{Alter, Connection, Error};

/// Begins a transaction. Look-ups see what is changed inside it.
pub fn begin<S: Alter>(conn: &mut Connection<S>) -> Result<(), Error>
    ensures begins { Begins (state S.Store conn.old) (state S.Store conn.new) result }
    ensures stays { StaysAt (state S.Store conn.old) (state S.Store conn.new) result }
    ensures outside { StaysOutside (state S.Store conn.old) (state S.Store conn.new) result }
    ensures stop { CommitsNothing (state S.Store conn.old) (state S.Store conn.new) }
    ensures fails { FailsWhile false (state S.Store conn.old) (state S.Store conn.new) result }
{
    execute(conn, texts::BEGIN, &[])
}

/// Commits the transaction. One that can't be committed is rolled back.
pub fn keep<S: Alter>(conn: &mut Connection<S>) -> Result<(), Error>
    ensures keeps { Keeps (state S.Store conn.old) (state S.Store conn.new) result }
    ensures undoes { ReturnsOnErr (state S.Store conn.old) (state S.Store conn.new) result }
    ensures ends { Ends (state S.Store conn.new) }
    ensures stop { CommitsShown (state S.Store conn.old) (state S.Store conn.new) }
    ensures fails { FailsWhile true (state S.Store conn.old) (state S.Store conn.new) result }
{
    execute(conn, texts::COMMIT, &[])
}

/// Rolls the transaction back, unless a failure has ended it already.
pub fn roll_back<S: Alter>(conn: &mut Connection<S>)
    ensures returns { Returns (state S.Store conn.old) (state S.Store conn.new) }
    ensures ends { Ends (state S.Store conn.new) }
    ensures stop { CommitsNothing (state S.Store conn.old) (state S.Store conn.new) }
{
    let _ = execute(conn, texts::ROLLBACK, &[]);
}
