//! One statement inside a transaction.

ghost use Rattle.std.specs.Prelude.{◌≡◌, IsTrue};
ghost use Rattle.sqlite.specs.Held.{state};
ghost use Rattle.sqlite.specs.State.{CommitsBy, HasCleanDisk, Survives};
ghost use Rattle.sqlite.specs.Values.{bound};
ghost use Rattle.acq_sql_writes.specs.Written.{CommitsNothing, Executes, ExecutesInside};

use sqlite::types::ValueRef;
use sqlite::{Alter, Connection, Error, Transaction};

/// Executes a statement in the transaction that is open, if one is. No write needs to know how many
/// rows it changed.
pub fn execute<S: Alter>(
    conn: &mut Connection<S>,
    sql: &str,
    params: &[ValueRef<'_>],
) -> Result<(), Error>
    ensures runs { HasCleanDisk (state S.Store conn.new)
        → Executes sql.now (bound params.now) (state S.Store conn.old) (state S.Store conn.new)
        result }
    ensures survives { Survives (state S.Store conn.old) (state S.Store conn.new)
        (CommitsBy sql.now (bound params.now) (state S.Store conn.old)) }
{
    conn.execute(sql, params)?;
    Ok(())
}

/// The same in a transaction that ends where it is dropped.
pub(crate) fn execute_in<S: Alter>(
    tx: &mut Transaction<'_, S>,
    sql: &str,
    params: &[ValueRef<'_>],
) -> Result<(), Error>
    ensures same_reference { tx.new.conn.ghost_name ≡ tx.old.conn.ghost_name }
    ensures runs { HasCleanDisk (state S.Store tx.new.conn.now)
        → IsTrue (state S.Store tx.old.conn.now).in_transaction
        → ExecutesInside sql.now (bound params.now) (state S.Store tx.old.conn.now)
        (state S.Store tx.new.conn.now) result }
    ensures survives { CommitsNothing (state S.Store tx.old.conn.now)
        (state S.Store tx.new.conn.now) }
{
    tx.execute(sql, params)?;
    Ok(())
}
