//! Enrolments.

ghost use Rattle.sqlite.specs.Held.{state};
ghost use Rattle.acq_core.specs.declared.change.Change.TheVariants as change;
ghost use Rattle.acq_sql_writes.specs.Written.{with_merchant, with_terminal};
ghost use Rattle.acq_sql_changes.specs.Transactions.{ChangesInside};
ghost use Rattle.acq_sql_writes.specs.Refused.{AnyTables};
ghost use Rattle.acq_sql_changes.specs.Refused.{FailsInside};

use acq_core::{Merchant, Terminal};
use acq_sql_writes::{add_merchant, add_terminal};
use sqlite::{Alter, Connection, Error};

/// Enrols a merchant.
pub fn enrol<S: Alter>(conn: &mut Connection<S>, merchant: &Merchant) -> Result<(), Error>
    ensures changes { ChangesInside (state S.Store conn.old) (state S.Store conn.new) result
        AnyTables (with_merchant merchant.now) }
    ensures fails { FailsInside (state S.Store conn.old) (state S.Store conn.new) result
        (change.AddMerchant merchant.now) AnyTables }
{
    add_merchant(conn, merchant)
}

/// Adds a terminal.
pub fn enrol_terminal<S: Alter>(conn: &mut Connection<S>, terminal: &Terminal) -> Result<(), Error>
    ensures changes { ChangesInside (state S.Store conn.old) (state S.Store conn.new) result
        AnyTables (with_terminal terminal.now) }
    ensures fails { FailsInside (state S.Store conn.old) (state S.Store conn.new) result
        (change.AddTerminal terminal.now) AnyTables }
{
    add_terminal(conn, terminal)
}
