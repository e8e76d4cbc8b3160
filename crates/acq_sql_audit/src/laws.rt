//! What databases with the same rows have in common.

ghost use Rattle.std.specs.Prelude.{◌≡◌, IsTrue};
ghost use Rattle.sqlite.specs.Held.{state};
ghost use Rattle.acq_core.specs.Tables.{Tables};
ghost use Rattle.acq_sql_audit.specs.Compared.{HaveSameRows};
ghost use Rattle.acq_sql_rows.specs.ReadBack.{tables_of};
ghost use Rattle.acq_sql_rows.specs.Relation.{Holds};
ghost use Rattle.acq_sql_rows.specs.Schema.{IsBookSchema};

use sqlite::{Alter, Connection};

/// A database with a book's tables that has the rows of one that holds tables holds the same, and
/// stands for no others.
pub fn same_rows_hold_the_same<S: Alter, M: Alter>(file: &Connection<S>, made: &Connection<M>)
    ensures { (t : Tables) → IsTrue (state S.Store file.now).is_open
        → IsBookSchema (state S.Store file.now).now.schema → Holds (state M.Store made.now).now t
        → HaveSameRows (state S.Store file.now).now.trees (state M.Store made.now).now.trees
        → Holds (state S.Store file.now).now t × (tables_of (state S.Store file.now).now ≡ t) }
{
    made.changes();
    file.schema();
}
