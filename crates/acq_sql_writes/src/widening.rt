//! The statements that widen the ranges of a book. Each writes all rows of its table.

ghost use Rattle.std.specs.Prelude.{◌≡◌};
ghost use Rattle.sqlite.specs.Held.{state};
ghost use Rattle.card_no.specs.Prefix.{six_digits, eight_digits};
ghost use Rattle.acq_sql_writes.specs.Written.{WritesGuarded};
ghost use Rattle.acq_sql_writes.specs.Widened.{WidensRanges, TurnsRanges, SetsVersion};
ghost use Rattle.acq_sql_writes.specs.Widened.{IsNeverRefused, HasRangesOf, HasTurnedRangesOf};

use crate::statement::execute_in;
use acq_sql_rows::texts;
use sqlite::{Alter, Error, Transaction};

/// Makes ranges of six digits those of eight, with -1 - low in place of each low: so no two rows
/// have the same low on the way.
pub fn widen_ranges<S: Alter>(tx: &mut Transaction<'_, S>) -> Result<(), Error>
    ensures same_reference { tx.new.conn.ghost_name ≡ tx.old.conn.ghost_name }
    ensures writes { WritesGuarded (state S.Store tx.old.conn.now) (state S.Store tx.new.conn.now)
        result WidensRanges }
    ensures refused { IsNeverRefused (state S.Store tx.old.conn.now)
        (state S.Store tx.new.conn.now) result (HasRangesOf six_digits) }
{
    execute_in(tx, texts::WIDEN_RANGES, &[])
}

/// Puts each low back.
pub fn turn_ranges<S: Alter>(tx: &mut Transaction<'_, S>) -> Result<(), Error>
    ensures same_reference { tx.new.conn.ghost_name ≡ tx.old.conn.ghost_name }
    ensures writes { WritesGuarded (state S.Store tx.old.conn.now) (state S.Store tx.new.conn.now)
        result TurnsRanges }
    ensures refused { IsNeverRefused (state S.Store tx.old.conn.now)
        (state S.Store tx.new.conn.now) result (HasTurnedRangesOf eight_digits) }
{
    execute_in(tx, texts::TURN_RANGES, &[])
}

/// Makes the book one of the version in force.
pub fn set_version<S: Alter>(tx: &mut Transaction<'_, S>) -> Result<(), Error>
    ensures same_reference { tx.new.conn.ghost_name ≡ tx.old.conn.ghost_name }
    ensures writes { WritesGuarded (state S.Store tx.old.conn.now) (state S.Store tx.new.conn.now)
        result SetsVersion }
    ensures refused { IsNeverRefused (state S.Store tx.old.conn.now)
        (state S.Store tx.new.conn.now) result (HasRangesOf eight_digits) }
{
    execute_in(tx, texts::SET_VERSION, &[])
}
