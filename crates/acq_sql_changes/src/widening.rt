//! Ranges of six digits become those of eight.

ghost use Rattle.std.specs.Prelude.{◌≡◌, false};
ghost use Rattle.sqlite.specs.Held.{state};
ghost use Rattle.card_no.specs.Prefix.{six_digits};
ghost use Rattle.acq_core.specs.Widening.{widened_tables};
ghost use Rattle.acq_sql_rows.specs.Rows.{version_of_six_digits};
ghost use Rattle.acq_sql_changes.specs.Changed.{ChangesWholeOf};
ghost use Rattle.acq_sql_rows.specs.Standing.{FailsExcused};
ghost use Rattle.acq_sql_writes.specs.Widened.{HasRangesUnder};

use acq_sql_writes::{set_version, turn_ranges, widen_ranges};
use sqlite::{Alter, Connection, Error};

/// Makes a book whose ranges are of six digits one of the version in force: the tables stay, but
/// that each range is widened.
pub fn widen_book<S: Alter>(conn: &mut Connection<S>) -> Result<(), Error>
    requires settled { conn.old.in_transaction ≡ false }
    ensures settled { conn.new.in_transaction ≡ false }
    ensures whole { ChangesWholeOf version_of_six_digits (state S.Store conn.old)
        (state S.Store conn.new) result (HasRangesUnder six_digits) widened_tables }
    ensures refused { FailsExcused version_of_six_digits (state S.Store conn.old)
        (state S.Store conn.new) result (HasRangesUnder six_digits) }
{
    let mut tx = conn.transaction();
    widen_ranges(&mut tx)?;
    turn_ranges(&mut tx)?;
    set_version(&mut tx)?;
    tx.commit()
}
