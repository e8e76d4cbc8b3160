//! Books of an earlier version.

ghost use Rattle.std.specs.Prelude.{◌≡◌, false, IfErr, OnErr, OnOk, IsTrue};
ghost use Rattle.sqlite.specs.Held.{state};
ghost use Rattle.sqlite.specs.State.{HasCleanDisk, Survives};
ghost use Rattle.acq_core.specs.Tables.{Tables};
ghost use Rattle.acq_core.specs.Widening.{widened_tables};
ghost use Rattle.acq_sql_rows.specs.Rows.{version_of_six_digits};
ghost use Rattle.acq_sql_rows.specs.Standing.{IsAt, IsAtOf, HoldsAfter};
ghost use Rattle.acq_sql_reads.specs.Looked.{LooksOnly};
ghost use Rattle.acq_sql_checking.specs.Blames.{OpeningBlamesStore};
ghost use Rattle.acq_sql_checking.specs.Checked.{Judges, IsFailure};
ghost use Rattle.acq_sql_opening.specs.Migrated.{IsAsItSays, IsOfSixDigits};

use acq_sql_changes::widen_book;
use acq_sql_checking::{OpeningFault, check_book};
use acq_sql_rows::tables::VERSION_OF_SIX_DIGITS;
use acq_widening::laws::ranges_fit_their_profile;
use sqlite::{Alter, Connection};
use std::alloc::Global;

/// Makes a book whose ranges are of six digits one of the version in force, with its ranges widened
/// and all else as it was. A database that is no such book is left as it is.
pub fn migrate_book<S: Alter>(conn: &mut Connection<S>, alloc: Global) -> Result<(), OpeningFault>
    requires settled { conn.old.in_transaction ≡ false }
    ensures settled { conn.new.in_transaction ≡ false }
    ensures judged { HasCleanDisk (state S.Store conn.new)
        → Judges version_of_six_digits (state S.Store conn.old).now result }
    ensures accepts { HasCleanDisk (state S.Store conn.new) → (t : Tables)
        → IsAtOf version_of_six_digits (state S.Store conn.old) t → IfErr result IsFailure }
    ensures done { HasCleanDisk (state S.Store conn.new) → (t : Tables)
        → IsOfSixDigits (state S.Store conn.old) t
        → OnOk result (IsAt (state S.Store conn.new) (widened_tables t)) }
    ensures undone { HasCleanDisk (state S.Store conn.new)
        → IsTrue (state S.Store conn.new).is_open → (t : Tables)
        → IsAtOf version_of_six_digits (state S.Store conn.old) t
        → OnErr result (IsAtOf version_of_six_digits (state S.Store conn.new) t) }
    ensures unchanged { IfErr result (λ fault. ¬ IsFailure fault
        → LooksOnly (state S.Store conn.old) (state S.Store conn.new) false) }
    ensures stop { Survives (state S.Store conn.old) (state S.Store conn.new)
        (λ trees. (t : Tables) → IsOfSixDigits (state S.Store conn.old) t
        → HoldsAfter (widened_tables t) trees) }
    ensures blames { IfErr result (λ fault. IsAsItSays (state S.Store conn.old)
        → OpeningBlamesStore (state S.Store conn.old) (state S.Store conn.new) fault) }
{
    ranges_fit_their_profile();
    check_book(conn, alloc, VERSION_OF_SIX_DIGITS)?;
    Ok(widen_book(conn)?)
}
