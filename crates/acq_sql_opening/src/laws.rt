//! What an open finds of a book.

ghost use Rattle.std.specs.Prelude.{ℕ};
ghost use Rattle.sqlite.specs.Held.{state};
ghost use Rattle.sqlite.specs.State.{Opens, IsLive};
ghost use Rattle.acq_core.specs.Tables.{Tables};
ghost use Rattle.acq_sql_rows.specs.Standing.{IsAt, IsAtOf, HoldsAfter, HoldsAfterOf};
ghost use Rattle.acq_sql_checking.specs.Checked.{HasBadVersion};
ghost use Rattle.acq_sql_opening.specs.Migrated.{IsAsItSays, IsOfSixDigits};

use sqlite::{Alter, Connection};

/// A connection that was just opened over what a stop left of a book is at the book's tables.
pub fn an_open_finds_the_book<S: Alter>(conn: &Connection<S>)
    ensures { (t : Tables) → Opens (state S.Store conn.now) → IsLive (state S.Store conn.now)
        → HoldsAfter t (state S.Store conn.now).committed.trees → IsAt (state S.Store conn.now) t }
{}

/// The same of a book of any version: where a migration was stopped before it was whole, the tables
/// are those of the earlier version, and it can be called again.
pub fn an_open_finds_a_book_of_any_version<S: Alter>(conn: &Connection<S>)
    ensures { (version : ℕ) (t : Tables) → Opens (state S.Store conn.now)
        → IsLive (state S.Store conn.now)
        → HoldsAfterOf version t (state S.Store conn.now).committed.trees
        → IsAtOf version (state S.Store conn.now) t }
{}

/// The version of a book is a number, and a book of six digits that events led to is what its
/// version says: so an open of it, or its migration, blames the store only where the store failed.
pub fn a_book_is_as_it_says<S: Alter>(conn: &Connection<S>)
    ensures number { (version : ℕ) (t : Tables) → IsAtOf version (state S.Store conn.now) t
        → ¬ HasBadVersion (state S.Store conn.now).now }
    ensures six { (t : Tables) → IsOfSixDigits (state S.Store conn.now) t
        → IsAsItSays (state S.Store conn.now) }
{}
