//! A book in SQL is made, or the one that a database holds is put in order or migrated.
//!
//! A book is made whole in one transaction, so a stop leaves none of it or all of it
//! (`acq_sql_checking/specs/Made.antt`); and it is migrated in one, so a stop leaves all of the one
//! of the earlier version or all of the new one (`specs/Migrated.antt`).
#![tactic(auto)]

mod laws;
mod making;
mod migrating;
mod ordering;

pub use laws::{a_book_is_as_it_says, an_open_finds_a_book_of_any_version, an_open_finds_the_book};
pub use making::{has_no_tables, make_book};
pub use migrating::migrate_book;
pub use ordering::put_in_order;
