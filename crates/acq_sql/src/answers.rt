//! Answers of the database, and what a book says of them.

ghost use Rattle.std.specs.Prelude.{◌≡◌, ◌≤◌, ℕ, IfErr, is_ok};
ghost use Rattle.acq_book.specs.Promise.{BlamesStore, CountsFault};
ghost use Rattle.acq_sql.specs.Faults.{IsTheStores, IsTold};

use acq_book::BookFault;
use sqlite::{Error, ErrorCode};

/// What a book answers where its database answered this. Want of memory is told as such, and any
/// other error as one of the store, which is one failure more.
pub(crate) fn counted<T>(failures: &mut u64, answer: Result<T, Error>) -> Result<T, BookFault>
    ensures { IsTold answer result failures.old failures.new }
{
    match answer {
        Ok(x) => Ok(x),
        Err(Error::SqliteFailure(ErrorCode::OutOfMemory)) => Err(BookFault::Memory),
        Err(_) => {
            *failures = failures.saturating_add(1);
            Err(BookFault::Store)
        }
    }
}

/// What a book answers where a write within a group answered this. Where the write failed and has
/// not ended the group's transaction, it was refused: no room was left for its row, and the store
/// had no part in it. So that is told as want of memory, as a row is that is too large.
pub(crate) fn told_apart(
    failures: &mut u64,
    answer: Result<(), Error>,
    has_ended: bool,
) -> Result<(), BookFault>
    ensures succeeds { is_ok result ≡ is_ok answer }
    ensures store { CountsFault result failures.old failures.new }
    ensures rise { failures.old ≤ failures.new }
    ensures blames { (faults later : ℕ) → IfErr answer (IsTheStores has_ended faults later)
        → BlamesStore result faults later }
{
    match answer {
        Ok(()) => Ok(()),
        Err(Error::SqliteFailure(ErrorCode::OutOfMemory)) => Err(BookFault::Memory),
        Err(Error::SqliteFailure(ErrorCode::TooBig)) => Err(BookFault::Memory),
        Err(_) => {
            if !has_ended {
                return Err(BookFault::Memory);
            }
            *failures = failures.saturating_add(1);
            Err(BookFault::Store)
        }
    }
}
