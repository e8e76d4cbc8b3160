//! Why a book was not opened.

ghost use Rattle.std.specs.Prelude.{◌≡◌};

use sqlite::{Error, ErrorCode};
use std::fmt;

/// Why a book was not opened. Its text is its number, its name and its value, as printed lines have
/// them.
#[derive(Clone, Copy, Debug, PartialEq, Eq)]
pub enum OpeningFault {
    /// 1: memory ran out.
    Memory,
    /// 2: a call of the store failed, or gave rows that break the bounds of their columns.
    Store,
    /// 40: the database is no book: for a new book it isn't empty, and for an old one it lacks the
    /// book's tables or its row.
    NotABook,
    /// 41: the book's tables are of this version.
    OtherVersion(u64),
}

impl OpeningFault {
    ghost use Rattle.acq_sql_checking.specs.Faults.{number_of};

    /// The fault's number.
    pub fn number(&self) -> u8
        ensures { result ≡ number_of self.now }
    {
        match self {
            OpeningFault::Memory => 1,
            OpeningFault::Store => 2,
            OpeningFault::NotABook => 40,
            OpeningFault::OtherVersion(_) => 41,
        }
    }
}

impl fmt::Display for OpeningFault {
    ghost use Rattle.std.specs.Prelude.{Some};
    ghost use Rattle.acq_sql_checking.specs.Faults.{text_of};

    ghost output = { λ f. Some (text_of f) };

    fn fmt<W: fmt::Write>(&self, f: &mut fmt::Formatter<W>) -> fmt::Result {
        match self {
            OpeningFault::Memory => f.write_str("1 Memory"),
            OpeningFault::Store => f.write_str("2 Store"),
            OpeningFault::NotABook => f.write_str("40 NotABook"),
            OpeningFault::OtherVersion(version) => write!(f, "41 OtherVersion {version}"),
        }
    }
}

impl std::error::Error for OpeningFault {}

impl From<Error> for OpeningFault {
    ghost use Rattle.acq_sql_checking.specs.Faults.{fault_of};

    ghost from_gives = { λ e f. f ≡ fault_of e };

    fn from(e: Error) -> OpeningFault {
        match e {
            Error::SqliteFailure(ErrorCode::OutOfMemory) => OpeningFault::Memory,
            _ => OpeningFault::Store,
        }
    }
}
