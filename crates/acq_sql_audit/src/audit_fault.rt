//! Why a file wasn't audited.

use acq_book::BookFault;
use acq_sql_checking::OpeningFault;
use sqlite::{Error, ErrorCode};
use std::alloc::AllocError;
use std::fmt;

/// Why a file wasn't audited. Its text is its number and its name, as those of an opening are.
#[derive(Clone, Copy, Debug, PartialEq, Eq)]
pub enum AuditFault {
    /// 1: memory ran out.
    Memory,
    /// 2: a call of a store failed, or gave rows that break the bounds of their columns.
    Store,
    /// 40: the file has not the tables of a book.
    NotABook,
}

impl fmt::Display for AuditFault {
    ghost use Rattle.std.specs.Prelude.{Some};
    ghost use Rattle.acq_sql_audit.specs.Audited.{fault_text};

    ghost output = { λ fault. Some (fault_text fault) };

    fn fmt<W: fmt::Write>(&self, f: &mut fmt::Formatter<W>) -> fmt::Result {
        match self {
            AuditFault::Memory => f.write_str("1 Memory"),
            AuditFault::Store => f.write_str("2 Store"),
            AuditFault::NotABook => f.write_str("40 NotABook"),
        }
    }
}

impl std::error::Error for AuditFault {}

impl From<AllocError> for AuditFault {
    ghost use Rattle.std.specs.Prelude.{◌≡◌};
    ghost use Rattle.acq_sql_audit.specs.declared.audit_fault.AuditFault.TheVariants.{Memory};

    ghost from_gives = { λ _ fault. fault ≡ Memory };

    fn from(_e: AllocError) -> AuditFault {
        AuditFault::Memory
    }
}

impl From<Error> for AuditFault {
    ghost use Rattle.std.specs.Prelude.{◌≢◌};
    ghost use Rattle.acq_sql_audit.specs.declared.audit_fault.AuditFault.TheVariants.{NotABook};

    ghost from_gives = { λ _ fault. fault ≢ NotABook };

    fn from(e: Error) -> AuditFault {
        match e {
            Error::SqliteFailure(ErrorCode::OutOfMemory) => AuditFault::Memory,
            _ => AuditFault::Store,
        }
    }
}

impl From<BookFault> for AuditFault {
    ghost use Rattle.std.specs.Prelude.{◌≢◌};
    ghost use Rattle.acq_sql_audit.specs.declared.audit_fault.AuditFault.TheVariants.{NotABook};

    ghost from_gives = { λ _ fault. fault ≢ NotABook };

    fn from(fault: BookFault) -> AuditFault {
        match fault {
            BookFault::Memory => AuditFault::Memory,
            BookFault::Store => AuditFault::Store,
        }
    }
}

impl From<OpeningFault> for AuditFault {
    ghost use Rattle.std.specs.Prelude.{◌≢◌};
    ghost use Rattle.acq_sql_audit.specs.declared.audit_fault.AuditFault.TheVariants.{NotABook};

    ghost from_gives = { λ _ fault. fault ≢ NotABook };

    fn from(fault: OpeningFault) -> AuditFault {
        match fault {
            OpeningFault::Memory => AuditFault::Memory,
            _ => AuditFault::Store,
        }
    }
}
