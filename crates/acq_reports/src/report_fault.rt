//! Why a report was not given.

ghost use Rattle.std.specs.Prelude.{◌≡◌};

use acq_book::BookFault;
use std::error::Error;
use std::fmt;

/// Why a report was not given, or not all of it. Its text is its number, its name and its value, as
/// printed lines have them.
#[derive(Clone, Copy, Debug, PartialEq, Eq, Drop)]
pub enum ReportFault {
    /// 1: memory ran out.
    Memory,
    /// 2: a call of the store failed.
    Store,
    /// 37: the merchant isn't enrolled.
    NoSuchMerchant,
    /// 54: a write failed, and so many bytes of the report had been written.
    Write(u64),
    /// 60: the day isn't over.
    DayNotOver,
    /// 61: so many requests of the day are pending.
    StillPending(u64),
}

impl ReportFault {
    ghost use Rattle.acq_reports.specs.Faults.{number_of};

    /// The fault's number.
    pub fn number(&self) -> u8
        ensures { result ≡ number_of self.now }
    {
        match self {
            ReportFault::Memory => 1,
            ReportFault::Store => 2,
            ReportFault::NoSuchMerchant => 37,
            ReportFault::Write(_) => 54,
            ReportFault::DayNotOver => 60,
            ReportFault::StillPending(_) => 61,
        }
    }
}

impl fmt::Display for ReportFault {
    ghost use Rattle.std.specs.Prelude.{Some};
    ghost use Rattle.acq_reports.specs.Faults.{text_of};

    ghost output = { λ f. Some (text_of f) };

    fn fmt<W: fmt::Write>(&self, f: &mut fmt::Formatter<W>) -> fmt::Result {
        match self {
            ReportFault::Memory => f.write_str("1 Memory"),
            ReportFault::Store => f.write_str("2 Store"),
            ReportFault::NoSuchMerchant => f.write_str("37 NoSuchMerchant"),
            ReportFault::Write(bytes) => write!(f, "54 Write {bytes}"),
            ReportFault::DayNotOver => f.write_str("60 DayNotOver"),
            ReportFault::StillPending(requests) => write!(f, "61 StillPending {requests}"),
        }
    }
}

impl Error for ReportFault {}

impl From<BookFault> for ReportFault {
    ghost use Rattle.acq_reports.specs.Faults.{of_book};

    ghost from_gives = { λ e f. f ≡ of_book e };

    fn from(e: BookFault) -> ReportFault {
        match e {
            BookFault::Memory => ReportFault::Memory,
            BookFault::Store => ReportFault::Store,
        }
    }
}
