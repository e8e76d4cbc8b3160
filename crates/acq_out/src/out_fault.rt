//! Why events were not read, or a text was not written.

ghost use Rattle.std.specs.Prelude.{◌≡◌};

use crate::records::RecordFault;
use std::alloc::{AllocError, AllocFailed};
use std::error::Error;
use std::fmt;

/// Why events were not read, or a text was not written. Its text is its number, its name and its
/// value, as printed lines have them.
#[derive(Clone, Copy, Debug, PartialEq, Drop)]
pub enum OutFault {
    /// 1: memory ran out.
    Memory,
    /// 53: a read failed.
    Read,
    /// 54: a write failed, and so many bytes of the text in hand had been written.
    Write(u64),
    /// 62: the record with this number, counted from 1, is out of its form.
    BadLine(u64),
}

impl OutFault {
    ghost use Rattle.acq_out.specs.Faults.{number_of};

    /// The fault's number.
    pub fn number(&self) -> u8
        ensures { result ≡ number_of self.now }
    {
        match self {
            OutFault::Memory => 1,
            OutFault::Read => 53,
            OutFault::Write(_) => 54,
            OutFault::BadLine(_) => 62,
        }
    }
}

impl fmt::Display for OutFault {
    ghost use Rattle.std.specs.Prelude.{Some};
    ghost use Rattle.acq_out.specs.Faults.{text_of};

    ghost output = { λ f. Some (text_of f) };

    fn fmt<W: fmt::Write>(&self, f: &mut fmt::Formatter<W>) -> fmt::Result {
        match self {
            OutFault::Memory => f.write_str("1 Memory"),
            OutFault::Read => f.write_str("53 Read"),
            OutFault::Write(bytes) => write!(f, "54 Write {bytes}"),
            OutFault::BadLine(record) => write!(f, "62 BadLine {record}"),
        }
    }
}

impl Error for OutFault {}

impl From<AllocError> for OutFault {
    ghost use Rattle.acq_out.specs.declared.out_fault.OutFault.TheVariants.{Memory};

    ghost from_gives = { λ _ f. f ≡ Memory };

    fn from(_e: AllocError) -> OutFault {
        OutFault::Memory
    }
}

impl<T: Drop> From<AllocFailed<T>> for OutFault {
    ghost use Rattle.acq_out.specs.declared.out_fault.OutFault.TheVariants.{Memory};

    ghost from_gives = { λ _ f. f ≡ Memory };

    fn from(_e: AllocFailed<T>) -> OutFault {
        OutFault::Memory
    }
}

impl From<RecordFault> for OutFault {
    ghost use Rattle.acq_out.specs.Faults.{of_records};

    ghost from_gives = { λ e f. f ≡ of_records e };

    fn from(e: RecordFault) -> OutFault {
        match e {
            RecordFault::Memory => OutFault::Memory,
            RecordFault::Read => OutFault::Read,
            RecordFault::BadRecord(record) => OutFault::BadLine(record),
        }
    }
}
