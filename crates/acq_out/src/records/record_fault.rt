//! Why a text's records gave no values.

ghost use Rattle.std.specs.Prelude.{◌≡◌};

use acq_link::InputFault;
use std::alloc::{AllocError, AllocFailed};
use std::error::Error;
use std::fmt;

/// Why a text's records gave no values. A caller tells it by a fault of its own, with its number.
#[derive(Clone, Copy, Debug, PartialEq, Drop)]
pub enum RecordFault {
    /// Memory ran out.
    Memory,
    /// A read failed.
    Read,
    /// The record with this number, counted from 1, is out of its form.
    BadRecord(u64),
}

impl fmt::Display for RecordFault {
    ghost use Rattle.std.specs.Prelude.{Some};
    ghost use Rattle.acq_out.specs.RecordFaults.{text_of};

    ghost output = { λ f. Some (text_of f) };

    fn fmt<W: fmt::Write>(&self, f: &mut fmt::Formatter<W>) -> fmt::Result {
        match self {
            RecordFault::Memory => f.write_str("out of memory"),
            RecordFault::Read => f.write_str("a read failed"),
            RecordFault::BadRecord(record) => write!(f, "record {record} is out of its form"),
        }
    }
}

impl Error for RecordFault {}

impl From<AllocError> for RecordFault {
    ghost use Rattle.acq_out.specs.declared.records.record_fault.RecordFault.TheVariants.{Memory};

    ghost from_gives = { λ _ f. f ≡ Memory };

    fn from(_e: AllocError) -> RecordFault {
        RecordFault::Memory
    }
}

impl<T: Drop> From<AllocFailed<T>> for RecordFault {
    ghost use Rattle.acq_out.specs.declared.records.record_fault.RecordFault.TheVariants.{Memory};

    ghost from_gives = { λ _ f. f ≡ Memory };

    fn from(_e: AllocFailed<T>) -> RecordFault {
        RecordFault::Memory
    }
}

impl From<InputFault> for RecordFault {
    ghost use Rattle.acq_out.specs.RecordFaults.{of_input};

    ghost from_gives = { λ e f. f ≡ of_input e };

    fn from(e: InputFault) -> RecordFault {
        match e {
            InputFault::Memory => RecordFault::Memory,
            InputFault::Read => RecordFault::Read,
        }
    }
}
