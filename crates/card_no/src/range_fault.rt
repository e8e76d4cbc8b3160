//! Why a change of a list of ranges, or a file of them, is refused.

ghost use Rattle.std.specs.Prelude.{◌≡◌};
ghost use Rattle.card_no.specs.RangeChanges.{fault_number};

use crate::prefix::Prefix;
use crate::range::Range;
use std::alloc::{AllocError, AllocFailed};
use std::error::Error;
use std::fmt;

/// Why a list of ranges could not be changed or read. The text of a fault is its name and then its
/// values.
#[derive(Debug, Drop)]
pub enum RangeFault {
    /// Memory ran out.
    Memory,
    /// A range with a value out of its bounds.
    BadRange,
    /// The range overlaps this one of the list, the one of least `low` that does.
    Overlap(Range),
    /// No range has just these ends.
    NoSuchRange,
    /// A record of a file, counted from 1, that is out of its form or could not be read.
    BadLine(u64),
}

impl RangeFault {
    /// The number of the fault (own profile): 1 of memory, 20 to 23 of ranges.
    pub fn number(&self) -> u8
        ensures { result ≡ fault_number self.now }
    {
        match self {
            RangeFault::Memory => 1,
            RangeFault::BadRange => 20,
            RangeFault::Overlap(_) => 21,
            RangeFault::NoSuchRange => 22,
            RangeFault::BadLine(_) => 23,
        }
    }
}

impl fmt::Display for RangeFault {
    ghost use Rattle.std.specs.Prelude.{Some};
    ghost use Rattle.card_no.specs.FaultTexts.{fault_text};

    ghost output = { λ fault. Some (fault_text fault) };

    fn fmt<W: fmt::Write>(&self, f: &mut fmt::Formatter<W>) -> fmt::Result {
        match self {
            RangeFault::Memory => f.write_str("Memory"),
            RangeFault::BadRange => f.write_str("BadRange"),
            RangeFault::Overlap(other) => {
                let Range { low, high, .. } = other;
                let width = Prefix::DIGITS;
                write!(f, "Overlap {low:0width$} {high:0width$}")
            }
            RangeFault::NoSuchRange => f.write_str("NoSuchRange"),
            RangeFault::BadLine(record) => write!(f, "BadLine {record}"),
        }
    }
}

impl Error for RangeFault {}

impl From<AllocError> for RangeFault {
    ghost use Rattle.card_no.specs.declared.range_fault.RangeFault.TheVariants.{Memory};

    ghost from_gives = { λ _ e. e ≡ Memory };

    fn from(_e: AllocError) -> RangeFault {
        RangeFault::Memory
    }
}

impl<T: Drop> From<AllocFailed<T>> for RangeFault {
    ghost use Rattle.card_no.specs.declared.range_fault.RangeFault.TheVariants.{Memory};

    ghost from_gives = { λ _ e. e ≡ Memory };

    fn from(_e: AllocFailed<T>) -> RangeFault {
        RangeFault::Memory
    }
}
