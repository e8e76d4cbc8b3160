//! Why a connection was given up.

use acq_book::BookFault;
use acq_link::{DeframeFault, Failed};
use iso_codec::DecodeFault;
use std::error::Error;
use std::fmt;

/// Why a connection was given up. Its text is its number, its name and its values, as printed lines
/// have them.
#[derive(Clone, Copy, Debug, PartialEq)]
pub enum FrontFault {
    /// 1: memory ran out.
    Memory,
    /// 2: a call of the store failed, or gave rows that break the bounds of their columns.
    Store,
    /// 50: a frame's length is 0 or above 4,096.
    BadLength,
    /// 51: the input ended inside a frame.
    Ended,
    /// 52: a frame spells no message, for this reason.
    Undecodable(DecodeFault),
    /// 53: a read failed.
    Read,
    /// 54: a write failed, and so many bytes of the reply's frame in hand had been written.
    Write(u64),
}

impl FrontFault {
    ghost use Rattle.std.specs.Prelude.{◌≡◌};
    ghost use Rattle.acq_front.specs.Faults.{number_of};

    /// The fault's number.
    pub fn number(&self) -> u8
        ensures { result ≡ number_of self.now }
    {
        match self {
            FrontFault::Memory => 1,
            FrontFault::Store => 2,
            FrontFault::BadLength => 50,
            FrontFault::Ended => 51,
            FrontFault::Undecodable(_) => 52,
            FrontFault::Read => 53,
            FrontFault::Write(_) => 54,
        }
    }
}

impl fmt::Display for FrontFault {
    ghost use Rattle.std.specs.Prelude.{Some};
    ghost use Rattle.acq_front.specs.Faults.{text_of};

    ghost output = { λ f. Some (text_of f) };

    fn fmt<W: fmt::Write>(&self, f: &mut fmt::Formatter<W>) -> fmt::Result {
        match self {
            FrontFault::Memory => f.write_str("1 Memory"),
            FrontFault::Store => f.write_str("2 Store"),
            FrontFault::BadLength => f.write_str("50 BadLength"),
            FrontFault::Ended => f.write_str("51 Ended"),
            FrontFault::Undecodable(fault) => {
                write!(f, "52 Undecodable {} {}", fault.number(), fault.element())
            }
            FrontFault::Read => f.write_str("53 Read"),
            FrontFault::Write(bytes) => write!(f, "54 Write {bytes}"),
        }
    }
}

impl Error for FrontFault {}

impl From<BookFault> for FrontFault {
    ghost use Rattle.std.specs.Prelude.{◌≡◌};
    ghost use Rattle.acq_front.specs.Faults.{of_book};

    ghost from_gives = { λ e f. f ≡ of_book e };

    fn from(e: BookFault) -> FrontFault {
        match e {
            BookFault::Memory => FrontFault::Memory,
            BookFault::Store => FrontFault::Store,
        }
    }
}

impl From<DeframeFault> for FrontFault {
    ghost use Rattle.std.specs.Prelude.{◌≡◌};
    ghost use Rattle.acq_front.specs.Faults.{of_stream};

    ghost from_gives = { λ e f. f ≡ of_stream e };

    fn from(e: DeframeFault) -> FrontFault {
        match e {
            DeframeFault::Memory => FrontFault::Memory,
            DeframeFault::BadLength => FrontFault::BadLength,
        }
    }
}

impl From<Failed> for FrontFault {
    ghost use Rattle.std.specs.Prelude.{◌≡◌};
    ghost use Rattle.acq_front.specs.declared.front_fault.FrontFault.TheVariants.{Read};

    ghost from_gives = { λ _ f. f ≡ Read };

    fn from(_e: Failed) -> FrontFault {
        FrontFault::Read
    }
}
