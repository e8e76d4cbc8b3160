//! Why a text of hexadecimal lines gave no frames.

ghost use Rattle.std.specs.Prelude.{◌≡◌};

use std::alloc::AllocError;
use std::error::Error;
use std::fmt;

/// Why a text of hexadecimal lines gave no frames.
#[derive(Clone, Copy, Debug, Drop)]
pub enum HexFault {
    /// A growth was refused.
    Memory,
    /// The line with this number, counted from 1, is the first that holds something else than a
    /// message of 1 to 4,096 bytes.
    BadLine(u64),
}

impl fmt::Display for HexFault {
    ghost use Rattle.std.specs.Prelude.{Some};
    ghost use Rattle.acq_link.specs.HexFaults.{text_of};

    ghost output = { λ f. Some (text_of f) };

    fn fmt<W: fmt::Write>(&self, f: &mut fmt::Formatter<W>) -> fmt::Result {
        match self {
            HexFault::Memory => f.write_str("out of memory"),
            HexFault::BadLine(number) => write!(f, "line {number} holds no message"),
        }
    }
}

impl Error for HexFault {}

impl From<AllocError> for HexFault {
    ghost use Rattle.acq_link.specs.declared.hex_frames.hex_fault.HexFault.TheVariants.{Memory};

    ghost from_gives = { λ _ f. f ≡ Memory };

    fn from(_e: AllocError) -> HexFault {
        HexFault::Memory
    }
}
