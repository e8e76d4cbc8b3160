//! Why a text says no messages.

ghost use Rattle.std.specs.Prelude.{◌≡◌};

use iso_codec::SetFault;
use std::alloc::AllocError;
use std::error::Error;
use std::fmt;

/// Why a text says no messages. Lines are counted from 1.
#[derive(Clone, Copy, Debug)]
pub enum MakeFault {
    /// Memory ran out.
    Memory,
    /// This line is out of its form: it says neither a type nor an element, or an element of no
    /// message, or one that was said before, or it has what `show` prints in place of a content.
    BadLine(u64),
    /// An element can't have the content that this line says; or the message whose type this line
    /// says is longer than 4,096 bytes, which is a bad length of element 0.
    BadMessage(u64, SetFault),
}

impl fmt::Display for MakeFault {
    ghost use Rattle.std.specs.Prelude.{Some};
    ghost use Rattle.acq_make.specs.FaultTexts.{text_of};

    ghost output = { λ f. Some (text_of f) };

    fn fmt<W: fmt::Write>(&self, f: &mut fmt::Formatter<W>) -> fmt::Result {
        match self {
            MakeFault::Memory => f.write_str("out of memory"),
            MakeFault::BadLine(line) => write!(f, "line {line} says no element of a message"),
            MakeFault::BadMessage(line, fault) => write!(f, "line {line}: {fault}"),
        }
    }
}

impl Error for MakeFault {}

impl From<AllocError> for MakeFault {
    ghost use Rattle.acq_make.specs.declared.make_fault.MakeFault.TheVariants.{Memory};

    ghost from_gives = { λ _ f. f ≡ Memory };

    fn from(_e: AllocError) -> MakeFault {
        MakeFault::Memory
    }
}
