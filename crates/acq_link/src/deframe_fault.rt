//! Why no message could be taken out of a stream.

use std::alloc::AllocError;
use std::error::Error;
use std::fmt;

/// Why no message could be taken out of a stream.
#[derive(Clone, Copy, Debug, Drop)]
pub enum DeframeFault {
    /// A growth was refused.
    Memory,
    /// A length of 0, or above 4,096.
    BadLength,
}

impl fmt::Display for DeframeFault {
    ghost use Rattle.std.specs.Prelude.{Some};
    ghost use Rattle.acq_link.specs.FaultTexts.{text_of_deframe_fault};

    ghost output = { λ f. Some (text_of_deframe_fault f) };

    fn fmt<W: fmt::Write>(&self, f: &mut fmt::Formatter<W>) -> fmt::Result {
        f.write_str(match self {
            DeframeFault::Memory => "out of memory",
            DeframeFault::BadLength => "a frame of a bad length",
        })
    }
}

impl Error for DeframeFault {}

impl From<AllocError> for DeframeFault {
    ghost use Rattle.std.specs.Prelude.{◌≡◌};
    ghost use Rattle.acq_link.specs.declared.deframe_fault.DeframeFault.TheVariants.{Memory};

    ghost from_gives = { λ _ e. e ≡ Memory };

    fn from(_e: AllocError) -> DeframeFault {
        DeframeFault::Memory
    }
}
