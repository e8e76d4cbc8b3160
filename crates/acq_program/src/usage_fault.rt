//! What is wrong with the arguments.

use crate::option_name::OptionName;
use std::alloc::{AllocError, AllocFailed};

/// What is wrong with the arguments, or what is asked of the program itself.
#[derive(Debug, Drop)]
pub enum UsageFault {
    /// Words that the program doesn't take, a call for help or for the version, or no memory for
    /// the words.
    Words(clap::Error),
    /// An option's value is out of its form, or out of its range.
    BadValue(OptionName),
}

impl From<clap::Error> for UsageFault {
    ghost use Rattle.std.specs.Prelude.{◌≡◌};
    ghost use Rattle.acq_program.specs.declared.usage_fault.UsageFault.TheVariants.{Words};

    ghost from_gives = { λ e fault. fault ≡ Words e };

    fn from(e: clap::Error) -> UsageFault {
        UsageFault::Words(e)
    }
}

impl From<OptionName> for UsageFault {
    ghost use Rattle.std.specs.Prelude.{◌≡◌};
    ghost use Rattle.acq_program.specs.declared.usage_fault.UsageFault.TheVariants.{BadValue};

    ghost from_gives = { λ option fault. fault ≡ BadValue option };

    fn from(option: OptionName) -> UsageFault {
        UsageFault::BadValue(option)
    }
}

impl From<AllocError> for UsageFault {
    ghost use Rattle.acq_program.specs.Arguments.{IsNoMemory};

    ghost from_gives = { λ _ fault. IsNoMemory fault };

    fn from(e: AllocError) -> UsageFault {
        UsageFault::Words(clap::Error::from(e))
    }
}

impl<T: Drop> From<AllocFailed<T>> for UsageFault {
    ghost use Rattle.acq_program.specs.Arguments.{IsNoMemory};

    ghost from_gives = { λ _ fault. IsNoMemory fault };

    fn from(_e: AllocFailed<T>) -> UsageFault {
        UsageFault::from(AllocError)
    }
}
