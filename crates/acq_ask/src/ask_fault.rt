//! Why no more messages were sent.

use crate::no_reply::NoReply;
use acq_link::InputFault;
use iso_codec::DecodeFault;
use std::alloc::AllocError;
use std::error::Error;
use std::fmt;

/// Why no more messages were sent.
#[derive(Clone, Copy, Debug, Drop)]
pub enum AskFault {
    /// Memory ran out.
    Memory,
    /// The input couldn't be read.
    Read,
    /// A frame of the input has a length of 0, or above 4,096; or more than the one frame is there.
    BadLength,
    /// The input ends inside a frame.
    Ended,
    /// A message that is to be counted up can't be read.
    Undecodable(DecodeFault),
    /// The output took no more than so many bytes of a text.
    Write(u64),
    /// A message got no reply, and no later one can get one.
    NoReply(NoReply),
}

impl fmt::Display for AskFault {
    fn fmt<W: fmt::Write>(&self, f: &mut fmt::Formatter<W>) -> fmt::Result {
        f.write_str(match self {
            AskFault::Memory => "out of memory",
            AskFault::Read => "the input could not be read",
            AskFault::BadLength => "a frame of a bad length",
            AskFault::Ended => "the input ends inside a frame",
            AskFault::Undecodable(_) => "the message can't be read",
            AskFault::Write(_) => "the output could not be written",
            AskFault::NoReply(_) => "no reply came",
        })
    }
}

impl Error for AskFault {}

impl From<AllocError> for AskFault {
    ghost use Rattle.std.specs.Prelude.{◌≡◌};
    ghost use Rattle.acq_ask.specs.declared.ask_fault.AskFault.TheVariants.{Memory};

    ghost from_gives = { λ _ fault. fault ≡ Memory };

    fn from(_e: AllocError) -> AskFault {
        AskFault::Memory
    }
}

impl From<InputFault> for AskFault {
    ghost use Rattle.std.specs.Prelude.{◌≡◌};
    ghost use Rattle.acq_ask.specs.Asking.{of_input};

    ghost from_gives = { λ e fault. fault ≡ of_input e };

    fn from(e: InputFault) -> AskFault {
        match e {
            InputFault::Memory => AskFault::Memory,
            InputFault::Read => AskFault::Read,
        }
    }
}
