//! Why a message got no reply.

use acq_link::DeframeFault;

/// Why a message got no reply.
#[derive(Clone, Copy, Debug, PartialEq, Eq, Drop)]
pub enum NoReply {
    /// Memory ran out.
    Memory,
    /// The host took no more than so many bytes of its frame.
    Unsent(u64),
    /// Nothing came, or no whole frame, in time.
    Silent,
    /// The host ended the connection.
    Ended,
    /// What came is no frame: its length is 0, or above 4,096.
    BadLength,
    /// The connection broke.
    Read,
}

impl NoReply {
    ghost use Rattle.std.specs.Prelude.{◌≡◌};
    ghost use Rattle.acq_ask.specs.Turns.{is_silent};

    /// Whether nothing came in time, so that the next message may be sent all the same.
    pub(crate) fn is_silent(self) -> bool
        ensures { result ≡ is_silent self }
    {
        matches!(self, NoReply::Silent)
    }
}

impl From<DeframeFault> for NoReply {
    ghost use Rattle.std.specs.Prelude.{◌≡◌};
    ghost use Rattle.acq_ask.specs.Turns.{of_deframer};

    ghost from_gives = { λ e cause. cause ≡ of_deframer e };

    fn from(e: DeframeFault) -> NoReply {
        match e {
            DeframeFault::Memory => NoReply::Memory,
            DeframeFault::BadLength => NoReply::BadLength,
        }
    }
}
