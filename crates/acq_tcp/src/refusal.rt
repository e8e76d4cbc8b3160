//! Why connections aren't served that came.

use acq_faults::Fault;

/// Why a connection isn't served that came.
#[derive(Clone, Copy, PartialEq, Eq)]
pub(crate) enum Refusal {
    /// Its address has as many connections as it may.
    TooMany,
    /// It begins with no header of a proxy, or ended inside one.
    NoHeader,
    /// It ended without a byte.
    Ended,
    /// Its header took too long.
    Late,
    /// It couldn't be read.
    Failed,
    /// It made room before its header was whole.
    MadeRoom,
    /// The host ended.
    Stopped,
}

impl Refusal {
    /// What fault it is, if it is one.
    pub(crate) fn fault(self) -> Option<Fault> {
        match self {
            Refusal::NoHeader => Some(Fault::NoProxyHeader),
            Refusal::Late | Refusal::Failed => Some(Fault::Read),
            _ => None,
        }
    }

    /// That fault's number.
    pub(crate) fn number(self) -> Option<u64> {
        match self {
            Refusal::NoHeader => Some(56),
            Refusal::Late | Refusal::Failed => Some(53),
            _ => None,
        }
    }

    /// Why, in words.
    pub(crate) fn words(self) -> &'static str {
        match self {
            Refusal::TooMany => "its address has as many connections as it may",
            Refusal::NoHeader => "it begins with no header of the PROXY protocol",
            Refusal::Ended => "it ended before its header",
            Refusal::Late => "its header took too long",
            Refusal::Failed => "a read failed",
            Refusal::MadeRoom => "it made room for another one before its header was whole",
            Refusal::Stopped => "the host ended",
        }
    }
}
