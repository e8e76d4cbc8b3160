//! Messages that get no reply.

ghost use Rattle.std.specs.Prelude.{◌≡◌};
ghost use Rattle.acq_front.specs.Silences.{unanswered_by};

use acq_core::Output;

/// Why a message gets no reply.
#[derive(Clone, Copy, Debug, PartialEq, Eq)]
pub enum Silence {
    /// Its type isn't served.
    Unserved,
    /// It repeats a request that waits for its issuer's answer.
    Waiting,
    /// It was reversed before its issuer's answer came.
    Late,
}

/// A message that gets no reply: its type, and why.
#[derive(Clone, Copy)]
pub struct Unanswered {
    pub kind: [u8; 4],
    pub why: Silence,
}

impl Unanswered {
    /// A message of this type, to which the host said this, if that is no reply.
    pub(crate) fn of(kind: [u8; 4], said: &Output) -> Option<Unanswered>
        ensures { result ≡ unanswered_by kind said.now }
    {
        let why = match said {
            Output::UnservedType(_) => Silence::Unserved,
            Output::Waiting => Silence::Waiting,
            Output::Late => Silence::Late,
            _ => return None,
        };
        Some(Unanswered { kind, why })
    }
}

/// The type of a message, in its first four bytes.
pub(crate) fn kind_of(message: &[u8]) -> [u8; 4] {
    match message {
        [first, second, third, fourth, ..] => [*first, *second, *third, *fourth],
        _ => [0; 4],
    }
}
