//! Response codes of replies.

ghost use Rattle.std.specs.Prelude.{◌≡◌, ◌∷◌, [], IfOk, option_map};
ghost use Rattle.acq_ask.specs.Codes.{code_in, code_of, is_same};
ghost use Rattle.iso_codec.specs.Message.{content_of};

use iso_codec::{DecodeFault, Message, decode};
use std::alloc::{AllocError, Global};

/// The element that has the response code.
const RESPONSE_CODE: u8 = 39;

/// The response code of a reply.
#[derive(Clone, Copy, Debug, Drop)]
pub(crate) enum ReplyCode {
    /// These two characters, its element 39.
    Given([u8; 2]),
    /// It has none, or spells no message.
    Missing,
}

impl ReplyCode {
    /// The code of a reply.
    pub(crate) fn of(alloc: Global, reply: &[u8]) -> Result<ReplyCode, AllocError>
        ensures { IfOk result (λ code. code ≡ code_of reply.now) }
    {
        match decode(alloc, reply) {
            Ok(message) => Ok(ReplyCode::of_message(&message)),
            Err(DecodeFault::Memory) => Err(AllocError),
            Err(_) => Ok(ReplyCode::Missing),
        }
    }

    /// The code of a message.
    fn of_message(message: &Message) -> ReplyCode
        ensures { result ≡ code_in (content_of message.now.elements 39) }
    {
        match message.get(RESPONSE_CODE) {
            Some([first, second]) => ReplyCode::Given([*first, *second]),
            _ => ReplyCode::Missing,
        }
    }

    /// Whether both are the same.
    pub(crate) fn is_same(self, other: ReplyCode) -> bool
        ensures { result ≡ is_same self other }
    {
        match (self, other) {
            (ReplyCode::Given(one), ReplyCode::Given(other)) => one == other,
            (ReplyCode::Missing, ReplyCode::Missing) => true,
            _ => false,
        }
    }
}
