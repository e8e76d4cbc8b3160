//! How an element of a reply is set.

ghost use Rattle.std.specs.Prelude.{◌≡◌, None, IfOk};
ghost use Rattle.iso_codec.specs.Message.{with_content};
ghost use Rattle.iso_codec.specs.Setting.{set_fault};

use iso_codec::Message;
use std::alloc::{AllocError, Global};

/// The message with an element set to a content that it may have, so that only memory can be
/// wanting.
pub(crate) fn with_content(
    mut message: Message,
    alloc: Global,
    number: u8,
    content: &[u8],
) -> Result<Message, AllocError>
    requires { set_fault number content.now ≡ None }
    ensures { IfOk result (λ m. m ≡ record {
      kind = message.kind;
      elements = with_content message.elements number content.now;
    }) }
{
    match message.set(alloc, number, content) {
        Ok(()) => Ok(message),
        Err(_) => Err(AllocError),
    }
}
