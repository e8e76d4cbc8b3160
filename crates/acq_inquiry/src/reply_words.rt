//! Replies to requests.

ghost use Rattle.std.specs.Prelude.{◌≡◌, ◌++◌, OnOk};
ghost use Rattle.iso_codec.specs.Message.{content_of};
ghost use Rattle.acq_inquiry.specs.RequestLines.{id_words, reply_words};

use acq_core::Status;
use acq_message::text_at;
use acq_show::put_content;
use iso_codec::Message;
use std::alloc::AllocError;

/// Puts what the reply to a request is, or that there is none.
pub(crate) fn put_reply_words(
    text: &mut Vec<u8>,
    status: Status,
    reply: &Message,
) -> Result<(), AllocError>
    ensures { OnOk result (text.new.items ≡ text.old.items ++ reply_words status reply.now) }
{
    match status {
        Status::Pending => text.extend_from_slice(b"waits for its issuer"),
        Status::ReversedPending => text.extend_from_slice(b"reversed before its issuer answered"),
        _ => {
            text.extend_from_slice(b"reply ")?;
            put_content(text, 39, text_at(reply, 39))?;
            put_id_words(text, reply)
        }
    }
}

/// Puts the authorization id, where it is there.
fn put_id_words(text: &mut Vec<u8>, reply: &Message) -> Result<(), AllocError>
    ensures { OnOk result (text.new.items
        ≡ text.old.items ++ id_words (content_of reply.now.elements 38)) }
{
    match reply.get(38) {
        Some(id) => {
            text.extend_from_slice(b", authorization id ")?;
            put_content(text, 38, id)
        }
        None => Ok(()),
    }
}
