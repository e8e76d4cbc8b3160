//! How a message is written.

ghost use Rattle.std.specs.Prelude.{◌≡◌, ◌++◌, OnOk, true};
ghost use Rattle.acq_link.specs.Frames.{fits_frame, frame};
ghost use Rattle.acq_make.specs.Written.{event_line, hex_line, made};

use crate::made_form::MadeForm;
use acq_message::Moment;
use itoa::Buffer;
use std::alloc::{AllocError, Global};

/// Puts a message's text in this form behind the others.
pub fn put_made(
    alloc: Global,
    form: &MadeForm,
    out: &mut Vec<u8>,
    text: &[u8],
) -> Result<(), AllocError>
    requires { fits_frame text.now ≡ true }
    ensures { OnOk result (out.new.items ≡ out.old.items ++ made form.now text.now) }
{
    match form {
        MadeForm::Frames => put_frame(out, text),
        MadeForm::HexLines => put_hex_line(alloc, out, text),
        MadeForm::EventLines(moment) => put_event_line(alloc, out, *moment, text),
    }
}

fn put_frame(out: &mut Vec<u8>, text: &[u8]) -> Result<(), AllocError>
    requires { fits_frame text.now ≡ true }
    ensures { OnOk result (out.new.items ≡ out.old.items ++ frame text.now) }
{
    let length = text.len() as u16;
    out.extend_from_slice(&length.to_be_bytes())?;
    out.extend_from_slice(text)
}

fn put_hex_line(alloc: Global, out: &mut Vec<u8>, text: &[u8]) -> Result<(), AllocError>
    ensures { OnOk result (out.new.items ≡ out.old.items ++ hex_line text.now) }
{
    let digits = hex::encode_upper(alloc, text)?;
    out.extend_from_slice(digits.as_bytes())?;
    out.extend_from_slice(b"\n")
}

/// Puts the event line of a message that came at this moment.
fn put_event_line(
    alloc: Global,
    out: &mut Vec<u8>,
    moment: Moment,
    text: &[u8],
) -> Result<(), AllocError>
    ensures { OnOk result (out.new.items ≡ out.old.items ++ event_line moment text.now) }
{
    let mut seconds = Buffer::new();
    let digits = hex::encode_upper(alloc, text)?;
    out.extend_from_slice(b"frame,")?;
    out.extend_from_slice(seconds.format(moment.seconds()).as_bytes())?;
    out.extend_from_slice(b",")?;
    out.extend_from_slice(digits.as_bytes())?;
    out.extend_from_slice(b",,,\n")
}
