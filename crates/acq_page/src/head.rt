//! Heads of replies.

ghost use Rattle.std.specs.Prelude.{◌≡◌, ◌++◌, IfOk, OnOk};
ghost use Rattle.acq_page.specs.Replies.{date_field, field, head_of, policy_fields};
ghost use Rattle.acq_page.specs.Replies.{allow_field, content_fields};

use crate::content_kind::ContentKind;
use crate::status::Status;
use httpdate::HttpDate;
use itoa::Buffer;
use std::alloc::AllocError;

/// What a browser and what stands between may do with it: it shows a page with the style that stands
/// in it, and keeps, loads, sends and frames nothing.
const POLICY: &[u8] = b"Cache-Control: no-store\r\n\
    Content-Security-Policy: default-src 'none'; style-src 'unsafe-inline'; base-uri 'none'; \
    form-action 'none'; frame-ancestors 'none'\r\n\
    X-Content-Type-Options: nosniff\r\n\
    Referrer-Policy: no-referrer\r\n";

/// Puts the head of a reply with a body of this length.
pub(crate) fn put_head(
    text: &mut Vec<u8>,
    status: Status,
    kind: ContentKind,
    length: usize,
    date: Option<HttpDate>,
) -> Result<(), AllocError>
    ensures { OnOk result (text.new.items ≡ text.old.items ++ head_of status kind length date) }
{
    put_field(text, b"HTTP/1.1 ", status.reason().as_bytes())?;
    put_date(text, date)?;
    put_content(text, kind, length)?;
    put_allow(text, status)?;
    text.extend_from_slice(POLICY)?;
    put_field(text, b"Connection: ", b"close")?;
    text.extend_from_slice(b"\r\n")?;
    Ok(())
}

/// Puts when it was made, if that is known.
fn put_date(text: &mut Vec<u8>, date: Option<HttpDate>) -> Result<(), AllocError>
    ensures { OnOk result (text.new.items ≡ text.old.items ++ date_field date) }
{
    match date {
        Some(date) => put_field(text, b"Date: ", &date.to_bytes()),
        None => Ok(()),
    }
}

fn put_content(text: &mut Vec<u8>, kind: ContentKind, length: usize) -> Result<(), AllocError>
    ensures { OnOk result (text.new.items ≡ text.old.items ++ content_fields kind length) }
{
    put_field(text, b"Content-Type: ", kind.media().as_bytes())?;
    put_field(
        text,
        b"Content-Length: ",
        Buffer::new().format(length).as_bytes(),
    )?;
    Ok(())
}

/// Puts which methods are taken, where another one came.
fn put_allow(text: &mut Vec<u8>, status: Status) -> Result<(), AllocError>
    ensures { OnOk result (text.new.items ≡ text.old.items ++ allow_field status) }
{
    match status {
        Status::OtherMethod => put_field(text, b"Allow: ", b"GET, HEAD"),
        _ => Ok(()),
    }
}

fn put_field(text: &mut Vec<u8>, name: &[u8], value: &[u8]) -> Result<(), AllocError>
    ensures { OnOk result (text.new.items ≡ text.old.items ++ field name.now value.now) }
{
    text.extend_from_slice(name)?;
    text.extend_from_slice(value)?;
    text.extend_from_slice(b"\r\n")
}
