//! Replies to requests.

ghost use Rattle.std.specs.Prelude.{◌≡◌, ◌++◌, [], IfOk, OnOk, if◌then◌else◌};
ghost use Rattle.acq_page.specs.Answers.{IsBody, IsReplyTo, kind_of, status_of};

use crate::asked::Asked;
use crate::content::Content;
use crate::head::put_head;
use crate::host_said::HostSaid;
use crate::notice::notice;
use crate::page::page;
use crate::request::Request;
use crate::status::Status;
use httpdate::HttpDate;
use std::alloc::{AllocError, Global};

/// The reply to a request, by what the host said of itself. Metrics are the host's own text; in a
/// page each text of the host stands escaped.
pub fn reply_to(
    alloc: Global,
    request: Request,
    said: &HostSaid,
    date: Option<HttpDate>,
) -> Result<Vec<u8>, AllocError>
    ensures { IfOk result (λ reply. IsReplyTo request said.now date reply.items) }
{
    let content = content_for(alloc, request.asked, said)?;
    let body = content.body.as_slice();
    let mut reply = Vec::new(alloc);
    let length = body.len();
    put_head(&mut reply, content.status, content.kind, length, date)?;
    put_body(&mut reply, body, request.with_body)?;
    Ok(reply)
}

/// Puts a body behind its head, unless it was asked for without.
fn put_body(reply: &mut Vec<u8>, body: &[u8], with_body: bool) -> Result<(), AllocError>
    ensures { OnOk result (reply.new.items
        ≡ reply.old.items ++ (if with_body then body.now else [])) }
{
    if with_body {
        reply.extend_from_slice(body)
    } else {
        Ok(())
    }
}

/// What is said to a request.
fn content_for(alloc: Global, asked: Asked, said: &HostSaid) -> Result<Content, AllocError>
    ensures status { IfOk result (λ content. content.status ≡ status_of asked said.now) }
    ensures kind { IfOk result (λ content. content.kind ≡ kind_of asked said.now) }
    ensures body { IfOk result (λ content. IsBody asked said.now content.body.items) }
{
    match asked {
        Asked::Page => match &said.status {
            Some(status) => page(alloc, status.as_slice(), said),
            None => notice(alloc, Status::NoHost),
        },
        Asked::Metrics => match &said.metrics {
            Some(metrics) => Content::metrics(alloc, metrics.as_slice()),
            None => notice(alloc, Status::NoHost),
        },
        Asked::Missing => notice(alloc, Status::NotFound),
        Asked::OtherMethod => notice(alloc, Status::OtherMethod),
        Asked::OtherHost => notice(alloc, Status::OtherHost),
        Asked::Bad => notice(alloc, Status::BadHead),
        Asked::TooLong => notice(alloc, Status::HeadTooLong),
    }
}
