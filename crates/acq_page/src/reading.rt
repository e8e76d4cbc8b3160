//! What a head asks.

ghost use Rattle.std.specs.Prelude.{◌≡◌, ◌≤◌, length};
ghost use Rattle.acq_page.specs.Requests.{IsAskedBy, asked_of, named_by};

use crate::asked::Asked;
use crate::host_name::is_other_host;
use crate::request::Request;
use httparse::spans::{EMPTY_HEADER_SPAN, parse_request};
use httparse::{Error, Status};

/// The most bytes of a head.
pub const LONGEST_HEAD: usize = 8192;

/// The most fields of a head.
const MOST_FIELDS: usize = 64;

/// What these bytes ask, once a head is whole in front of them, or can't become one.
pub(crate) fn asked_by(bytes: &[u8]) -> Option<Request>
    ensures { IsAskedBy bytes.now result }
{
    let mut fields = [EMPTY_HEADER_SPAN; MOST_FIELDS];
    match parse_request(bytes, &mut fields) {
        Ok(Status::Complete(head)) => {
            let method = head.method.of(bytes);
            let target = head.path.of(bytes);
            let mut for_other = false;
            for field in &fields[..head.headers] {
                for_other |= is_other_host(field.name.of(bytes), field.value.of(bytes));
            }
            Some(asked_of(method, target, for_other))
        }
        Ok(Status::Partial) => {
            if bytes.len() < LONGEST_HEAD {
                None
            } else {
                Some(Request::whole(Asked::TooLong))
            }
        }
        Err(Error::TooManyHeaders) => Some(Request::whole(Asked::TooLong)),
        Err(_) => Some(Request::whole(Asked::Bad)),
    }
}

/// What a head with this method and this target asks, for another host or not. The method is looked
/// at first, then the host, then the target.
fn asked_of(method: &[u8], target: &[u8], for_other: bool) -> Request
    ensures { result ≡ asked_of method.now target.now for_other }
{
    if method == b"GET".as_slice() {
        Request::whole(named_by(target, for_other))
    } else if method == b"HEAD".as_slice() {
        Request {
            asked: named_by(target, for_other),
            with_body: false,
        }
    } else {
        Request::whole(Asked::OtherMethod)
    }
}

/// What a target names, in a head for another host or not.
fn named_by(target: &[u8], for_other: bool) -> Asked
    ensures { result ≡ named_by target.now for_other }
{
    if for_other {
        Asked::OtherHost
    } else if target == b"/".as_slice() {
        Asked::Page
    } else if target == b"/metrics".as_slice() {
        Asked::Metrics
    } else {
        Asked::Missing
    }
}
