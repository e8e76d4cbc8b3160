//! What is told of a row.

ghost use Rattle.std.specs.Prelude.{◌≡◌};
ghost use Rattle.acq_gateway_lines.specs.Notices.{notice_by, notice_of, timeout_in};

use acq_core::{Request, Service, Status};
use acq_message::text_at;

/// What a gateway to issuers is told of a row of the book (own profile).
#[derive(Clone, Copy, Debug, PartialEq, Eq)]
pub enum Notice {
    /// The request waits for its issuer's answer.
    Query,
    /// It completes a hold.
    Completion,
    /// It reverses a request, whole or in part.
    Reversal,
    /// It was ended without an answer: its issuer may have approved it.
    Timeout,
}

/// What is told of a row, if anything is.
pub fn notice_of(row: &Request) -> Option<Notice>
    ensures { result ≡ notice_of row.now }
{
    match row.status {
        Status::Pending => Some(Notice::Query),
        Status::Refused | Status::Reconciled => None,
        _ => notice_by(row),
    }
}

/// What is told of a row that was admitted or accepted, and doesn't wait.
fn notice_by(row: &Request) -> Option<Notice>
    ensures { result ≡ notice_by row.now.key.service row.now }
{
    match row.key.service {
        Service::Completion => Some(Notice::Completion),
        Service::Reversal | Service::ReversalAdvice => Some(Notice::Reversal),
        Service::Authorization | Service::Financial => timeout_in(row),
        Service::Reconciliation | Service::NetworkManagement => None,
    }
}

/// A timeout, if the request was ended so.
fn timeout_in(row: &Request) -> Option<Notice>
    ensures { result ≡ timeout_in row.now }
{
    if matches!(row.status, Status::Declined) && text_at(&row.reply, 39) == b"91".as_slice() {
        Some(Notice::Timeout)
    } else {
        None
    }
}
