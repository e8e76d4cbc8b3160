//! Keys of requests.

ghost use Rattle.std.specs.Prelude.{◌≡◌, true};
ghost use Rattle.acq_message.specs.Names.{is_trace, is_transmission};
ghost use Rattle.acq_message.specs.Services.{is_recordable, names_original};
ghost use Rattle.acq_message.specs.Elements.{text_at, key_of, original_service, original_key};

use crate::checked_request::CheckedRequest;
use crate::elements::{content_at, part};
use crate::merchant_id::MerchantId;
use crate::service::Service;
use crate::terminal_id::TerminalId;
use crate::trace::Trace;
use crate::transmission::Transmission;

/// What tells a recorded request from all others. A request with the same key is a repeat (own
/// profile).
#[derive(Clone, Copy, PartialEq, Eq, Hash)]
pub struct RequestKey {
    pub merchant: MerchantId,
    pub terminal: TerminalId,
    pub service: Service,
    pub trace: Trace,
    pub transmission: Transmission,
}

/// The merchant of a request, in element 42. It takes no memory.
pub fn merchant_of(request: &CheckedRequest) -> MerchantId
    requires { is_recordable request.now.service ≡ true }
    ensures { result ≡ text_at request.now.message 42 }
{
    let Some(merchant) = MerchantId::read(content_at(&request.as_request().message, 42)) else {
        unreachable!();
    };
    merchant
}

/// The terminal of a request, in element 41. It takes no memory.
pub fn terminal_of(request: &CheckedRequest) -> TerminalId
    requires { is_recordable request.now.service ≡ true }
    ensures { result ≡ text_at request.now.message 41 }
{
    let Some(terminal) = TerminalId::read(content_at(&request.as_request().message, 41)) else {
        unreachable!();
    };
    terminal
}

/// The trace number of a request, in element 11. It takes no memory.
pub fn trace_of(request: &CheckedRequest) -> Trace
    requires { is_recordable request.now.service ≡ true }
    ensures { result ≡ text_at request.now.message 11 }
{
    trace_in(content_at(&request.as_request().message, 11))
}

/// The key of a request. It takes no memory.
pub fn key_of(request: &CheckedRequest) -> RequestKey
    requires { is_recordable request.now.service ≡ true }
    ensures { result ≡ key_of request.now.service request.now.message }
{
    let sent = content_at(&request.as_request().message, 7);
    RequestKey {
        merchant: merchant_of(request),
        terminal: terminal_of(request),
        service: request.as_request().service,
        trace: trace_of(request),
        transmission: transmission_in(sent),
    }
}

/// The key of the request that element 90 names, at the same merchant and terminal; `None` where
/// its type is none that can be reversed. It takes no memory.
pub fn original_key(request: &CheckedRequest) -> Option<RequestKey>
    requires { names_original request.now.service ≡ true }
    ensures { result ≡ original_key request.now.message }
{
    let original = content_at(&request.as_request().message, 90);
    let service = original_service(part(original, 0, 3))?;
    Some(RequestKey {
        merchant: merchant_of(request),
        terminal: terminal_of(request),
        service,
        trace: trace_in(part(original, 4, 6)),
        transmission: transmission_in(part(original, 10, 10)),
    })
}

/// The service of an original that can be reversed, by the first digits of its type.
fn original_service(digits: &[u8]) -> Option<Service>
    ensures { result ≡ original_service digits.now }
{
    match digits {
        b"010" => Some(Service::Authorization),
        b"020" => Some(Service::Financial),
        b"022" => Some(Service::Completion),
        _ => None,
    }
}

fn trace_in(text: &[u8]) -> Trace
    requires { is_trace text.now ≡ true }
    ensures { result ≡ text.now }
{
    let Some(trace) = Trace::read(text) else {
        unreachable!();
    };
    trace
}

fn transmission_in(text: &[u8]) -> Transmission
    requires { is_transmission text.now ≡ true }
    ensures { result ≡ text.now }
{
    let Some(transmission) = Transmission::read(text) else {
        unreachable!();
    };
    transmission
}
