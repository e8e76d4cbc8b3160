//! Requests that the first check passed.

ghost use Rattle.std.specs.Prelude.{◌≡◌, true, false, Ok, Err, if◌then◌else◌};
ghost use Rattle.acq_message.specs.FirstCheck.{is_malformed};

use crate::first_check::is_malformed;
use crate::request_message::RequestMessage;
use std::marker::Model;

/// A request that the first check passed. Contracts see it as the request.
#[derive(Drop)]
pub struct CheckedRequest {
    request: RequestMessage,
}

impl Model for CheckedRequest {
    ghost use Rattle.std.specs.Prelude.{◌≡◌, false};
    ghost use Rattle.acq_message.specs.FirstCheck.{is_malformed};
    ghost use Rattle.acq_message.specs.declared.request_message.RequestMessage.{RequestMessage};

    ghost Value = { RequestMessage };

    ghost view = { λ x. x.request };

    ghost invariant = { λ x. is_malformed x.request.service x.request.message ≡ false };
}

impl CheckedRequest {
    /// The request, if the first check passes it; else it is given back.
    pub fn new(request: RequestMessage) -> Result<CheckedRequest, RequestMessage>
        ensures { result ≡ if is_malformed request.service request.message then Err request
            else Ok request }
    {
        if is_malformed(request.service, &request.message) {
            return Err(request);
        }
        Ok(CheckedRequest { request })
    }

    /// The request.
    pub fn as_request(&self) -> &RequestMessage
        ensures value { result.now ≡ self.now }
        ensures passed { is_malformed self.now.service self.now.message ≡ false }
    {
        &self.request
    }
}
