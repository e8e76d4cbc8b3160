//! What makes a request a repeat.

ghost use Rattle.std.specs.Prelude.{◌≡◌, IfOk};
ghost use Rattle.std.specs.Str.{bytes_eq};
ghost use Rattle.acq_message.specs.Elements.{essence_of};

use acq_core::Request;
use acq_message::{RequestMessage, essence_of};
use std::alloc::{AllocError, Global};

/// Whether a request is alike in its essence to a recorded one.
pub fn has_essence_of(
    alloc: Global,
    request: &RequestMessage,
    recorded: &Request,
) -> Result<bool, AllocError>
    ensures { IfOk result (λ is_alike. is_alike
        ≡ bytes_eq (essence_of request.now.service request.now.message) recorded.now.essence) }
{
    let essence = essence_of(alloc, request.service, &request.message)?;
    Ok(essence.as_bytes() == recorded.essence.as_bytes())
}
