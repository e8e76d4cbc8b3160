//! Network management.

ghost use Rattle.std.specs.Prelude.{◌≡◌};
ghost use Rattle.acq_core.specs.Decision.{network_response};

use acq_message::ResponseCode;
use iso_codec::Message;

/// The code of sign-on, sign-off and the echo test, by element 70 (ISO 8583:1987, network
/// management information code).
pub(super) fn network_response(message: &Message) -> ResponseCode
    ensures { result ≡ network_response message.now }
{
    match message.get(70) {
        Some(b"001" | b"002" | b"301") => ResponseCode::Approved,
        _ => ResponseCode::InvalidTransaction,
    }
}
