//! What an issuer's answer makes of a request.

use acq_core::{RequestKey, Status};
use iso_codec::Message;

/// What the request with a key gets, once it is answered.
#[derive(Clone, Copy)]
pub struct IssuerAnswer<'x> {
    pub key: RequestKey,
    pub status: Status,
    /// The last second of a hold that opens.
    pub hold_end: Option<u64>,
    pub reply: &'x Message,
    /// The reply's bytes.
    pub text: &'x [u8],
}
