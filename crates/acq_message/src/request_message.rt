//! Requests.

use crate::moment::Moment;
use crate::service::Service;
use iso_codec::Message;

/// A message of a type that is served, and when it came.
#[derive(Drop)]
pub struct RequestMessage {
    pub moment: Moment,
    pub service: Service,
    pub message: Message,
}
