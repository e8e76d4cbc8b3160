//! A control connection and its number.

use acq_control::ControlExchange;
use acq_front::StreamLine;

/// A control connection and its number.
#[derive(Drop)]
pub struct Control<S> {
    pub number: u64,
    pub exchange: ControlExchange<StreamLine<S>>,
}
