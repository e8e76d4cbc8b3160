//! Connections that were parted with.

use acq_front::FrontFault;

/// A connection that was parted with: its number, what was written to it, and how it ended, if it
/// did.
#[derive(Drop)]
pub struct Parted {
    pub number: u64,
    pub went: Vec<u8>,
    pub ended: Option<Result<(), FrontFault>>,
}
