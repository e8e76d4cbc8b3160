//! A message of which some lines were read.

use iso_codec::Message;

/// A message of which some lines were read.
#[derive(Drop)]
pub(crate) struct Draft {
    /// The line of its type, counted from 1.
    pub line: u64,
    /// Its type, and its elements so far.
    pub message: Message,
}
