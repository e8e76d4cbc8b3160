//! The list of ranges that is asked for, and the host.

/// A list that is to become the ranges of a host.
#[derive(Drop)]
pub struct HostRangesOptions {
    /// The path of its control socket's file.
    pub path: String,
    /// For how many seconds an answer is waited for; 0 is for ever.
    pub within: u64,
    /// The path of the list's file.
    pub list: String,
    /// Whether only the events are written by which it would.
    pub is_dry: bool,
}
