//! The host that lines are sent to.

/// The host that lines are sent to.
#[derive(Drop)]
pub struct TellOptions {
    /// The path of its control socket's file.
    pub path: String,
    /// For how many seconds an answer is waited for; 0 is for ever.
    pub within: u64,
}
