//! Counts of messages that got no reply.

/// How many messages got no reply, by why.
#[derive(Clone, Copy)]
pub struct UnansweredCounts {
    /// Their type isn't served.
    pub unserved: u64,
    /// They repeat a request that waits for its issuer's answer.
    pub waiting: u64,
    /// They were reversed before their issuer's answer came.
    pub late: u64,
}
