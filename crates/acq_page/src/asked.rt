//! What is asked for.

/// What a request asks for.
#[derive(Clone, Copy, Debug, PartialEq, Eq)]
pub enum Asked {
    /// The page.
    Page,
    /// The host's metrics.
    Metrics,
    /// What isn't there.
    Missing,
    /// By another method than GET or HEAD.
    OtherMethod,
    /// Another host than this machine.
    OtherHost,
    /// Nothing: its head is none.
    Bad,
    /// Nothing: its head is too long, or has too many fields.
    TooLong,
}
