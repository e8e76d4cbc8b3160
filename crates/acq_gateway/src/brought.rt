//! What becomes of an answer that came.

/// What becomes of an answer that came.
#[derive(Clone, Copy, PartialEq, Eq)]
pub(crate) enum Brought {
    /// It is taken by the connection that waits for it.
    Waited,
    /// Nobody waits for it.
    Unwaited,
    /// Another one for the same request is to be taken before.
    Behind,
}
