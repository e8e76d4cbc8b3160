//! What ends a connection that didn't end by itself.

/// What ends a connection.
#[derive(Clone, Copy, PartialEq, Eq)]
pub(crate) enum Ending {
    /// What came over it, or what its line said.
    Own,
    /// It took too long.
    Late,
    /// It made room for another one.
    MadeRoom,
    /// The host ended.
    Stopped,
}
