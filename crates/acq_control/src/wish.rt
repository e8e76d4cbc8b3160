//! What a line asks of those who serve the connection.

/// What a line asks of those who serve the connection, beside its answer.
#[derive(Clone, Copy, Debug, PartialEq, Eq)]
pub enum Wish {
    Nothing,
    /// That the log is opened anew.
    Reopen,
    /// That the host ends.
    Stop,
}
