//! What a command can't have of its machine.

use std::io::ErrorKind;

/// What a command can't have of its machine.
#[derive(Clone, Copy)]
pub enum Lack {
    /// The file of issuers' answers.
    Issuers,
    /// The file of events that a new book takes first.
    Events,
    /// The file of a list of ranges.
    Ranges,
    /// Two options name one file.
    SameFile,
    /// The file of the log for operators.
    Log,
    /// The socket at which control connections come.
    Control,
    /// The socket at which a gateway to issuers comes.
    Gateway,
    /// The address and the port at which terminals connect, for this reason.
    Port(ErrorKind),
    /// A host that takes control connections, for this reason.
    Host(ErrorKind),
    /// A host that takes terminals' connections, for this reason.
    TerminalsHost(ErrorKind),
}
