//! Groups of changes in memory.

/// How far a group of changes has come.
#[derive(Clone, Copy, Debug)]
pub(crate) enum Group {
    /// No group is begun.
    NotBegun,
    /// One is begun.
    Begun,
    /// One was given up, and what it changed still stands in the tables.
    GivenUp,
}
