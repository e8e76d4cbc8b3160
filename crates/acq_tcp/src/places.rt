//! Places of terminals.

/// How many terminals can be connected at once, and how many more than there are.
#[derive(Clone, Copy)]
pub(crate) struct Places {
    pub(crate) all: u64,
    pub(crate) open: u64,
}
