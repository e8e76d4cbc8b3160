//! Why a report stopped.

/// Why a report stopped.
#[derive(Clone, Copy, Debug, PartialEq, Eq)]
pub(crate) enum Stop {
    /// Memory ran out, or the count of bytes is full.
    Memory,
    /// A write failed, and so many bytes of the report had been written.
    Write(u64),
}
