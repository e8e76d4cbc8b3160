//! How much may be there at once.

/// How much may be there at once.
#[derive(Clone, Copy)]
pub(crate) struct Bounds {
    /// How many connections.
    pub(crate) together: usize,
    /// How many connections of one address; without a number as many as come.
    pub(crate) from_one_address: Option<usize>,
    /// How many bytes of a log; 0 is as many as come.
    pub(crate) log_bytes: u64,
}
