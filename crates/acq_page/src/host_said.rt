//! What a host says of itself.

/// What a host last said of itself.
#[derive(Drop)]
pub struct HostSaid {
    /// To `status`, if it answered.
    pub status: Option<Vec<u8>>,
    /// To `metrics`, if it answered.
    pub metrics: Option<Vec<u8>>,
    /// To `pending,DAY`, of the first days of which something waits.
    pub pending: Vec<u8>,
    /// To `sums,DAY` of the business day, if it knows that line.
    pub sums: Option<Vec<u8>>,
}
