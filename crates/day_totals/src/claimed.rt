//! The totals that a terminal has of its day, against which the host's are held.

/// The totals that a terminal claims for a day.
#[derive(Clone, Copy, Debug, PartialEq, Eq)]
pub struct Claimed {
    /// Elements 74 to 77: the numbers of credits, credit reversals, debits and debit reversals.
    pub counts: [u64; 4],
    /// Elements 86 to 89: their amounts in minor units, in the same order.
    pub amounts: [u64; 4],
    /// Element 97 as a number, negative for `D`.
    pub net: i64,
}
