//! The four ways in which a posting counts.

/// What a posting does to the card: a sale or a completion debits it, a return credits it, and a
/// reversal undoes either (the reconciliation totals of ISO 8583:1987).
#[derive(Clone, Copy, Debug, PartialEq, Eq)]
pub enum Leg {
    Credit,
    CreditReversal,
    Debit,
    DebitReversal,
}

impl Leg {
    /// The legs in their order: that of elements 74 to 77 and 86 to 89.
    pub const ALL: [Leg; 4] = [
        Leg::Credit,
        Leg::CreditReversal,
        Leg::Debit,
        Leg::DebitReversal,
    ];
}
