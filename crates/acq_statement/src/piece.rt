//! Pieces of a block.

/// The pieces of the block of a merchant's day.
#[derive(Clone, Copy)]
pub(crate) enum Piece {
    Title,
    /// A line for each terminal.
    Terminals,
    /// The merchant's totals.
    Total,
    /// Two lines for each reconciliation.
    Claims,
    Owed,
}

impl Piece {
    /// All, in order.
    pub const ALL: [Piece; 5] = [
        Piece::Title,
        Piece::Terminals,
        Piece::Total,
        Piece::Claims,
        Piece::Owed,
    ];
}
