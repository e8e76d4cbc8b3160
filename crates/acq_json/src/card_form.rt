//! Whether what a card can be used by stands whole.

/// How the contents stand of the elements that show what a card can be used by: 2 (card number), 35
/// (track 2), 45 (track 1), 52 (PIN block), 55 (chip data).
#[derive(Clone, Copy)]
pub enum CardForm {
    /// As `show` shows them: masked, or by their length alone.
    Masked,
    /// Whole, byte for byte, as others do.
    Whole,
}
