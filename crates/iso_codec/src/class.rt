//! Which bytes an element may have.

/// The class of an element's content.
#[derive(Clone, Copy)]
pub enum Class {
    /// n: `0` to `9`.
    Numeric,
    /// an: digits, letters of either case and the space.
    Alphanumeric,
    /// ans: 0x20 to 0x7E.
    Printable,
    /// z: 0x30 to 0x3F and `D`, the characters of a magnetic track.
    Track,
    /// h: hexadecimal digits of either case (own profile).
    Hex,
    /// x+n: `C` or `D`, for credit or debit, and then digits.
    SignedNumeric,
    /// Every byte (own profile).
    Any,
}
