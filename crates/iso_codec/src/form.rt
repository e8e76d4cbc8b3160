//! How long an element is.

/// The length of an element's content, in bytes: `Fixed` has just so many; before an `Llvar` stand
/// two decimal digits of its length, before an `Lllvar` three, and neither is longer than its
/// bound.
#[derive(Clone, Copy)]
pub enum Form {
    Fixed(u8),
    Llvar(u8),
    Lllvar(u16),
}
