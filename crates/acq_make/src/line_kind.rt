//! What a line is.

/// What a line is, by its first word.
#[derive(Clone, Copy)]
pub(crate) enum LineKind {
    /// It says nothing: a remark of who wrote the text, or of `show`.
    Remark,
    /// It is empty, and ends a message.
    Empty,
    /// It begins with four bytes, which may be a message's type.
    Head([u8; 4]),
    /// It begins with the number of an element.
    Element(u8),
}
