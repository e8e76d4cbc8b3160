//! What stands at the front of bytes that came over a link.

/// What stands at the front of bytes that came over a link.
#[derive(Clone, Copy, Drop)]
pub enum Front<'a> {
    /// A whole frame: the bytes of its message, and what stands behind the frame.
    Frame { message: &'a [u8], rest: &'a [u8] },
    /// Nothing, or a frame that is begun: more bytes may make it whole.
    Partial,
    /// A length of 0, or above 4,096.
    BadLength,
}
