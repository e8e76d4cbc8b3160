//! A line that was taken out of a stream.

/// A line that was taken out of a stream.
#[derive(Drop)]
pub(crate) enum TakenLine {
    /// This one, without its line feed.
    Whole(Vec<u8>),
    /// One that is too long to be kept.
    TooLong,
}
