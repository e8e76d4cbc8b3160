//! What is asked of frames that are answered once.

use acq_core::Moment;

/// Frames that are answered over a book.
#[derive(Drop)]
pub struct OnceOptions {
    /// The path of the book's file; without one the book is new, in memory.
    pub book: Option<String>,
    /// The path of the file that says what issuers answer; without one no issuer can be reached.
    pub issuers: Option<String>,
    /// The moment at which all of them come; without one it is the clock's.
    pub moment: Option<Moment>,
}
