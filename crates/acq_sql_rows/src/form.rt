//! The two forms of a book's tables.

/// Whether the keys of requests, postings and reconciliations are unique in a book's tables. That
/// none comes twice is a law, whatever its form.
#[derive(Clone, Copy)]
pub enum Form {
    /// They are, in a book that an earlier build made.
    Unique,
    /// They have plain indexes, which nothing tests for keys that come twice.
    Plain,
}
