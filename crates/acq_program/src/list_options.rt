//! The listing that is asked for.

use acq_directory::Listing;

/// A listing of the book in a file.
#[derive(Drop)]
pub struct ListOptions {
    /// The path of the book's file.
    pub path: String,
    pub listing: Listing,
}
