//! Whether pages have sums.

/// Whether each page of a new book's file has a sum, by which a byte that the disk changed is told.
#[derive(Clone, Copy, Debug, PartialEq, Eq)]
pub enum PageSums {
    With,
    Without,
}
