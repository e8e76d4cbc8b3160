//! How far a clearing file in slices has come.

use acq_core::MerchantId;

/// How far a clearing file in slices has come.
#[derive(Clone, Copy)]
pub enum Bookmark {
    /// None of the day's postings has its record yet.
    Beginning,
    /// Those up to this merchant's of this number have.
    Behind(MerchantId, u64),
    /// All have.
    End,
}
