//! Rows of which something is told.

use crate::notice::Notice;
use crate::told_query::ToldQuery;
use acq_core::Request;

/// A row of which something is told: its number, what it is, and the row as it stands.
#[derive(Drop)]
pub(crate) struct ToldRow {
    pub(crate) number: u64,
    pub(crate) notice: Notice,
    pub(crate) row: Request,
}

impl ToldRow {
    /// The query that it is, if it is one.
    pub(crate) fn query(&self) -> Option<ToldQuery> {
        match (self.notice, self.row.reference) {
            (Notice::Query, Some(reference)) => Some(ToldQuery {
                number: self.number,
                merchant: self.row.key.merchant,
                reference,
            }),
            _ => None,
        }
    }
}
