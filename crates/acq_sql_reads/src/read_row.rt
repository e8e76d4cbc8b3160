//! What reads the rows of a walk.

ghost use Rattle.std.specs.Prelude.{◌≡◌, length, IfOk};
ghost use Rattle.sqlite_value.specs.Order.{Row as Cells};
ghost use Rattle.acq_sql_rows.specs.Rows.{merchant_row, terminal_row, posting_row};
ghost use Rattle.acq_sql_reads.specs.Recorded.{IsRowOf};
ghost use Rattle.acq_sql_reads.specs.Looked.{range_cells};
ghost use Rattle.acq_sql_reads.specs.Failing.{FailsForMemory, IsMerchantRow, IsTerminalRow};
ghost use Rattle.acq_sql_reads.specs.Failing.{IsPostingRow, IsRangeRow, IsRequestRow};

use crate::enrolments::read_terminal;
use crate::posting_row::read_posting;
use crate::ranges::read_range;
use crate::{read_merchant, read_request};
use acq_core::{Merchant, Posting, Request, Terminal};
use card_no::Range;
use sqlite::{Error, ErrorCode, Row};
use std::alloc::Global;

/// Reads rows of one kind.
pub(crate) trait ReadRow<T> {
    /// The row is this one's.
    ghost shows: { Cells → T → Type 0 };

    /// The row is such as a book has.
    ghost fits: { Cells → Type 0 };

    /// Whose row it is, or the fault of one that the host hasn't written.
    fn read(&self, row: &Row) -> Result<T, Error>
        ensures value { IfOk result (shows row.now) }
        ensures fails { fits row.now → FailsForMemory result };
}

/// Merchants.
#[derive(Drop)]
pub(crate) struct MerchantRows;

impl ReadRow<Merchant> for MerchantRows {
    ghost shows = { λ row m. length row ≡ 3 → row ≡ merchant_row m };

    ghost fits = { IsMerchantRow };

    fn read(&self, row: &Row) -> Result<Merchant, Error> {
        read_merchant(row)
    }
}

/// Terminals.
#[derive(Drop)]
pub(crate) struct TerminalRows;

impl ReadRow<Terminal> for TerminalRows {
    ghost shows = { λ row x. length row ≡ 2 → row ≡ terminal_row x };

    ghost fits = { IsTerminalRow };

    fn read(&self, row: &Row) -> Result<Terminal, Error> {
        read_terminal(row)
    }
}

/// Ranges.
#[derive(Drop)]
pub(crate) struct RangeRows {
    pub(crate) alloc: Global,
}

impl ReadRow<Range> for RangeRows {
    ghost shows = { λ row r. length row ≡ 4 → row ≡ range_cells r };

    ghost fits = { IsRangeRow };

    fn read(&self, row: &Row) -> Result<Range, Error> {
        read_range(self.alloc, row)
    }
}

/// Postings with their numbers.
#[derive(Drop)]
pub(crate) struct PostingRows {
    pub(crate) alloc: Global,
}

impl ReadRow<(u64, Posting)> for PostingRows {
    ghost shows = { λ row p. length row ≡ 9 → row ≡ posting_row p };

    ghost fits = { IsPostingRow };

    fn read(&self, row: &Row) -> Result<(u64, Posting), Error> {
        read_posting(self.alloc, row)
    }
}

/// Requests.
#[derive(Drop)]
pub(crate) struct RequestRows {
    pub(crate) alloc: Global,
}

impl ReadRow<Request> for RequestRows {
    ghost shows = { λ row r. length row ≡ 18 → IsRowOf row r };

    ghost fits = { IsRequestRow };

    fn read(&self, row: &Row) -> Result<Request, Error> {
        read_request(self.alloc, row)
    }
}

/// Requests behind more rows than there can be: none is such as the host has written.
#[derive(Drop)]
pub(crate) struct NoRequestRows;

impl ReadRow<Request> for NoRequestRows {
    ghost shows = { λ row r. ⊥ };

    ghost fits = { λ row. ⊥ };

    fn read(&self, _row: &Row) -> Result<Request, Error> {
        Err(Error::SqliteFailure(ErrorCode::DatabaseCorrupt))
    }
}
