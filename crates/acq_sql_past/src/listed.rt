//! Rows that stand in lists.

use acq_core::{Merchant, Request, Terminal};
use acq_past::Posted;
use acq_sql_reads::{read_merchant, read_posting, read_range, read_request, read_terminal};
use card_no::Range;
use day_totals::Leg;
use sqlite::{Error, Row};
use std::alloc::Global;

/// What a row of a table is read as.
pub(crate) trait Listed: Sized {
    /// The query of all rows of the table, in the order in which they came.
    fn query() -> &'static str;

    fn read(alloc: Global, row: &Row) -> Result<Self, Error>;
}

impl Listed for Merchant {
    fn query() -> &'static str {
        "SELECT merchant, currency, first FROM merchants ORDER BY rowid"
    }

    fn read(_alloc: Global, row: &Row) -> Result<Merchant, Error> {
        read_merchant(row)
    }
}

impl Listed for Terminal {
    fn query() -> &'static str {
        "SELECT merchant, terminal FROM terminals ORDER BY rowid"
    }

    fn read(_alloc: Global, row: &Row) -> Result<Terminal, Error> {
        read_terminal(row)
    }
}

impl Listed for Range {
    fn query() -> &'static str {
        "SELECT low, high, issuer, hold_days FROM ranges ORDER BY rowid"
    }

    fn read(alloc: Global, row: &Row) -> Result<Range, Error> {
        read_range(alloc, row)
    }
}

impl Listed for Request {
    fn query() -> &'static str {
        "SELECT merchant, terminal, kind, trace, stamp, essence, day, status, admitted, reference, \
            follows, amount, leg, card, acquirer, hold_days, until, reply \
            FROM requests ORDER BY rowid"
    }

    fn read(alloc: Global, row: &Row) -> Result<Request, Error> {
        read_request(alloc, row)
    }
}

impl Listed for Posted {
    fn query() -> &'static str {
        "SELECT merchant, day, number, leg, amount, reference, card, terminal, trace \
            FROM postings ORDER BY rowid"
    }

    fn read(alloc: Global, row: &Row) -> Result<Posted, Error> {
        let (number, posting) = read_posting(alloc, row)?;
        let reverses = matches!(posting.leg, Leg::CreditReversal | Leg::DebitReversal);
        Ok(Posted {
            merchant: posting.merchant,
            day: posting.day,
            number,
            reference: posting.reference,
            reverses,
        })
    }
}
