//! What a gateway gets, in slices.

ghost use Rattle.std.specs.Prelude.{◌≡◌, [], false, is_ok, IfOk};
ghost use Rattle.acq_book.specs.Calls.{Looks};
ghost use Rattle.acq_book.specs.Promise.{CountsFault};
ghost use Rattle.acq_gateway_lines.specs.Slices.{IsSliceOf};

use crate::notice::notice_of;
use crate::row_line::lines_of;
use crate::told_query::ToldQuery;
use crate::told_row::ToldRow;
use crate::waiting_message::WaitingMessage;
use acq_book::{Book, BookFault, Visit};
use acq_core::{Moment, Request};
use std::alloc::{AllocError, Global};

/// How many rows a slice tells at most: each is looked up.
const MOST_TOLD: usize = 64;

/// A piece of what a gateway gets, how many rows it has then gone over, and the queries that are in
/// the piece.
#[derive(Drop)]
pub struct GatewaySlice {
    pub text: Vec<u8>,
    pub rows: u64,
    pub queries: Vec<ToldQuery>,
}

/// The lines of the rows behind so many, as they stand, written at a moment: of the next rows, of
/// which so many are gone over at most. The message of a request that waits is in its line where it
/// is among these.
#[tactic(auto, using(acq_book::proofs::Chains::looks_more))]
pub fn gateway_slice<B: Book>(
    alloc: Global,
    book: &mut B,
    moment: Moment,
    messages: &[WaitingMessage],
    rows: u64,
    most: u64,
) -> Result<GatewaySlice, BookFault>
    ensures slice { B.is_honest book.new → B.is_open book.old → IfOk result
        (IsSliceOf (B.tables book.old) moment messages.now rows most) }
    ensures looks { Looks B.Book book.old book.new (is_ok result) }
    ensures store { CountsFault result (B.failures book.old) (B.failures book.new) }
{
    let mut gathering = Gathering::behind(alloc, rows, most);
    book.walk_requests_behind(rows, &mut gathering)?;
    if gathering.is_short {
        return Err(BookFault::Memory);
    }
    let queries = queries_in(alloc, gathering.told.as_slice())?;
    let text = lines_of(alloc, book, moment, messages, gathering.told.as_slice())?;
    Ok(GatewaySlice {
        text,
        rows: gathering.rows,
        queries,
    })
}

/// The queries among rows of which something is told.
fn queries_in(alloc: Global, told: &[ToldRow]) -> Result<Vec<ToldQuery>, AllocError> {
    let mut queries = Vec::new(alloc);
    for row in told {
        if let Some(query) = row.query() {
            queries.push(query)?;
        }
    }
    Ok(queries)
}

/// The rows of a slice of which something is told.
#[derive(Drop)]
struct Gathering {
    alloc: Global,
    told: Vec<ToldRow>,
    /// How many rows it has gone over, with those in front of it.
    rows: u64,
    /// How many more it may go over.
    left: u64,
    /// Memory ran out.
    is_short: bool,
}

impl Gathering {
    ghost use Rattle.acq_gateway_lines.specs.Slices.{wants_more};

    /// None yet, behind so many, and so many to go over.
    fn behind(alloc: Global, rows: u64, most: u64) -> Gathering
        ensures told { result.told.items ≡ [] }
        ensures rows { result.rows ≡ rows }
        ensures left { result.left ≡ most }
        ensures memory { result.is_short ≡ false }
    {
        Gathering {
            alloc,
            told: Vec::new(alloc),
            rows,
            left: most,
            is_short: false,
        }
    }

    /// Whether the slice is to have more.
    fn wants_more(&self) -> bool
        ensures { result ≡ wants_more self.now }
    {
        !self.is_short && self.left > 0 && self.told.len() < MOST_TOLD
    }
}

impl Visit<Request> for Gathering {
    ghost use Rattle.acq_gateway_lines.specs.Slices.{Gathers};

    ghost sees = { Gathers };

    fn row(&mut self, row: &Request) -> bool {
        let Some(rows) = self.rows.checked_add(1) else {
            self.is_short = true;
            return false;
        };
        if let Some(notice) = notice_of(row) {
            let Ok(copy) = row.copied(self.alloc) else {
                self.is_short = true;
                return false;
            };
            let told = ToldRow {
                number: rows,
                notice,
                row: copy,
            };
            if self.told.push(told).is_err() {
                self.is_short = true;
                return false;
            }
        }
        self.rows = rows;
        self.left = self.left.saturating_sub(1);
        self.wants_more()
    }
}
