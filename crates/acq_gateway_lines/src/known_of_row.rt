//! What a row's line says beside the row.

ghost use Rattle.std.specs.Prelude.{◌≡◌, is_ok, IfOk, unwrap_or};
ghost use Rattle.acq_book.specs.Calls.{Looks};
ghost use Rattle.acq_book.specs.Promise.{CountsFault};
ghost use Rattle.acq_message.specs.Elements.{or_empty};
ghost use Rattle.acq_gateway_lines.specs.Lines.{card_of, known_at, original_of, range_of};

use crate::notice::Notice;
use acq_book::{Book, BookFault};
use acq_core::{Merchant, Request};
use acq_reports::content_bytes;
use card_no::{CardNumber, Range};

/// What a row's line says beside the row.
#[derive(Drop)]
pub struct KnownOfRow {
    /// The request that a reversal is of.
    pub original: Option<Request>,
    /// The row's merchant.
    pub merchant: Option<Merchant>,
    /// The range that holds the card now.
    pub range: Option<Range>,
}

impl KnownOfRow {
    /// Looks it up.
    #[tactic(auto, using(acq_book::proofs::Chains::looks_more))]
    pub(crate) fn of<B: Book>(
        book: &mut B,
        notice: Notice,
        row: &Request,
    ) -> Result<KnownOfRow, BookFault>
        ensures known { B.is_honest book.new → B.is_open book.old → IfOk result (λ known.
            known ≡ known_at (B.tables book.old) notice row.now) }
        ensures looks { Looks B.Book book.old book.new (is_ok result) }
        ensures store { CountsFault result (B.failures book.old) (B.failures book.new) }
    {
        let original = original_of(book, notice, row)?;
        let merchant = book.merchant(row.key.merchant)?;
        let range = range_of(book, card_of(notice, row, &original))?;
        Ok(KnownOfRow {
            original,
            merchant,
            range,
        })
    }
}

/// The card: a reversal's is its original's.
pub(crate) fn card_of<'r>(
    notice: Notice,
    row: &'r Request,
    original: &'r Option<Request>,
) -> &'r [u8]
    ensures { result.now ≡ card_of notice row.entry.now original.entry.now }
{
    match notice {
        Notice::Reversal => match original {
            Some(original) => content_bytes(&original.card),
            None => b"",
        },
        _ => content_bytes(&row.card),
    }
}

/// The request that a reversal is of.
fn original_of<B: Book>(
    book: &mut B,
    notice: Notice,
    row: &Request,
) -> Result<Option<Request>, BookFault>
    ensures original { B.is_open book.new → IfOk result (λ original.
        original ≡ original_of (B.tables book.old) notice row.now) }
    ensures looks { Looks B.Book book.old book.new (is_ok result) }
    ensures store { CountsFault result (B.failures book.old) (B.failures book.new) }
{
    match (notice, row.follows) {
        (Notice::Reversal, Some(reference)) => book.by_reference(row.key.merchant, reference),
        _ => Ok(None),
    }
}

/// The range that holds a card.
fn range_of<B: Book>(book: &mut B, card: &[u8]) -> Result<Option<Range>, BookFault>
    ensures range { B.is_open book.new → IfOk result (λ range.
        range ≡ range_of (B.tables book.old) card.now) }
    ensures looks { Looks B.Book book.old book.new (is_ok result) }
    ensures store { CountsFault result (B.failures book.old) (B.failures book.new) }
{
    match CardNumber::read(card) {
        Some(card) => book.range(card.prefix()),
        None => Ok(None),
    }
}
