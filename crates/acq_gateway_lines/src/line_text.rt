//! Lines of rows, once all that they say is known.

ghost use Rattle.std.specs.Prelude.{◌≡◌, ◌∷◌, [], IfOk};
ghost use Rattle.acq_gateway_lines.specs.Lines.{advice_fields, advice_of, currency_of, issuer_of};
ghost use Rattle.acq_gateway_lines.specs.Lines.{kind_word, kind_word_if, leg_of, leg_word, line_of};
ghost use Rattle.acq_gateway_lines.specs.Lines.{notice_word, query_fields};
ghost use Rattle.acq_message.specs.Elements.{or_empty};
ghost use Rattle.acq_reports.specs.Marks.{csv_line};

use crate::advice::Advice;
use crate::known_of_row::{KnownOfRow, card_of};
use crate::notice::Notice;
use crate::waiting_message::{WaitingMessage, hex_in};
use acq_core::{Merchant, Moment, Request, Service};
use acq_reports::{content_bytes, record_text, reference_text};
use card_no::Range;
use day_totals::Leg;
use itoa::Buffer;
use std::alloc::{AllocError, Global};

/// The line of a row of which this is told.
pub(crate) fn line_of(
    alloc: Global,
    moment: Moment,
    messages: &[WaitingMessage],
    number: u64,
    notice: Notice,
    row: &Request,
    known: &KnownOfRow,
) -> Result<Vec<u8>, AllocError>
    ensures { IfOk result (λ line. line.items
        ≡ line_of moment messages.now number notice row.now known.now) }
{
    match notice {
        Notice::Query => query_text(alloc, moment, messages, number, row, known),
        _ => advice_of(alloc, number, notice, row, known),
    }
}

/// The line of what is advised of a row.
fn advice_of(
    alloc: Global,
    number: u64,
    notice: Notice,
    row: &Request,
    known: &KnownOfRow,
) -> Result<Vec<u8>, AllocError>
    ensures { IfOk result (λ line. line.items ≡ csv_line
        (advice_fields notice number row.now (advice_of notice row.now) known.now)) }
{
    match Advice::of(alloc, notice, row) {
        Ok(advice) => advice_text(alloc, notice, number, row, &advice, known),
        Err(fault) => Err(fault),
    }
}

/// The line of a query.
fn query_text(
    alloc: Global,
    moment: Moment,
    messages: &[WaitingMessage],
    number: u64,
    row: &Request,
    known: &KnownOfRow,
) -> Result<Vec<u8>, AllocError>
    ensures { IfOk result (λ line. line.items
        ≡ csv_line (query_fields moment messages.now number row.now known.now)) }
{
    let mut place = Buffer::new();
    let mut amount = Buffer::new();
    let mut seconds = Buffer::new();
    let merchant = row.key.merchant.to_bytes();
    let reference = reference_text(row.reference);
    let currency = currency_of(&known.merchant);
    let hex = hex_in(alloc, messages, row)?;
    twelve_fields(
        alloc,
        b"query",
        place.format(number).as_bytes(),
        &merchant,
        &reference,
        kind_word(row.key.service),
        leg_of(row.key.service, row.leg),
        content_bytes(&row.card),
        amount.format(row.amount.number()).as_bytes(),
        bytes_or_none(&currency),
        issuer_of(&known.range),
        seconds.format(moment.seconds()).as_bytes(),
        hex.as_bytes(),
    )
}

/// A record of twelve fields, which are lent for one time.
fn twelve_fields<'a>(
    alloc: Global,
    word: &'a [u8],
    number: &'a [u8],
    merchant: &'a [u8],
    reference: &'a [u8],
    kind: &'a [u8],
    leg: &'a [u8],
    card: &'a [u8],
    amount: &'a [u8],
    currency: &'a [u8],
    issuer: &'a [u8],
    moment: &'a [u8],
    hex: &'a [u8],
) -> Result<Vec<u8>, AllocError>
    ensures { IfOk result (λ text. text.items ≡ csv_line (word.now ∷ number.now ∷ merchant.now
        ∷ reference.now ∷ kind.now ∷ leg.now ∷ card.now ∷ amount.now ∷ currency.now
        ∷ issuer.now ∷ moment.now ∷ hex.now ∷ [])) }
{
    let fields: [&[u8]; 12] = [
        word, number, merchant, reference, kind, leg, card, amount, currency, issuer, moment, hex,
    ];
    record_text(alloc, &fields)
}

/// The line of an advice.
fn advice_text(
    alloc: Global,
    notice: Notice,
    number: u64,
    row: &Request,
    advice: &Advice,
    known: &KnownOfRow,
) -> Result<Vec<u8>, AllocError>
    ensures { IfOk result (λ line. line.items
        ≡ csv_line (advice_fields notice number row.now advice.now known.now)) }
{
    let mut place = Buffer::new();
    let mut amount = Buffer::new();
    let mut remains = Buffer::new();
    let merchant = row.key.merchant.to_bytes();
    let reference = reference_text(advice.reference);
    let currency = currency_of(&known.merchant);
    eleven_fields(
        alloc,
        b"advice",
        place.format(number).as_bytes(),
        &merchant,
        &reference,
        notice_word(notice),
        kind_word_if(advice.service),
        card_of(notice, row, &known.original),
        amount.format(advice.amount).as_bytes(),
        remains.format(advice.remains).as_bytes(),
        bytes_or_none(&currency),
        issuer_of(&known.range),
    )
}

/// A record of eleven fields, which are lent for one time.
fn eleven_fields<'a>(
    alloc: Global,
    word: &'a [u8],
    number: &'a [u8],
    merchant: &'a [u8],
    reference: &'a [u8],
    what: &'a [u8],
    kind: &'a [u8],
    card: &'a [u8],
    amount: &'a [u8],
    remains: &'a [u8],
    currency: &'a [u8],
    issuer: &'a [u8],
) -> Result<Vec<u8>, AllocError>
    ensures { IfOk result (λ text. text.items ≡ csv_line (word.now ∷ number.now ∷ merchant.now
        ∷ reference.now ∷ what.now ∷ kind.now ∷ card.now ∷ amount.now ∷ remains.now
        ∷ currency.now ∷ issuer.now ∷ [])) }
{
    let fields: [&[u8]; 11] = [
        word, number, merchant, reference, what, kind, card, amount, remains, currency, issuer,
    ];
    record_text(alloc, &fields)
}

fn kind_word(service: Service) -> &'static [u8]
    ensures { result.now ≡ kind_word service }
{
    match service {
        Service::Authorization => b"authorization",
        Service::Completion => b"completion",
        _ => b"financial",
    }
}

fn kind_word_if(service: Option<Service>) -> &'static [u8]
    ensures { result.now ≡ kind_word_if service }
{
    match service {
        Some(service) => kind_word(service),
        None => b"",
    }
}

/// A hold has no leg in its row: it debits.
fn leg_of(service: Service, leg: Leg) -> &'static [u8]
    ensures { result.now ≡ leg_of service leg }
{
    match service {
        Service::Authorization => b"debit",
        _ => leg_word(leg),
    }
}

fn leg_word(leg: Leg) -> &'static [u8]
    ensures { result.now ≡ leg_word leg }
{
    match leg {
        Leg::Credit => b"credit",
        _ => b"debit",
    }
}

fn notice_word(notice: Notice) -> &'static [u8]
    ensures { result.now ≡ notice_word notice }
{
    match notice {
        Notice::Query => b"query",
        Notice::Completion => b"completion",
        Notice::Reversal => b"reversal",
        Notice::Timeout => b"timeout",
    }
}

/// The currency of a merchant, if it is known.
fn currency_of(merchant: &Option<Merchant>) -> Option<[u8; 3]>
    ensures { or_empty result ≡ currency_of merchant.now }
{
    match merchant {
        Some(merchant) => Some(merchant.currency.to_bytes()),
        None => None,
    }
}

/// These bytes, none where they aren't there.
fn bytes_or_none(bytes: &Option<[u8; 3]>) -> &[u8]
    ensures { result.now ≡ or_empty bytes.now }
{
    match bytes {
        Some(bytes) => bytes,
        None => b"",
    }
}

fn issuer_of(range: &Option<Range>) -> &[u8]
    ensures { result.now ≡ issuer_of range.now }
{
    match range {
        Some(range) => range.issuer.as_bytes(),
        None => b"",
    }
}
