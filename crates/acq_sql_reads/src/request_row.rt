//! A request from its row.

ghost use Rattle.std.specs.Prelude.{◌≡◌, ◌<◌, ◌^◌, ℕ, List, Option, Ok};
ghost use Rattle.std.specs.Prelude.{IfSome, IfOk, IfErr, length};
ghost use Rattle.sqlite.specs.declared.error.ErrorCode.TheVariants.{OutOfMemory};
ghost use Rattle.sqlite.specs.declared.error.Error.TheVariants.{SqliteFailure};
ghost use Rattle.sqlite_value.specs.declared.value.Value.TheVariants.{Text};
ghost use Rattle.sqlite_value.specs.Order.{column};
ghost use Rattle.row_lemmas.specs.Values.{number, number_or_null, text_or_null};
ghost use Rattle.iso_codec.specs.Message.{IsoMessage};
ghost use Rattle.iso_codec.specs.Faults.{NeedsMemory};
ghost use Rattle.iso_codec.specs.Reading.{reading_of};
ghost use Rattle.acq_message.specs.Services.{digits_of};
ghost use Rattle.acq_core.specs.Statuses.{status_number};
ghost use Rattle.acq_sql_reads.specs.Recorded.{HasKey, HasNoKey, IsRowOf};
ghost use Rattle.acq_sql_reads.specs.Recorded.{NamesNoService, NumbersStatus};
ghost use Rattle.acq_sql_reads.specs.Failing.{FailsForMemory, IsRequestRow, NeedsText};

use crate::columns::{
    amount_at, bit_at, day_at, hold_days_at, leg_at, merchant_at, read, reference_if_at,
    terminal_at, text_at,
};
use acq_core::{Request, Status};
use acq_message::{ElementContent, MessageText, RequestKey, Service, Trace, Transmission};
use iso_codec::{DecodeFault, Message, decode};
use sqlite::types::ValueRef;
use sqlite::{Error, ErrorCode, Row};
use std::alloc::Global;

/// The request of a row with the eighteen columns.
pub fn read_request(alloc: Global, row: &Row) -> Result<Request, Error>
    ensures value { IfOk result (λ r. length row.now ≡ 18 → IsRowOf row.now r) }
    ensures fails { IsRequestRow row.now → FailsForMemory result }
{
    let key = read_key(row)?;
    let day = day_at(row, 6)?;
    let status = status_at(row, 7)?;
    let admitted = bit_at(row, 8)?;
    let reference = reference_if_at(row, 9)?;
    let follows = reference_if_at(row, 10)?;
    let amount = amount_at(row, 11)?;
    let leg = leg_at(row, 12)?;
    let hold_days = hold_days_if_at(row, 15)?;
    let hold_end = number_if_at(row, 16)?;
    // what takes memory comes last, so that few exits have it to let go
    let essence = message_text_at(alloc, row, 5)?;
    let card = content_if_at(alloc, row, 13)?;
    let acquirer = content_if_at(alloc, row, 14)?;
    let reply = message_at(alloc, row, 17)?;
    Ok(Request {
        key,
        essence,
        day,
        status,
        admitted,
        reference,
        follows,
        amount,
        leg,
        card,
        acquirer,
        hold_days,
        hold_end,
        reply,
    })
}

/// The key in the first five columns.
fn read_key(row: &Row) -> Result<RequestKey, Error>
    ensures value { IfOk result (λ key. HasKey row.now key) }
    ensures fails { IfErr result (λ e. HasNoKey row.now) }
{
    Ok(RequestKey {
        merchant: merchant_at(row, 0)?,
        terminal: terminal_at(row, 1)?,
        service: service_at(row, 2)?,
        trace: read(Trace::read(text_at(row, 3)?))?,
        transmission: read(Transmission::read(text_at(row, 4)?))?,
    })
}

fn service_at(row: &Row, at: usize) -> Result<Service, Error>
    ensures value { IfOk result (λ service. column row.now at ≡ Text (digits_of service)) }
    ensures fails { IfErr result (λ e. NamesNoService (column row.now at)) }
{
    let text = text_at(row, at)?;
    let [a, b, c] = text else {
        return Err(Error::SqliteFailure(ErrorCode::DatabaseCorrupt));
    };
    read(Service::of([*a, *b, *c, b'0']))
}

fn message_text_at(alloc: Global, row: &Row, at: usize) -> Result<MessageText, Error>
    ensures value { IfOk result (λ text. column row.now at ≡ Text text) }
    ensures fails { (text : List ℕ) → column row.now at ≡ Text text → FailsForMemory result }
    ensures memory { NeedsText (column row.now at) result }
{
    match MessageText::from_slice(alloc, text_at(row, at)?) {
        Ok(text) => Ok(text),
        Err(_) => Err(Error::SqliteFailure(ErrorCode::OutOfMemory)),
    }
}

fn status_at(row: &Row, at: usize) -> Result<Status, Error>
    ensures value { IfOk result (λ status. column row.now at ≡ number (status_number status)) }
    ensures fails { NumbersStatus (column row.now at) → FailsForMemory result }
{
    read(Status::from_number(row.get(at)?))
}

fn number_if_at(row: &Row, at: usize) -> Result<Option<u64>, Error>
    ensures value { IfOk result (λ n. column row.now at ≡ number_or_null n) }
    ensures fails { at < length row.now → (o : Option ℕ) → column row.now at ≡ number_or_null o
        → FailsForMemory result }
{
    match row.get_ref(at)? {
        ValueRef::Null => Ok(None),
        _ => Ok(Some(row.get(at)?)),
    }
}

fn hold_days_if_at(row: &Row, at: usize) -> Result<Option<u8>, Error>
    ensures value { IfOk result (λ days. column row.now at ≡ number_or_null days) }
    ensures fails { at < length row.now → (o : Option ℕ) → column row.now at ≡ number_or_null o
        → IfSome o (λ n. n < 2 ^ 8) → FailsForMemory result }
{
    match row.get_ref(at)? {
        ValueRef::Null => Ok(None),
        _ => Ok(Some(hold_days_at(row, at)?)),
    }
}

fn content_if_at(alloc: Global, row: &Row, at: usize) -> Result<Option<ElementContent>, Error>
    ensures value { IfOk result (λ content. column row.now at ≡ text_or_null content) }
    ensures fails { at < length row.now → (o : Option (List ℕ))
        → column row.now at ≡ text_or_null o → FailsForMemory result }
    ensures memory { NeedsText (column row.now at) result }
{
    match row.get_ref(at)? {
        ValueRef::Null => Ok(None),
        ValueRef::Text(text) => match ElementContent::from_slice(alloc, text) {
            Ok(content) => Ok(Some(content)),
            Err(_) => Err(Error::SqliteFailure(ErrorCode::OutOfMemory)),
        },
        _ => Err(Error::SqliteFailure(ErrorCode::DatabaseCorrupt)),
    }
}

/// The message that a column's text reads as.
fn message_at(alloc: Global, row: &Row, at: usize) -> Result<Message, Error>
    ensures value { IfOk result (λ m. (text : List ℕ)
        × (column row.now at ≡ Text text) × (reading_of text ≡ Ok m)) }
    ensures fails { (text : List ℕ) (m : IsoMessage) → column row.now at ≡ Text text
        → reading_of text ≡ Ok m → FailsForMemory result }
    ensures memory { IfErr result (λ e. e ≡ SqliteFailure OutOfMemory
        → (text : List ℕ) × (column row.now at ≡ Text text) × NeedsMemory text) }
{
    let text = text_at(row, at)?;
    match decode(alloc, text) {
        Ok(message) => Ok(message),
        Err(DecodeFault::Memory) => Err(Error::SqliteFailure(ErrorCode::OutOfMemory)),
        Err(_) => Err(Error::SqliteFailure(ErrorCode::DatabaseCorrupt)),
    }
}
