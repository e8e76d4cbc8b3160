//! The values of a row that was read.

ghost use Rattle.std.specs.Prelude.{◌≡◌, ◌≢◌, ◌<◌, ◌-◌, ◌^◌, ℕ, List, true};
ghost use Rattle.std.specs.Prelude.{Option, None, Some, IfSome, IfOk, IfErr, length};
ghost use Rattle.sqlite.specs.declared.error.ErrorCode.TheVariants.{DatabaseCorrupt, OutOfMemory};
ghost use Rattle.sqlite.specs.declared.error.Error.TheVariants.{SqliteFailure};
ghost use Rattle.sqlite_value.specs.declared.value.Value.TheVariants.{Text};
ghost use Rattle.sqlite_value.specs.Order.{column};
ghost use Rattle.row_lemmas.specs.Values.{number, number_or_null};
ghost use Rattle.day_totals.specs.Day.{IsDayNumber};
ghost use Rattle.acq_message.specs.Names.{is_merchant, is_terminal, is_currency};
ghost use Rattle.acq_message.specs.Numbers.{is_amount, is_reference};
ghost use Rattle.acq_core.specs.Numbers.{is_first_reference, is_limit, is_used_count};
ghost use Rattle.acq_sql_rows.specs.Rows.{leg_number, bit_of};
ghost use Rattle.acq_sql_reads.specs.Failing.{FailsForMemory, NeedsText};

use acq_core::{FirstReference, Limit, UsedCount};
use acq_message::{Amount, Currency, MerchantId, Reference, TerminalId};
use card_no::IssuerId;
use day_totals::{Day, Leg};
use sqlite::types::ValueRef;
use sqlite::{Error, ErrorCode, Row};
use std::alloc::Global;

/// What was read, or the fault of a row that the host hasn't written.
pub fn read<T>(value: Option<T>) -> Result<T, Error>
    ensures value { IfOk result (λ x. value ≡ Some x) }
    ensures fault { IfErr result
        (λ e. (value ≡ None) × (e ≡ SqliteFailure DatabaseCorrupt)) }
{
    match value {
        Some(value) => Ok(value),
        None => Err(Error::SqliteFailure(ErrorCode::DatabaseCorrupt)),
    }
}

/// The text of a column.
pub fn text_at(row: &Row, at: usize) -> Result<&[u8], Error>
    ensures value { IfOk result (λ text. column row.now at ≡ Text text.now) }
    ensures fails { IfErr result (λ e. (text : List ℕ) → column row.now at ≢ Text text) }
    ensures kind { IfErr result (λ e. e ≢ SqliteFailure OutOfMemory) }
{
    match row.get_ref(at)? {
        ValueRef::Text(text) => Ok(text),
        _ => Err(Error::SqliteFailure(ErrorCode::DatabaseCorrupt)),
    }
}

/// The merchant's name in a column.
pub fn merchant_at(row: &Row, at: usize) -> Result<MerchantId, Error>
    ensures value { IfOk result (λ id. column row.now at ≡ Text id) }
    ensures fails { IfErr result (λ e. (id : List ℕ) → column row.now at ≡ Text id
        → is_merchant id ≢ true) }
    ensures kind { IfErr result (λ e. e ≢ SqliteFailure OutOfMemory) }
{
    read(MerchantId::read(text_at(row, at)?))
}

/// The terminal's name in a column.
pub fn terminal_at(row: &Row, at: usize) -> Result<TerminalId, Error>
    ensures value { IfOk result (λ id. column row.now at ≡ Text id) }
    ensures fails { IfErr result (λ e. (id : List ℕ) → column row.now at ≡ Text id
        → is_terminal id ≢ true) }
    ensures kind { IfErr result (λ e. e ≢ SqliteFailure OutOfMemory) }
{
    read(TerminalId::read(text_at(row, at)?))
}

/// The currency in a column.
pub fn currency_at(row: &Row, at: usize) -> Result<Currency, Error>
    ensures value { IfOk result (λ currency. column row.now at ≡ Text currency) }
    ensures fails { IfErr result (λ e. (currency : List ℕ) → column row.now at ≡ Text currency
        → is_currency currency ≢ true) }
    ensures kind { IfErr result (λ e. e ≢ SqliteFailure OutOfMemory) }
{
    read(Currency::read(text_at(row, at)?))
}

/// The first reference in a column.
pub fn first_reference_at(row: &Row, at: usize) -> Result<FirstReference, Error>
    ensures value { IfOk result (λ first. column row.now at ≡ number first) }
    ensures fails { (first : ℕ) → column row.now at ≡ number first
        → is_first_reference first ≡ true → FailsForMemory result }
{
    read(FirstReference::from_number(row.get(at)?))
}

/// The limit in a column.
pub fn limit_at(row: &Row, at: usize) -> Result<Limit, Error>
    ensures value { IfOk result (λ limit. column row.now at ≡ number limit) }
    ensures fails { (limit : ℕ) → column row.now at ≡ number limit → is_limit limit ≡ true
        → FailsForMemory result }
{
    read(Limit::from_number(row.get(at)?))
}

/// The business day in a column.
pub fn day_at(row: &Row, at: usize) -> Result<Day, Error>
    ensures value { IfOk result (λ day. column row.now at ≡ number day) }
    ensures fails { (day : ℕ) → column row.now at ≡ number day → IsDayNumber day
        → FailsForMemory result }
{
    read(Day::from_number(row.get(at)?))
}

/// The count against the limit of a day in a column.
pub fn used_count_at(row: &Row, at: usize) -> Result<UsedCount, Error>
    ensures value { IfOk result (λ used. column row.now at ≡ number used) }
    ensures fails { (used : ℕ) → column row.now at ≡ number used → is_used_count used ≡ true
        → FailsForMemory result }
{
    read(UsedCount::from_number(row.get(at)?))
}

/// The issuer's id in a column.
pub fn issuer_at(alloc: Global, row: &Row, at: usize) -> Result<IssuerId, Error>
    ensures value { IfOk result (λ issuer. column row.now at ≡ Text issuer) }
    ensures fails { (issuer : List ℕ) → column row.now at ≡ Text issuer → FailsForMemory result }
    ensures memory { NeedsText (column row.now at) result }
{
    match IssuerId::from_slice(alloc, text_at(row, at)?) {
        Ok(issuer) => Ok(issuer),
        Err(_) => Err(Error::SqliteFailure(ErrorCode::OutOfMemory)),
    }
}

/// The days of a hold in a column.
pub fn hold_days_at(row: &Row, at: usize) -> Result<u8, Error>
    ensures value { IfOk result (λ days. column row.now at ≡ number days) }
    ensures fails { (days : ℕ) → column row.now at ≡ number days → days < 2 ^ 8
        → FailsForMemory result }
{
    let days: u32 = row.get(at)?;
    read(u8::try_from(days).ok())
}

/// The reference in a column.
pub fn reference_at(row: &Row, at: usize) -> Result<Reference, Error>
    ensures value { IfOk result (λ reference. column row.now at ≡ number reference) }
    ensures fails { (reference : ℕ) → column row.now at ≡ number reference
        → is_reference reference ≡ true → FailsForMemory result }
{
    read(Reference::from_number(row.get(at)?))
}

/// The reference in a column, if there is one.
pub fn reference_if_at(row: &Row, at: usize) -> Result<Option<Reference>, Error>
    ensures value { IfOk result (λ reference. column row.now at ≡ number_or_null reference) }
    ensures fails { at < length row.now → (o : Option ℕ) → column row.now at ≡ number_or_null o
        → IfSome o (λ n. is_reference n ≡ true) → FailsForMemory result }
{
    match row.get_ref(at)? {
        ValueRef::Null => Ok(None),
        _ => Ok(Some(reference_at(row, at)?)),
    }
}

/// The leg in a column.
pub fn leg_at(row: &Row, at: usize) -> Result<Leg, Error>
    ensures value { IfOk result (λ leg. column row.now at ≡ number (leg_number leg)) }
    ensures fails { (n : ℕ) → column row.now at ≡ number n → n < 4 → FailsForMemory result }
{
    let n: u32 = row.get(at)?;
    match n {
        0 => Ok(Leg::Credit),
        1 => Ok(Leg::CreditReversal),
        2 => Ok(Leg::Debit),
        3 => Ok(Leg::DebitReversal),
        _ => Err(Error::SqliteFailure(ErrorCode::DatabaseCorrupt)),
    }
}

/// The amount in a column.
pub fn amount_at(row: &Row, at: usize) -> Result<Amount, Error>
    ensures value { IfOk result (λ amount. column row.now at ≡ number amount) }
    ensures fails { (amount : ℕ) → column row.now at ≡ number amount → is_amount amount ≡ true
        → FailsForMemory result }
{
    read(Amount::from_number(row.get(at)?))
}

/// The truth value in a column.
pub fn bit_at(row: &Row, at: usize) -> Result<bool, Error>
    ensures value { IfOk result (λ bit. column row.now at ≡ number (bit_of bit)) }
    ensures fails { (n : ℕ) → column row.now at ≡ number n → n < 2 → FailsForMemory result }
{
    let n: u32 = row.get(at)?;
    match n {
        0 => Ok(false),
        1 => Ok(true),
        _ => Err(Error::SqliteFailure(ErrorCode::DatabaseCorrupt)),
    }
}

/// What count(*) counted. The greatest number that it gives is none, since there may be more.
pub fn count_at(row: &Row, at: usize) -> Result<u64, Error>
    ensures value { IfOk result (λ n. (column row.now at ≡ number n) × (n < 2 ^ 63 - 1)) }
    ensures fails { (n : ℕ) → column row.now at ≡ number n → n < 2 ^ 63 - 1
        → FailsForMemory result }
{
    let n: u64 = row.get(at)?;
    if n < 9_223_372_036_854_775_807 {
        Ok(n)
    } else {
        Err(Error::SqliteFailure(ErrorCode::DatabaseCorrupt))
    }
}
