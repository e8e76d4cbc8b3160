//! The values that a row is written as.

ghost use Rattle.std.specs.Prelude.{◌≡◌, ◌<◌, ◌^◌, IfSome};
ghost use Rattle.sqlite_value.specs.Value.{owned};
ghost use Rattle.row_lemmas.specs.Values.{number, number_or_null, text_or_null};
ghost use Rattle.acq_core.specs.Statuses.{status_number};
ghost use Rattle.acq_sql_rows.specs.Rows.{leg_number, bit_of};

use acq_core::{Amount, ElementContent, FirstReference, Reference, Status};
use day_totals::{Day, Leg};
use sqlite::types::ValueRef;

/// A number that a column can keep.
pub fn number_value(n: u64) -> ValueRef<'static>
    requires { n < 2 ^ 63 }
    ensures { owned result ≡ number n }
{
    ValueRef::Int(n as i64)
}

/// A number of 32 bits.
pub fn short_value(n: u32) -> ValueRef<'static>
    ensures { owned result ≡ number n }
{
    ValueRef::Int(n as i64)
}

/// A business day's number.
pub fn day_value(day: Day) -> ValueRef<'static>
    ensures { owned result ≡ number day }
{
    short_value(day.number())
}

/// An amount in minor units.
pub fn amount_value(amount: Amount) -> ValueRef<'static>
    ensures { owned result ≡ number amount }
{
    number_value(amount.number())
}

/// A reference.
pub fn reference_value(reference: Reference) -> ValueRef<'static>
    ensures { owned result ≡ number reference }
{
    number_value(reference.number())
}

/// A reference, where there is one.
pub fn reference_if(reference: Option<Reference>) -> ValueRef<'static>
    ensures { owned result ≡ number_or_null reference }
{
    match reference {
        Some(reference) => reference_value(reference),
        None => ValueRef::Null,
    }
}

/// A merchant's first reference.
pub fn first_reference_value(first: FirstReference) -> ValueRef<'static>
    ensures { owned result ≡ number first }
{
    number_value(first.number())
}

/// The days of a hold, where there are any.
pub fn hold_days_value(days: Option<u8>) -> ValueRef<'static>
    ensures { owned result ≡ number_or_null days }
{
    match days {
        Some(days) => ValueRef::Int(days as i64),
        None => ValueRef::Null,
    }
}

/// The end of a hold, where there is one.
pub fn hold_end_value(end: Option<u64>) -> ValueRef<'static>
    requires { IfSome end (λ n. n < 2 ^ 63) }
    ensures { owned result ≡ number_or_null end }
{
    match end {
        Some(end) => number_value(end),
        None => ValueRef::Null,
    }
}

/// A content, where there is one.
pub fn text_if(content: &Option<ElementContent>) -> ValueRef<'_>
    ensures { owned result ≡ text_or_null content.now }
{
    match content {
        Some(content) => ValueRef::Text(content.as_bytes()),
        None => ValueRef::Null,
    }
}

/// A status's number.
pub fn status_value(status: Status) -> ValueRef<'static>
    ensures { owned result ≡ number (status_number status) }
{
    short_value(status.number())
}

/// A leg's number.
pub fn leg_value(leg: Leg) -> ValueRef<'static>
    ensures { owned result ≡ number (leg_number leg) }
{
    ValueRef::Int(match leg {
        Leg::Credit => 0,
        Leg::CreditReversal => 1,
        Leg::Debit => 2,
        Leg::DebitReversal => 3,
    })
}

/// 1 for yes, 0 for no.
pub fn bit_value(bit: bool) -> ValueRef<'static>
    ensures { owned result ≡ number (bit_of bit) }
{
    ValueRef::Int(if bit { 1 } else { 0 })
}
