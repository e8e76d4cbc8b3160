//! What decided: the element of a request that a reason is about, and what it was compared with.

ghost use Rattle.std.specs.Prelude.{◌≡◌, ◌++◌, OnOk, option_map};
ghost use Rattle.std.specs.Fmt.{decimal};
ghost use Rattle.acq_core.specs.Looking.{known_of};
ghost use Rattle.acq_core.specs.Tables.{prior_of};
ghost use Rattle.acq_explain.specs.Details.{detail, element_name, card_element, decisive};
ghost use Rattle.acq_explain.specs.Details.{shown};
ghost use Rattle.acq_explain.specs.Details.{element_line, element_detail, currency_detail};
ghost use Rattle.acq_explain.specs.Details.{amount_detail, hold_end_detail, expiry_lines};
ghost use Rattle.acq_explain.specs.Details.{expiry_line, day_line};
ghost use Rattle.acq_explain.specs.Details.{compared};
ghost use Rattle.acq_message.specs.Elements.{has};

use acq_core::{Looked, Request, Status};
use acq_message::{Service, text_at};
use acq_reasons::Reason;
use acq_show::put_content;
use day_totals::Day;
use iso_codec::Message;
use itoa::Buffer;
use std::alloc::AllocError;

/// Puts the element that a reason is about, if it is about one.
pub(crate) fn put_decisive(
    text: &mut Vec<u8>,
    message: &Message,
    reason: &Reason,
) -> Result<(), AllocError>
    ensures { OnOk result (text.new.items
        ≡ text.old.items ++ element_detail message.now (decisive message.now reason.now)) }
{
    match decisive(message, reason) {
        Some(number) => put_element(text, message, number),
        None => Ok(()),
    }
}

/// The element of a request that a reason is about, if it is about one.
fn decisive(message: &Message, reason: &Reason) -> Option<u8>
    ensures { result ≡ decisive message.now reason.now }
{
    match reason {
        Reason::OtherTransaction => Some(3),
        Reason::AmountOutOfRange | Reason::AboveHold | Reason::OtherAmount => Some(4),
        Reason::InvalidCard | Reason::ExpiredCard | Reason::NoRange => Some(card_element(message)),
        Reason::NoSuchDay => Some(15),
        Reason::BadReference
        | Reason::NoSuchReference
        | Reason::NotAHold
        | Reason::HoldWaits
        | Reason::HoldReversedEarly
        | Reason::HoldDeclined
        | Reason::HoldExpired
        | Reason::HoldEnded => Some(37),
        Reason::UnknownTerminal => Some(41),
        Reason::UnknownMerchant => Some(42),
        Reason::OtherCurrency => Some(49),
        Reason::UnknownNetworkCode => Some(70),
        Reason::NoOriginal
        | Reason::OtherAcquirer
        | Reason::OriginalWaits
        | Reason::OriginalRefused
        | Reason::OriginalDeclined
        | Reason::OriginalEnded
        | Reason::OriginalLowered
        | Reason::OriginalReversed => Some(90),
        Reason::BadRemainder | Reason::NothingTaken => Some(95),
        Reason::MissingElement(_)
        | Reason::MissingCard
        | Reason::Unverifiable(_)
        | Reason::TrackWithoutCard
        | Reason::TwoCards
        | Reason::OtherRequest
        | Reason::DayFull
        | Reason::OutOfBalance
        | Reason::Declined(_)
        | Reason::NoAnswer => None,
    }
}

/// The element that the card number is taken from.
fn card_element(message: &Message) -> u8
    ensures { result ≡ card_element message.now }
{
    if has(message, 2) { 2 } else { 35 }
}

fn has(message: &Message, number: u8) -> bool
    ensures { result ≡ has message.now number }
{
    message.get(number).is_some()
}

/// Puts the line of an element.
fn put_element(text: &mut Vec<u8>, message: &Message, number: u8) -> Result<(), AllocError>
    ensures { OnOk result (text.new.items ≡ text.old.items ++ element_line message.now number) }
{
    text.extend_from_slice(b"    ")?;
    put_element_name(text, number)?;
    text.extend_from_slice(b": ")?;
    put_shown(text, number, text_at(message, number))?;
    text.extend_from_slice(b"\n")
}

/// Puts what a person is shown of an element's content.
#[tactic(auto, unfolding(crate::specs::Details::shown))]
pub(crate) fn put_shown(text: &mut Vec<u8>, number: u8, content: &[u8]) -> Result<(), AllocError>
    ensures { OnOk result (text.new.items ≡ text.old.items ++ shown number content.now) }
{
    put_content(text, number, content)
}

/// Puts how an element is called.
#[tactic(auto, unfolding(crate::specs::Details::element_name))]
pub(crate) fn put_element_name(text: &mut Vec<u8>, number: u8) -> Result<(), AllocError>
    ensures { OnOk result (text.new.items ≡ text.old.items ++ element_name number) }
{
    text.extend_from_slice(b"element ")?;
    text.extend_from_slice(Buffer::new().format(number).as_bytes())
}

/// Puts what the element was compared with.
pub(crate) fn put_compared(
    text: &mut Vec<u8>,
    looked: &Looked,
    message: &Message,
    reason: &Reason,
) -> Result<(), AllocError>
    ensures { OnOk result (text.new.items
        ≡ text.old.items ++ compared (known_of looked.now) message.now reason.now) }
{
    match reason {
        Reason::OtherCurrency => put_currency(text, looked),
        Reason::AboveHold => put_amount(text, b"the hold's amount", &looked.referred),
        Reason::OtherAmount | Reason::NothingTaken => {
            put_amount(text, b"the original's amount", &looked.original)
        }
        Reason::ExpiredCard => put_expiry(text, looked.today, message),
        Reason::HoldExpired => put_hold_end(text, &looked.referred),
        Reason::DayFull => {
            let limit = u64::from(looked.limit.number());
            put_number(text, b"messages that a day admits", limit)
        }
        _ => Ok(()),
    }
}

/// Puts the merchant's currency.
fn put_currency(text: &mut Vec<u8>, looked: &Looked) -> Result<(), AllocError>
    ensures { OnOk result (text.new.items
        ≡ text.old.items ++ currency_detail looked.now.merchant) }
{
    match &looked.merchant {
        Some(merchant) => {
            put_detail(
                text,
                b"the merchant's currency",
                &merchant.currency.to_bytes(),
            )
        }
        None => Ok(()),
    }
}

/// Puts the amount of an earlier request, under this name.
fn put_amount(text: &mut Vec<u8>, name: &[u8], request: &Option<Request>) -> Result<(), AllocError>
    ensures { OnOk result (text.new.items
        ≡ text.old.items ++ amount_detail name.now (option_map prior_of request.now)) }
{
    match request {
        Some(request) => put_number(text, name, request.amount.number()),
        None => Ok(()),
    }
}

/// Puts the last second of a hold, if it has one.
fn put_hold_end(text: &mut Vec<u8>, hold: &Option<Request>) -> Result<(), AllocError>
    ensures { OnOk result (text.new.items
        ≡ text.old.items ++ hold_end_detail (option_map prior_of hold.now)) }
{
    let Some(hold) = hold else {
        return Ok(());
    };
    match hold_end(hold) {
        Some(second) => put_number(text, b"the hold's last second", second),
        None => Ok(()),
    }
}

/// The last second of an approved hold.
fn hold_end(hold: &Request) -> Option<u64>
    ensures { result ≡ (prior_of hold.now).hold_end }
{
    match (hold.key.service, hold.status) {
        (Service::Authorization, Status::Approved | Status::Lowered) => hold.hold_end,
        _ => None,
    }
}

/// Puts element 14, where it is there, and the business day.
fn put_expiry(text: &mut Vec<u8>, today: Day, message: &Message) -> Result<(), AllocError>
    ensures { OnOk result (text.new.items ≡ text.old.items ++ expiry_lines today message.now) }
{
    put_expiry_line(text, message)?;
    put_day(text, today)
}

#[tactic(auto, unfolding(crate::specs::Details::expiry_line))]
fn put_expiry_line(text: &mut Vec<u8>, message: &Message) -> Result<(), AllocError>
    ensures { OnOk result (text.new.items ≡ text.old.items ++ expiry_line message.now) }
{
    if has(message, 14) {
        put_element(text, message, 14)
    } else {
        Ok(())
    }
}

#[tactic(auto, unfolding(crate::specs::Details::day_line))]
fn put_day(text: &mut Vec<u8>, today: Day) -> Result<(), AllocError>
    ensures { OnOk result (text.new.items ≡ text.old.items ++ day_line today) }
{
    put_detail(text, b"the business day", &today.date_text())
}

/// Puts a line with a number.
fn put_number(text: &mut Vec<u8>, name: &[u8], number: u64) -> Result<(), AllocError>
    ensures { OnOk result (text.new.items ≡ text.old.items ++ detail name.now (decimal number)) }
{
    put_detail(text, name, Buffer::new().format(number).as_bytes())
}

/// Puts a line of what decided.
fn put_detail(text: &mut Vec<u8>, name: &[u8], value: &[u8]) -> Result<(), AllocError>
    ensures { OnOk result (text.new.items ≡ text.old.items ++ detail name.now value.now) }
{
    text.extend_from_slice(b"    ")?;
    text.extend_from_slice(name)?;
    text.extend_from_slice(b": ")?;
    text.extend_from_slice(value)?;
    text.extend_from_slice(b"\n")
}
