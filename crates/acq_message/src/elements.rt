//! What a message says in its elements. Nothing here takes memory.

ghost use Rattle.std.specs.Prelude.{◌≡◌, ◌≤◌, true, None, take, drop, length};
ghost use Rattle.iso_codec.specs.Message.{content_of};
ghost use Rattle.iso_codec.specs.Setting.{set_fault};
ghost use Rattle.acq_message.specs.Elements.{has, text_at, number_at, amount_in, transaction_in};
ghost use Rattle.acq_message.specs.Elements.{sale_leg};
ghost use Rattle.acq_message.specs.Elements.{reference_in, original_acquirer};
ghost use Rattle.acq_message.specs.Elements.{remaining_text, remaining_in};
ghost use Rattle.acq_message.specs.ShortNumbers.{is_short_number};

use crate::amount::Amount;
use crate::digits::digits_value;
use crate::reference::Reference;
use day_totals::Leg;
use iso_codec::{Message, all_digits};

/// The content of an element, nothing where it isn't there.
pub fn text_at(message: &Message, number: u8) -> &[u8]
    ensures { result.now ≡ text_at message.now number }
{
    content_at(message, number)
}

/// The same, and that it is a content which the element may have.
pub(crate) fn content_at(message: &Message, number: u8) -> &[u8]
    ensures value { result.now ≡ text_at message.now number }
    ensures fits { has message.now number ≡ true → set_fault number result.now ≡ None }
{
    match message.get(number) {
        Some(content) => content,
        None => &[],
    }
}

/// The number in an element of at most sixteen digits, 0 where the element isn't there.
pub(crate) fn number_at(message: &Message, number: u8) -> u64
    requires { is_short_number number ≡ true }
    ensures { result ≡ number_at message.now number }
{
    digits_value(content_at(message, number))
}

/// Element 4, in minor units; 0 where it isn't there.
pub fn amount_in(message: &Message) -> Amount
    ensures { result ≡ amount_in message.now }
{
    let Some(amount) = Amount::from_number(digits_value(content_at(message, 4))) else {
        unreachable!();
    };
    amount
}

/// The text of the amount that a reversal lets remain: the first twelve bytes of element 95, nothing
/// where it isn't there.
pub(crate) fn remaining_text(message: &Message) -> &[u8]
    ensures value { result.now ≡ remaining_text message.now }
    ensures short { length result.now ≤ 12 }
{
    part(text_at(message, 95), 0, 12)
}

/// The amount that a reversal lets remain: 0, which is a full reversal, where element 95 isn't there
/// or begins with no amount. Source: ISO 8583:1987, replacement amounts.
pub fn remaining_in(message: &Message) -> Amount
    ensures { result ≡ remaining_in message.now }
{
    let text = remaining_text(message);
    let number = if all_digits(text) {
        digits_value(text)
    } else {
        0
    };
    let Some(amount) = Amount::from_number(number) else {
        unreachable!();
    };
    amount
}

/// The kind of transaction: the first two digits of element 3, nothing where it isn't there.
pub fn transaction_in(message: &Message) -> &[u8]
    ensures { result.now ≡ transaction_in message.now }
{
    part(text_at(message, 3), 0, 2)
}

/// What a sale or a return does to its card: a return, whose transaction is `20`, credits it.
pub fn sale_leg(message: &Message) -> Leg
    ensures { result ≡ sale_leg message.now }
{
    if transaction_in(message) == b"20".as_slice() {
        Leg::Credit
    } else {
        Leg::Debit
    }
}

/// Element 37, or `None` where it is there and isn't digits. Where it isn't there it is 0.
pub fn reference_in(message: &Message) -> Option<Reference>
    ensures { result ≡ reference_in message.now }
{
    let text = content_at(message, 37);
    if all_digits(text) {
        Reference::from_number(digits_value(text))
    } else {
        None
    }
}

/// The acquirer that element 90 names, of eleven digits; nothing where the element isn't there.
pub fn original_acquirer(message: &Message) -> &[u8]
    ensures { result.now ≡ original_acquirer message.now }
{
    part(text_at(message, 90), 20, 11)
}

/// The month and day of settlement, MMDD: element 15, where it is there.
pub fn settlement_date(message: &Message) -> Option<[u8; 4]>
    ensures { result ≡ content_of message.now.elements 15 }
{
    let date = message.get(15)?;
    let Ok(date) = <[u8; 4]>::try_from(date) else {
        unreachable!();
    };
    Some(date)
}

/// So many bytes of a text, from a place on, or those of them that there are.
pub(crate) fn part(text: &[u8], start: usize, len: usize) -> &[u8]
    ensures { result.now ≡ take len (drop start text.now) }
{
    let (_, rest) = text.split_at(start.min(text.len()));
    let (part, _) = rest.split_at(len.min(rest.len()));
    part
}
