//! Whether a text or a number is taken as a value.

use crate::texts::number_of;
use acq_core::{
    AdmittedCount, Amount, Currency, FirstReference, Limit, MerchantId, Moment, Reference,
    TerminalId, Trace, Transmission, UsedCount, Verdict,
};
use card_no::Prefix;
use day_totals::Day;

/// Puts whether a text is taken as a value of this kind.
pub fn put_text_taken(kind: u8, text: &[u8], answer: &mut String) -> Option<()> {
    let is_taken = match kind {
        15 => MerchantId::read(text).is_some(),
        16 => TerminalId::read(text).is_some(),
        17 => Currency::read(text).is_some(),
        18 => Trace::read(text).is_some(),
        19 => Transmission::read(text).is_some(),
        20 => Verdict::approved(text).is_some(),
        21 => Verdict::declined(text).is_some(),
        _ => return None,
    };
    put_taken(is_taken, answer)
}

/// Puts whether a number is taken as a value of this kind.
pub fn put_number_taken(kind: u8, text: &[u8], answer: &mut String) -> Option<()> {
    let number = number_of(text)?;
    let is_taken = match kind {
        22 => Moment::from_seconds(number).is_some(),
        23 => Amount::from_number(number).is_some(),
        24 => Reference::from_number(number).is_some(),
        25 => FirstReference::from_number(number).is_some(),
        26 => AdmittedCount::from_number(number).is_some(),
        _ => is_short_number_taken(kind, u32::try_from(number).ok()?)?,
    };
    put_taken(is_taken, answer)
}

/// Whether a number that isn't too large is taken as a value of this kind.
fn is_short_number_taken(kind: u8, number: u32) -> Option<bool> {
    Some(match kind {
        27 => Limit::from_number(number).is_some(),
        28 => UsedCount::from_number(number).is_some(),
        29 => Prefix::from_number(number).is_some(),
        30 => Day::from_number(number).is_some(),
        _ => return None,
    })
}

fn put_taken(is_taken: bool, answer: &mut String) -> Option<()> {
    answer
        .push_str(if is_taken { "taken" } else { "refused" })
        .ok()
}
