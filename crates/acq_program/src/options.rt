//! The values of a limit, a port, a reference, a terminal, the end of a card number, and numbers of
//! events, of connections, of seconds, of bytes and of times.

ghost use Rattle.std.specs.Prelude.{◌≡◌, ◌≤◌, IfSome};
ghost use Rattle.acq_out.specs.Fields.{terminal_of_text};
ghost use Rattle.acq_program.specs.Options.{bytes_of_text, card_ends_of_text, count_of_text};
ghost use Rattle.acq_program.specs.Options.{group_of_text, limit_of_text, number_of_text};
ghost use Rattle.acq_program.specs.Options.{port_of_text, reference_of_text, repeat_of_text};
ghost use Rattle.acq_program.specs.Options.{seconds_of_text, together_of_text};

use acq_commands::GroupSize;
use acq_core::{Limit, Reference, TerminalId};
use acq_message::digits_value;
use iso_codec::all_digits;

/// The most digits of a limit.
const MOST_LIMIT_DIGITS: usize = 6;

/// The most digits of how many events are taken at once.
const MOST_GROUP_DIGITS: usize = 5;

/// The most events that are taken at once.
const GREATEST_GROUP: u64 = 10_000;

/// The most digits of a port.
const MOST_PORT_DIGITS: usize = 5;

/// The most digits of a number of connections, or of seconds.
const MOST_COUNT_DIGITS: usize = 6;

/// The greatest port.
const GREATEST_PORT: u64 = 65_535;

/// The greatest number of connections, or of seconds.
const GREATEST_COUNT: u64 = 999_999;

/// The most digits of how many connections are served at once.
const MOST_TOGETHER_DIGITS: usize = 4;

/// The most digits of a number of bytes.
const MOST_BYTES_DIGITS: usize = 15;

/// The greatest number of bytes.
const GREATEST_BYTES: u64 = 999_999_999_999_999;

/// The most digits of how often a message is sent.
const MOST_REPEAT_DIGITS: usize = 7;

/// The most times that it is sent.
const GREATEST_REPEAT: u64 = 1_000_000;

/// The most connections that are served at once.
const GREATEST_TOGETHER: u64 = 1_024;

/// The most digits of a reference.
const MOST_REFERENCE_DIGITS: usize = 12;

/// The greatest reference.
const GREATEST_REFERENCE: u64 = 999_999_999_999;

/// The bytes of a terminal's name.
const TERMINAL_LEN: usize = 8;

/// The limit that a text spells: one to six digits, 1 to 999,999 (own profile).
pub(crate) fn limit_of(text: &str) -> Option<Limit>
    ensures { result ≡ limit_of_text text.now }
{
    let digits = text.as_bytes();
    if digits.is_empty() || digits.len() > MOST_LIMIT_DIGITS || !all_digits(digits) {
        return None;
    }
    Limit::from_number(u32::try_from(digits_value(digits)).ok()?)
}

/// How many events a text has taken at once: one to five digits, 1 to 10,000 (own profile).
pub(crate) fn group_of(text: &str) -> Option<GroupSize>
    ensures { result ≡ group_of_text text.now }
{
    let number = number_of(text, MOST_GROUP_DIGITS, 1, GREATEST_GROUP)?;
    GroupSize::new(number as usize)
}

/// The port that a text spells: one to five digits, 1 to 65,535 (own profile).
pub(crate) fn port_of(text: &str) -> Option<u16>
    ensures { result ≡ port_of_text text.now }
{
    let number = number_of(text, MOST_PORT_DIGITS, 1, GREATEST_PORT)?;
    Some(number as u16)
}

/// The number of connections that a text spells: one to six digits, 1 to 999,999 (own profile).
pub(crate) fn count_of(text: &str) -> Option<u64>
    ensures { result ≡ count_of_text text.now }
{
    number_of(text, MOST_COUNT_DIGITS, 1, GREATEST_COUNT)
}

/// The number of seconds that a text spells: one to six digits, 0 to 999,999 (own profile).
pub(crate) fn seconds_of(text: &str) -> Option<u64>
    ensures { result ≡ seconds_of_text text.now }
{
    number_of(text, MOST_COUNT_DIGITS, 0, GREATEST_COUNT)
}

/// The number of bytes that a text spells: one to fifteen digits (own profile).
pub(crate) fn bytes_of(text: &str) -> Option<u64>
    ensures { result ≡ bytes_of_text text.now }
{
    number_of(text, MOST_BYTES_DIGITS, 0, GREATEST_BYTES)
}

/// How often a text has a message sent: one to seven digits, 1 to 1,000,000 (own profile).
pub(crate) fn repeat_of(text: &str) -> Option<u64>
    ensures { result ≡ repeat_of_text text.now }
{
    number_of(text, MOST_REPEAT_DIGITS, 1, GREATEST_REPEAT)
}

/// How many connections a text has served at once: one to four digits, 1 to 1,024 (own profile).
pub(crate) fn together_of(text: &str) -> Option<usize>
    ensures { result ≡ together_of_text text.now }
{
    let number = number_of(text, MOST_TOGETHER_DIGITS, 1, GREATEST_TOGETHER)?;
    Some(number as usize)
}

/// The reference that a text spells: one to twelve digits (own profile).
pub(crate) fn reference_of(text: &str) -> Option<Reference>
    ensures { result ≡ reference_of_text text.now }
{
    Reference::from_number(number_of(text, MOST_REFERENCE_DIGITS, 0, GREATEST_REFERENCE)?)
}

/// A terminal's name, filled on the right with spaces.
pub(crate) fn terminal_of(text: &[u8]) -> Option<TerminalId>
    ensures { result ≡ terminal_of_text text.now }
{
    if text.is_empty() || text.len() > TERMINAL_LEN {
        return None;
    }
    let mut name = [b' '; TERMINAL_LEN];
    name[..text.len()].copy_from_slice(text);
    TerminalId::read(&name)
}

/// The last four digits of a card number.
pub(crate) fn card_ends_of(text: &[u8]) -> Option<[u8; 4]>
    ensures { result ≡ card_ends_of_text text.now }
{
    match <[u8; 4]>::try_from(text) {
        Ok(digits) if all_digits(&digits) => Some(digits),
        _ => None,
    }
}

/// The number that a text spells in so many digits at most, from the least to the greatest.
fn number_of(text: &str, most_digits: usize, least: u64, greatest: u64) -> Option<u64>
    requires { most_digits ≤ 16 }
    ensures value { result ≡ number_of_text most_digits least greatest text.now }
    ensures bound { IfSome result (λ number. number ≤ greatest) }
    ensures least { IfSome result (λ number. least ≤ number) }
{
    let digits = text.as_bytes();
    if digits.is_empty() || digits.len() > most_digits || !all_digits(digits) {
        return None;
    }
    let number = digits_value(digits);
    if number < least || number > greatest {
        return None;
    }
    Some(number)
}
