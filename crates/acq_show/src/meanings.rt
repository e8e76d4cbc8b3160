//! What codes mean, in the words of ISO 8583:1987.

ghost use Rattle.std.specs.Prelude.{◌≡◌, ◌≤◌, take};
ghost use Rattle.acq_show.specs.Names.{name_in};
ghost use Rattle.acq_show.specs.Meanings.{meaning, code_number, word_for, transactions, responses};
ghost use Rattle.acq_show.specs.Meanings.{settlements, network_codes};

use acq_message::digits_value;
use iso_codec::all_digits;

/// What an element's content means, or nothing where it means no more than it says.
pub(crate) fn meaning(number: u8, content: &[u8]) -> &'static str
    ensures { result.now ≡ meaning number content.now }
{
    match number {
        3 => transaction(content),
        39 => response(content),
        66 => settlement(content),
        70 => network_code(content),
        _ => "",
    }
}

/// The transaction that a processing code begins with.
fn transaction(content: &[u8]) -> &'static str
    ensures { result.now ≡ word_for transactions (code_number 2 (take 2 content.now)) }
{
    if content.len() < 2 {
        return "";
    }
    match code_number(&content[..2], 2) {
        Some(0) => "purchase",
        Some(20) => "return",
        _ => "",
    }
}

fn response(content: &[u8]) -> &'static str
    ensures { result.now ≡ word_for responses (code_number 2 content.now) }
{
    match code_number(content, 2) {
        Some(number) => response_name(number),
        None => "",
    }
}

fn response_name(number: u64) -> &'static str
    ensures { result.now ≡ name_in responses number }
{
    match number {
        0 => "approved",
        1 => "refer to card issuer",
        3 => "invalid merchant",
        4 => "pick up the card",
        5 => "do not honour",
        12 => "invalid transaction",
        13 => "invalid amount",
        14 => "invalid card number",
        15 => "no such issuer",
        21 => "no action taken",
        25 => "unable to locate record",
        30 => "format error",
        41 => "lost card",
        43 => "stolen card",
        51 => "not sufficient funds",
        54 => "expired card",
        55 => "incorrect PIN",
        57 => "transaction not permitted to cardholder",
        58 => "transaction not permitted to terminal",
        61 => "exceeds withdrawal amount limit",
        62 => "restricted card",
        65 => "exceeds withdrawal frequency limit",
        68 => "response received too late",
        91 => "issuer is inoperative",
        94 => "duplicate transmission",
        95 => "reconcile error",
        96 => "system malfunction",
        _ => "",
    }
}

fn settlement(content: &[u8]) -> &'static str
    ensures { result.now ≡ word_for settlements (code_number 1 content.now) }
{
    match code_number(content, 1) {
        Some(1) => "in balance",
        Some(2) => "out of balance",
        _ => "",
    }
}

fn network_code(content: &[u8]) -> &'static str
    ensures { result.now ≡ word_for network_codes (code_number 3 content.now) }
{
    match code_number(content, 3) {
        Some(1) => "sign-on",
        Some(2) => "sign-off",
        Some(301) => "echo test",
        _ => "",
    }
}

/// The number that a code of so many digits spells.
fn code_number(code: &[u8], size: usize) -> Option<u64>
    requires { size ≤ 16 }
    ensures { result ≡ code_number size code.now }
{
    if code.len() != size || !all_digits(code) {
        return None;
    }
    Some(digits_value(code))
}
