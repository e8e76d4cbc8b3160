//! What a reconciliation claims.

ghost use Rattle.std.specs.Prelude.{◌≡◌, ◌⊎◌, [], None};
ghost use Rattle.iso_codec.specs.Setting.{set_fault};
ghost use Rattle.acq_message.specs.Claims.{net_in, claimed_in};

use crate::digits::digits_value;
use crate::elements::{content_at, number_at};
use day_totals::Claimed;
use iso_codec::Message;

/// The totals that a reconciliation claims, in elements 74 to 77, 86 to 89 and 97; 0 for each that
/// isn't there. It takes no memory.
#[tactic(auto, unfolding(iso_codec::specs::Table::format_of))]
pub fn claimed_in(message: &Message) -> Claimed
    ensures { result ≡ claimed_in message.now }
{
    Claimed {
        counts: [
            number_at(message, 74),
            number_at(message, 75),
            number_at(message, 76),
            number_at(message, 77),
        ],
        amounts: [
            number_at(message, 86),
            number_at(message, 87),
            number_at(message, 88),
            number_at(message, 89),
        ],
        net: net_in(content_at(message, 97)),
    }
}

/// The net in a content of element 97: `C`, or `D` for a negative one, and sixteen digits.
fn net_in(text: &[u8]) -> i64
    requires { (text.now ≡ []) ⊎ (set_fault 97 text.now ≡ None) }
    ensures { result ≡ net_in text.now }
{
    let Some((sign, digits)) = text.split_first() else {
        return 0;
    };
    let net = digits_value(digits) as i64;
    if *sign == b'D' { -net } else { net }
}
