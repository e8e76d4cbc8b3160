//! What to look up for an event.

ghost use Rattle.std.specs.Prelude.{◌≡◌};
ghost use Rattle.acq_core.specs.Known.{nothing};

use acq_message::{MerchantId, Reference, RequestKey, TerminalId};
use card_no::Prefix;
use day_totals::Day;

/// What to look up for an event, each where it is needed. All but the prefix and the bounds are
/// looked up for the merchant.
#[derive(Clone, Copy)]
pub struct Wanted {
    /// The merchant that the event names.
    pub merchant: Option<MerchantId>,
    /// The terminal that it names.
    pub terminal: Option<TerminalId>,
    /// The request's own key.
    pub key: Option<RequestKey>,
    /// The key of the request that a reversal names as its original.
    pub original: Option<RequestKey>,
    /// The reference of the hold that is completed, or of the request that was answered.
    pub reference: Option<Reference>,
    /// The prefix of the card.
    pub prefix: Option<Prefix>,
    /// The ends of a range, `low` and `high`.
    pub bounds: Option<(u32, u32)>,
    /// Whether the merchant's admitted requests are counted, for the next reference.
    pub admitted: bool,
    /// The day whose messages are counted against the limit.
    pub used_day: Option<Day>,
    /// The day whose totals are compared.
    pub totals_day: Option<Day>,
}

impl Wanted {
    /// Nothing but the book's day and limit.
    pub fn nothing() -> Wanted
        ensures { result ≡ nothing }
    {
        Wanted {
            merchant: None,
            terminal: None,
            key: None,
            original: None,
            reference: None,
            prefix: None,
            bounds: None,
            admitted: false,
            used_day: None,
            totals_day: None,
        }
    }
}
