//! Reasons in a word, and in words.

ghost use Rattle.std.specs.Prelude.{◌≡◌};
ghost use Rattle.acq_reasons.specs.Words.{word_of, sentence_of, element_of};

use crate::reason::Reason;

impl Reason {
    /// The reason in one word, as logs have it.
    pub fn word(&self) -> &'static str
        ensures { result.now ≡ word_of self.now }
    {
        match self {
            Reason::MissingElement(_) => "missing",
            Reason::MissingCard => "missing-card",
            Reason::Unverifiable(_) => "unverifiable",
            Reason::TrackWithoutCard => "track-without-card",
            Reason::TwoCards => "two-cards",
            Reason::BadRemainder => "replacement-amount",
            Reason::UnknownMerchant => "merchant",
            Reason::UnknownTerminal => "terminal",
            Reason::OtherRequest => "other-request",
            Reason::OtherTransaction => "transaction",
            Reason::OtherCurrency => "currency",
            Reason::UnknownNetworkCode => "network-code",
            Reason::AmountOutOfRange => "amount",
            Reason::AboveHold => "above-hold",
            Reason::OtherAmount => "other-amount",
            Reason::NothingTaken => "nothing-taken",
            Reason::InvalidCard => "card",
            Reason::ExpiredCard => "expired-card",
            Reason::NoRange => "no-range",
            Reason::DayFull => "day-full",
            Reason::BadReference => "bad-reference",
            Reason::NoSuchReference => "no-reference",
            Reason::NotAHold => "no-hold",
            Reason::HoldWaits => "waiting-hold",
            Reason::HoldReversedEarly => "reversed-hold",
            Reason::HoldDeclined => "declined-hold",
            Reason::HoldExpired => "expired-hold",
            Reason::HoldEnded => "ended-hold",
            Reason::NoOriginal => "no-original",
            Reason::OtherAcquirer => "other-acquirer",
            Reason::OriginalWaits => "waiting-original",
            Reason::OriginalRefused => "refused-original",
            Reason::OriginalDeclined => "declined-original",
            Reason::OriginalEnded => "ended-original",
            Reason::OriginalLowered => "lowered-original",
            Reason::OriginalReversed => "reversed-original",
            Reason::NoSuchDay => "no-day",
            Reason::OutOfBalance => "out-of-balance",
            Reason::Declined(_) => "issuer",
            Reason::NoAnswer => "no-answer",
        }
    }

    /// The reason in words.
    pub fn sentence(&self) -> &'static str
        ensures { result.now ≡ sentence_of self.now }
    {
        match self {
            Reason::MissingElement(_) => "an element that the request needs is missing",
            Reason::MissingCard => "neither element 2 nor 35 is there",
            Reason::Unverifiable(_) => "an element is there that can't be checked",
            Reason::TrackWithoutCard => "element 35 has no card number",
            Reason::TwoCards => "elements 2 and 35 have different card numbers",
            Reason::BadRemainder => "element 95 doesn't begin with an amount",
            Reason::UnknownMerchant => "the merchant isn't enrolled",
            Reason::UnknownTerminal => "the merchant has no such terminal",
            Reason::OtherRequest => "the key was used by a request with other contents",
            Reason::OtherTransaction => "element 3 asks for what the service hasn't",
            Reason::OtherCurrency => "element 49 isn't the merchant's currency",
            Reason::UnknownNetworkCode => "element 70 has no code that is served",
            Reason::AmountOutOfRange => "element 4 isn't 1 to 9999999999",
            Reason::AboveHold => "the amount is above the hold's",
            Reason::OtherAmount => "element 4 isn't the original's amount",
            Reason::NothingTaken => "what would remain isn't less than the original's amount",
            Reason::InvalidCard => "the card number isn't valid",
            Reason::ExpiredCard => "the card's month of expiry is none, or is past",
            Reason::NoRange => "no range holds the card's first eight digits",
            Reason::DayFull => "the merchant's day is full",
            Reason::BadReference => "element 37 isn't a number",
            Reason::NoSuchReference => "the merchant has no request with this reference",
            Reason::NotAHold => "the request with this reference is a sale or a return",
            Reason::HoldWaits => "the hold waits for its issuer",
            Reason::HoldReversedEarly => "the hold was reversed before its issuer answered",
            Reason::HoldDeclined => "the hold was declined, or got no answer",
            Reason::HoldExpired => "the hold's last second is past",
            Reason::HoldEnded => "the hold was completed or reversed before",
            Reason::NoOriginal => "the terminal has no request with the key in element 90",
            Reason::OtherAcquirer => "the acquirer in element 90 isn't the original's",
            Reason::OriginalWaits =>
                "the original waits for its issuer, and a part of it would remain",
            Reason::OriginalRefused => "the original was refused",
            Reason::OriginalDeclined => "the original was declined, or got no answer",
            Reason::OriginalEnded => "the original is a hold that was completed or reversed before",
            Reason::OriginalLowered => "the original is a hold that was lowered before",
            Reason::OriginalReversed => "the original was reversed before",
            Reason::NoSuchDay => "element 15 names no day",
            Reason::OutOfBalance => "the claimed totals aren't the day's",
            Reason::Declined(_) => "the issuer declined",
            Reason::NoAnswer => "the issuer gave no answer",
        }
    }

    /// The element that the word is about, if it doesn't say so itself.
    pub fn element(&self) -> Option<u8>
        ensures { result ≡ element_of self.now }
    {
        match self {
            Reason::MissingElement(number) | Reason::Unverifiable(number) => Some(*number),
            _ => None,
        }
    }
}
