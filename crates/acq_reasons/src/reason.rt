//! Why a request gets another code than 00.

ghost use Rattle.std.specs.Prelude.{◌≡◌};
ghost use Rattle.acq_reasons.specs.Codes.{code_of};

use acq_message::{DeclineCode, ResponseCode};

/// Why a request gets another code than 00: the check that decides, and of what (own profile).
#[derive(Clone, Copy)]
pub enum Reason {
    /// 30: this element is missing.
    MissingElement(u8),
    /// 30: neither element 2 nor 35 is there.
    MissingCard,
    /// 30: this element is there, and can't be checked.
    Unverifiable(u8),
    /// 30: element 35 has no card number.
    TrackWithoutCard,
    /// 30: elements 2 and 35 have different card numbers.
    TwoCards,
    /// 30: element 95 doesn't begin with an amount.
    BadRemainder,
    /// 03: the merchant isn't enrolled.
    UnknownMerchant,
    /// 03: the merchant has no such terminal.
    UnknownTerminal,
    /// 94: the key was used by a request with another essence.
    OtherRequest,
    /// 12: element 3 asks for what the service hasn't.
    OtherTransaction,
    /// 12: element 49 isn't the merchant's currency.
    OtherCurrency,
    /// 12: element 70 has none of the codes that are served.
    UnknownNetworkCode,
    /// 13: element 4 isn't an amount that is accepted.
    AmountOutOfRange,
    /// 13: the amount is above the hold's.
    AboveHold,
    /// 13: element 4 isn't the original's amount.
    OtherAmount,
    /// 13: what would remain isn't less than the original's amount.
    NothingTaken,
    /// 14: the card number isn't valid.
    InvalidCard,
    /// 54: the card's month of expiry is none, or lies before the business day's.
    ExpiredCard,
    /// 15: no range holds the card's prefix.
    NoRange,
    /// 65: the merchant's day is full.
    DayFull,
    /// 25: element 37 isn't a number.
    BadReference,
    /// 25: the merchant has no request with the reference.
    NoSuchReference,
    /// 25: the request with the reference is a sale or a return.
    NotAHold,
    /// 25: the hold waits for its issuer.
    HoldWaits,
    /// 25: the hold was reversed before its issuer answered.
    HoldReversedEarly,
    /// 25: the hold was declined, or got no answer.
    HoldDeclined,
    /// 25: the hold's last second is past.
    HoldExpired,
    /// 25: the hold was completed or reversed before.
    HoldEnded,
    /// 25: the merchant's terminal has no request with the key in element 90.
    NoOriginal,
    /// 25: the acquirer in element 90 isn't the original's.
    OtherAcquirer,
    /// 21: the original waits for its issuer, and a part of it would remain.
    OriginalWaits,
    /// 21: the original was refused.
    OriginalRefused,
    /// 21: the original was declined, or got no answer.
    OriginalDeclined,
    /// 21: the original is a hold that was completed or reversed before.
    OriginalEnded,
    /// 21: the original is a hold that was lowered before.
    OriginalLowered,
    /// 21: the original was reversed before.
    OriginalReversed,
    /// 95: element 15 names no day.
    NoSuchDay,
    /// 95: the claimed totals aren't the day's.
    OutOfBalance,
    /// The issuer declined with this code.
    Declined(DeclineCode),
    /// 91: the issuer gave no answer.
    NoAnswer,
}

impl Reason {
    /// The response code that it gives.
    pub fn code(&self) -> ResponseCode
        ensures { result ≡ code_of self.now }
    {
        match self {
            Reason::MissingElement(_)
            | Reason::MissingCard
            | Reason::Unverifiable(_)
            | Reason::TrackWithoutCard
            | Reason::TwoCards
            | Reason::BadRemainder => ResponseCode::FormatError,
            Reason::UnknownMerchant | Reason::UnknownTerminal => ResponseCode::InvalidMerchant,
            Reason::OtherRequest => ResponseCode::DuplicateTransmission,
            Reason::OtherTransaction | Reason::OtherCurrency | Reason::UnknownNetworkCode => {
                ResponseCode::InvalidTransaction
            }
            Reason::AmountOutOfRange
            | Reason::AboveHold
            | Reason::OtherAmount
            | Reason::NothingTaken => ResponseCode::InvalidAmount,
            Reason::InvalidCard => ResponseCode::InvalidCard,
            Reason::ExpiredCard => ResponseCode::ExpiredCard,
            Reason::NoRange => ResponseCode::NoSuchIssuer,
            Reason::DayFull => ResponseCode::LimitExceeded,
            Reason::BadReference
            | Reason::NoSuchReference
            | Reason::NotAHold
            | Reason::HoldWaits
            | Reason::HoldReversedEarly
            | Reason::HoldDeclined
            | Reason::HoldExpired
            | Reason::HoldEnded
            | Reason::NoOriginal
            | Reason::OtherAcquirer => ResponseCode::RecordNotFound,
            Reason::OriginalWaits
            | Reason::OriginalRefused
            | Reason::OriginalDeclined
            | Reason::OriginalEnded
            | Reason::OriginalLowered
            | Reason::OriginalReversed => ResponseCode::NoActionTaken,
            Reason::NoSuchDay | Reason::OutOfBalance => ResponseCode::ReconcileError,
            Reason::Declined(code) => ResponseCode::Declined(*code),
            Reason::NoAnswer => ResponseCode::IssuerInoperative,
        }
    }
}
