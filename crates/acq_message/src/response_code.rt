//! The codes of replies.

ghost use Rattle.std.specs.Prelude.{◌≡◌};
ghost use Rattle.iso_codec.specs.Setting.{set_fault};
ghost use Rattle.acq_message.specs.Responses.{code_text};

use crate::decline_code::DeclineCode;

/// A response code, element 39. When each is given is the host's own rule.
#[derive(Clone, Copy)]
pub enum ResponseCode {
    /// 00: approved, or done.
    Approved,
    /// 03: the merchant isn't enrolled, or has no such terminal.
    InvalidMerchant,
    /// 12: the message asks for what isn't served.
    InvalidTransaction,
    /// 13: the amount can't be taken.
    InvalidAmount,
    /// 14: the card number isn't valid.
    InvalidCard,
    /// 15: no issuer has the card.
    NoSuchIssuer,
    /// 21: the original can't be reversed, or not any more.
    NoActionTaken,
    /// 25: there is no such original or hold.
    RecordNotFound,
    /// 30: an element is missing, or can't be taken.
    FormatError,
    /// 54: the card is expired.
    ExpiredCard,
    /// 65: the merchant's day is full.
    LimitExceeded,
    /// 91: the issuer didn't answer.
    IssuerInoperative,
    /// 94: the key was used by another request.
    DuplicateTransmission,
    /// 95: the totals differ, or there is no such day.
    ReconcileError,
    /// What the issuer declined with.
    Declined(DeclineCode),
}

impl ResponseCode {
    /// The two bytes of element 39.
    #[tactic(auto, unfolding(iso_codec::specs::Table::format_of, iso_codec::specs::Content::has_class))]
    pub fn to_bytes(self) -> [u8; 2]
        ensures value { result ≡ code_text self }
        ensures fits { set_fault 39 result ≡ None }
    {
        match self {
            ResponseCode::Approved => *b"00",
            ResponseCode::InvalidMerchant => *b"03",
            ResponseCode::InvalidTransaction => *b"12",
            ResponseCode::InvalidAmount => *b"13",
            ResponseCode::InvalidCard => *b"14",
            ResponseCode::NoSuchIssuer => *b"15",
            ResponseCode::NoActionTaken => *b"21",
            ResponseCode::RecordNotFound => *b"25",
            ResponseCode::FormatError => *b"30",
            ResponseCode::ExpiredCard => *b"54",
            ResponseCode::LimitExceeded => *b"65",
            ResponseCode::IssuerInoperative => *b"91",
            ResponseCode::DuplicateTransmission => *b"94",
            ResponseCode::ReconcileError => *b"95",
            ResponseCode::Declined(code) => code.to_bytes(),
        }
    }
}
