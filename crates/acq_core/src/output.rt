//! What the host says to an event.

ghost use Rattle.std.specs.Prelude.{◌≡◌};
ghost use Rattle.acq_core.specs.Outputs.{output_number};

use crate::query::Query;
use acq_message::{MerchantId, MessageText};
use card_no::Range;
use iso_codec::DecodeFault;

/// What the host says to one event. All but [`Output::Reply`], [`Output::Ask`] and [`Output::Done`]
/// have a number, and say that nothing was changed.
#[derive(Drop)]
pub enum Output {
    /// A reply's bytes, for the merchant that the event names: in element 42 of a frame, or in an
    /// answer.
    Reply(Option<MerchantId>, MessageText),
    /// The request was admitted: its card's issuer is to be asked.
    Ask(Query),
    /// What was asked for is done.
    Done,
    /// 20: the range's values are bad.
    BadRange,
    /// 21: the range overlaps this one, of those the one of least low.
    Overlap(Range),
    /// 22: no range has just these ends.
    NoSuchRange,
    /// 30: the frame spells no message, for this reason, which is never want of memory.
    Undecodable(DecodeFault),
    /// 31: the frame spells a message of a type that isn't served.
    UnservedType([u8; 4]),
    /// 32: the request is a repeat of one that is pending.
    Waiting,
    /// 33: the request was reversed while it was pending.
    Late,
    /// 34: the merchant has no request with this reference.
    UnknownReference,
    /// 35: the request was answered before.
    AlreadyAnswered,
    /// 36: the merchant is enrolled already.
    AlreadyEnrolled,
    /// 37: the merchant isn't enrolled.
    NoSuchMerchant,
    /// 38: there is no day after 2099-12-31.
    LastDay,
}

impl Output {
    /// The number of an output that refuses, or `None` of one that doesn't.
    pub fn number(&self) -> Option<u32>
        ensures { result ≡ output_number self.now }
    {
        match self {
            Output::Reply(_, _) | Output::Ask(_) | Output::Done => None,
            Output::BadRange => Some(20),
            Output::Overlap(_) => Some(21),
            Output::NoSuchRange => Some(22),
            Output::Undecodable(_) => Some(30),
            Output::UnservedType(_) => Some(31),
            Output::Waiting => Some(32),
            Output::Late => Some(33),
            Output::UnknownReference => Some(34),
            Output::AlreadyAnswered => Some(35),
            Output::AlreadyEnrolled => Some(36),
            Output::NoSuchMerchant => Some(37),
            Output::LastDay => Some(38),
        }
    }
}
