//! What reaches the host.

use crate::first_reference::FirstReference;
use acq_message::{Currency, MerchantId, MessageText, Moment, Reference, TerminalId, Verdict};
use card_no::Range;

/// One event. The host takes each whole before the next.
#[derive(Drop)]
pub enum Event {
    /// A frame came at a moment. Its bytes, without their length, may be any and any number.
    Frame(Moment, MessageText),
    /// An issuer answered the request of a merchant with a reference.
    Answer(Moment, MerchantId, Reference, Verdict),
    /// The business day ends, and the next begins.
    Cutover(Moment),
    /// An issuer's range of card prefixes is added.
    AddRange(Range),
    /// The range with these ends, `low` and `high`, is dropped.
    DropRange(u32, u32),
    /// A merchant is enrolled, with its one currency and its first reference.
    Enrol(MerchantId, Currency, FirstReference),
    /// A terminal is added at a merchant.
    AddTerminal(MerchantId, TerminalId),
}
