//! What an event changes.

use crate::merchant::Merchant;
use crate::posting::Posting;
use crate::reconciliation::Reconciliation;
use crate::remains::Remains;
use crate::request::Request;
use crate::status::Status;
use crate::terminal::Terminal;
use acq_message::RequestKey;
use card_no::Range;
use day_totals::Day;
use iso_codec::Message;

/// A change of the tables. It is made whole or not at all.
#[derive(Drop)]
pub enum Change {
    /// A merchant is enrolled.
    AddMerchant(Merchant),
    /// A terminal is added.
    AddTerminal(Terminal),
    /// A range is added, in its place by `low`.
    AddRange(Range),
    /// The range with these ends is dropped.
    DropRange {
        low: u32,
        high: u32,
    },
    /// Another business day begins.
    SetDay(Day),
    /// A request is recorded.
    AddRequest(Request),
    /// The pending request with this key was answered.
    Answered {
        key: RequestKey,
        status: Status,
        reply: Message,
        /// The last second of a hold that opens.
        hold_end: Option<u64>,
        posting: Option<Posting>,
    },
    /// A request is recorded that completes or reverses the earlier one with this key, of which
    /// this remains.
    Follow {
        request: Request,
        original: RequestKey,
        remains: Remains,
        posting: Option<Posting>,
    },
    /// A request is recorded that reconciles a day.
    Reconciled {
        request: Request,
        reconciliation: Reconciliation,
    },
}
