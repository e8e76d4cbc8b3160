//! What was looked up for an event.

ghost use Rattle.std.specs.Prelude.{◌≡◌};
ghost use Rattle.acq_core.specs.Looking.{nothing_looked};

use crate::admitted_count::AdmittedCount;
use crate::limit::Limit;
use crate::merchant::Merchant;
use crate::request::Request;
use crate::used_count::UsedCount;
use card_no::Range;
use day_totals::{Day, Totals};

/// What the look-ups of a [`Wanted`](crate::Wanted) gave.
#[derive(Drop)]
pub struct Looked {
    /// The business day.
    pub today: Day,
    /// How many messages of a merchant a day admits.
    pub limit: Limit,
    /// The merchant as it was enrolled.
    pub merchant: Option<Merchant>,
    /// Whether the merchant has the terminal.
    pub has_terminal: bool,
    /// The recorded request with the key.
    pub recorded: Option<Request>,
    /// The recorded request with the original's key.
    pub original: Option<Request>,
    /// The admitted request with the reference.
    pub referred: Option<Request>,
    /// The range that holds the prefix.
    pub range: Option<Range>,
    /// Of the ranges that overlap the bounds, the one of least low.
    pub overlapped: Option<Range>,
    /// How many of the merchant's requests were admitted: so many references it has given. Where
    /// they aren't counted, none.
    pub admitted: AdmittedCount,
    /// How many of the merchant's messages count against the limit of the day that is wanted. Where
    /// they aren't counted, none.
    pub used: UsedCount,
    /// The merchant's totals of the day that is wanted.
    pub totals: Totals,
}

impl Looked {
    /// What is looked up where nothing is wanted.
    pub fn nothing(today: Day, limit: Limit) -> Looked
        ensures { result ≡ nothing_looked today limit }
    {
        Looked {
            today,
            limit,
            merchant: None,
            has_terminal: false,
            recorded: None,
            original: None,
            referred: None,
            range: None,
            overlapped: None,
            admitted: AdmittedCount::zero(),
            used: UsedCount::zero(),
            totals: Totals::zero(),
        }
    }
}
