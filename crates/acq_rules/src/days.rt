//! The day that a reconciliation is of.

ghost use Rattle.std.specs.Prelude.{◌≡◌};
ghost use Rattle.iso_codec.specs.Message.{content_of};
ghost use Rattle.acq_core.specs.Known.{reconciled_day};

use acq_message::settlement_date;
use day_totals::Day;
use iso_codec::Message;

/// The day that a reconciliation is of: today, or the latest day with the month and day of element
/// 15, or none.
pub fn reconciled_day(today: Day, message: &Message) -> Option<Day>
    ensures { result ≡ reconciled_day today (content_of message.now.elements 15) }
{
    match settlement_date(message) {
        Some(mmdd) => Day::resolve(mmdd, today),
        None => Some(today),
    }
}
