//! What is asked for that can't be given.

ghost use Rattle.std.specs.Prelude.{◌≡◌};
ghost use Rattle.acq_book.specs.Calls.{Looks};
ghost use Rattle.acq_reports.specs.Faults.{CountsStore, failed_writes, is_settled};
ghost use Rattle.acq_reports.specs.Refusals.{day_refusal, merchant_refusal};
ghost use Rattle.acq_reports.specs.Writing.{Allows};

use crate::report_fault::ReportFault;
use acq_book::Book;
use acq_core::MerchantId;
use day_totals::Day;

/// Refuses a day that isn't over, and then one some of whose requests are pending.
#[tactic(auto, using(crate::proofs::Chains::looks_more))]
pub fn check_day<B: Book>(book: &mut B, day: Day) -> Result<(), ReportFault>
    ensures refuses { B.is_open book.new → Allows (day_refusal (B.tables book.old) day) result }
    ensures unwritten { failed_writes result ≡ 0 }
    ensures looks { Looks B.Book book.old book.new (is_settled result) }
    ensures store { CountsStore result (B.failures book.old) (B.failures book.new) }
{
    let today = book.day()?;
    if day.number() >= today.number() {
        return Err(ReportFault::DayNotOver);
    }
    let pending = book.pending(day)?;
    if pending > 0 {
        return Err(ReportFault::StillPending(pending));
    }
    Ok(())
}

/// Refuses a merchant that isn't enrolled.
#[tactic(auto, using(crate::proofs::Chains::looks_more))]
pub fn check_merchant<B: Book>(book: &mut B, id: MerchantId) -> Result<(), ReportFault>
    ensures refuses { B.is_open book.new
        → Allows (merchant_refusal (B.tables book.old) id) result }
    ensures unwritten { failed_writes result ≡ 0 }
    ensures looks { Looks B.Book book.old book.new (is_settled result) }
    ensures store { CountsStore result (B.failures book.old) (B.failures book.new) }
{
    match book.merchant(id)? {
        Some(_) => Ok(()),
        None => Err(ReportFault::NoSuchMerchant),
    }
}
