//! Reports on days, one after the other.

ghost use Rattle.std.specs.Prelude.{◌≡◌, ◌+◌, Bool, Err, IfErr, OnErr, OnOk, Result};
ghost use Rattle.acq_book.specs.Calls.{Looks};
ghost use Rattle.acq_reports.specs.Faults.{TellsStore, failed_writes, is_settled};
ghost use Rattle.acq_reports.specs.Refusals.{day_refusal};
ghost use Rattle.acq_reports.specs.Writing.{Reports};
ghost use Rattle.acq_reports.specs.declared.report_fault.ReportFault as report_fault;
ghost use Rattle.acq_faults.specs.DayReport.{report_text};
ghost use Rattle.acq_commands.specs.DayReports.{WritesReports, told};
ghost use Rattle.acq_faults.specs.Faults as faults;

use acq_book::Book;
use acq_clearing::clearing;
use acq_faults::{DayReport, Fault, ReportKind};
use acq_link::Sink;
use acq_reports::{ReportFault, settlement};
use std::alloc::Global;

/// Writes reports on a book, one after the other. It ends at the first that is refused, or that
/// doesn't go out whole; `Write` counts the bytes of that one.
pub fn write_reports<B: Book, K: Sink>(
    alloc: Global,
    book: &mut B,
    reports: &[DayReport],
    output: &mut K,
) -> Result<(), ReportFault>
    ensures texts { B.is_honest book.new → B.is_open book.old
        → WritesReports (B.tables book.old) reports.now (K.sent output.old) (K.sent output.new)
        result }
    ensures writes { K.failures output.new ≡ K.failures output.old + failed_writes result }
    ensures looks { Looks B.Book book.old book.new (is_settled result) }
    ensures store { TellsStore B.Book book.old book.new result }
{
    for report in reports.iter() {
        write_report(alloc, book, *report, output)?;
    }
    Ok(())
}

/// Writes a report.
pub(crate) fn write_report<B: Book, K: Sink>(
    alloc: Global,
    book: &mut B,
    report: DayReport,
    output: &mut K,
) -> Result<(), ReportFault>
    ensures text { B.is_honest book.new → B.is_open book.old → Reports
        (day_refusal (B.tables book.old) report.day) (report_text (B.tables book.old) report)
        (K.sent output.old) (K.sent output.new) result }
    ensures writes { K.failures output.new ≡ K.failures output.old + failed_writes result }
    ensures looks { Looks B.Book book.old book.new (is_settled result) }
    ensures store { TellsStore B.Book book.old book.new result }
{
    match report.kind {
        ReportKind::Clearing => clearing(alloc, book, report.day, output),
        ReportKind::Settlement => settlement(alloc, book, report.day, output),
    }
}

/// Writes reports on a book, where all events before them were taken.
pub(crate) fn report_if_taken<B: Book, K: Sink>(
    alloc: Global,
    taken: Result<(), Fault>,
    book: &mut B,
    reports: &[DayReport],
    output: &mut K,
) -> Result<(), Fault>
    ensures stopped { IfErr taken (λ cause. (result ≡ Err cause)
        × (K.sent output.new ≡ K.sent output.old)) }
    ensures unasked { OnErr taken (book.new ≡ book.old) }
    ensures unwritten { OnErr taken (K.failures output.new ≡ K.failures output.old) }
    ensures looks { (succeeded : Bool) × Looks B.Book book.old book.new succeeded }
    ensures store { OnOk taken (faults.TellsStore result (B.failures book.old) (B.failures book.new)
        (B.is_honest book.new → B.is_open book.old → ⊥)) }
    ensures written { OnOk taken (B.is_honest book.new → B.is_open book.old
        → (written : Result (Unit {0}) report_fault.ReportFault) × (result ≡ told written)
        × WritesReports (B.tables book.old) reports.now (K.sent output.old) (K.sent output.new)
        written) }
    ensures writes { OnOk taken
        (K.failures output.new ≡ K.failures output.old + faults.failed_writes result) }
    ensures fault { OnOk taken (IfErr result faults.IsReporting) }
{
    match taken {
        Ok(()) => {
            let written = write_reports(alloc, book, reports, output);
            told(written)
        }
        Err(fault) => Err(fault),
    }
}

/// How reports ended, as a command tells it.
pub(crate) fn told(written: Result<(), ReportFault>) -> Result<(), Fault>
    ensures same { result ≡ told written }
    ensures fault { IfErr result faults.IsReporting }
{
    match written {
        Ok(()) => Ok(()),
        Err(fault) => Err(Fault::from(fault)),
    }
}
