//! What commands do with the book of a file.

ghost use Rattle.std.specs.Prelude.{◌≡◌, ◌+◌, ◌++◌, ℕ, Bool, List, [], IfErr};
ghost use Rattle.acq_book.specs.Calls.{Looks};
ghost use Rattle.acq_core.specs.Pasts.{HasPast};
ghost use Rattle.acq_front.specs.Stops.{left_of};
ghost use Rattle.acq_link.specs.Moves.{TakesAll};
ghost use Rattle.acq_reports.specs.OpenHolds.{holds_text};
ghost use Rattle.acq_reports.specs.Refusals.{day_refusal, merchant_refusal};
ghost use Rattle.acq_faults.specs.DayReport.{report_text};
ghost use Rattle.acq_commands.specs.DayReports.{TellsReport};
ghost use Rattle.acq_faults.specs.Faults.{CountsStore, IsReporting, TellsStore};
ghost use Rattle.acq_faults.specs.Faults.{failed_reads, failed_writes};
ghost use Rattle.acq_commands.specs.Replay.{AfterReading, Replays, TakesUpTo};
ghost use Rattle.acq_commands.specs.Runs.{EndsWithReports};

use crate::book_report::BookReport;
use crate::day_reports::{report_if_taken, told, write_report};
use crate::group_size::GroupSize;
use crate::holds_options::HoldsOptions;
use crate::progress::Progress;
use crate::replaying::replay;
use crate::taking_events::take_events;
use acq_book::Book;
use acq_faults::{DayReport, Fault};
use acq_host::Host;
use acq_link::{Sink, Source};
use acq_reports::open_holds;
use std::alloc::Global;

/// Replays an input over a book, in groups of this size, and gives it back with how that ended:
/// writes a line of what comes of each event, or where reports are asked for, these.
pub fn replay_on<B: Book + Drop, S: Source, K: Sink, P: Progress>(
    alloc: Global,
    book: B,
    group: GroupSize,
    reports: &[DayReport],
    input: &mut S,
    output: &mut K,
    progress: &mut P,
) -> (B, Result<(), Fault>)
    requires past { B.is_open book → HasPast (B.tables book) }
    // What the book took of the events that were read, and what a stop may leave.
    ensures takes { B.is_honest result.0 → B.is_open book → (text : List ℕ)
        × (S.received input.new ≡ S.received input.old ++ text)
        × TakesUpTo
        (record { left = left_of B.Book; group = group; old = book; new = result.0 }) text
        result.1 }
    // Where no reports are asked for, the line of each event that was taken was written,
    ensures lines { reports.now ≡ [] → B.is_honest result.0 → B.is_open book → (text : List ℕ)
        × (S.received input.new ≡ S.received input.old ++ text)
        × Replays
        (record { left = left_of B.Book; group = group; old = book; new = result.0 }) text
        (record { before = K.sent output.old; after = K.sent output.new }) result.1 }
    // and else these reports, of the tables behind all of them.
    ensures reports { (reports.now ≡ [] → ⊥) → B.is_honest result.0 → B.is_open book
        → (text : List ℕ) × (S.received input.new ≡ S.received input.old ++ text)
        × EndsWithReports
        (record { left = left_of B.Book; group = group; old = book; new = result.0 })
        reports.now text (record { before = K.sent output.old; after = K.sent output.new })
        result.1 }
    // Unless memory ran out or a read failed, the whole input was read.
    ensures whole { AfterReading result.1
        (TakesAll (S.remaining input.old) (S.received input.old) (S.received input.new)) }
    // A fault of reading or writing comes exactly where a read or a write failed.
    ensures reads { S.failures input.new ≡ S.failures input.old + failed_reads result.1 }
    ensures writes { K.failures output.new ≡ K.failures output.old + failed_writes result.1 }
    // The store's fault comes where a call of it failed, or where a book that reports are asked of
    // doesn't add up; and with any other end no call failed.
    ensures store { TellsStore result.1 (B.failures book) (B.failures result.0)
        ((reports.now ≡ [] → ⊥) × (B.is_honest result.0 → B.is_open book → ⊥)) }
{
    let mut host = Host::new(alloc, book);
    if reports.is_empty() {
        let ended = replay(alloc, &mut host, group, input, output, progress);
        progress.end();
        return (host.into_book(), ended);
    }
    let taken = take_events(alloc, &mut host, group, input, progress);
    progress.end();
    let mut book = host.into_book();
    let ended = report_if_taken(alloc, taken, &mut book, reports, output);
    (book, ended)
}

/// Writes a report on a book, and gives it back with how that ended.
pub fn report_on<B: Book + Drop, K: Sink>(
    alloc: Global,
    mut book: B,
    options: &BookReport,
    output: &mut K,
) -> (B, Result<(), Fault>)
    ensures text { B.is_honest result.0 → B.is_open book → TellsReport
        (day_refusal (B.tables book) options.now.report.day)
        (report_text (B.tables book) options.now.report)
        (record { before = K.sent output.old; after = K.sent output.new }) result.1 }
    ensures looks { (done : Bool) × Looks B.Book book result.0 done }
    ensures writes { K.failures output.new ≡ K.failures output.old + failed_writes result.1 }
    ensures store { TellsStore result.1 (B.failures book) (B.failures result.0)
        (B.is_honest result.0 → B.is_open book → ⊥) }
    ensures fault { IfErr result.1 IsReporting }
{
    let written = write_report(alloc, &mut book, options.report, output);
    (book, told(written))
}

/// Writes the open holds of a merchant of a book, and gives it back with how that ended.
pub fn holds_of<B: Book + Drop, K: Sink>(
    alloc: Global,
    mut book: B,
    options: &HoldsOptions,
    output: &mut K,
) -> (B, Result<(), Fault>)
    ensures text { B.is_honest result.0 → B.is_open book → TellsReport
        (merchant_refusal (B.tables book) options.now.merchant)
        (holds_text (B.tables book) options.now.merchant options.now.moment)
        (record { before = K.sent output.old; after = K.sent output.new }) result.1 }
    ensures looks { (done : Bool) × Looks B.Book book result.0 done }
    ensures writes { K.failures output.new ≡ K.failures output.old + failed_writes result.1 }
    ensures store { CountsStore result.1 (B.failures book) (B.failures result.0) }
    ensures fault { IfErr result.1 IsReporting }
{
    let written = open_holds(alloc, &mut book, options.merchant, options.moment, output);
    (book, told(written))
}

/// How a run over a book ended, which is let go. It is said of any book: a proof of what lets one of
/// a certain type go takes a minute at each place that may.
pub(crate) fn end_of<B: Drop>(ran: (B, Result<(), Fault>)) -> Result<(), Fault>
    ensures { result ≡ ran.1 }
{
    let (book, ended) = ran;
    drop(book);
    ended
}
