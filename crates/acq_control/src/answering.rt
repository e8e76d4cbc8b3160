//! What a host says to questions.

ghost use Rattle.std.specs.Prelude.{◌≡◌, ◌++◌, [], Bool, IfErr, IfOk, List, OnErr, OnOk};
ghost use Rattle.std.specs.Prelude.{Err, Option, Some, codes, true, ℕ};
ghost use Rattle.acq_link.specs.MemorySink.{sent_of};
ghost use Rattle.acq_core.specs.Arrivals.{arrival_of};
ghost use Rattle.acq_core.specs.Tables.{step_output};
ghost use Rattle.acq_book.specs.Calls.{Looks};
ghost use Rattle.acq_book.specs.declared.book_fault.BookFault.TheVariants.{Memory};
ghost use Rattle.acq_out.specs.OutputLines.{line_of};
ghost use Rattle.acq_reports.specs.OpenHolds.{holds_text};
ghost use Rattle.acq_reports.specs.Refusals.{day_refusal, merchant_refusal};
ghost use Rattle.acq_reports.specs.SettlementReport.{settlement_text};
ghost use Rattle.acq_reports.specs.Writing.{Reports};
ghost use Rattle.acq_reports.specs.declared.report_fault.ReportFault as report_fault;
ghost use Rattle.acq_clearing.specs.ClearingFile.{clearing_text};
ghost use Rattle.acq_faults.specs.DayReport.{report_text};
ghost use Rattle.acq_faults.specs.Faults.{fault_line, of_report};
ghost use Rattle.acq_stand_in.specs.Pending.{pending_text};
ghost use Rattle.acq_statement.specs.ReportCsv.{report_csv};
ghost use Rattle.acq_control.specs.Answers.{answer_of, answer_to_end, heading_of, text_answer};
ghost use Rattle.acq_control.specs.Answers.{text_unless_refused};
ghost use Rattle.acq_control.specs.Doing.{Does, DoesSome, IsRefusal, IsSettled, TellsAs};
ghost use Rattle.acq_control.specs.Doing.{TellsStore};
ghost use Rattle.acq_control.specs.Found.{found_text};
ghost use Rattle.acq_control.specs.Stated.{text_stated};
ghost use Rattle.acq_control.specs.Unmade.{MayBeUnmade, Puts, Says};
ghost use Rattle.acq_control.specs.declared.question.Question.TheVariants as question;

use crate::clearing_answer::ClearingAnswer;
use crate::found::Found;
use crate::list_text::ListText;
use crate::merchant_statement::MerchantStatement;
use crate::pending_text::PendingText;
use crate::question::Question;
use crate::report_csv_text::ReportCsvText;
use crate::said::Said;
use crate::settlement_text::SettlementText;
use crate::sought::Sought;
use crate::stated::Stated;
use crate::status_text::StatusText;
use crate::sums_text::SumsText;
use crate::unmade_answer::UnmadeAnswer;
use acq_book::{Book, BookFault};
use acq_core::{Event, MerchantId, Moment};
use acq_explain::Explained;
use acq_faults::{DayReport, Fault, ReportKind, write_fault_line};
use acq_host::{BookText, Host};
use acq_link::{MemorySink, write_out};
use acq_out::write_output;
use acq_reports::ReportFault;
use acq_stand_in::StandIn;
use day_totals::Day;
use itoa::Buffer;
use std::alloc::Global;

/// Does what the line of this number asks, for which rows may have been gone over, and returns what
/// is said to it.
pub(crate) fn answer_to<B: Book + Drop>(
    alloc: Global,
    host: &mut Host<B>,
    number: u64,
    asked: Option<Question>,
    prepared: &Option<UnmadeAnswer>,
) -> Result<Said, BookFault>
    ensures answers { B.is_honest host.new → B.is_open host.old
        → MayBeUnmade (B.tables host.old) prepared.now → IfOk result
        (Says (B.tables host.old) (B.tables host.new) number asked) }
    ensures does { OnOk result (Does B.Book host.old host.new asked true) }
    ensures refused { OnErr result (DoesSome B.Book host.old host.new asked) }
    ensures store { TellsStore B.Book host.old host.new result }
{
    let mut text = MemorySink::new(alloc);
    let put = put_answer(alloc, host, number, &asked, prepared, &mut text);
    drop(asked);
    match put {
        Ok(unmade) => Ok(Said { text, unmade }),
        Err(fault) => Err(fault),
    }
}

/// Does what the line of this number asks, puts what is said to it behind other bytes, and returns
/// what is still to be made of that.
fn put_answer<B: Book + Drop>(
    alloc: Global,
    host: &mut Host<B>,
    number: u64,
    asked: &Option<Question>,
    prepared: &Option<UnmadeAnswer>,
    answer: &mut MemorySink,
) -> Result<Option<UnmadeAnswer>, BookFault>
    ensures answers { B.is_honest host.new → B.is_open host.old
        → MayBeUnmade (B.tables host.old) prepared.now → IfOk result
        (Puts (B.tables host.new) (sent_of answer.old) (sent_of answer.new)
        (answer_of (B.tables host.old) number asked.now)) }
    ensures does { OnOk result (Does B.Book host.old host.new asked.now true) }
    ensures refused { OnErr result (DoesSome B.Book host.old host.new asked.now) }
    ensures store { TellsStore B.Book host.old host.new result }
{
    match asked {
        Some(question) => put_question(alloc, host, question, prepared, answer),
        None => {
            put_fault(&Fault::BadLine(number), answer)?;
            Ok(None)
        }
    }
}

/// Does what a question asks, puts what is said to it behind other bytes, and returns what is still
/// to be made of that.
fn put_question<B: Book + Drop>(
    alloc: Global,
    host: &mut Host<B>,
    question: &Question,
    prepared: &Option<UnmadeAnswer>,
    answer: &mut MemorySink,
) -> Result<Option<UnmadeAnswer>, BookFault>
    ensures answers { (number : ℕ) → B.is_honest host.new → B.is_open host.old
        → MayBeUnmade (B.tables host.old) prepared.now → IfOk result
        (Puts (B.tables host.new) (sent_of answer.old) (sent_of answer.new)
        (answer_of (B.tables host.old) number (Some question.now))) }
    ensures does { OnOk result (Does B.Book host.old host.new (Some question.now) true) }
    ensures refused { OnErr result (DoesSome B.Book host.old host.new (Some question.now)) }
    ensures store { TellsStore B.Book host.old host.new result }
{
    match question {
        Question::Report(report) => return put_report(alloc, host, *report, prepared, answer),
        Question::ReportCsv(day) => put_report_csv(alloc, host, *day, prepared, answer)?,
        Question::Sums(day) => put_asked(alloc, host, &SumsText { day: *day }, answer)?,
        Question::Event(event) => put_event(alloc, host, event, answer)?,
        Question::Find(sought) => put_found(host, *sought, prepared, answer)?,
        Question::Statement(asked) => put_statement(host, *asked, prepared, answer)?,
        Question::Holds(merchant, moment) => put_holds(alloc, host, *merchant, *moment, answer)?,
        Question::Pending(day, moment) => put_pending(alloc, host, *day, *moment, answer)?,
        Question::Explain(event) => put_asked(alloc, host, &Explained { event }, answer)?,
        Question::List(listing) => put_asked(alloc, host, &ListText { listing: *listing }, answer)?,
        Question::Status(form, serving) => {
            let asked = StatusText {
                form: *form,
                serving: *serving,
            };
            put_asked(alloc, host, &asked, answer)?
        }
        Question::End(day, moment) => put_end(alloc, host, *day, *moment, answer)?,
        Question::Reopen => put(b"reopening\n", answer)?,
        Question::Stop => put(b"stopping\n", answer)?,
    }
    Ok(None)
}

/// Takes an event, and puts the line of what the host says to it.
fn put_event<B: Book + Drop>(
    alloc: Global,
    host: &mut Host<B>,
    event: &Event,
    answer: &mut MemorySink,
) -> Result<(), BookFault>
    ensures answers { B.is_honest host.new → B.is_open host.old → OnOk result (sent_of answer.new
        ≡ sent_of answer.old ++ line_of (step_output (B.tables host.old) (arrival_of event.now))) }
    ensures does { OnOk result
        (Does B.Book host.old host.new (Some (question.Event event.now)) true) }
    ensures refused { OnErr result
        (DoesSome B.Book host.old host.new (Some (question.Event event.now))) }
    ensures store { TellsStore B.Book host.old host.new result }
{
    let said = host.take(event)?;
    match write_output(alloc, &said, answer) {
        Ok(()) => Ok(()),
        Err(_) => Err(BookFault::Memory),
    }
}

/// Ends the business day at a moment, if it is this one, and puts the line of what the host says to
/// that; else it puts which one it is.
fn put_end<B: Book + Drop>(
    alloc: Global,
    host: &mut Host<B>,
    day: Day,
    moment: Moment,
    answer: &mut MemorySink,
) -> Result<(), BookFault>
    ensures answers { B.is_honest host.new → B.is_open host.old → OnOk result (sent_of answer.new
        ≡ sent_of answer.old ++ answer_to_end (B.tables host.old) day moment) }
    ensures does { OnOk result
        (Does B.Book host.old host.new (Some (question.End day moment)) true) }
    ensures refused { OnErr result
        (DoesSome B.Book host.old host.new (Some (question.End day moment))) }
    ensures store { TellsStore B.Book host.old host.new result }
{
    let today = host.day()?;
    if today != day {
        return put_fault(&Fault::OtherDay(today), answer);
    }
    put_event(alloc, host, &Event::Cutover(moment), answer)
}

/// Puts a report on a day, or why it is refused; a clearing file is still to be made.
fn put_report<B: Book + Drop>(
    alloc: Global,
    host: &mut Host<B>,
    asked: DayReport,
    prepared: &Option<UnmadeAnswer>,
    answer: &mut MemorySink,
) -> Result<Option<UnmadeAnswer>, BookFault>
    ensures answers { B.is_honest host.new → B.is_open host.old → IfOk result
        (Puts (B.tables host.new) (sent_of answer.old) (sent_of answer.new)
        (text_unless_refused (day_refusal (B.tables host.old) asked.day)
        (report_text (B.tables host.old) asked))) }
    ensures does { OnOk result (Looks B.Book host.old host.new true) }
    ensures refused { OnErr result ((done : Bool) × Looks B.Book host.old host.new done) }
    ensures store { TellsStore B.Book host.old host.new result }
{
    match asked.kind {
        ReportKind::Clearing => begin_clearing(host, asked.day, answer),
        ReportKind::Settlement => {
            put_settlement(alloc, host, asked.day, prepared, answer)?;
            Ok(None)
        }
    }
}

/// Puts why a clearing file is refused, or else nothing yet.
fn begin_clearing<B: Book + Drop>(
    host: &mut Host<B>,
    day: Day,
    answer: &mut MemorySink,
) -> Result<Option<UnmadeAnswer>, BookFault>
    ensures answers { B.is_honest host.new → B.is_open host.old → IfOk result
        (Puts (B.tables host.new) (sent_of answer.old) (sent_of answer.new)
        (text_unless_refused (day_refusal (B.tables host.old) day)
        (clearing_text (B.tables host.old) day))) }
    ensures does { OnOk result (Looks B.Book host.old host.new true) }
    ensures refused { OnErr result ((done : Bool) × Looks B.Book host.old host.new done) }
    ensures store { TellsStore B.Book host.old host.new result }
{
    match host.check_day(day) {
        Ok(()) => Ok(Some(UnmadeAnswer::Clearing(ClearingAnswer::of(day)))),
        Err(fault) => {
            put_refusal(fault, answer)?;
            Ok(None)
        }
    }
}

/// Puts the settlement report of a day, or why it is refused.
fn put_settlement<B: Book + Drop>(
    alloc: Global,
    host: &mut Host<B>,
    day: Day,
    prepared: &Option<UnmadeAnswer>,
    answer: &mut MemorySink,
) -> Result<(), BookFault>
    ensures answers { B.is_honest host.new → B.is_open host.old → OnOk result (sent_of answer.new
        ≡ sent_of answer.old ++ text_unless_refused (day_refusal (B.tables host.old) day)
        (settlement_text (B.tables host.old) day)) }
    ensures does { OnOk result (Looks B.Book host.old host.new true) }
    ensures refused { OnErr result ((done : Bool) × Looks B.Book host.old host.new done) }
    ensures store { TellsStore B.Book host.old host.new result }
{
    if is_compared(prepared, day) {
        return put_unless_refused(alloc, host, day, &SettlementText { day }, answer);
    }
    let mut text = MemorySink::new(alloc);
    let made = host.write_settlement(day, &mut text);
    put_text(made, text.as_bytes(), answer)
}

/// Puts the settlement report of a day as CSV, or why it is refused.
fn put_report_csv<B: Book + Drop>(
    alloc: Global,
    host: &mut Host<B>,
    day: Day,
    prepared: &Option<UnmadeAnswer>,
    answer: &mut MemorySink,
) -> Result<(), BookFault>
    ensures answers { B.is_honest host.new → B.is_open host.old → OnOk result (sent_of answer.new
        ≡ sent_of answer.old ++ text_unless_refused (day_refusal (B.tables host.old) day)
        (report_csv (B.tables host.old) day)) }
    ensures does { OnOk result (Looks B.Book host.old host.new true) }
    ensures refused { OnErr result ((done : Bool) × Looks B.Book host.old host.new done) }
    ensures store { TellsStore B.Book host.old host.new result }
{
    if is_compared(prepared, day) {
        return put_unless_refused(alloc, host, day, &ReportCsvText { day }, answer);
    }
    let mut text = MemorySink::new(alloc);
    let made = host.write_report_csv(day, &mut text);
    put_text(made, text.as_bytes(), answer)
}

/// Whether the postings of a day were compared with its totals before the line was taken, and add
/// up. Else they are compared at one moment, and what is to be told of them is told.
fn is_compared(prepared: &Option<UnmadeAnswer>, day: Day) -> bool {
    match prepared {
        Some(UnmadeAnswer::Comparing(comparison)) => comparison.adds_up(day),
        _ => false,
    }
}

/// Puts a text of a day, or why the day can't be reported on.
fn put_unless_refused<B: Book + Drop, X: BookText>(
    alloc: Global,
    host: &mut Host<B>,
    day: Day,
    asked: &X,
    answer: &mut MemorySink,
) -> Result<(), BookFault>
    ensures answers { B.is_honest host.new → B.is_open host.old → OnOk result (sent_of answer.new
        ≡ sent_of answer.old ++ text_unless_refused (day_refusal (B.tables host.old) day)
        (X.text asked.now (B.tables host.old))) }
    ensures does { OnOk result (Looks B.Book host.old host.new true) }
    ensures refused { OnErr result ((done : Bool) × Looks B.Book host.old host.new done) }
    ensures store { TellsStore B.Book host.old host.new result }
{
    match host.check_day(day) {
        Ok(()) => put_asked(alloc, host, asked, answer),
        Err(fault) => {
            put_refusal(fault, answer)?;
            Ok(())
        }
    }
}

/// Puts what became of requests, or why that is refused.
fn put_found<B: Book + Drop>(
    host: &mut Host<B>,
    sought: Sought,
    prepared: &Option<UnmadeAnswer>,
    answer: &mut MemorySink,
) -> Result<(), BookFault>
    ensures answers { B.is_honest host.new → B.is_open host.old
        → MayBeUnmade (B.tables host.old) prepared.now → OnOk result (sent_of answer.new
        ≡ sent_of answer.old ++ text_unless_refused
        (merchant_refusal (B.tables host.old) sought.merchant)
        (found_text (B.tables host.old) sought)) }
    ensures does { OnOk result (Looks B.Book host.old host.new true) }
    ensures refused { OnErr result ((done : Bool) × Looks B.Book host.old host.new done) }
    ensures store { TellsStore B.Book host.old host.new result }
{
    let asked = Found {
        sought,
        unmade: prepared,
    };
    match host.look(&asked)? {
        Some(text) => put_whole(text.as_slice(), answer),
        None => put_refusal(ReportFault::NoSuchMerchant, answer),
    }
}

/// Puts a statement of a merchant's day, or why it is refused.
fn put_statement<B: Book + Drop>(
    host: &mut Host<B>,
    asked: MerchantStatement,
    prepared: &Option<UnmadeAnswer>,
    answer: &mut MemorySink,
) -> Result<(), BookFault>
    ensures answers { B.is_honest host.new → B.is_open host.old
        → MayBeUnmade (B.tables host.old) prepared.now → OnOk result (sent_of answer.new
        ≡ sent_of answer.old ++ text_unless_refused
        (merchant_refusal (B.tables host.old) asked.merchant)
        (text_stated (B.tables host.old) asked)) }
    ensures does { OnOk result (Looks B.Book host.old host.new true) }
    ensures refused { OnErr result ((done : Bool) × Looks B.Book host.old host.new done) }
    ensures store { TellsStore B.Book host.old host.new result }
{
    let look = Stated {
        asked,
        unmade: prepared,
    };
    match host.look(&look)? {
        Some(text) => put_whole(text.as_slice(), answer),
        None => put_refusal(ReportFault::NoSuchMerchant, answer),
    }
}

/// Puts the open holds of a merchant, or why they are refused.
fn put_holds<B: Book + Drop>(
    alloc: Global,
    host: &mut Host<B>,
    merchant: MerchantId,
    moment: Moment,
    answer: &mut MemorySink,
) -> Result<(), BookFault>
    ensures answers { B.is_honest host.new → B.is_open host.old → OnOk result (sent_of answer.new
        ≡ sent_of answer.old
        ++ text_unless_refused (merchant_refusal (B.tables host.old) merchant)
        (holds_text (B.tables host.old) merchant moment)) }
    ensures does { OnOk result (Looks B.Book host.old host.new true) }
    ensures refused { OnErr result ((done : Bool) × Looks B.Book host.old host.new done) }
    ensures store { TellsStore B.Book host.old host.new result }
{
    let mut text = MemorySink::new(alloc);
    let made = host.write_holds(merchant, moment, &mut text);
    put_text(made, text.as_bytes(), answer)
}

/// Puts the answers to what waits of a day.
fn put_pending<B: Book + Drop>(
    alloc: Global,
    host: &mut Host<B>,
    day: Day,
    moment: Moment,
    answer: &mut MemorySink,
) -> Result<(), BookFault>
    ensures answers { B.is_honest host.new → B.is_open host.old → OnOk result (sent_of answer.new
        ≡ sent_of answer.old
        ++ text_answer (pending_text [] moment (Some day) (B.tables host.old))) }
    ensures does { OnOk result (Looks B.Book host.old host.new true) }
    ensures refused { OnErr result ((done : Bool) × Looks B.Book host.old host.new done) }
    ensures store { TellsStore B.Book host.old host.new result }
{
    let nobody = StandIn::silent(alloc);
    let asked = PendingText {
        issuers: &nobody,
        day,
        moment,
    };
    put_asked(alloc, host, &asked, answer)
}

/// Puts a text that is never refused.
fn put_asked<B: Book + Drop, X: BookText>(
    alloc: Global,
    host: &mut Host<B>,
    asked: &X,
    answer: &mut MemorySink,
) -> Result<(), BookFault>
    ensures answers { B.is_honest host.new → B.is_open host.old → OnOk result (sent_of answer.new
        ≡ sent_of answer.old ++ text_answer (X.text asked.now (B.tables host.old))) }
    ensures does { OnOk result (Looks B.Book host.old host.new true) }
    ensures refused { OnErr result ((done : Bool) × Looks B.Book host.old host.new done) }
    ensures store { TellsStore B.Book host.old host.new result }
{
    let mut text = MemorySink::new(alloc);
    let made = host.write_text(asked, &mut text);
    put_text(made, text.as_bytes(), answer)
}

/// Puts a text that was made, behind how many bytes it has, or why it was refused.
fn put_text(
    made: Result<(), ReportFault>,
    text: &[u8],
    answer: &mut MemorySink,
) -> Result<(), BookFault>
    ensures answers { (refusal : Option report_fault.ReportFault) (whole : List ℕ)
        → Reports refusal whole [] text.now made → OnOk result
        (sent_of answer.new ≡ sent_of answer.old ++ text_unless_refused refusal whole) }
    ensures settled { OnOk result (IsSettled made) }
    ensures store { TellsAs result made }
{
    match made {
        Ok(()) => put_whole(text, answer),
        Err(fault) => put_refusal(fault, answer),
    }
}

/// Puts why a text is refused, unless memory or the store failed.
fn put_refusal(fault: ReportFault, answer: &mut MemorySink) -> Result<(), BookFault>
    ensures refuses { OnOk result (IsRefusal fault
        × (sent_of answer.new ≡ sent_of answer.old ++ fault_line (of_report fault))) }
    ensures store { TellsAs result (Err fault) }
{
    match fault {
        ReportFault::Store => Err(BookFault::Store),
        ReportFault::Memory | ReportFault::Write(_) => Err(BookFault::Memory),
        fault => put_fault(&Fault::from(fault), answer),
    }
}

/// Puts a text behind how many bytes it has.
fn put_whole(text: &[u8], answer: &mut MemorySink) -> Result<(), BookFault>
    ensures answers { OnOk result
        (sent_of answer.new ≡ sent_of answer.old ++ text_answer text.now) }
    ensures memory { IfErr result (λ fault. fault ≡ Memory) }
{
    put_heading(text.len() as u64, answer)?;
    put(text, answer)
}

/// Puts how many bytes a text has.
pub(crate) fn put_heading(bytes: u64, answer: &mut MemorySink) -> Result<(), BookFault>
    ensures answers { OnOk result
        (sent_of answer.new ≡ sent_of answer.old ++ heading_of bytes) }
    ensures memory { IfErr result (λ fault. fault ≡ Memory) }
{
    put(b"text ", answer)?;
    put(Buffer::new().format(bytes).as_bytes(), answer)?;
    put(b"\n", answer)
}

/// Puts the line of a fault.
fn put_fault(fault: &Fault, answer: &mut MemorySink) -> Result<(), BookFault>
    ensures answers { OnOk result
        (sent_of answer.new ≡ sent_of answer.old ++ fault_line fault.now) }
    ensures memory { IfErr result (λ fault. fault ≡ Memory) }
{
    match write_fault_line(fault, answer) {
        Ok(()) => Ok(()),
        Err(_) => Err(BookFault::Memory),
    }
}

/// Puts these bytes.
pub(crate) fn put(bytes: &[u8], answer: &mut MemorySink) -> Result<(), BookFault>
    ensures answers { OnOk result (sent_of answer.new ≡ sent_of answer.old ++ bytes.now) }
    ensures memory { IfErr result (λ fault. fault ≡ Memory) }
{
    match write_out(answer, bytes) {
        Ok(()) => Ok(()),
        Err(_) => Err(BookFault::Memory),
    }
}
