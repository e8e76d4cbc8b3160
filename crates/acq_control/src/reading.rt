//! What lines ask.

ghost use Rattle.std.specs.Prelude.{◌≡◌, ◌==◌, ℕ, IfOk, List, Option};
ghost use Rattle.std.specs.List.{position};
ghost use Rattle.acq_control.specs.Questions.{Asks, AsksEnd, AsksEvent, AsksExplained};
ghost use Rattle.acq_control.specs.Questions.{AsksPending, AsksReport, AsksReportCsv};
ghost use Rattle.acq_control.specs.Questions.{AsksSettlement, AsksSums, frame_line};
ghost use Rattle.acq_control.specs.Questions.{AsksFound, AsksShort, AsksStated, Shows, at_moment};
ghost use Rattle.acq_control.specs.Questions.{holds_of, list_of, moment_at};
ghost use Rattle.acq_control.specs.Questions.{says_now, without_return};
ghost use Rattle.acq_control.specs.Held.{IsTaken};
ghost use Rattle.acq_control.specs.Questions as spec;
ghost use Rattle.acq_status.specs.declared.serving.Serving.{Serving};

use crate::find_line::sought_of;
use crate::question::Question;
use crate::question_word::QuestionWord;
use crate::statement_line::statement_of;
use crate::taken_line::TakenLine;
use acq_core::{Event, Moment};
use acq_directory::Listing;
use acq_faults::{DayReport, ReportKind};
use acq_link::SliceSource;
use acq_out::{OutFault, merchant_of, moment_of, read_events};
use acq_status::{Serving, StatusForm};
use day_totals::Day;
use itoa::Buffer;
use std::alloc::{AllocError, Global};
use std::str;

/// The word that stands for the moment.
const NOW: &[u8] = b"now";

/// The form of a report or a statement that is told beside its day.
pub(crate) const CSV: &[u8] = b"csv";

/// What a line asks that is taken at this moment, while so much is served, or `None` where it is
/// out of its form or too long (own profile; `specs/Questions.antt`).
pub(crate) fn question_in(
    alloc: Global,
    taken: &TakenLine,
    now: Moment,
    serving: Serving,
) -> Result<Option<Question>, AllocError>
    ensures asks { IfOk result (λ asked. (line : List ℕ)
        → IsTaken taken.now line → Asks now line asked) }
    ensures shows { IfOk result (Shows serving) }
{
    match taken {
        TakenLine::Whole(line) => question_of(alloc, line.as_slice(), now, serving),
        TakenLine::TooLong => Ok(None),
    }
}

/// The same of a line that isn't too long.
fn question_of(
    alloc: Global,
    line: &[u8],
    now: Moment,
    serving: Serving,
) -> Result<Option<Question>, AllocError>
    ensures asks { IfOk result (λ asked. AsksShort now line.now asked) }
    ensures shows { IfOk result (Shows serving) }
{
    let line = without_return(line);
    let word = QuestionWord::of(line);
    let rest = &line[word.length()..];
    match word {
        QuestionWord::Stop => Ok(Some(Question::Stop)),
        QuestionWord::Clearing => Ok(report_on(ReportKind::Clearing, rest)),
        QuestionWord::Report => Ok(settlement_of(rest)),
        QuestionWord::Sums => Ok(sums_on(rest)),
        QuestionWord::Statement => Ok(stated_of(rest)),
        QuestionWord::Find => Ok(find_of(rest)),
        QuestionWord::Holds => Ok(holds_of(rest, now)),
        QuestionWord::Pending => Ok(pending_on(rest, now)),
        QuestionWord::Explain => explained_of(alloc, rest, now),
        QuestionWord::List => Ok(list_of(rest)),
        QuestionWord::Status => Ok(Some(Question::Status(StatusForm::Lines, serving))),
        QuestionWord::Metrics => Ok(Some(Question::Status(StatusForm::Metrics, serving))),
        QuestionWord::End => Ok(end_of(rest, now)),
        QuestionWord::Reopen => Ok(Some(Question::Reopen)),
        QuestionWord::Event => event_of(alloc, line, now),
    }
}

/// A line without the carriage return before its end, if one stands there.
pub(crate) fn without_return(line: &[u8]) -> &[u8]
    ensures { result.now ≡ without_return line.entry.now }
{
    if line.ends_with(b"\r") {
        &line[..line.len() - 1]
    } else {
        line
    }
}

/// A report on the day whose date this is.
fn report_on(kind: ReportKind, date: &[u8]) -> Option<Question>
    ensures { AsksReport kind date.now result }
{
    let Ok(date) = str::from_utf8(date) else {
        return None;
    };
    let day = Day::read(date)?;
    Some(Question::Report(DayReport { kind, day }))
}

/// The settlement report on the day whose date stands before the first comma, in the form behind
/// it.
fn settlement_of(text: &[u8]) -> Option<Question>
    ensures asks { AsksSettlement text.now (position (λ byte. byte == 44) text.now) result }
    ensures shows { (serving : Serving) → Shows serving result }
{
    let Some(comma) = comma_in(text) else {
        return report_on(ReportKind::Settlement, text);
    };
    if &text[comma + 1..] == CSV {
        report_csv_on(&text[..comma])
    } else {
        None
    }
}

/// The settlement report as CSV on the day whose date this is.
fn report_csv_on(date: &[u8]) -> Option<Question>
    ensures { AsksReportCsv date.now result }
{
    let Ok(date) = str::from_utf8(date) else {
        return None;
    };
    Some(Question::ReportCsv(Day::read(date)?))
}

/// The sums of the day whose date this is.
fn sums_on(date: &[u8]) -> Option<Question>
    ensures { AsksSums date.now result }
{
    let Ok(date) = str::from_utf8(date) else {
        return None;
    };
    Some(Question::Sums(Day::read(date)?))
}

/// The answers to what waits of the day whose date this is.
fn pending_on(date: &[u8], now: Moment) -> Option<Question>
    ensures { AsksPending now date.now result }
{
    let Ok(date) = str::from_utf8(date) else {
        return None;
    };
    Some(Question::Pending(Day::read(date)?, now))
}

/// The end of the business day whose date this is.
fn end_of(date: &[u8], now: Moment) -> Option<Question>
    ensures { AsksEnd now date.now result }
{
    let Ok(date) = str::from_utf8(date) else {
        return None;
    };
    Some(Question::End(Day::read(date)?, now))
}

/// The open holds of the merchant before the first comma, at the moment behind it.
fn holds_of(text: &[u8], now: Moment) -> Option<Question>
    ensures holds { result ≡ holds_of now text.now }
    ensures shows { (serving : Serving) → Shows serving result }
{
    let comma = comma_in(text)?;
    let merchant = merchant_of(&text[..comma])?;
    let moment = moment_at(&text[comma + 1..], now)?;
    Some(Question::Holds(merchant, moment))
}

/// A statement, by the text behind the word.
fn stated_of(text: &[u8]) -> Option<Question>
    ensures asks { AsksStated text.now result }
    ensures shows { (serving : Serving) → Shows serving result }
{
    Some(Question::Statement(statement_of(text)?))
}

/// What is to be found, by the text behind the word.
fn find_of(text: &[u8]) -> Option<Question>
    ensures asks { AsksFound text.now result }
    ensures shows { (serving : Serving) → Shows serving result }
{
    Some(Question::Find(sought_of(text)?))
}

/// The listing of this name.
fn list_of(name: &[u8]) -> Option<Question>
    ensures list { result ≡ list_of name.now }
    ensures shows { (serving : Serving) → Shows serving result }
{
    Some(Question::List(Listing::named(name)?))
}

/// Where the first comma stands, if one does.
pub(crate) fn comma_in(text: &[u8]) -> Option<usize>
    ensures { result ≡ position (λ byte. byte == 44) text.now }
{
    text.iter().position(|byte| *byte == b',')
}

/// A moment, or now.
fn moment_at(text: &[u8], now: Moment) -> Option<Moment>
    ensures { result ≡ moment_at now text.now }
{
    if text == NOW {
        Some(now)
    } else {
        moment_of(text)
    }
}

/// The event that a line spells, with the moment in place of `now`.
fn event_of(alloc: Global, line: &[u8], now: Moment) -> Result<Option<Question>, AllocError>
    ensures { IfOk result (λ asked. AsksEvent now line.now asked) }
{
    let text = at_moment(alloc, line, now)?;
    match event_in(alloc, text.as_slice())? {
        Some(event) => Ok(Some(Question::Event(event))),
        None => Ok(None),
    }
}

/// The explanation of a message in hexadecimal that comes at this moment.
fn explained_of(alloc: Global, digits: &[u8], now: Moment) -> Result<Option<Question>, AllocError>
    ensures { IfOk result (λ asked. AsksExplained now digits.now asked) }
{
    let text = frame_line(alloc, digits, now)?;
    match event_in(alloc, text.as_slice())? {
        Some(event) => Ok(Some(Question::Explain(event))),
        None => Ok(None),
    }
}

/// The one event that a line spells, or nothing where it doesn't spell one.
fn event_in(alloc: Global, line: &[u8]) -> Result<Option<Event>, AllocError>
    ensures { IfOk result (λ event. spec.SpellsEvent line.now event) }
{
    let mut input = SliceSource::new(line);
    match read_events(alloc, &mut input) {
        Ok(events) => Ok(only_one(events)),
        Err(OutFault::BadLine(_)) => Ok(None),
        // Nothing is read but memory, so this is memory alone.
        Err(_) => Err(AllocError),
    }
}

/// The one event of a list, or nothing where it isn't one.
fn only_one(mut events: Vec<Event>) -> Option<Event>
    ensures { spec.IsOnlyOne events.items result }
{
    if events.len() != 1 {
        return None;
    }
    events.pop()
}

/// The event line of a message in hexadecimal that comes at a moment.
fn frame_line(alloc: Global, digits: &[u8], now: Moment) -> Result<Vec<u8>, AllocError>
    ensures { IfOk result (λ text. text.items ≡ frame_line now digits.now) }
{
    let mut text = Vec::new(alloc);
    text.extend_from_slice(b"frame,")?;
    text.extend_from_slice(Buffer::new().format(now.seconds()).as_bytes())?;
    text.extend_from_slice(b",")?;
    text.extend_from_slice(digits)?;
    text.extend_from_slice(b",,,")?;
    Ok(text)
}

/// An event line with the moment in place of `now`.
fn at_moment(alloc: Global, line: &[u8], now: Moment) -> Result<Vec<u8>, AllocError>
    ensures { IfOk result (λ text. text.items ≡ at_moment now line.now) }
{
    let mut text = Vec::new(alloc);
    match word_before_now(line) {
        None => text.extend_from_slice(line)?,
        Some(first) => {
            text.extend_from_slice(first)?;
            text.extend_from_slice(Buffer::new().format(now.seconds()).as_bytes())?;
            text.extend_from_slice(&line[first.len() + NOW.len()..])?;
        }
    }
    Ok(text)
}

/// The first word of an event line that has `now` for its moment.
fn word_before_now(line: &[u8]) -> Option<&'static [u8]>
    ensures { spec.IsWordBeforeNow line.now result }
{
    if says_now(line, b"frame,") {
        Some(b"frame,")
    } else if says_now(line, b"answer,") {
        Some(b"answer,")
    } else if says_now(line, b"cutover,") {
        Some(b"cutover,")
    } else {
        None
    }
}

/// Whether `now` stands behind a line's first word.
fn says_now(line: &[u8], first: &[u8]) -> bool
    ensures { result ≡ says_now line.now first.now }
{
    line.starts_with(first) && line[first.len()..].starts_with(b"now,")
}
