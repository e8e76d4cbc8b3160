//! Answers to the requests that wait for one.

ghost use Rattle.std.specs.Prelude.{◌≡◌, ◌+◌, ◌∷◌, [], codes, unwrap_or, IfOk};
ghost use Rattle.std.specs.Fmt.{decimal};
ghost use Rattle.day_totals.specs.Digits.{zero_padded};
ghost use Rattle.acq_book.specs.Calls.{Looks};
ghost use Rattle.acq_reports.specs.Faults.{CountsStore, failed_writes, is_settled};
ghost use Rattle.acq_reports.specs.Marks.{csv_line};
ghost use Rattle.acq_reports.specs.Writing.{Writes};
ghost use Rattle.acq_stand_in.specs.Pending.{answer_fields, is_of_day, pending_text};

use crate::stand_in::StandIn;
use acq_book::{Book, Visit};
use acq_core::{Moment, Request, Verdict};
use acq_link::Sink;
use acq_reports::{Report, ReportFault, content_bytes, record_text, reference_text};
use day_totals::Day;
use itoa::Buffer;
use std::alloc::{AllocError, Global};

/// Writes an answer to each request that waits for its issuer's, those of one business day or of
/// all days (own profile; `specs/Pending.antt`): event lines that can be taken as they stand, in
/// the order in which the requests came. The verdict is what the stand-in says of the request's
/// card, at this moment. Nothing in the book is changed.
///
/// `Write` tells how many bytes of the text went out; with `Memory` and `Store` a beginning of it
/// may have. No other fault comes.
pub fn answers_to_pending<B: Book, K: Sink>(
    alloc: Global,
    book: &mut B,
    issuers: &StandIn,
    day: Option<Day>,
    moment: Moment,
    writer: &mut K,
) -> Result<(), ReportFault>
    ensures text { B.is_honest book.new → B.is_open book.old → Writes K.sent K.failures
        (pending_text issuers.now moment day (B.tables book.old)) writer.old writer.new result }
    ensures writes { K.failures writer.new ≡ K.failures writer.old + failed_writes result }
    ensures looks { Looks B.Book book.old book.new (is_settled result) }
    ensures store { CountsStore result (B.failures book.old) (B.failures book.new) }
{
    let mut answers = PendingAnswers {
        report: Report::new(alloc, writer),
        issuers,
        day,
        moment,
    };
    let walked = book.walk_pending(&mut answers);
    answers.report.end(walked)
}

/// Writes the answers to the requests of a day, or of all days.
#[derive(Drop)]
struct PendingAnswers<'w, 'i, K> {
    report: Report<'w, K>,
    issuers: &'i StandIn,
    day: Option<Day>,
    moment: Moment,
}

impl<K: Sink> Visit<Request> for PendingAnswers<'_, '_, K> {
    ghost use Rattle.std.specs.Prelude.{◌≡◌};
    ghost use Rattle.acq_reports.specs.Writing.{Puts};
    ghost use Rattle.acq_stand_in.specs.Pending.{line_on_day};

    ghost sees = { λ old row more new.
        Puts K.sent K.failures (line_on_day old.issuers.now old.moment old.day row)
        old.report more new.report
        × (new.issuers ≡ old.issuers) × (new.moment ≡ old.moment) × (new.day ≡ old.day) };

    fn row(&mut self, row: &Request) -> bool {
        if is_of_day(self.day, row) {
            let verdict = self.issuers.verdict_on(content_bytes(&row.card));
            let line = answer_text(self.report.alloc(), self.moment, &verdict, row);
            self.report.put_made(line)
        } else {
            self.report.put(b"")
        }
    }
}

/// Whether a request is of this business day, or none is named.
fn is_of_day(day: Option<Day>, row: &Request) -> bool
    ensures { result ≡ is_of_day day row.now }
{
    match day {
        Some(day) => row.day.number() == day.number(),
        None => true,
    }
}

/// The event line of a verdict on a request.
fn answer_text(
    alloc: Global,
    moment: Moment,
    verdict: &Verdict,
    row: &Request,
) -> Result<Vec<u8>, AllocError>
    ensures { IfOk result (λ text. text.items
        ≡ csv_line (answer_fields moment verdict.now row.now)) }
{
    match verdict {
        Verdict::Approved(id) => line_text(alloc, moment, row, b"approved", &id.to_bytes()),
        Verdict::Declined(code) => line_text(alloc, moment, row, b"declined", &code.to_bytes()),
        Verdict::NoAnswer => line_text(alloc, moment, row, b"none", b""),
    }
}

/// The event line of a verdict on a request, by the verdict's word and its text.
fn line_text(
    alloc: Global,
    moment: Moment,
    row: &Request,
    word: &[u8],
    text: &[u8],
) -> Result<Vec<u8>, AllocError>
    ensures { IfOk result (λ line. line.items ≡ csv_line (codes "answer" ∷ decimal moment
        ∷ row.now.key.merchant ∷ zero_padded 12 (unwrap_or row.now.reference 0)
        ∷ word.now ∷ text.now ∷ [])) }
{
    let mut seconds = Buffer::new();
    let merchant = row.key.merchant.to_bytes();
    let reference = reference_text(row.reference);
    let fields: [&[u8]; 6] = [
        b"answer",
        seconds.format(moment.seconds()).as_bytes(),
        &merchant,
        &reference,
        word,
        text,
    ];
    record_text(alloc, &fields)
}
