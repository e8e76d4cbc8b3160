//! The text of an event that is explained.

ghost use Rattle.std.specs.Prelude.{◌≡◌, ◌≢◌, ◌+◌, ◌++◌, Err, IfOk, OnOk, is_ok};
ghost use Rattle.acq_core.specs.Looking.{known_of};
ghost use Rattle.acq_core.specs.Tables.{known_in};
ghost use Rattle.acq_book.specs.Calls.{Looks};
ghost use Rattle.acq_book.specs.Promise.{CountsFault};
ghost use Rattle.acq_reports.specs.Faults.{CountsStore, failed_writes, is_settled};
ghost use Rattle.acq_reports.specs.Writing.{Writes};
ghost use Rattle.acq_reports.specs.declared.report_fault.ReportFault.TheVariants.{Store};
ghost use Rattle.acq_explain.specs.Explained.{explained, explained_in, element_lines, other_lines};
ghost use Rattle.acq_explain.specs.Explained.{request_lines, figures_of};

use crate::details::{put_compared, put_decisive};
use crate::differing::put_differing;
use crate::figures::put_figures;
use crate::first_line::put_first_line;
use crate::passed::put_passed;
use acq_book::{Book, BookFault};
use acq_core::{Arrival, Event, Looked};
use acq_deciding::decide_arrival;
use acq_host::look_up;
use acq_link::Sink;
use acq_message::RequestMessage;
use acq_reasons::{Reason, reason_for};
use acq_reports::{Report, ReportFault};
use iso_codec::Message;
use std::alloc::{AllocError, Global};

/// Writes what the host would say to an event, and why. `Write` tells how many bytes of the text
/// went out. No fault comes but that, `Memory` and `Store`.
pub(crate) fn write_explained<B: Book, K: Sink>(
    alloc: Global,
    book: &mut B,
    event: &Event,
    writer: &mut K,
) -> Result<(), ReportFault>
    ensures text { B.is_honest book.new → B.is_open book.old → Writes K.sent K.failures
        (explained_in (B.tables book.old) event.now) writer.old writer.new result }
    ensures writes { K.failures writer.new ≡ K.failures writer.old + failed_writes result }
    ensures looks { Looks B.Book book.old book.new (is_settled result) }
    ensures store { CountsStore result (B.failures book.old) (B.failures book.new) }
{
    let text = explained_event(alloc, book, event)?;
    put_text(alloc, text.as_slice(), writer)
}

/// Writes a text whole.
fn put_text<K: Sink>(alloc: Global, text: &[u8], writer: &mut K) -> Result<(), ReportFault>
    ensures text { Writes K.sent K.failures text.now writer.old writer.new result }
    ensures no_store { result ≢ Err Store }
{
    let mut report = Report::new(alloc, writer);
    report.put(text);
    report.end(Ok(()))
}

/// The text of an event.
fn explained_event<B: Book>(
    alloc: Global,
    book: &mut B,
    event: &Event,
) -> Result<Vec<u8>, BookFault>
    ensures text { B.is_open book.new → IfOk result (λ text.
        text.items ≡ explained_in (B.tables book.old) event.now) }
    ensures looks { Looks B.Book book.old book.new (is_ok result) }
    ensures store { CountsFault result (B.failures book.old) (B.failures book.new) }
{
    let arrival = Arrival::of(alloc, event)?;
    explained_arrival(alloc, book, &arrival)
}

/// The same of an event that was read.
#[tactic(auto, using(acq_host::proofs::Chains::looks_more))]
fn explained_arrival<B: Book>(
    alloc: Global,
    book: &mut B,
    arrival: &Arrival,
) -> Result<Vec<u8>, BookFault>
    ensures text { B.is_open book.new → IfOk result (λ text.
        text.items ≡ explained (known_in (B.tables book.old) arrival.now) arrival.now) }
    ensures looks { Looks B.Book book.old book.new (is_ok result) }
    ensures store { CountsFault result (B.failures book.old) (B.failures book.new) }
{
    let looked = look_up(book, arrival)?;
    let made = explained(alloc, &looked, arrival);
    drop(looked);
    Ok(made?)
}

/// The text of what came, over what was looked up.
fn explained(alloc: Global, looked: &Looked, arrival: &Arrival) -> Result<Vec<u8>, AllocError>
    ensures { IfOk result (λ text. text.items ≡ explained (known_of looked.now) arrival.now) }
{
    let reason = reason_for(alloc, looked, arrival)?;
    let (output, change) = decide_arrival(alloc, looked, arrival)?;
    drop(change);
    let mut text = Vec::new(alloc);
    put_first_line(alloc, &mut text, looked, arrival, &reason, &output)?;
    put_request_lines(alloc, &mut text, looked, arrival, &reason)?;
    Ok(text)
}

/// Puts the lines of a request, if one came.
fn put_request_lines(
    alloc: Global,
    text: &mut Vec<u8>,
    looked: &Looked,
    arrival: &Arrival,
    reason: &Option<Reason>,
) -> Result<(), AllocError>
    ensures { OnOk result (text.new.items
        ≡ text.old.items ++ request_lines (known_of looked.now) arrival.now reason.now) }
{
    match arrival {
        Arrival::Malformed(request) => put_element_lines(text, &request.message, reason),
        Arrival::Requested(request) => {
            put_passed(text, looked, request, reason)?;
            put_element_lines(text, &request.as_request().message, reason)?;
            put_other_lines(alloc, text, looked, request.as_request(), reason)
        }
        _ => Ok(()),
    }
}

/// Puts the element that a reason is about.
#[tactic(auto, unfolding(crate::specs::Explained::element_lines))]
fn put_element_lines(
    text: &mut Vec<u8>,
    message: &Message,
    reason: &Option<Reason>,
) -> Result<(), AllocError>
    ensures { OnOk result (text.new.items
        ≡ text.old.items ++ element_lines message.now reason.now) }
{
    match reason {
        Some(reason) => put_decisive(text, message, reason),
        None => Ok(()),
    }
}

/// Puts what it was compared with, or differs in.
#[tactic(auto, unfolding(crate::specs::Explained::other_lines))]
fn put_other_lines(
    alloc: Global,
    text: &mut Vec<u8>,
    looked: &Looked,
    request: &RequestMessage,
    reason: &Option<Reason>,
) -> Result<(), AllocError>
    ensures { OnOk result (text.new.items
        ≡ text.old.items ++ other_lines (known_of looked.now) request.now reason.now) }
{
    let Some(reason) = reason else {
        return Ok(());
    };
    put_compared(text, looked, &request.message, reason)?;
    put_differing(alloc, text, looked, request, reason)?;
    put_figures_of(text, looked, &request.message, reason)
}

/// Puts the figures that aren't the day's.
fn put_figures_of(
    text: &mut Vec<u8>,
    looked: &Looked,
    message: &Message,
    reason: &Reason,
) -> Result<(), AllocError>
    ensures { OnOk result (text.new.items
        ≡ text.old.items ++ figures_of (known_of looked.now) message.now reason.now) }
{
    match reason {
        Reason::OutOfBalance => put_figures(text, message, &looked.totals),
        _ => Ok(()),
    }
}
