//! What the host would say to events, over a book that is left as it is.

ghost use Rattle.std.specs.Prelude.{◌≡◌, ◌++◌, Bool, IfOk, OnOk};
ghost use Rattle.acq_book.specs.Calls.{Looks};
ghost use Rattle.acq_core.specs.Tables.{new_tables, tables_after};
ghost use Rattle.acq_link.specs.MemorySink.{sent_of};
ghost use Rattle.acq_link.specs.Moves.{TakesAll};
ghost use Rattle.acq_commands.specs.Explain.{ExplainsAll, explanations};

use crate::explain_options::ExplainOptions;
use crate::input_events::events_in;
use crate::input_form::InputForm;
use crate::new_list_book::new_list_book;
use acq_book::Book;
use acq_core::{Event, Moment};
use acq_explain::Explained;
use acq_faults::Fault;
use acq_host::{BookText, Host};
use acq_link::{MemorySink, Sink, Source, read_to_end, write_out};
use acq_reports::ReportFault;
use std::alloc::Global;
use std::hash::RandomState;

/// Reads the whole input, messages that come at this moment or event lines, and then writes what
/// the host would say to each event, and why, each over the book as it stands. Unless all of it can
/// be said, nothing is written.
pub fn explain_on<B: Book, S: Source, K: Sink>(
    alloc: Global,
    book: &mut B,
    form: InputForm,
    moment: Moment,
    input: &mut S,
    output: &mut K,
) -> Result<(), Fault>
    // If all is well, each event that was read was explained, over the book that was there,
    ensures explained { B.is_honest book.new → B.is_open book.old → OnOk result
        (ExplainsAll (B.tables book.old) form moment
        (record { before = S.received input.old; after = S.received input.new })
        (record { before = K.sent output.old; after = K.sent output.new })) }
    // which was looked at alone,
    ensures looks { (done : Bool) × Looks B.Book book.old book.new done }
    // and the whole input was read.
    ensures whole { OnOk result
        (TakesAll (S.remaining input.old) (S.received input.old) (S.received input.new)) }
{
    let bytes = read_to_end(alloc, input)?;
    let events = events_in(alloc, form, moment, bytes.as_slice())?;
    let text = text_of(alloc, book, events.as_slice())?;
    match write_out(output, text.as_bytes()) {
        Ok(()) => Ok(()),
        Err(bytes) => Err(Fault::Write(bytes)),
    }
}

/// What the host would say to these events.
fn text_of<B: Book>(alloc: Global, book: &mut B, events: &[Event]) -> Result<MemorySink, Fault>
    ensures text { B.is_honest book.new → B.is_open book.old → IfOk result (λ text.
        sent_of text ≡ explanations (B.tables book.old) events.now) }
    ensures looks { (done : Bool) × Looks B.Book book.old book.new done }
{
    let mut text = MemorySink::new(alloc);
    match put_each(alloc, book, events, &mut text) {
        Ok(()) => Ok(text),
        Err(fault) => Err(Fault::from(fault)),
    }
}

/// Puts what the host would say to each of these events behind other bytes.
fn put_each<B: Book>(
    alloc: Global,
    book: &mut B,
    events: &[Event],
    text: &mut MemorySink,
) -> Result<(), ReportFault>
    ensures text { B.is_honest book.new → B.is_open book.old → OnOk result
        (sent_of text.new ≡ sent_of text.old ++ explanations (B.tables book.old) events.now) }
    ensures looks { (done : Bool) × Looks B.Book book.old book.new done }
{
    for event in events.iter() {
        Explained { event }.write(alloc, book, text)?;
    }
    Ok(())
}

/// The same over a new book, which takes these events first.
pub fn explain_in_memory<S: Source, K: Sink>(
    alloc: Global,
    keys: RandomState,
    options: &ExplainOptions,
    moment: Moment,
    events: &[Event],
    input: &mut S,
    output: &mut K,
) -> Result<(), Fault>
    ensures explained { OnOk result (ExplainsAll (tables_after (new_tables
        (record { limit = options.now.limit; first_day = options.now.first_day })) events.now)
        options.now.form moment
        (record { before = S.received input.old; after = S.received input.new })
        (record { before = K.sent output.old; after = K.sent output.new })) }
    ensures whole { OnOk result
        (TakesAll (S.remaining input.old) (S.received input.old) (S.received input.new)) }
{
    let book = new_list_book(alloc, keys, options.limit, options.first_day);
    let mut host = Host::new(alloc, book);
    match host.take_group(events) {
        Ok(said) => drop(said),
        Err(fault) => return Err(Fault::from(fault)),
    }
    let mut book = host.into_book();
    let ended = explain_on(alloc, &mut book, options.form, moment, input, output);
    drop(book);
    ended
}
