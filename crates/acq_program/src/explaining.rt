//! What the host would say to events, over a new book or the one in a file.

ghost use Rattle.acq_program.specs.Runs.{ExplainsIn, ExplainsOver, MayCome, ReadsWhole};

use crate::machine::Machine;
use acq_book::Book;
use acq_commands::{ExplainOptions, explain_in_memory, explain_on};
use acq_core::Moment;
use acq_faults::Fault;
use acq_front::Clock;
use acq_link::{Sink, Source};
use std::alloc::Global;
use std::hash::RandomState;

/// Writes what the host would say to the events of the input. The messages among them come at the
/// moment that is asked for, or at the clock's.
pub(crate) fn explain<B: Book + Drop, M: Machine<B> + Drop, C: Clock, S: Source, K: Sink>(
    alloc: Global,
    keys: RandomState,
    machine: M,
    asked: &ExplainOptions,
    clock: &mut C,
    input: &mut S,
    output: &mut K,
) -> Result<(), Fault>
    ensures explained { ExplainsIn asked.now
        (record { before = S.received input.old; after = S.received input.new })
        (record { before = K.sent output.old; after = K.sent output.new }) result }
    ensures whole { ReadsWhole
        (S.remaining input.old) (S.received input.old) (S.received input.new) result }
{
    let moment = moment_of(asked, clock);
    match &asked.book {
        Some(path) => explain_in_file(alloc, machine, path, asked, moment, input, output),
        None => explain_over_new(alloc, keys, machine, asked, moment, input, output),
    }
}

/// The moment that is asked for, or the clock's.
fn moment_of<C: Clock>(asked: &ExplainOptions, clock: &mut C) -> Moment
    ensures { MayCome asked.now.moment result }
{
    match asked.moment {
        Some(moment) => moment,
        None => clock.now(),
    }
}

/// Writes what it would say over the book in a file, which is given back.
fn explain_in_file<B: Book + Drop, M: Machine<B>, S: Source, K: Sink>(
    alloc: Global,
    machine: M,
    path: &String,
    asked: &ExplainOptions,
    moment: Moment,
    input: &mut S,
    output: &mut K,
) -> Result<(), Fault>
    ensures { ReadsWhole
        (S.remaining input.old) (S.received input.old) (S.received input.new) result }
{
    let mut book = machine.open_book(path.as_str())?;
    let ended = explain_on(alloc, &mut book, asked.form, moment, input, output);
    drop(book);
    ended
}

/// Writes what it would say over a new book, behind the events of a file, if one is named.
fn explain_over_new<B: Book + Drop, M: Machine<B> + Drop, S: Source, K: Sink>(
    alloc: Global,
    keys: RandomState,
    machine: M,
    asked: &ExplainOptions,
    moment: Moment,
    input: &mut S,
    output: &mut K,
) -> Result<(), Fault>
    requires { MayCome asked.now.moment moment }
    ensures explained { ExplainsOver asked.now.events asked.now
        (record { before = S.received input.old; after = S.received input.new })
        (record { before = K.sent output.old; after = K.sent output.new }) result }
    ensures whole { ReadsWhole
        (S.remaining input.old) (S.received input.old) (S.received input.new) result }
{
    match &asked.events {
        Some(path) => {
            let events = machine.read_events(alloc, path.as_str())?;
            explain_in_memory(alloc, keys, asked, moment, events.as_slice(), input, output)
        }
        None => explain_in_memory(alloc, keys, asked, moment, &[], input, output),
    }
}
