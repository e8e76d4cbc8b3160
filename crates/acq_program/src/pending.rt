//! Answers to the requests that are pending in the book in a file.

ghost use Rattle.std.specs.Prelude.{IfErr};
ghost use Rattle.acq_faults.specs.Faults.{IsOfAnswers};
ghost use Rattle.acq_program.specs.BookFaults.{IsOfPending};

use crate::machine::Machine;
use crate::pending_options::PendingOptions;
use acq_book::Book;
use acq_core::Moment;
use acq_faults::Fault;
use acq_front::Clock;
use acq_link::Sink;
use acq_stand_in::{StandIn, answers_to_pending};
use std::alloc::Global;

/// Writes answers to the requests that are pending in the book in a file, which is given back. What
/// is wrong is told of the book first, then of the issuers' file.
pub(crate) fn answer_pending<B: Book + Drop, M: Machine<B>, C: Clock, K: Sink>(
    alloc: Global,
    machine: M,
    asked: &PendingOptions,
    clock: &mut C,
    output: &mut K,
) -> Result<(), Fault>
    ensures { IfErr result IsOfPending }
{
    let issuers = issuers_of(alloc, &machine, asked);
    let mut book = machine.open_book(asked.path.as_str())?;
    let issuers = issuers?;
    let moment = moment_of(asked, clock);
    let written = answers_to_pending(alloc, &mut book, &issuers, asked.day, moment, output);
    drop(book);
    Ok(written?)
}

/// The issuers' file, or without one nobody who answers.
fn issuers_of<B: Book + Drop, M: Machine<B>>(
    alloc: Global,
    machine: &M,
    asked: &PendingOptions,
) -> Result<StandIn, Fault>
    ensures { IfErr result IsOfAnswers }
{
    match &asked.issuers {
        Some(path) => machine.read_answers(alloc, path.as_str()),
        None => Ok(StandIn::silent(alloc)),
    }
}

/// The moment that is asked for, or the clock's.
fn moment_of<C: Clock>(asked: &PendingOptions, clock: &mut C) -> Moment {
    match asked.moment {
        Some(moment) => moment,
        None => clock.now(),
    }
}
