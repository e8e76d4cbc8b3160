//! A replay over a new book in memory.

ghost use Rattle.acq_link.specs.Moves.{TakesAll};
ghost use Rattle.acq_commands.specs.Replay.{AfterReading};
ghost use Rattle.acq_commands.specs.Runs.{RunsReplay};

use crate::book_commands::{end_of, replay_on};
use crate::new_list_book::new_list_book;
use crate::progress::Progress;
use crate::replay_options::ReplayOptions;
use acq_faults::Fault;
use acq_link::{Sink, Source};
use std::alloc::Global;
use std::hash::RandomState;

/// Replays an input over a new book, which is given back at the end. The book's rows are found by
/// hash, under these keys.
pub fn replay_in_memory<S: Source, K: Sink, P: Progress>(
    alloc: Global,
    keys: RandomState,
    options: &ReplayOptions,
    input: &mut S,
    output: &mut K,
    progress: &mut P,
) -> Result<(), Fault>
    ensures runs { RunsReplay options.now
        (record { before = S.received input.old; after = S.received input.new })
        (record { before = K.sent output.old; after = K.sent output.new }) result }
    ensures whole { AfterReading result
        (TakesAll (S.remaining input.old) (S.received input.old) (S.received input.new)) }
{
    let book = new_list_book(alloc, keys, options.limit, options.first_day);
    let reports = options.reports.as_slice();
    let ran = replay_on(alloc, book, options.group, reports, input, output, progress);
    end_of(ran)
}
