//! A list that becomes the ranges of the book in a file.

use crate::machine::Machine;
use crate::ranges_options::RangesOptions;
use acq_commands::{Progress, set_ranges_on, write_range_changes};
use acq_faults::Fault;
use acq_link::Sink;
use acq_recall::{Lenient, RecallingBook};
use card_no::RangeList;
use std::alloc::Global;
use std::hash::RandomState;

/// Makes the list in a file the ranges of the book in a file, and writes the event lines that it
/// took; or writes only those that it would take. What is wrong is told of the book first, then of
/// the list.
pub(crate) fn set_ranges<B: Lenient + Drop, M: Machine<B> + Drop, K: Sink, P: Progress>(
    alloc: Global,
    keys: RandomState,
    machine: M,
    asked: &RangesOptions,
    output: &mut K,
    progress: &mut P,
) -> Result<(), Fault> {
    let list = machine.read_ranges(alloc, asked.list.as_str());
    let book = machine.open_book(asked.path.as_str())?;
    let list = list?;
    if asked.is_dry {
        return tell_changes(alloc, book, &list, output);
    }
    let book = RecallingBook::new(alloc, keys, book);
    let (book, ended) = set_ranges_on(alloc, book, &list, output, progress);
    match ended {
        Ok(()) => M::close_book(book.into_book()),
        Err(fault) => Err(fault),
    }
}

/// Writes the event lines by which a list would become the ranges of a book, which is given back.
fn tell_changes<B: Lenient + Drop, K: Sink>(
    alloc: Global,
    mut book: B,
    list: &RangeList,
    output: &mut K,
) -> Result<(), Fault> {
    let written = write_range_changes(alloc, &mut book, list, output);
    drop(book);
    written
}
