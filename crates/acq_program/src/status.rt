//! The figures of the book in a file.

use crate::machine::Machine;
use acq_book::Book;
use acq_faults::Fault;
use acq_link::Sink;
use acq_status::{StatusForm, write_status};
use std::alloc::Global;

/// Writes the figures of the book in a file, which is given back.
pub(crate) fn tell_status<B: Book + Drop, M: Machine<B>, K: Sink>(
    alloc: Global,
    machine: M,
    path: &String,
    output: &mut K,
) -> Result<(), Fault> {
    let mut book = machine.open_book(path.as_str())?;
    let written = write_status(alloc, &mut book, StatusForm::Lines, None, output);
    drop(book);
    Ok(written?)
}
