//! A listing of the book in a file.

ghost use Rattle.std.specs.Prelude.{IfErr};
ghost use Rattle.acq_program.specs.BookFaults.{IsOfText};

use crate::list_options::ListOptions;
use crate::machine::Machine;
use acq_book::Book;
use acq_directory::write_listing;
use acq_faults::Fault;
use acq_link::Sink;
use std::alloc::Global;

/// Writes the merchants, the terminals or the ranges of the book in a file, which is given back.
pub(crate) fn write_list<B: Book + Drop, M: Machine<B>, K: Sink>(
    alloc: Global,
    machine: M,
    asked: &ListOptions,
    output: &mut K,
) -> Result<(), Fault>
    ensures { IfErr result IsOfText }
{
    let mut book = machine.open_book(asked.path.as_str())?;
    let written = write_listing(alloc, &mut book, asked.listing, output);
    drop(book);
    Ok(written?)
}
