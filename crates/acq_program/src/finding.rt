//! What became of a request of the book in a file.

ghost use Rattle.std.specs.Prelude.{IfErr};
ghost use Rattle.acq_program.specs.BookFaults.{IsOfText};

use crate::find_options::FindOptions;
use crate::machine::Machine;
use acq_book::Book;
use acq_faults::Fault;
use acq_inquiry::write_inquiry;
use acq_link::Sink;
use std::alloc::Global;

/// Writes what became of a request of the book in a file, which is given back.
pub(crate) fn write_found<B: Book + Drop, M: Machine<B>, K: Sink>(
    alloc: Global,
    machine: M,
    asked: &FindOptions,
    output: &mut K,
) -> Result<(), Fault>
    ensures { IfErr result IsOfText }
{
    let mut book = machine.open_book(asked.path.as_str())?;
    let written = write_inquiry(alloc, &mut book, asked.merchant, &asked.inquiry, output);
    drop(book);
    Ok(written?)
}
