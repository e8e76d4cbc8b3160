//! Statements, and settlement reports as CSV, of the book in a file.

ghost use Rattle.std.specs.Prelude.{IfErr};
ghost use Rattle.acq_program.specs.BookFaults.{IsOfText};

use crate::csv_options::CsvOptions;
use crate::machine::Machine;
use crate::statement_options::StatementOptions;
use acq_book::Book;
use acq_faults::Fault;
use acq_link::Sink;
use acq_statement::{write_report_csv, write_statement};
use std::alloc::Global;

/// Writes a statement of merchants of the book in a file, which is given back.
pub(crate) fn state<B: Book + Drop, M: Machine<B>, K: Sink>(
    alloc: Global,
    machine: M,
    asked: &StatementOptions,
    output: &mut K,
) -> Result<(), Fault>
    ensures { IfErr result IsOfText }
{
    let mut book = machine.open_book(asked.path.as_str())?;
    let merchants = asked.merchants.as_slice();
    let written = write_statement(alloc, &mut book, merchants, asked.days, asked.form, output);
    drop(book);
    Ok(written?)
}

/// Writes the settlement report of a day of the book in a file, as CSV. The book is given back.
pub(crate) fn report_csv<B: Book + Drop, M: Machine<B>, K: Sink>(
    alloc: Global,
    machine: M,
    asked: &CsvOptions,
    output: &mut K,
) -> Result<(), Fault>
    ensures { IfErr result IsOfText }
{
    let mut book = machine.open_book(asked.path.as_str())?;
    let written = write_report_csv(alloc, &mut book, asked.day, output);
    drop(book);
    Ok(written?)
}
