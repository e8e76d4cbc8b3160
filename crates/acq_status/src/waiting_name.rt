//! Which request waits the longest.

ghost use Rattle.std.specs.Prelude.{◌≡◌, ◌++◌, ◌+◌, IfOk, OnOk};
ghost use Rattle.acq_book.specs.Calls.{Looks};
ghost use Rattle.acq_reports.specs.Faults.{CountsStore, failed_writes, is_settled};
ghost use Rattle.acq_reports.specs.Writing.{Writes};
ghost use Rattle.acq_status.specs.Figures.{first_waiting_name, waiting_name};

use crate::first_waiting::first_waiting;
use crate::writing::put_text;
use acq_book::Book;
use acq_core::RequestKey;
use acq_link::Sink;
use acq_reports::ReportFault;
use std::alloc::{AllocError, Global};

/// Room for a name.
const NAME: usize = 39;

/// Writes what tells the request that has waited the longest for its issuer's answer from all
/// others that wait, or nothing where none waits: so one that is seen again is known.
///
/// `Write` tells how many bytes went out. No other fault comes but `Memory` and `Store`.
pub fn write_first_waiting<B: Book, K: Sink>(
    alloc: Global,
    book: &mut B,
    writer: &mut K,
) -> Result<(), ReportFault>
    ensures text { B.is_honest book.new → B.is_open book.old → Writes K.sent K.failures
        (first_waiting_name (B.tables book.old)) writer.old writer.new result }
    ensures writes { K.failures writer.new ≡ K.failures writer.old + failed_writes result }
    ensures looks { Looks B.Book book.old book.new (is_settled result) }
    ensures store { CountsStore result (B.failures book.old) (B.failures book.new) }
{
    match first_waiting(book)? {
        Some(first) => match name_of(alloc, &first.key) {
            Ok(name) => put_text(alloc, name.as_slice(), writer),
            Err(_) => Err(ReportFault::Memory),
        },
        None => put_text(alloc, &[], writer),
    }
}

/// What tells a request from all others that wait.
fn name_of(alloc: Global, key: &RequestKey) -> Result<Vec<u8>, AllocError>
    ensures { IfOk result (λ name. name.items ≡ waiting_name key.now) }
{
    let mut name = Vec::with_capacity(alloc, NAME)?;
    name.extend_from_slice(&key.merchant.to_bytes())?;
    name.extend_from_slice(&key.terminal.to_bytes())?;
    name.extend_from_slice(&key.trace.to_bytes())?;
    name.extend_from_slice(&key.transmission.to_bytes())?;
    Ok(name)
}
