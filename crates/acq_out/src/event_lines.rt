//! Texts of event lines.

ghost use Rattle.std.specs.Prelude.{◌≡◌, ◌+◌, ◌++◌, ℕ, List, Ok, Err};
ghost use Rattle.std.specs.Prelude.{IsErrOf, MatchResult, OnOk};
ghost use Rattle.acq_link.specs.Moves.{TakesAll};
ghost use Rattle.acq_out.specs.Faults.{failed_reads};
ghost use Rattle.acq_out.specs.Reads.{ReadsEvents};
ghost use Rattle.acq_out.specs.declared.out_fault.OutFault.TheVariants.{BadLine};

use crate::event_line::EventLine;
use crate::out_fault::OutFault;
use crate::records::{RecordForm, read_records};
use acq_core::Event;
use acq_link::Source;
use csv::ByteRecord;
use std::alloc::{AllocError, Global};

/// Reads the whole input, and the events of its lines: CSV with no header line, a record of six
/// fields for each event (own profile; `specs/EventLines.antt`). `BadLine` names the first record
/// out of its form, counted from 1.
pub fn read_events<S: Source>(alloc: Global, input: &mut S) -> Result<Vec<Event>, OutFault>
    // What was read, and what it gave.
    ensures read { (bytes : List ℕ)
        × (S.received input.new ≡ S.received input.old ++ bytes)
        × MatchResult result
        (λ events. ReadsEvents bytes (Ok events.items))
        (λ fault. ReadsEvents bytes (Err fault)) }
    // Where events are given, or a line is bad, the whole input was read.
    ensures whole { OnOk result
        (TakesAll (S.remaining input.old) (S.received input.old) (S.received input.new)) }
    ensures whole_at_bad_line { (n : ℕ) → IsErrOf result (BadLine n)
        → TakesAll (S.remaining input.old) (S.received input.old) (S.received input.new) }
    // A fault of reading comes just where a read failed.
    ensures failures { S.failures input.new ≡ S.failures input.old + failed_reads result }
{
    Ok(read_records(alloc, &EventForm, input)?)
}

/// The form of event lines.
struct EventForm;

impl RecordForm<Event> for EventForm {
    ghost use Rattle.acq_out.specs.EventLines.{event_of_fields};

    ghost spelled = { event_of_fields };

    fn value(&self, alloc: Global, fields: &ByteRecord) -> Result<Option<Event>, AllocError> {
        match EventLine::of(fields) {
            Some(line) => line.event(alloc),
            None => Ok(None),
        }
    }
}
