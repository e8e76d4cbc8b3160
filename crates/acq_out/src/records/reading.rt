//! Reading all records of an input.

ghost use Rattle.std.specs.Prelude.{◌≡◌, ◌⊎◌, ◌+◌, ◌<◌, ◌++◌, ◌∷◌, ℕ, List, [], length};
ghost use Rattle.std.specs.Prelude.{Some, None, Ok, Err, IfErr, IfSome, IsErrOf, MatchResult, OnOk};
ghost use Rattle.csv.specs.Reading.{Ready, default_config, reader_config, reader_state};
ghost use Rattle.csv.specs.Reading.{reader_trim, source_of, strip_bom};
ghost use Rattle.csv.specs.declared.parser.State.TheVariants as st;
ghost use Rattle.csv.specs.declared.reader.Trim.TheVariants as trim;
ghost use Rattle.csv.specs.Records.{fields_of, field_at};
ghost use Rattle.acq_link.specs.Moves.{TakesAll};
ghost use Rattle.acq_out.specs.RecordFaults.{failed_reads, reads_failed};
ghost use Rattle.acq_out.specs.RecordReads.{ReadsValues};
ghost use Rattle.acq_out.specs.declared.records.record_fault.RecordFault.TheVariants.{Memory, BadRecord};

use crate::records::record_fault::RecordFault;
use crate::records::record_form::RecordForm;
use acq_link::{Source, read_to_end};
use csv::{ByteRecord, Reader, ReaderBuilder};
use std::alloc::Global;
use std::io::Read;

/// Reads the whole input, and the values that its records spell: CSV with no header line, a value
/// for each record (own profile; `specs/Records.antt`). `BadRecord` names the first record out of
/// its form, counted from 1.
pub fn read_records<V: Drop, F: RecordForm<V>, S: Source>(
    alloc: Global,
    form: &F,
    input: &mut S,
) -> Result<Vec<V>, RecordFault>
    // What was read, and what it gave.
    ensures read { (bytes : List ℕ)
        × (S.received input.new ≡ S.received input.old ++ bytes)
        × MatchResult result
        (λ values. ReadsValues F.spelled bytes (Ok values.items))
        (λ fault. ReadsValues F.spelled bytes (Err fault)) }
    // Where values are given, or a record is bad, the whole input was read.
    ensures whole { OnOk result
        (TakesAll (S.remaining input.old) (S.received input.old) (S.received input.new)) }
    ensures whole_at_bad_record { (n : ℕ) → IsErrOf result (BadRecord n)
        → TakesAll (S.remaining input.old) (S.received input.old) (S.received input.new) }
    // A fault of reading comes just where a read failed.
    ensures failures { S.failures input.new ≡ S.failures input.old + failed_reads result }
{
    let bytes = read_to_end(alloc, input)?;
    values_of(alloc, form, bytes.as_slice())
}

/// The values of a text.
fn values_of<V: Drop, F: RecordForm<V>, R: Read + Drop>(
    alloc: Global,
    form: &F,
    reader: R,
) -> Result<Vec<V>, RecordFault>
    ensures values { IfSome (R.remaining reader) (λ text. MatchResult result
        (λ values. ReadsValues F.spelled text (Ok values.items))
        (λ fault. ReadsValues F.spelled text (Err fault))) }
    ensures reads { IfErr result (λ fault. reads_failed fault ≡ 0) }
{
    let mut values = Vec::new(alloc);
    let mut records = ReaderBuilder::new()
        .has_headers(false)
        .flexible(true)
        .from_reader(alloc, reader);
    let mut fields = ByteRecord::new(alloc);
    read_all(alloc, form, &mut records, &mut fields, &mut values)?;
    Ok(values)
}

/// Puts the values of all records behind an empty list.
fn read_all<V: Drop, F: RecordForm<V>, R: Read>(
    alloc: Global,
    form: &F,
    records: &mut Reader<R>,
    fields: &mut ByteRecord,
    values: &mut Vec<V>,
) -> Result<(), RecordFault>
    requires trim { reader_trim records.old ≡ trim.None }
    requires ready { Ready records.old }
    requires config { reader_config records.old ≡ default_config }
    requires start { reader_state records.old ≡ st.StartRecord }
    requires empty { values.old.items ≡ [] }
    ensures values { (text : List ℕ) → source_of R.remaining records.old ≡ Some (strip_bom text)
        → MatchResult result
        (λ _. ReadsValues F.spelled text (Ok values.new.items))
        (λ fault. ReadsValues F.spelled text (Err fault)) }
    ensures reads { IfErr result (λ fault. reads_failed fault ≡ 0) }
{
    for number in 1..u64::MAX {
        match records.read_byte_record(fields) {
            Ok(true) => add_record(alloc, form, values, fields, number)?,
            Ok(false) => return Ok(()),
            // The bytes are in memory and records may be of any length, so this is memory alone.
            Err(_) => return Err(RecordFault::Memory),
        }
    }
    // No list has room for so many values.
    Err(RecordFault::Memory)
}

/// Puts the value of a record of the text behind the others. Records are counted from 1.
fn add_record<V: Drop, F: RecordForm<V>>(
    alloc: Global,
    form: &F,
    values: &mut Vec<V>,
    fields: &ByteRecord,
    number: u64,
) -> Result<(), RecordFault>
    ensures ok { OnOk result ((value : V)
        × (F.spelled (fields_of fields.now) ≡ Some value)
        × (values.new.items ≡ values.old.items ++ value ∷ [])) }
    ensures fault { IfErr result (λ fault. (fault ≡ Memory)
        ⊎ ((fault ≡ BadRecord number) × (F.spelled (fields_of fields.now) ≡ None))) }
{
    let Some(value) = form.value(alloc, fields)? else {
        return Err(RecordFault::BadRecord(number));
    };
    values.push(value)?;
    Ok(())
}

/// The field of a record at a place that it has.
pub fn field(fields: &ByteRecord, place: usize) -> &[u8]
    requires { place < length (fields_of fields.now) }
    ensures { field_at (fields_of fields.now) place ≡ Some result.now }
{
    let Some(text) = fields.get(place) else {
        unreachable!();
    };
    text
}
