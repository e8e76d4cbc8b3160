//! Lines of faults.

ghost use Rattle.std.specs.Prelude.{◌≡◌, ◌+◌, ◌++◌, codes, decimal, OnOk, OnErr};
ghost use Rattle.day_totals.specs.Day.{date_text_of};
ghost use Rattle.day_totals.specs.Digits.{zero_padded};
ghost use Rattle.acq_faults.specs.Faults.{fault_line, values_of};

use crate::fault::Fault;
use acq_link::{Failed, Sink, write_out};
use acq_reports::prefix_text;
use day_totals::Day;
use itoa::Buffer;

/// Writes a fault's line, or of it what goes out before a write fails. It takes no memory.
pub fn write_fault_line<F: Sink>(fault: &Fault, faults: &mut F) -> Result<(), Failed>
    ensures ok { OnOk result (F.sent faults.new ≡ F.sent faults.old ++ fault_line fault.now) }
    ensures well { OnOk result (F.failures faults.new ≡ F.failures faults.old) }
    ensures failed { OnErr result (F.failures faults.new ≡ F.failures faults.old + 1) }
{
    put(faults, b"acqd: ")?;
    put(faults, fault.heading().as_bytes())?;
    put_values(faults, fault)?;
    put(faults, b"\n")
}

/// Writes a fault's values, each behind a space.
fn put_values<F: Sink>(faults: &mut F, fault: &Fault) -> Result<(), Failed>
    ensures ok { OnOk result (F.sent faults.new ≡ F.sent faults.old ++ values_of fault.now) }
    ensures well { OnOk result (F.failures faults.new ≡ F.failures faults.old) }
    ensures failed { OnErr result (F.failures faults.new ≡ F.failures faults.old + 1) }
{
    match fault {
        Fault::Undecodable(cause) => {
            put_value(faults, u64::from(cause.number()))?;
            put_value(faults, u64::from(cause.element()))
        }
        Fault::BadMessage(line, cause) => {
            put_value(faults, *line)?;
            put_value(faults, u64::from(cause.number()))?;
            put_value(faults, u64::from(cause.element()))
        }
        Fault::OtherVersion(n)
        | Fault::Write(n)
        | Fault::StillPending(n)
        | Fault::BadRecord(n)
        | Fault::BadLine(n)
        | Fault::RowsMissing(n) => put_value(faults, *n),
        Fault::OtherDay(day) => put_date(faults, *day),
        Fault::Overlap(low, high) => {
            put_end(faults, *low)?;
            put_end(faults, *high)
        }
        _ => Ok(()),
    }
}

/// Writes a number behind a space.
fn put_value<F: Sink>(faults: &mut F, n: u64) -> Result<(), Failed>
    ensures ok { OnOk result (F.sent faults.new ≡ F.sent faults.old ++ codes " " ++ decimal n) }
    ensures well { OnOk result (F.failures faults.new ≡ F.failures faults.old) }
    ensures failed { OnErr result (F.failures faults.new ≡ F.failures faults.old + 1) }
{
    put(faults, b" ")?;
    put(faults, Buffer::new().format(n).as_bytes())
}

/// Writes an end of a range behind a space.
fn put_end<F: Sink>(faults: &mut F, end: u32) -> Result<(), Failed>
    ensures ok { OnOk result (F.sent faults.new
        ≡ F.sent faults.old ++ codes " " ++ zero_padded 8 end) }
    ensures well { OnOk result (F.failures faults.new ≡ F.failures faults.old) }
    ensures failed { OnErr result (F.failures faults.new ≡ F.failures faults.old + 1) }
{
    put(faults, b" ")?;
    put(faults, &prefix_text(end))
}

/// Writes a day's date behind a space.
fn put_date<F: Sink>(faults: &mut F, day: Day) -> Result<(), Failed>
    ensures ok { OnOk result (F.sent faults.new
        ≡ F.sent faults.old ++ codes " " ++ date_text_of day) }
    ensures well { OnOk result (F.failures faults.new ≡ F.failures faults.old) }
    ensures failed { OnErr result (F.failures faults.new ≡ F.failures faults.old + 1) }
{
    put(faults, b" ")?;
    put(faults, &day.date_text())
}

/// Writes these bytes.
fn put<F: Sink>(faults: &mut F, bytes: &[u8]) -> Result<(), Failed>
    ensures ok { OnOk result (F.sent faults.new ≡ F.sent faults.old ++ bytes.now) }
    ensures well { OnOk result (F.failures faults.new ≡ F.failures faults.old) }
    ensures failed { OnErr result (F.failures faults.new ≡ F.failures faults.old + 1) }
{
    match write_out(faults, bytes) {
        Ok(()) => Ok(()),
        Err(_) => Err(Failed),
    }
}
