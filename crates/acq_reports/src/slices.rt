//! Rows that are gone over slice by slice.

ghost use Rattle.std.specs.Prelude.{◌≡◌};
ghost use Rattle.acq_reports.specs.Slices.{goes_on};

/// So many rows are gone over at a time: a walk's query has read 2, 8 and 64 rows by then, and
/// would read 512 next.
pub const SLICE: u64 = 74;

/// Whether a walk is to go on, which ends with so many rows, or with the last.
pub fn goes_on(end: Option<u64>, rows: u64) -> bool
    ensures { result ≡ goes_on end rows }
{
    match end {
        Some(end) => rows < end,
        None => true,
    }
}
