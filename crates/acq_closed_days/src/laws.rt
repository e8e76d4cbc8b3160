//! Laws of days that are over.

ghost use Rattle.std.specs.Prelude.{◌≡◌, ℕ, List, None};
ghost use Rattle.acq_core.specs.declared.event.Event.{Event};
ghost use Rattle.acq_core.specs.Tables.{Tables, tables_after};
ghost use Rattle.acq_book.specs.Lookups.{postings_at, totals_at};
ghost use Rattle.acq_reports.specs.Refusals.{day_refusal};

/// A day that may be reported on may be so after any events, and has the postings and the totals
/// that it had.
pub fn closed_days_stay()
    ensures given { (t : Tables) (further : List Event) (day : ℕ) → day_refusal t day ≡ None
        → day_refusal (tables_after t further) day ≡ None }
    ensures postings { (t : Tables) (further : List Event) (day : ℕ) → day_refusal t day ≡ None
        → postings_at (tables_after t further) day ≡ postings_at t day }
    ensures totals { (t : Tables) (further : List Event) (day : ℕ) (m : List ℕ) →
        day_refusal t day ≡ None
        → totals_at (tables_after t further) m day ≡ totals_at t m day }
{}
