//! Ranges of cards.

ghost use Rattle.std.specs.Prelude.{◌≡◌, true, if◌then◌else◌};
ghost use Rattle.card_no.specs.Ranges.{is_valid_range};
ghost use Rattle.acq_core.specs.Decision as decided;
ghost use Rattle.acq_core.specs.Decision.{decision_of_new_range, decision_of_old_range};
ghost use Rattle.acq_core.specs.Known.{Known};
ghost use Rattle.acq_deciding.specs.Meaning.{meaning_of, is_feasible};

use crate::decision::Decision;
use acq_core::Output;
use card_no::Range;

/// What is to be done about a range to add, by the first that it overlaps.
pub(super) fn decision_of_new_range<'a>(
    range: &'a Range,
    overlapped: &'a Option<Range>,
) -> Decision<'a>
    ensures value { meaning_of result
        ≡ (if is_valid_range range.now then decision_of_new_range range.now overlapped.now
        else decided.Reports Output.BadRange) }
    ensures feasible { (k : Known) → is_feasible k (meaning_of result) ≡ true }
{
    if !range.is_valid() {
        return Decision::Reports(Output::BadRange);
    }
    match overlapped {
        Some(other) => Decision::ReportsOverlap(other),
        None => Decision::AddsRange(range),
    }
}

/// What is to be done about a range to drop: what overlaps its ends must be just it.
pub(super) fn decision_of_old_range(low: u32, high: u32, overlapped: &Option<Range>) -> Decision
    ensures value { meaning_of result ≡ decision_of_old_range low high overlapped.now }
    ensures feasible { (k : Known) → is_feasible k (meaning_of result) ≡ true }
{
    match overlapped {
        Some(range) if range.has_ends(low, high) => Decision::DropsRange { low, high },
        _ => Decision::Reports(Output::NoSuchRange),
    }
}
