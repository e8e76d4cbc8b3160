//! Laws of days and totals, over the definitions alone.

ghost use Rattle.std.specs.Prelude.{◌≡◌, ◌↔◌, ◌∷◌, ◌++◌, ◌<◌, ◌^◌, [], ℕ, true, List, length, pos};
ghost use Rattle.std.specs.Prelude.{IsTrue};
ghost use Rattle.std.specs.List.{list_all};
ghost use Rattle.std.specs.Char.{is_ascii_digit};
ghost use Rattle.jiff.specs.Types.{Date};
ghost use Rattle.day_totals.specs.Day.{IsDayNumber, IsDaysAfterFirst, IsDateOf, date_of};
ghost use Rattle.day_totals.specs.Day.{date_text_of};
ghost use Rattle.std.specs.Str.Parse.{digits_value};
ghost use Rattle.day_totals.specs.Digits.{zero_padded};
ghost use Rattle.day_totals.specs.Totals.{all_legs, Posting, DayTotals, FitsDay, counts_of};
ghost use Rattle.day_totals.specs.Totals.{amounts_of, AreWithinLimits, IsWithinLimits, IsShort};
ghost use Rattle.day_totals.specs.Totals.{Agrees, agrees_with, totals_of, with_leg_amount};
ghost use Rattle.day_totals.specs.declared.leg.Leg.{Leg};
ghost use Rattle.day_totals.specs.declared.leg.TheConstants.Leg.{ALL};
ghost use Rattle.day_totals.specs.declared.claimed.Claimed.{Claimed};

/// The date of a day is the one that the calendar of `jiff` has so many days after 2000-01-01.
pub fn dates_are_the_calendars()
    ensures { (number : ℕ) (date : Date) → IsDayNumber number
        → IsDaysAfterFirst (pos number) date ↔ IsDateOf (date_of number) date }
{}

/// The legs stand in the order of their elements: 74 to 77, and 86 to 89.
pub fn legs_in_order()
    ensures { ALL ≡ all_legs }
{}

/// No two days have one date text.
pub fn date_texts_name_days()
    ensures { (number other : ℕ) → IsDayNumber number → IsDayNumber other
        → date_text_of number ≡ date_text_of other → number ≡ other }
{}

/// One posting more, first or last, is counted and summed with its leg.
pub fn totals_grow_by_postings()
    ensures last { (postings : List Posting) (leg : Leg) (amount : ℕ)
        → totals_of (postings ++ (leg, amount) ∷ [])
        ≡ with_leg_amount (totals_of postings) leg amount }
    ensures first { (postings : List Posting) (leg : Leg) (amount : ℕ)
        → totals_of ((leg, amount) ∷ postings)
        ≡ with_leg_amount (totals_of postings) leg amount }
{}

/// A day's totals are within the limits, and sixteen digits hold each sum and the net.
pub fn totals_fit_sixteen_digits()
    ensures within { (postings : List Posting) → FitsDay postings
        → IsWithinLimits (totals_of postings) }
    ensures sums { (t : DayTotals) → IsWithinLimits t → IsShort t }
{}

/// Totals are their eight numbers, and the limits are on these.
pub fn totals_are_their_numbers()
    ensures same { (t other : DayTotals) → counts_of t ≡ counts_of other
        → amounts_of t ≡ amounts_of other → t ≡ other }
    ensures limits { (t : DayTotals)
        → AreWithinLimits (counts_of t) (amounts_of t) ↔ IsWithinLimits t }
{}

/// The test of agreement holds exactly where all eight numbers and the net are equal.
pub fn agreement_is_tested()
    ensures { (claimed : Claimed) (t : DayTotals)
        → IsTrue (agrees_with claimed t) ↔ Agrees claimed t }
{}

/// A text of a fixed length has that many digits, and they spell the number where it fits.
pub fn digits_spell_numbers()
    ensures length { (places number : ℕ) → length (zero_padded places number) ≡ places }
    ensures digits { (places number : ℕ)
        → list_all is_ascii_digit (zero_padded places number) ≡ true }
    ensures value { (places number : ℕ) → number < 10 ^ places
        → digits_value 10 (zero_padded places number) ≡ number }
{}
