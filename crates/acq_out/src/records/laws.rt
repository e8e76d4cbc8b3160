//! Laws of records.

ghost use Rattle.std.specs.Prelude.{◌≡◌, ℕ, List, Ok, Err};
ghost use Rattle.card_no.specs.RangeFiles.{records_of};
ghost use Rattle.acq_out.specs.Records.{Spelling, values_of_text, Spell, IsFirstBad};

/// The values of a text are those of its records, one each, in order; and a record is told as bad
/// just where it spells no value and each one before it spells one.
pub fn each_record_spells_a_value<V>()
    ensures values { (spelled : Spelling V) (text : List ℕ) (values : List V)
        → values_of_text spelled text ≡ Ok values → Spell spelled (records_of text) values }
    ensures bad { (spelled : Spelling V) (text : List ℕ) (n : ℕ)
        → values_of_text spelled text ≡ Err n → IsFirstBad spelled (records_of text) n }
{}
