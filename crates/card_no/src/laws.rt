//! Laws of card numbers, track 2 and ranges, over the definitions alone, and worked rows computed
//! on them.

ghost use Rattle.std.specs.Prelude.{◌≡◌, ◌≢◌, ◌↔◌, ◌<◌, ℕ, Bool, true, false, List, [], ◌∷◌};
ghost use Rattle.std.specs.Prelude.{length, codes, Option, Some, None, Ok, Err, slice_index};
ghost use Rattle.std.specs.Prelude.{slice_set, if◌then◌else◌};
ghost use Rattle.card_no.specs.Prefix.{six_digits};
ghost use Rattle.card_no.specs.CardNumbers.{is_valid_card, prefix_of, prefix_of_under, masked_of};
ghost use Rattle.card_no.specs.Track2.{track2_of, Splits};
ghost use Rattle.card_no.specs.Ranges.{are_ranges, holds_prefix, range_of_prefix, IsRangeOf};
ghost use Rattle.card_no.specs.Ranges.{overlapped_by, IsLeastOverlap, with_range, without_range};
ghost use Rattle.card_no.specs.Ranges.{unless_ends};
ghost use Rattle.card_no.specs.RangeChanges.{add_fault, remove_fault};
ghost use Rattle.card_no.specs.RangeFiles.{ranges_of_text};
ghost use Rattle.card_no.specs.Widening.{widened_ranges, FindsWidened};
ghost use Rattle.card_no.specs.Worked.{first_range, second_range, two_ranges};
ghost use Rattle.card_no.specs.Worked.{first_of_six, two_of_six, lower_half, upper_half};
ghost use Rattle.card_no.specs.declared.range.Range.{Range};
ghost use Rattle.card_no.specs.declared.range_fault.RangeFault.TheVariants.{BadRange, Overlap};
ghost use Rattle.card_no.specs.declared.range_fault.RangeFault.TheVariants.{NoSuchRange, BadLine};

/// A valid card number with one digit changed is not valid.
pub fn one_digit_changed()
    ensures { (digits : List ℕ) (i digit : ℕ)
        → is_valid_card digits ≡ true → i < length digits → digit ≢ slice_index digits i
        → is_valid_card (slice_set digits i digit) ≡ false }
{}

/// Track 2 splits in at most one way, at its first sign.
pub fn track2_splits()
    ensures { (text number after : List ℕ)
        → (track2_of text ≡ Some (number, after)) ↔ Splits text number after }
{}

/// In a list of ranges at most one holds a prefix, and that one is found.
pub fn one_range_of_a_prefix()
    ensures { (ranges : List Range) (prefix : ℕ)
        → are_ranges ranges ≡ true → IsRangeOf ranges prefix (range_of_prefix ranges prefix) }
{}

/// The overlap that is reported is the one of least `low`.
pub fn least_overlap()
    ensures { (ranges : List Range) (r s : Range)
        → are_ranges ranges ≡ true → overlapped_by r ranges ≡ Some s
        → IsLeastOverlap ranges r s }
{}

/// A list of ranges stays one, whatever is added or removed.
pub fn still_ranges()
    ensures added { (ranges : List Range) (r : Range)
        → are_ranges ranges ≡ true → add_fault ranges r ≡ None
        → are_ranges (with_range ranges r) ≡ true }
    ensures removed { (ranges : List Range) (low high : ℕ)
        → are_ranges ranges ≡ true → are_ranges (without_range ranges low high) ≡ true }
{}

/// After a range was added, its prefixes have it, and all others what they had.
pub fn range_of_a_prefix_after_add()
    ensures { (ranges : List Range) (r : Range) (prefix : ℕ) → add_fault ranges r ≡ None
        → range_of_prefix (with_range ranges r) prefix
        ≡ (if holds_prefix prefix r then Some r else range_of_prefix ranges prefix) }
{}

/// After a range was removed, its prefixes have none, and all others what they had.
pub fn range_of_a_prefix_after_remove()
    ensures { (ranges : List Range) (low high prefix : ℕ) → are_ranges ranges ≡ true
        → range_of_prefix (without_range ranges low high) prefix
        ≡ unless_ends low high (range_of_prefix ranges prefix) }
{}

/// After ranges were widened, a card has the one that it had by six digits, widened, or still none.
pub fn range_of_a_card_after_widening()
    ensures { FindsWidened }
{}

/// Card numbers, computed.
pub fn worked_cards()
    ensures odd { is_valid_card (codes "79927398713") ≡ true }
    ensures even { is_valid_card (codes "4111111111111111") ≡ true }
    ensures changed { is_valid_card (codes "4111111111111112") ≡ false }
    ensures short { is_valid_card (codes "000000000") ≡ false }
    ensures least { is_valid_card (codes "0000000000") ≡ true }
    ensures greatest { is_valid_card (codes "0000000000000000000") ≡ true }
    ensures long { is_valid_card (codes "00000000000000000000") ≡ false }
    ensures prefix { prefix_of (codes "4111111111111111") ≡ 41111111 }
    ensures masked { masked_of (codes "4111111111111111") ≡ codes "411111******1111" }
{}

/// Track 2, computed.
pub fn worked_tracks()
    ensures equals { track2_of (codes "4111111111111111=2912")
        ≡ Some (codes "4111111111111111", codes "2912") }
    ensures letter { track2_of (codes "4111D29=17") ≡ Some (codes "4111", codes "29=17") }
    ensures empty { track2_of (codes "=2912") ≡ Some (codes "", codes "2912") }
    ensures other { track2_of (codes "41:1=2912") ≡ None }
    ensures no_sign { track2_of (codes "4111") ≡ None }
{}

/// Two ranges, computed.
pub fn worked_ranges()
    ensures below { range_of_prefix two_ranges 39999999 ≡ None }
    ensures low { range_of_prefix two_ranges 40000000 ≡ Some first_range }
    ensures high { range_of_prefix two_ranges 49999999 ≡ Some first_range }
    ensures next { range_of_prefix two_ranges 50000000 ≡ Some second_range }
    ensures above { range_of_prefix two_ranges 60000000 ≡ None }
    ensures inside { add_fault two_ranges (record first_range { low = 45000000; high = 45000000 })
        ≡ Some (Overlap first_range) }
    ensures around { add_fault two_ranges (record first_range { low = 39999999; high = 50000000 })
        ≡ Some (Overlap first_range) }
    ensures reversed { add_fault two_ranges (record first_range { low = 50000000; high = 40000000 })
        ≡ Some BadRange }
    ensures other_end { remove_fault two_ranges 40000000 49999998 ≡ Some NoSuchRange }
    ensures removed { without_range two_ranges 40000000 49999999 ≡ second_range ∷ [] }
    ensures lower { range_of_prefix (lower_half ∷ upper_half ∷ []) 45000049 ≡ Some lower_half }
    ensures upper { range_of_prefix (lower_half ∷ upper_half ∷ []) 45000050 ≡ Some upper_half }
{}

/// Range list files, computed.
pub fn worked_files()
    ensures two { ranges_of_text (codes "50000000,59999999,67890,1\r\n40000000,49999999,12345,07")
        ≡ Ok two_ranges }
    ensures none { ranges_of_text (codes "") ≡ Ok [] }
    ensures fields { ranges_of_text (codes "40000000,49999999,12345,7\na,b,c,d,e\n")
        ≡ Err (BadLine 2) }
    ensures no_days { ranges_of_text (codes "40000000,49999999,12345,0\n") ≡ Err BadRange }
    ensures many_days { ranges_of_text (codes "40000000,49999999,12345,32\n") ≡ Err BadRange }
    ensures six_digits { ranges_of_text (codes "400000,499999,12345,7\n") ≡ Err (BadLine 1) }
    ensures three_digits { ranges_of_text (codes "40000000,49999999,12345,007\n")
        ≡ Err (BadLine 1) }
{}

/// Two ranges before and after they are widened, computed.
pub fn worked_widening()
    ensures ranges { widened_ranges two_of_six ≡ two_ranges }
    ensures before { range_of_prefix two_of_six
        (prefix_of_under six_digits (codes "4111111111111111")) ≡ Some first_of_six }
    ensures after { range_of_prefix two_ranges (prefix_of (codes "4111111111111111"))
        ≡ Some first_range }
    ensures none_before { range_of_prefix two_of_six
        (prefix_of_under six_digits (codes "6011111111111117")) ≡ None }
    ensures none_after { range_of_prefix two_ranges (prefix_of (codes "6011111111111117"))
        ≡ None }
{}
