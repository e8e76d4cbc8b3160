//! Dates, resolutions and nets that are known from outside, computed on the definitions.

ghost use Rattle.std.specs.Prelude.{◌≡◌, ◌*◌, [], ◌∷◌, Some, None, pos, negsuc, true, false, codes};
ghost use Rattle.day_totals.specs.Day.{last_day, mmdd_of, date_text_of, resolved};
ghost use Rattle.day_totals.specs.Digits.{zero_padded};
ghost use Rattle.day_totals.specs.Totals.{greatest_count, greatest_posting, greatest_amount};
ghost use Rattle.day_totals.specs.Totals.{totals_of, counts_of, amounts_of, net_of, net_text_of};
ghost use Rattle.day_totals.specs.Totals.{agrees_with};
ghost use Rattle.day_totals.specs.declared.leg.Leg.TheVariants.{Credit, CreditReversal, Debit};
ghost use Rattle.day_totals.specs.declared.leg.Leg.TheVariants.{DebitReversal};

/// Dates at the ends of the range, and around 29 February.
pub fn known_dates()
    ensures first { date_text_of 0 ≡ codes "2000-01-01" }
    ensures leap_2000 { date_text_of 59 ≡ codes "2000-02-29" }
    ensures leap_2004 { date_text_of 1520 ≡ codes "2004-02-29" }
    ensures leap_2024 { date_text_of 8825 ≡ codes "2024-02-29" }
    ensures no_leap { date_text_of 9190 ≡ codes "2025-02-28" }
    ensures after { date_text_of 9191 ≡ codes "2025-03-01" }
    ensures month_and_day { mmdd_of 8887 ≡ codes "0501" }
    ensures last { date_text_of last_day ≡ codes "2099-12-31" }
{}

/// Months and days, resolved from 2024-03-01, 2025-03-01, 2024-01-10, 2000-01-05 and 2024-05-01.
pub fn known_resolutions()
    ensures leap { resolved (codes "0229") 8826 ≡ Some 8825 }
    ensures no_leap { resolved (codes "0229") 9191 ≡ None }
    ensures year_before { resolved (codes "1231") 8775 ≡ Some 8765 }
    ensures before_the_first { resolved (codes "1231") 4 ≡ None }
    ensures no_month { resolved (codes "1301") 8887 ≡ None }
    ensures thirty_days { resolved (codes "0401") 8887 ≡ Some 8857 }
    ensures thirty_one_days { resolved (codes "0331") 8887 ≡ None }
    ensures today { resolved (codes "0501") 8887 ≡ Some 8887 }
    ensures tomorrow { resolved (codes "0502") 8887 ≡ None }
{}

/// Totals and nets of short lists of postings, and how elements show them.
pub fn known_totals()
    ensures sale { net_text_of (net_of (totals_of ((Debit, 1000) ∷ [])))
        ≡ codes "D0000000000001000" }
    ensures reversed_alone { net_text_of (net_of (totals_of ((DebitReversal, 1000) ∷ [])))
        ≡ codes "C0000000000001000" }
    ensures nothing { net_text_of (net_of (totals_of [])) ≡ codes "C0000000000000000" }
    ensures counts { counts_of (totals_of ((Debit, 1000) ∷ (Credit, 250) ∷ (Debit, 7)
        ∷ (CreditReversal, 250) ∷ [])) ≡ 1 ∷ 1 ∷ 2 ∷ 0 ∷ [] }
    ensures amounts { amounts_of (totals_of ((Debit, 1000) ∷ (Credit, 250) ∷ (Debit, 7)
        ∷ (CreditReversal, 250) ∷ [])) ≡ 250 ∷ 250 ∷ 1007 ∷ 0 ∷ [] }
    ensures greatest { zero_padded 16 greatest_amount ≡ codes "9999989999000001" }
    ensures product { greatest_amount ≡ greatest_count * greatest_posting }
    ensures one { zero_padded 10 1 ≡ codes "0000000001" }

    // A terminal that claims nothing, and one that claims a debit of 1001 for one of 1000.
    ensures balanced { agrees_with (record {
      counts = 0 ∷ 0 ∷ 0 ∷ 0 ∷ [];
      amounts = 0 ∷ 0 ∷ 0 ∷ 0 ∷ [];
      net = pos 0;
    }) (totals_of []) ≡ true }
    ensures differs { agrees_with (record {
      counts = 0 ∷ 0 ∷ 1 ∷ 0 ∷ [];
      amounts = 0 ∷ 0 ∷ 1001 ∷ 0 ∷ [];
      net = negsuc 1000;
    }) (totals_of ((Debit, 1000) ∷ []))
        ≡ false }
{}
