//! What a clearing file says, and worked texts of its definitions.

ghost use Rattle.std.specs.Prelude.{◌≡◌, ◌∷◌, [], ◌++◌, ℕ, List, codes};
ghost use Rattle.acq_core.specs.Tables.{Tables};
ghost use Rattle.day_totals.specs.Totals.{zero_totals};
ghost use Rattle.acq_reports.specs.Marks.{csv_line};
ghost use Rattle.acq_reports.specs.Worked.{worked_tables, first_merchant, second_merchant};
ghost use Rattle.acq_clearing.specs.ClearedSums.{Clears, HasAmounts, ReadsBack, cleared_totals};
ghost use Rattle.acq_clearing.specs.ClearingFile.{clearing_text};
ghost use Rattle.acq_clearing.specs.Worked.{worked_totals};

/// A clearing file reads back, as CSV, as the nine fields of each posting of the day, in order.
pub fn clearing_files_read_back()
    ensures { (t : Tables) (day : ℕ) → ReadsBack t day }
{}

/// The sums by leg over a merchant's records of a day's clearing file are its totals of the day,
/// and these are what its line of the settlement report writes.
pub fn clearing_sums_are_totals()
    ensures { (t : Tables) (day : ℕ) (m : List ℕ) → HasAmounts t → Clears t day m }
{}

/// A clearing file, computed.
pub fn worked_clearing()
    ensures text { clearing_text worked_tables 8887
        ≡ codes "day,merchant,number,leg,amount,reference,card,terminal,trace\n"
        ++ codes "2024-05-01,MERCHANT0000001,1,debit,1000,000000000001,"
        ++ codes "4111111111111111,TERM0001,000001\n"
        ++ codes "2024-05-01,MERCHANT0000001,2,debit-reversal,1000,000000000001,"
        ++ codes "4111111111111111,TERM0001,000003\n" }
    ensures other_day { clearing_text worked_tables 8888
        ≡ codes "day,merchant,number,leg,amount,reference,card,terminal,trace\n" }
    ensures quoted { csv_line (codes "B, A" ∷ codes "6 \" PIPE" ∷ codes "C" ∷ [])
        ≡ codes "\"B, A\",\"6 \"\" PIPE\",C\n" }
{}

/// What is read from clearing files, computed.
pub fn worked_sums()
    ensures both { cleared_totals first_merchant (clearing_text worked_tables 8887)
        ≡ worked_totals }
    ensures other { cleared_totals second_merchant (clearing_text worked_tables 8887)
        ≡ zero_totals }
    ensures text { cleared_totals (codes "SHOP 2")
        (codes "day,merchant,number,leg,amount\n2024-05-01,SHOP 1,1,debit,450\n"
        ++ codes "2024-05-01,SHOP 2,1,debit,1000\n2024-05-01,SHOP 2,2,debit-reversal,1000\n")
        ≡ worked_totals }
{}
