//! Business days and reconciliations.

ghost use Rattle.std.specs.Prelude.{◌++◌, ◌∷◌, [], codes, Some};
ghost use Rattle.acq_core.specs.declared.event.Event.TheVariants.{Frame};
ghost use Rattle.acq_core.specs.declared.output.Output.TheVariants.{Reply, Done, LastDay};
ghost use Rattle.day_totals.specs.declared.leg.Leg.TheVariants.{Debit, DebitReversal};
ghost use Rattle.acq_examples.specs.Messages.{merchant_a, merchant_b, terminal, sale};
ghost use Rattle.acq_examples.specs.Messages.{sale_approved, card_return, card_approved, original};
ghost use Rattle.acq_examples.specs.Messages.{reversal, reversal_accepted, totals};
ghost use Rattle.acq_examples.specs.Messages.{totals_of_debits, no_totals, reconciliation};
ghost use Rattle.acq_examples.specs.Messages.{reconciliation_of, reconciliation_reply};
ghost use Rattle.acq_examples.specs.Messages.{reconciliation_refused};
ghost use Rattle.acq_examples.specs.Scripts.{book_opening, GivesParty, GivesAllFrom, Gives, Posts};
ghost use Rattle.acq_examples.specs.Scripts.{may_1, may_2, last_day, morning, setup, sent};
ghost use Rattle.acq_examples.specs.Scripts.{approves, cutover, asked, asked_to_credit, replied};
ghost use Rattle.acq_examples.specs.Scripts.{sale_posting};

/// A request keeps the day of its arrival: an answer after cutover posts to it. A reversal is of
/// its own day, and leaves the original's day as it was.
#[tactic(auto, unfolding(crate::proofs::Computing::on_literals))]
pub fn cutovers()
    ensures answer_after_cutover { Gives 999999 merchant_a
        (sent (sale "000001" "000000001000" merchant_a) ∷ cutover ∷ approves "A1B2C3" merchant_a 1
        ∷ [])
        (asked merchant_a 1 1000
        ∷ replied merchant_a
        (sale_approved "000001" "000000001000" "0501" "000000000001" merchant_a) ∷ []) }
    ensures posts_to_its_day { Posts 999999 merchant_a
        (sent (sale "000001" "000000001000" merchant_a) ∷ cutover ∷ approves "A1B2C3" merchant_a 1
        ∷ [])
        (sale_posting 1 merchant_a may_1 Debit 1000 1 "000001" ∷ []) }
    ensures sale_of_the_second_day { Gives 999999 merchant_a
        (cutover ∷ sent (sale "000001" "000000001000" merchant_a) ∷ cutover
        ∷ approves "A1B2C3" merchant_a 1 ∷ sent (sale "000001" "000000001000" merchant_a) ∷ [])
        (asked merchant_a 1 1000
        ∷ replied merchant_a
        (sale_approved "000001" "000000001000" "0502" "000000000001" merchant_a)
        ∷ replied merchant_a
        (sale_approved "000001" "000000001000" "0502" "000000000001" merchant_a) ∷ []) }
    ensures posts_to_the_second_day { Posts 999999 merchant_a
        (cutover ∷ sent (sale "000001" "000000001000" merchant_a) ∷ cutover
        ∷ approves "A1B2C3" merchant_a 1 ∷ [])
        (sale_posting 1 merchant_a may_2 Debit 1000 1 "000001" ∷ []) }
    ensures reversal_after_cutover { Gives 999999 merchant_a
        (sent (sale "000001" "000000001000" merchant_a) ∷ approves "A1B2C3" merchant_a 1 ∷ cutover
        ∷ sent (reversal "000003" "000000001000" (original "0200" "000001" "0501093000") merchant_a)
        ∷ [])
        (asked merchant_a 1 1000
        ∷ replied merchant_a
        (sale_approved "000001" "000000001000" "0501" "000000000001" merchant_a)
        ∷ Reply (Some merchant_a)
        (codes "0430" ++ codes "122200000AC00000" ++ codes "000000001000" ++ codes "0501093100"
        ++ codes "000003" ++ codes "0502" ++ codes "000000000001" ++ codes "00" ++ terminal
        ++ merchant_a) ∷ []) }
    ensures debit_and_reversal { Posts 999999 merchant_a
        (sent (sale "000001" "000000001000" merchant_a) ∷ approves "A1B2C3" merchant_a 1 ∷ cutover
        ∷ sent (reversal "000003" "000000001000" (original "0200" "000001" "0501093000") merchant_a)
        ∷ [])
        (sale_posting 1 merchant_a may_1 Debit 1000 1 "000001"
        ∷ sale_posting 1 merchant_a may_2 DebitReversal 1000 1 "000003" ∷ []) }
    ensures totals_of_both_days { Gives 999999 merchant_a
        (sent (sale "000001" "000000001000" merchant_a) ∷ approves "A1B2C3" merchant_a 1 ∷ cutover
        ∷ sent (reversal "000003" "000000001000" (original "0200" "000001" "0501093000") merchant_a)
        ∷ sent (reconciliation "000010" (no_totals "C0000000000000000") merchant_a)
        ∷ sent (reconciliation_of "000011" "0501" (no_totals "C0000000000000000") merchant_a) ∷ [])
        (asked merchant_a 1 1000
        ∷ replied merchant_a
        (sale_approved "000001" "000000001000" "0501" "000000000001" merchant_a)
        ∷ replied merchant_a
        (reversal_accepted "000003" "000000001000" "0502" "000000000001" merchant_a)
        ∷ replied merchant_a
        (reconciliation_reply "000010" "0502" "95" "2"
        (totals "0000000000" "0000000000" "0000000000" "0000000001" "0000000000000000"
        "0000000000000000" "0000000000000000" "0000000000001000" "C0000000000001000") merchant_a)
        ∷ replied merchant_a
        (reconciliation_reply "000011" "0501" "95" "2"
        (totals_of_debits "0000000001" "0000000000001000" "D0000000000001000") merchant_a) ∷ []) }
{}

/// A reconciliation is in balance exactly where all eight claimed values are the host's, and the
/// net is as a number. The reply has the host's totals either way. What is pending isn't in them,
/// nor what is another merchant's.
#[tactic(auto, unfolding(crate::proofs::Computing::on_literals))]
pub fn reconciliations()
    ensures empty_day { Gives 999999 merchant_a
        (Frame morning
        (codes "0500" ++ codes "8220000000C00000" ++ codes "0078078080000000" ++ codes "0501100000"
        ++ codes "000010" ++ terminal ++ merchant_a
        ++ codes "0000000000" ++ codes "0000000000" ++ codes "0000000000" ++ codes "0000000000"
        ++ codes "0000000000000000" ++ codes "0000000000000000" ++ codes "0000000000000000"
        ++ codes "0000000000000000" ++ codes "D0000000000000000") ∷ [])
        (Reply (Some merchant_a)
        (codes "0510" ++ codes "8222000002C00000" ++ codes "4078078080000000" ++ codes "0501100000"
        ++ codes "000010" ++ codes "0501" ++ codes "00" ++ terminal ++ merchant_a ++ codes "1"
        ++ codes "0000000000" ++ codes "0000000000" ++ codes "0000000000" ++ codes "0000000000"
        ++ codes "0000000000000000" ++ codes "0000000000000000" ++ codes "0000000000000000"
        ++ codes "0000000000000000" ++ codes "C0000000000000000") ∷ []) }
    ensures one_unit_more { Gives 999999 merchant_a
        (sent (sale "000001" "000000001000" merchant_a) ∷ approves "A1B2C3" merchant_a 1
        ∷ sent (reconciliation "000010"
        (totals_of_debits "0000000001" "0000000000001001" "D0000000000001001") merchant_a) ∷ [])
        (asked merchant_a 1 1000
        ∷ replied merchant_a
        (sale_approved "000001" "000000001000" "0501" "000000000001" merchant_a)
        ∷ replied merchant_a
        (reconciliation_reply "000010" "0501" "95" "2"
        (totals_of_debits "0000000001" "0000000000001000" "D0000000000001000") merchant_a) ∷ []) }
    ensures in_balance { Gives 999999 merchant_a
        (sent (sale "000001" "000000001000" merchant_a) ∷ approves "A1B2C3" merchant_a 1
        ∷ sent (sale "000001" "000000002000" merchant_b) ∷ approves "A1B2C3" merchant_b 1
        ∷ sent (sale "000002" "000000004000" merchant_a)
        ∷ sent (reconciliation "000010"
        (totals_of_debits "0000000001" "0000000000001000" "D0000000000001000") merchant_a) ∷ [])
        (asked merchant_a 1 1000
        ∷ replied merchant_a
        (sale_approved "000001" "000000001000" "0501" "000000000001" merchant_a)
        ∷ asked merchant_a 2 4000
        ∷ replied merchant_a
        (reconciliation_reply "000010" "0501" "00" "1"
        (totals_of_debits "0000000001" "0000000000001000" "D0000000000001000") merchant_a) ∷ []) }
    ensures other_net { Gives 999999 merchant_a
        (sent (sale "000001" "000000001000" merchant_a) ∷ approves "A1B2C3" merchant_a 1
        ∷ sent (reconciliation "000010"
        (totals_of_debits "0000000001" "0000000000001000" "C0000000000001000") merchant_a) ∷ [])
        (asked merchant_a 1 1000
        ∷ replied merchant_a
        (sale_approved "000001" "000000001000" "0501" "000000000001" merchant_a)
        ∷ replied merchant_a
        (reconciliation_reply "000010" "0501" "95" "2"
        (totals_of_debits "0000000001" "0000000000001000" "D0000000000001000") merchant_a) ∷ []) }
    ensures other_count { Gives 999999 merchant_a
        (sent (sale "000001" "000000001000" merchant_a) ∷ approves "A1B2C3" merchant_a 1
        ∷ sent (reconciliation "000010"
        (totals_of_debits "0000000002" "0000000000001000" "D0000000000001000") merchant_a) ∷ [])
        (asked merchant_a 1 1000
        ∷ replied merchant_a
        (sale_approved "000001" "000000001000" "0501" "000000000001" merchant_a)
        ∷ replied merchant_a
        (reconciliation_reply "000010" "0501" "95" "2"
        (totals_of_debits "0000000001" "0000000000001000" "D0000000000001000") merchant_a) ∷ []) }
    ensures day_full { Gives 1 merchant_a
        (sent (sale "000001" "000000001000" merchant_a)
        ∷ sent (reconciliation "000010" (no_totals "C0000000000000000") merchant_a) ∷ [])
        (asked merchant_a 1 1000
        ∷ replied merchant_a
        (reconciliation_reply "000010" "0501" "00" "1" (no_totals "C0000000000000000") merchant_a)
        ∷ []) }
{}

/// All eight values and the net are compared: a claim that is wrong in one of them alone is out of
/// balance. The host's totals have each leg's count and amount, and their net.
#[tactic(auto, unfolding(crate::proofs::Computing::on_literals))]
pub fn claimed_values()
    ensures one_wrong_value { Gives 999999 merchant_a
        (sent (sale "000001" "000000001000" merchant_a) ∷ approves "A1B2C3" merchant_a 1
        ∷ sent (sale "000002" "000000002000" merchant_a) ∷ approves "A1B2C3" merchant_a 2
        ∷ sent (reversal "000011" "000000001000" (original "0200" "000001" "0501093000") merchant_a)
        ∷ sent (card_return "000003" "000000000700" merchant_a) ∷ approves "D4E5F6" merchant_a 3
        ∷ sent (card_return "000004" "000000000500" merchant_a) ∷ approves "D4E5F6" merchant_a 4
        ∷ sent (reversal "000014" "000000000500" (original "0200" "000004" "0501093000") merchant_a)
        ∷ sent (reconciliation "000021"
        (totals "0000000003" "0000000001" "0000000002" "0000000001" "0000000000001200"
        "0000000000000500" "0000000000003000" "0000000000001000" "D0000000000001300") merchant_a)
        ∷ sent (reconciliation "000022"
        (totals "0000000002" "0000000000" "0000000002" "0000000001" "0000000000001200"
        "0000000000000500" "0000000000003000" "0000000000001000" "D0000000000001300") merchant_a)
        ∷ sent (reconciliation "000023"
        (totals "0000000002" "0000000001" "0000000001" "0000000001" "0000000000001200"
        "0000000000000500" "0000000000003000" "0000000000001000" "D0000000000001300") merchant_a)
        ∷ sent (reconciliation "000024"
        (totals "0000000002" "0000000001" "0000000002" "0000000002" "0000000000001200"
        "0000000000000500" "0000000000003000" "0000000000001000" "D0000000000001300") merchant_a)
        ∷ sent (reconciliation "000025"
        (totals "0000000002" "0000000001" "0000000002" "0000000001" "0000000000001201"
        "0000000000000500" "0000000000003000" "0000000000001000" "D0000000000001300") merchant_a)
        ∷ sent (reconciliation "000026"
        (totals "0000000002" "0000000001" "0000000002" "0000000001" "0000000000001200"
        "0000000000000499" "0000000000003000" "0000000000001000" "D0000000000001300") merchant_a)
        ∷ sent (reconciliation "000027"
        (totals "0000000002" "0000000001" "0000000002" "0000000001" "0000000000001200"
        "0000000000000500" "0000000000002000" "0000000000001000" "D0000000000001300") merchant_a)
        ∷ sent (reconciliation "000028"
        (totals "0000000002" "0000000001" "0000000002" "0000000001" "0000000000001200"
        "0000000000000500" "0000000000003000" "0000000000000000" "D0000000000001300") merchant_a)
        ∷ sent (reconciliation "000029"
        (totals "0000000002" "0000000001" "0000000002" "0000000001" "0000000000001200"
        "0000000000000500" "0000000000003000" "0000000000001000" "D0000000000001301") merchant_a)
        ∷ sent (reconciliation "000030"
        (totals "0000000002" "0000000001" "0000000002" "0000000001" "0000000000001200"
        "0000000000000500" "0000000000003000" "0000000000001000" "D0000000000001300") merchant_a)
        ∷ [])
        (asked merchant_a 1 1000
        ∷ replied merchant_a
        (sale_approved "000001" "000000001000" "0501" "000000000001" merchant_a)
        ∷ asked merchant_a 2 2000
        ∷ replied merchant_a
        (sale_approved "000002" "000000002000" "0501" "000000000002" merchant_a)
        ∷ replied merchant_a
        (reversal_accepted "000011" "000000001000" "0501" "000000000001" merchant_a)
        ∷ asked_to_credit merchant_a 3 700
        ∷ replied merchant_a
        (card_approved "0210" "4111111111111111" "200000" "000000000700" "000003" "0501"
        "000000000003" "D4E5F6" merchant_a)
        ∷ asked_to_credit merchant_a 4 500
        ∷ replied merchant_a
        (card_approved "0210" "4111111111111111" "200000" "000000000500" "000004" "0501"
        "000000000004" "D4E5F6" merchant_a)
        ∷ replied merchant_a
        (reversal_accepted "000014" "000000000500" "0501" "000000000004" merchant_a)
        ∷ replied merchant_a
        (reconciliation_reply "000021" "0501" "95" "2"
        (totals "0000000002" "0000000001" "0000000002" "0000000001" "0000000000001200"
        "0000000000000500" "0000000000003000" "0000000000001000" "D0000000000001300") merchant_a)
        ∷ replied merchant_a
        (reconciliation_reply "000022" "0501" "95" "2"
        (totals "0000000002" "0000000001" "0000000002" "0000000001" "0000000000001200"
        "0000000000000500" "0000000000003000" "0000000000001000" "D0000000000001300") merchant_a)
        ∷ replied merchant_a
        (reconciliation_reply "000023" "0501" "95" "2"
        (totals "0000000002" "0000000001" "0000000002" "0000000001" "0000000000001200"
        "0000000000000500" "0000000000003000" "0000000000001000" "D0000000000001300") merchant_a)
        ∷ replied merchant_a
        (reconciliation_reply "000024" "0501" "95" "2"
        (totals "0000000002" "0000000001" "0000000002" "0000000001" "0000000000001200"
        "0000000000000500" "0000000000003000" "0000000000001000" "D0000000000001300") merchant_a)
        ∷ replied merchant_a
        (reconciliation_reply "000025" "0501" "95" "2"
        (totals "0000000002" "0000000001" "0000000002" "0000000001" "0000000000001200"
        "0000000000000500" "0000000000003000" "0000000000001000" "D0000000000001300") merchant_a)
        ∷ replied merchant_a
        (reconciliation_reply "000026" "0501" "95" "2"
        (totals "0000000002" "0000000001" "0000000002" "0000000001" "0000000000001200"
        "0000000000000500" "0000000000003000" "0000000000001000" "D0000000000001300") merchant_a)
        ∷ replied merchant_a
        (reconciliation_reply "000027" "0501" "95" "2"
        (totals "0000000002" "0000000001" "0000000002" "0000000001" "0000000000001200"
        "0000000000000500" "0000000000003000" "0000000000001000" "D0000000000001300") merchant_a)
        ∷ replied merchant_a
        (reconciliation_reply "000028" "0501" "95" "2"
        (totals "0000000002" "0000000001" "0000000002" "0000000001" "0000000000001200"
        "0000000000000500" "0000000000003000" "0000000000001000" "D0000000000001300") merchant_a)
        ∷ replied merchant_a
        (reconciliation_reply "000029" "0501" "95" "2"
        (totals "0000000002" "0000000001" "0000000002" "0000000001" "0000000000001200"
        "0000000000000500" "0000000000003000" "0000000000001000" "D0000000000001300") merchant_a)
        ∷ replied merchant_a
        (reconciliation_reply "000030" "0501" "00" "1"
        (totals "0000000002" "0000000001" "0000000002" "0000000001" "0000000000001200"
        "0000000000000500" "0000000000003000" "0000000000001000" "D0000000000001300") merchant_a)
        ∷ []) }
{}

/// A reconciliation that comes again gets its first reply, whatever was posted since. Under a new
/// trace the totals of now decide.
#[tactic(auto, unfolding(crate::proofs::Computing::on_literals))]
pub fn reconciliations_again()
    ensures after_another_sale { Gives 999999 merchant_a
        (sent (sale "000001" "000000001000" merchant_a) ∷ approves "A1B2C3" merchant_a 1
        ∷ sent (reconciliation "000010"
        (totals_of_debits "0000000001" "0000000000001000" "D0000000000001000") merchant_a)
        ∷ sent (sale "000002" "000000001000" merchant_a) ∷ approves "A1B2C3" merchant_a 2
        ∷ sent (reconciliation "000010"
        (totals_of_debits "0000000001" "0000000000001000" "D0000000000001000") merchant_a)
        ∷ sent (reconciliation "000011"
        (totals_of_debits "0000000001" "0000000000001000" "D0000000000001000") merchant_a) ∷ [])
        (asked merchant_a 1 1000
        ∷ replied merchant_a
        (sale_approved "000001" "000000001000" "0501" "000000000001" merchant_a)
        ∷ replied merchant_a
        (reconciliation_reply "000010" "0501" "00" "1"
        (totals_of_debits "0000000001" "0000000000001000" "D0000000000001000") merchant_a)
        ∷ asked merchant_a 2 1000
        ∷ replied merchant_a
        (sale_approved "000002" "000000001000" "0501" "000000000002" merchant_a)
        ∷ replied merchant_a
        (reconciliation_reply "000010" "0501" "00" "1"
        (totals_of_debits "0000000001" "0000000000001000" "D0000000000001000") merchant_a)
        ∷ replied merchant_a
        (reconciliation_reply "000011" "0501" "95" "2"
        (totals_of_debits "0000000002" "0000000000002000" "D0000000000002000") merchant_a) ∷ []) }
    ensures other_claim { Gives 999999 merchant_a
        (sent (reconciliation "000010" (no_totals "C0000000000000000") merchant_a)
        ∷ sent (reconciliation "000010" (no_totals "D0000000000000000") merchant_a) ∷ [])
        (replied merchant_a
        (reconciliation_reply "000010" "0501" "00" "1" (no_totals "C0000000000000000") merchant_a)
        ∷ Reply (Some merchant_a)
        (codes "0510" ++ codes "0222000002C00000" ++ codes "0501100000" ++ codes "000010"
        ++ codes "0501" ++ codes "94" ++ terminal ++ merchant_a) ∷ []) }
{}

/// Element 15 names a day of the last thirty or today; the reply shows that day. Where there is
/// none, it shows today, and no totals.
#[tactic(auto, unfolding(crate::proofs::Computing::on_literals))]
pub fn earlier_days()
    ensures thirty_days_back { Gives 999999 merchant_a
        (Frame morning
        (codes "0500" ++ codes "8222000000C00000" ++ codes "0078078080000000" ++ codes "0501100000"
        ++ codes "000010" ++ codes "0401" ++ terminal ++ merchant_a
        ++ no_totals "D0000000000000000") ∷ [])
        (Reply (Some merchant_a)
        (codes "0510" ++ codes "8222000002C00000" ++ codes "4078078080000000" ++ codes "0501100000"
        ++ codes "000010" ++ codes "0401" ++ codes "00" ++ terminal ++ merchant_a ++ codes "1"
        ++ no_totals "C0000000000000000") ∷ []) }
    ensures thirty_one_days_back { Gives 999999 merchant_a
        (Frame morning
        (codes "0500" ++ codes "8222000000C00000" ++ codes "0078078080000000" ++ codes "0501100000"
        ++ codes "000010" ++ codes "0331" ++ terminal ++ merchant_a
        ++ no_totals "D0000000000000000")
        ∷ cutover ∷ sent
        (reconciliation_of "000010" "0331" (no_totals "D0000000000000000") merchant_a) ∷ [])
        (Reply (Some merchant_a)
        (codes "0510" ++ codes "0222000002C00000" ++ codes "0501100000" ++ codes "000010"
        ++ codes "0501" ++ codes "95" ++ terminal ++ merchant_a)
        ∷ Reply (Some merchant_a)
        (codes "0510" ++ codes "0222000002C00000" ++ codes "0501100000" ++ codes "000010"
        ++ codes "0501" ++ codes "95" ++ terminal ++ merchant_a) ∷ []) }
    ensures days_between { Gives 999999 merchant_a
        (sent (reconciliation_of "000010" "0429" (no_totals "C0000000000000000") merchant_a)
        ∷ sent (reconciliation_of "000011" "0402" (no_totals "C0000000000000000") merchant_a)
        ∷ sent (reconciliation_of "000012" "0401" (no_totals "C0000000000000000") merchant_a)
        ∷ sent (reconciliation_of "000013" "0331" (no_totals "C0000000000000000") merchant_a)
        ∷ sent (reconciliation_of "000014" "0430" (no_totals "C0000000000000000") merchant_a)
        ∷ sent (reconciliation_of "000015" "0431" (no_totals "C0000000000000000") merchant_a) ∷ [])
        (replied merchant_a
        (reconciliation_reply "000010" "0429" "00" "1" (no_totals "C0000000000000000") merchant_a)
        ∷ replied merchant_a
        (reconciliation_reply "000011" "0402" "00" "1" (no_totals "C0000000000000000") merchant_a)
        ∷ replied merchant_a
        (reconciliation_reply "000012" "0401" "00" "1" (no_totals "C0000000000000000") merchant_a)
        ∷ replied merchant_a (reconciliation_refused "000013" "0501" "95" merchant_a)
        ∷ replied merchant_a
        (reconciliation_reply "000014" "0430" "00" "1" (no_totals "C0000000000000000") merchant_a)
        ∷ replied merchant_a (reconciliation_refused "000015" "0501" "95" merchant_a) ∷ []) }
    ensures of_the_year_before { GivesParty (book_opening 999999 8780) (Some merchant_a)
        (setup ++ sent
        (reconciliation_of "000010" "1231" (no_totals "C0000000000000000") merchant_a)
        ∷ sent (reconciliation_of "000011" "1216" (no_totals "C0000000000000000") merchant_a)
        ∷ sent (reconciliation_of "000012" "1215" (no_totals "C0000000000000000") merchant_a) ∷ [])
        (Done ∷ Done ∷ replied merchant_a
        (reconciliation_reply "000010" "1231" "00" "1" (no_totals "C0000000000000000") merchant_a)
        ∷ replied merchant_a
        (reconciliation_reply "000011" "1216" "00" "1" (no_totals "C0000000000000000") merchant_a)
        ∷ replied merchant_a (reconciliation_refused "000012" "0115" "95" merchant_a) ∷ []) }
    ensures leap_day { GivesParty (book_opening 999999 8855) (Some merchant_a)
        (setup ++ sent
        (reconciliation_of "000010" "0229" (no_totals "C0000000000000000") merchant_a)
        ∷ cutover
        ∷ sent (reconciliation_of "000011" "0229" (no_totals "C0000000000000000") merchant_a) ∷ [])
        (Done ∷ Done ∷ replied merchant_a
        (reconciliation_reply "000010" "0229" "00" "1" (no_totals "C0000000000000000") merchant_a)
        ∷ replied merchant_a (reconciliation_refused "000011" "0331" "95" merchant_a) ∷ []) }
    ensures today { Gives 999999 merchant_a
        (sent (reconciliation_of "000010" "0501" (no_totals "C0000000000000000") merchant_a) ∷ [])
        (replied merchant_a
        (reconciliation_reply "000010" "0501" "00" "1" (no_totals "C0000000000000000") merchant_a)
        ∷ []) }
    ensures tomorrow { Gives 999999 merchant_a
        (sent (reconciliation_of "000010" "0502" (no_totals "C0000000000000000") merchant_a) ∷ [])
        (Reply (Some merchant_a)
        (codes "0510" ++ codes "0222000002C00000" ++ codes "0501100000" ++ codes "000010"
        ++ codes "0501" ++ codes "95" ++ terminal ++ merchant_a) ∷ []) }
    ensures yesterday { Gives 999999 merchant_a
        (sent (sale "000001" "000000001000" merchant_a) ∷ approves "A1B2C3" merchant_a 1 ∷ cutover
        ∷ sent (reconciliation_of "000010" "0501"
        (totals_of_debits "0000000001" "0000000000001000" "D0000000000001000") merchant_a) ∷ [])
        (asked merchant_a 1 1000
        ∷ replied merchant_a
        (sale_approved "000001" "000000001000" "0501" "000000000001" merchant_a)
        ∷ replied merchant_a
        (reconciliation_reply "000010" "0501" "00" "1"
        (totals_of_debits "0000000001" "0000000000001000" "D0000000000001000") merchant_a) ∷ []) }
{}

/// No day follows 2099-12-31: the host says so, and the day stays.
#[tactic(auto, unfolding(crate::proofs::Computing::on_literals))]
pub fn the_last_day()
    ensures no_next_day { GivesAllFrom last_day (cutover ∷ cutover ∷ [])
        (LastDay ∷ LastDay ∷ []) last_day }
    ensures day_before { GivesAllFrom 36523 (cutover ∷ cutover ∷ [])
        (Done ∷ LastDay ∷ []) last_day }
    ensures day_stays { GivesParty (book_opening 999999 last_day) (Some merchant_a)
        (setup ++ cutover ∷ sent (sale "000001" "000000001000" merchant_a)
        ∷ approves "A1B2C3" merchant_a 1 ∷ [])
        (Done ∷ Done ∷ asked merchant_a 1 1000
        ∷ replied merchant_a
        (sale_approved "000001" "000000001000" "1231" "000000000001" merchant_a) ∷ []) }
{}
