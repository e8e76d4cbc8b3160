//! Repeats: a request whose key is recorded gets no new decision.

ghost use Rattle.std.specs.Prelude.{◌++◌, ◌∷◌, [], codes, Some};
ghost use Rattle.acq_core.specs.declared.event.Event.TheVariants.{Frame, AddTerminal};
ghost use Rattle.acq_core.specs.declared.output.Output.TheVariants.{Reply, Done, Waiting};
ghost use Rattle.day_totals.specs.declared.leg.Leg.TheVariants.{Debit};
ghost use Rattle.acq_examples.specs.Messages.{merchant_a, merchant_b, terminal, other_terminal};
ghost use Rattle.acq_examples.specs.Messages.{card_request, card_refused, sale, sale_again};
ghost use Rattle.acq_examples.specs.Messages.{sale_approved, sale_declined, sale_refused, hold};
ghost use Rattle.acq_examples.specs.Messages.{hold_approved, completion, completion_as};
ghost use Rattle.acq_examples.specs.Messages.{completion_reply, original, original_through};
ghost use Rattle.acq_examples.specs.Messages.{reversal, reversal_as, reversal_accepted};
ghost use Rattle.acq_examples.specs.Messages.{reversal_refused, totals, no_totals, reconciliation};
ghost use Rattle.acq_examples.specs.Messages.{reconciliation_of, reconciliation_reply};
ghost use Rattle.acq_examples.specs.Messages.{reconciliation_refused};
ghost use Rattle.acq_examples.specs.Scripts.{Gives, Posts, may_1, morning, next_morning, sent};
ghost use Rattle.acq_examples.specs.Scripts.{approves, declines, cutover, asked, asked_to_hold};
ghost use Rattle.acq_examples.specs.Scripts.{replied};
ghost use Rattle.acq_examples.specs.Scripts.{hold_posting, sale_posting};

/// A repeat of a sale waits while the sale is pending, and then gets the reply that was kept, byte
/// by byte, also on a later day. It need not be marked as a repeat, and what is marked as one may
/// come first.
#[tactic(auto, unfolding(crate::proofs::Computing::on_literals))]
pub fn sales()
    ensures marked_as_repeat { Gives 999999 merchant_a
        (sent (sale "000001" "000000001000" merchant_a)
        ∷ Frame morning
        (codes "0201" ++ codes "7220000000C08000" ++ codes "16" ++ codes "4111111111111111"
        ++ codes "000000" ++ codes "000000001000" ++ codes "0501093000" ++ codes "000001"
        ++ terminal ++ merchant_a ++ codes "978")
        ∷ approves "A1B2C3" merchant_a 1 ∷ sent (sale_again "000001" "000000001000" merchant_a)
        ∷ [])
        (asked merchant_a 1 1000 ∷ Waiting
        ∷ replied merchant_a
        (sale_approved "000001" "000000001000" "0501" "000000000001" merchant_a)
        ∷ replied merchant_a
        (sale_approved "000001" "000000001000" "0501" "000000000001" merchant_a) ∷ []) }
    ensures not_marked { Gives 999999 merchant_a
        (sent (sale "000001" "000000001000" merchant_a)
        ∷ sent (sale "000001" "000000001000" merchant_a) ∷ approves "A1B2C3" merchant_a 1
        ∷ sent (sale "000001" "000000001000" merchant_a)
        ∷ sent (sale "000002" "000000001000" merchant_a) ∷ [])
        (asked merchant_a 1 1000 ∷ Waiting
        ∷ replied merchant_a
        (sale_approved "000001" "000000001000" "0501" "000000000001" merchant_a)
        ∷ replied merchant_a
        (sale_approved "000001" "000000001000" "0501" "000000000001" merchant_a)
        ∷ asked merchant_a 2 1000 ∷ []) }
    ensures lower_case { Gives 999999 merchant_a
        (sent (sale "000001" "000000001000" merchant_a) ∷ approves "A1B2C3" merchant_a 1
        ∷ Frame morning
        (codes "0200" ++ codes "7220000000c08000" ++ codes "16" ++ codes "4111111111111111"
        ++ codes "000000" ++ codes "000000001000" ++ codes "0501093000" ++ codes "000001"
        ++ terminal ++ merchant_a ++ codes "978") ∷ [])
        (asked merchant_a 1 1000
        ∷ replied merchant_a
        (sale_approved "000001" "000000001000" "0501" "000000000001" merchant_a)
        ∷ replied merchant_a
        (sale_approved "000001" "000000001000" "0501" "000000000001" merchant_a) ∷ []) }
    ensures other_local_time { Gives 999999 merchant_a
        (Frame morning
        (codes "0200" ++ codes "7238000000C08000" ++ codes "16" ++ codes "4111111111111111"
        ++ codes "000000" ++ codes "000000001000" ++ codes "0501093000" ++ codes "000001"
        ++ codes "113000" ++ codes "0501" ++ terminal ++ merchant_a ++ codes "978")
        ∷ approves "A1B2C3" merchant_a 1 ∷ sent (sale "000001" "000000001000" merchant_a) ∷ [])
        (asked merchant_a 1 1000
        ∷ Reply (Some merchant_a)
        (codes "0210" ++ codes "723A00000EC08000" ++ codes "16" ++ codes "4111111111111111"
        ++ codes "000000" ++ codes "000000001000" ++ codes "0501093000" ++ codes "000001"
        ++ codes "113000" ++ codes "0501" ++ codes "0501" ++ codes "000000000001" ++ codes "A1B2C3"
        ++ codes "00" ++ terminal ++ merchant_a ++ codes "978")
        ∷ Reply (Some merchant_a)
        (codes "0210" ++ codes "723A00000EC08000" ++ codes "16" ++ codes "4111111111111111"
        ++ codes "000000" ++ codes "000000001000" ++ codes "0501093000" ++ codes "000001"
        ++ codes "113000" ++ codes "0501" ++ codes "0501" ++ codes "000000000001" ++ codes "A1B2C3"
        ++ codes "00" ++ terminal ++ merchant_a ++ codes "978") ∷ []) }
    ensures repeat_comes_first { Gives 999999 merchant_a
        (sent (sale_again "000001" "000000001000" merchant_a) ∷ approves "A1B2C3" merchant_a 1
        ∷ sent (sale "000001" "000000001000" merchant_a) ∷ [])
        (asked merchant_a 1 1000
        ∷ replied merchant_a
        (sale_approved "000001" "000000001000" "0501" "000000000001" merchant_a)
        ∷ replied merchant_a
        (sale_approved "000001" "000000001000" "0501" "000000000001" merchant_a) ∷ []) }
    ensures one_posting { Posts 999999 merchant_a
        (sent (sale "000001" "000000001000" merchant_a)
        ∷ sent (sale_again "000001" "000000001000" merchant_a) ∷ approves "A1B2C3" merchant_a 1
        ∷ sent (sale_again "000001" "000000001000" merchant_a) ∷ [])
        (sale_posting 1 merchant_a may_1 Debit 1000 1 "000001" ∷ []) }
    ensures next_day { Gives 999999 merchant_a
        (sent (sale "000001" "000000001000" merchant_a) ∷ approves "A1B2C3" merchant_a 1 ∷ cutover
        ∷ sent (sale "000001" "000000001000" merchant_a) ∷ [])
        (asked merchant_a 1 1000
        ∷ replied merchant_a
        (sale_approved "000001" "000000001000" "0501" "000000000001" merchant_a)
        ∷ replied merchant_a
        (sale_approved "000001" "000000001000" "0501" "000000000001" merchant_a) ∷ []) }
{}

/// A decline is kept whatever its code, also one that the host gives for what it doesn't record,
/// and it can't be reversed.
#[tactic(auto, unfolding(crate::proofs::Computing::on_literals))]
pub fn declines_with_codes_of_the_host()
    ensures format_error { Gives 999999 merchant_a
        (sent (sale "000001" "000000001000" merchant_a) ∷ declines "30" merchant_a 1
        ∷ sent (sale "000001" "000000001000" merchant_a)
        ∷ sent (reversal "000003" "000000001000" (original "0200" "000001" "0501093000") merchant_a)
        ∷ [])
        (asked merchant_a 1 1000
        ∷ replied merchant_a
        (sale_declined "000001" "000000001000" "0501" "000000000001" "30" merchant_a)
        ∷ replied merchant_a
        (sale_declined "000001" "000000001000" "0501" "000000000001" "30" merchant_a)
        ∷ replied merchant_a (reversal_refused "000003" "000000001000" "0501" "21" merchant_a)
        ∷ []) }
    ensures invalid_merchant { Gives 999999 merchant_a
        (sent (sale "000001" "000000001000" merchant_a) ∷ declines "03" merchant_a 1
        ∷ sent (sale "000001" "000000001000" merchant_a)
        ∷ sent (reversal "000003" "000000001000" (original "0200" "000001" "0501093000") merchant_a)
        ∷ [])
        (asked merchant_a 1 1000
        ∷ replied merchant_a
        (sale_declined "000001" "000000001000" "0501" "000000000001" "03" merchant_a)
        ∷ replied merchant_a
        (sale_declined "000001" "000000001000" "0501" "000000000001" "03" merchant_a)
        ∷ replied merchant_a (reversal_refused "000003" "000000001000" "0501" "21" merchant_a)
        ∷ []) }
    ensures duplicate { Gives 999999 merchant_a
        (sent (sale "000001" "000000001000" merchant_a) ∷ declines "94" merchant_a 1
        ∷ sent (sale "000001" "000000001000" merchant_a)
        ∷ sent (reversal "000003" "000000001000" (original "0200" "000001" "0501093000") merchant_a)
        ∷ [])
        (asked merchant_a 1 1000
        ∷ replied merchant_a
        (sale_declined "000001" "000000001000" "0501" "000000000001" "94" merchant_a)
        ∷ replied merchant_a
        (sale_declined "000001" "000000001000" "0501" "000000000001" "94" merchant_a)
        ∷ replied merchant_a (reversal_refused "000003" "000000001000" "0501" "21" merchant_a)
        ∷ []) }
{}

/// The same key with another amount or card is no repeat, also while the first is pending. The
/// first reply stays. A card number of no digits is one, wherever it stands, and not the same as
/// none.
#[tactic(auto, unfolding(crate::proofs::Computing::on_literals))]
pub fn other_requests_under_the_key()
    ensures other_amount { Gives 999999 merchant_a
        (sent (sale "000001" "000000001000" merchant_a) ∷ approves "A1B2C3" merchant_a 1
        ∷ Frame morning
        (codes "0200" ++ codes "7220000000C08000" ++ codes "16" ++ codes "4111111111111111"
        ++ codes "000000" ++ codes "000000002000" ++ codes "0501093000" ++ codes "000001"
        ++ terminal ++ merchant_a ++ codes "978")
        ∷ sent (sale "000001" "000000001000" merchant_a) ∷ [])
        (asked merchant_a 1 1000
        ∷ replied merchant_a
        (sale_approved "000001" "000000001000" "0501" "000000000001" merchant_a)
        ∷ Reply (Some merchant_a)
        (codes "0210" ++ codes "7222000002C08000" ++ codes "16" ++ codes "4111111111111111"
        ++ codes "000000" ++ codes "000000002000" ++ codes "0501093000" ++ codes "000001"
        ++ codes "0501" ++ codes "94" ++ terminal ++ merchant_a ++ codes "978")
        ∷ replied merchant_a
        (sale_approved "000001" "000000001000" "0501" "000000000001" merchant_a) ∷ []) }
    ensures while_pending { Gives 999999 merchant_a
        (sent (sale "000001" "000000001000" merchant_a)
        ∷ sent (sale "000001" "000000002000" merchant_a)
        ∷ sent (sale "000001" "000000001000" merchant_a)
        ∷ approves "A1B2C3" merchant_a 1 ∷ [])
        (asked merchant_a 1 1000
        ∷ replied merchant_a (sale_refused "000001" "000000002000" "0501" "94" merchant_a)
        ∷ Waiting
        ∷ replied merchant_a
        (sale_approved "000001" "000000001000" "0501" "000000000001" merchant_a) ∷ []) }
    ensures of_the_next_day { Gives 999999 merchant_a
        (sent (sale "000001" "000000001000" merchant_a) ∷ approves "A1B2C3" merchant_a 1 ∷ cutover
        ∷ sent (sale "000001" "000000002000" merchant_a) ∷ [])
        (asked merchant_a 1 1000
        ∷ replied merchant_a
        (sale_approved "000001" "000000001000" "0501" "000000000001" merchant_a)
        ∷ replied merchant_a (sale_refused "000001" "000000002000" "0502" "94" merchant_a) ∷ []) }
    ensures empty_card_in_track { Gives 999999 merchant_a
        (Frame morning
        (codes "0200" ++ codes "7220000000C08000" ++ codes "00" ++ codes "000000"
        ++ codes "000000001000" ++ codes "0501093000" ++ codes "000001" ++ terminal ++ merchant_a
        ++ codes "978")
        ∷ Frame morning
        (codes "0200" ++ codes "3220000020C08000" ++ codes "000000" ++ codes "000000001000"
        ++ codes "0501093000" ++ codes "000001" ++ codes "05" ++ codes "=2912" ++ terminal
        ++ merchant_a ++ codes "978") ∷ [])
        (Reply (Some merchant_a)
        (codes "0210" ++ codes "7222000002C08000" ++ codes "00" ++ codes "000000"
        ++ codes "000000001000" ++ codes "0501093000" ++ codes "000001" ++ codes "0501"
        ++ codes "14" ++ terminal ++ merchant_a ++ codes "978")
        ∷ Reply (Some merchant_a)
        (codes "0210" ++ codes "7222000002C08000" ++ codes "00" ++ codes "000000"
        ++ codes "000000001000" ++ codes "0501093000" ++ codes "000001" ++ codes "0501"
        ++ codes "14" ++ terminal ++ merchant_a ++ codes "978") ∷ []) }
    ensures no_card_is_not_an_empty_one { Gives 999999 merchant_a
        (sent (completion "000021" "000000005000" "000000000001" merchant_a)
        ∷ Frame morning
        (codes "0220" ++ codes "7220000008C08000" ++ codes "00" ++ codes "000000"
        ++ codes "000000005000" ++ codes "0502093000" ++ codes "000021" ++ codes "000000000001"
        ++ terminal ++ merchant_a ++ codes "978") ∷ [])
        (replied merchant_a
        (completion_reply "000021" "000000005000" "0501" "000000000001" "25" merchant_a)
        ∷ Reply (Some merchant_a)
        (codes "0230" ++ codes "722200000AC08000" ++ codes "00" ++ codes "000000"
        ++ codes "000000005000" ++ codes "0502093000" ++ codes "000021" ++ codes "0501"
        ++ codes "000000000001" ++ codes "94" ++ terminal ++ merchant_a ++ codes "978") ∷ []) }
{}

/// A repeat is alike in each element that says what is to be done: processing code and currency,
/// the hold's reference, the whole of the original's data, and the day and totals of a
/// reconciliation. Another one under the key is refused, and the first reply stays.
#[tactic(auto, unfolding(crate::proofs::Computing::on_literals))]
pub fn elements_alike()
    ensures of_a_sale { Gives 999999 merchant_a
        (sent (sale "000001" "000000001000" merchant_a) ∷ approves "A1B2C3" merchant_a 1
        ∷ sent (card_request "0200" "4111111111111111" "001000" "000000001000" "000001" merchant_a)
        ∷ Frame morning
        (codes "0200" ++ codes "7220000000C08000" ++ codes "16" ++ codes "4111111111111111"
        ++ codes "000000" ++ codes "000000001000" ++ codes "0501093000" ++ codes "000001"
        ++ terminal ++ merchant_a ++ codes "840")
        ∷ sent (card_request "0200" "5500005555555559" "000000" "000000001000" "000001" merchant_a)
        ∷ sent (sale "000001" "000000001000" merchant_a) ∷ [])
        (asked merchant_a 1 1000
        ∷ replied merchant_a
        (sale_approved "000001" "000000001000" "0501" "000000000001" merchant_a)
        ∷ replied merchant_a
        (card_refused "0210" "4111111111111111" "001000" "000000001000" "000001" "0501" "94"
        merchant_a)
        ∷ Reply (Some merchant_a)
        (codes "0210" ++ codes "7222000002C08000" ++ codes "16" ++ codes "4111111111111111"
        ++ codes "000000" ++ codes "000000001000" ++ codes "0501093000" ++ codes "000001"
        ++ codes "0501" ++ codes "94" ++ terminal ++ merchant_a ++ codes "840")
        ∷ replied merchant_a
        (card_refused "0210" "5500005555555559" "000000" "000000001000" "000001" "0501" "94"
        merchant_a)
        ∷ replied merchant_a
        (sale_approved "000001" "000000001000" "0501" "000000000001" merchant_a) ∷ []) }
    ensures of_a_completion { Gives 999999 merchant_a
        (sent (hold "000020" "000000005000" merchant_a) ∷ approves "H00001" merchant_a 1
        ∷ sent (hold "000030" "000000005000" merchant_a) ∷ approves "H00001" merchant_a 2
        ∷ sent (completion "000021" "000000005000" "000000000001" merchant_a)
        ∷ sent (completion "000021" "000000005000" "000000000002" merchant_a)
        ∷ sent (completion "000021" "000000004999" "000000000001" merchant_a)
        ∷ sent (completion "000021" "000000005000" "000000000001" merchant_a)
        ∷ sent (completion "000022" "000000005000" "000000000002" merchant_a) ∷ [])
        (asked_to_hold merchant_a 1 5000
        ∷ replied merchant_a
        (hold_approved "000020" "000000005000" "0501" "000000000001" merchant_a)
        ∷ asked_to_hold merchant_a 2 5000
        ∷ replied merchant_a
        (hold_approved "000030" "000000005000" "0501" "000000000002" merchant_a)
        ∷ replied merchant_a
        (completion_reply "000021" "000000005000" "0501" "000000000001" "00" merchant_a)
        ∷ replied merchant_a
        (completion_reply "000021" "000000005000" "0501" "000000000002" "94" merchant_a)
        ∷ replied merchant_a
        (completion_reply "000021" "000000004999" "0501" "000000000001" "94" merchant_a)
        ∷ replied merchant_a
        (completion_reply "000021" "000000005000" "0501" "000000000001" "00" merchant_a)
        ∷ replied merchant_a
        (completion_reply "000022" "000000005000" "0501" "000000000002" "00" merchant_a) ∷ []) }
    ensures of_a_reversal { Gives 999999 merchant_a
        (sent (sale "000001" "000000001000" merchant_a) ∷ approves "A1B2C3" merchant_a 1
        ∷ sent (sale "000002" "000000001000" merchant_a) ∷ approves "A1B2C3" merchant_a 2
        ∷ sent (reversal "000003" "000000001000" (original "0200" "000001" "0501093000") merchant_a)
        ∷ sent (reversal "000003" "000000001000" (original "0200" "000002" "0501093000") merchant_a)
        ∷ sent (reversal "000003" "000000001000" (original "0201" "000001" "0501093000") merchant_a)
        ∷ sent (reversal "000003" "000000001000"
        (original_through "0200" "000001" "0501093000" "00000000000" "00000000001") merchant_a)
        ∷ sent (reversal "000003" "000000001000" (original "0200" "000001" "0501093000") merchant_a)
        ∷ sent (reversal "000004" "000000001000" (original "0200" "000002" "0501093000") merchant_a)
        ∷ [])
        (asked merchant_a 1 1000
        ∷ replied merchant_a
        (sale_approved "000001" "000000001000" "0501" "000000000001" merchant_a)
        ∷ asked merchant_a 2 1000
        ∷ replied merchant_a
        (sale_approved "000002" "000000001000" "0501" "000000000002" merchant_a)
        ∷ replied merchant_a
        (reversal_accepted "000003" "000000001000" "0501" "000000000001" merchant_a)
        ∷ replied merchant_a (reversal_refused "000003" "000000001000" "0501" "94" merchant_a)
        ∷ replied merchant_a (reversal_refused "000003" "000000001000" "0501" "94" merchant_a)
        ∷ replied merchant_a (reversal_refused "000003" "000000001000" "0501" "94" merchant_a)
        ∷ replied merchant_a
        (reversal_accepted "000003" "000000001000" "0501" "000000000001" merchant_a)
        ∷ replied merchant_a
        (reversal_accepted "000004" "000000001000" "0501" "000000000002" merchant_a) ∷ []) }
    ensures of_a_reconciliation { Gives 999999 merchant_a
        (sent (reconciliation "000010" (no_totals "C0000000000000000") merchant_a)
        ∷ sent (reconciliation_of "000010" "0501" (no_totals "C0000000000000000") merchant_a)
        ∷ sent (reconciliation "000010"
        (totals "0000000001" "0000000000" "0000000000" "0000000000" "0000000000000000"
        "0000000000000000" "0000000000000000" "0000000000000000" "C0000000000000000") merchant_a)
        ∷ sent (reconciliation "000010"
        (totals "0000000000" "0000000001" "0000000000" "0000000000" "0000000000000000"
        "0000000000000000" "0000000000000000" "0000000000000000" "C0000000000000000") merchant_a)
        ∷ sent (reconciliation "000010"
        (totals "0000000000" "0000000000" "0000000001" "0000000000" "0000000000000000"
        "0000000000000000" "0000000000000000" "0000000000000000" "C0000000000000000") merchant_a)
        ∷ sent (reconciliation "000010"
        (totals "0000000000" "0000000000" "0000000000" "0000000001" "0000000000000000"
        "0000000000000000" "0000000000000000" "0000000000000000" "C0000000000000000") merchant_a)
        ∷ sent (reconciliation "000010"
        (totals "0000000000" "0000000000" "0000000000" "0000000000" "0000000000000001"
        "0000000000000000" "0000000000000000" "0000000000000000" "C0000000000000000") merchant_a)
        ∷ sent (reconciliation "000010"
        (totals "0000000000" "0000000000" "0000000000" "0000000000" "0000000000000000"
        "0000000000000001" "0000000000000000" "0000000000000000" "C0000000000000000") merchant_a)
        ∷ sent (reconciliation "000010"
        (totals "0000000000" "0000000000" "0000000000" "0000000000" "0000000000000000"
        "0000000000000000" "0000000000000001" "0000000000000000" "C0000000000000000") merchant_a)
        ∷ sent (reconciliation "000010"
        (totals "0000000000" "0000000000" "0000000000" "0000000000" "0000000000000000"
        "0000000000000000" "0000000000000000" "0000000000000001" "C0000000000000000") merchant_a)
        ∷ sent (reconciliation "000010"
        (totals "0000000000" "0000000000" "0000000000" "0000000000" "0000000000000000"
        "0000000000000000" "0000000000000000" "0000000000000000" "C0000000000000001") merchant_a)
        ∷ sent (reconciliation "000010" (no_totals "C0000000000000000") merchant_a) ∷ [])
        (replied merchant_a
        (reconciliation_reply "000010" "0501" "00" "1" (no_totals "C0000000000000000") merchant_a)
        ∷ replied merchant_a (reconciliation_refused "000010" "0501" "94" merchant_a)
        ∷ replied merchant_a (reconciliation_refused "000010" "0501" "94" merchant_a)
        ∷ replied merchant_a (reconciliation_refused "000010" "0501" "94" merchant_a)
        ∷ replied merchant_a (reconciliation_refused "000010" "0501" "94" merchant_a)
        ∷ replied merchant_a (reconciliation_refused "000010" "0501" "94" merchant_a)
        ∷ replied merchant_a (reconciliation_refused "000010" "0501" "94" merchant_a)
        ∷ replied merchant_a (reconciliation_refused "000010" "0501" "94" merchant_a)
        ∷ replied merchant_a (reconciliation_refused "000010" "0501" "94" merchant_a)
        ∷ replied merchant_a (reconciliation_refused "000010" "0501" "94" merchant_a)
        ∷ replied merchant_a (reconciliation_refused "000010" "0501" "94" merchant_a)
        ∷ replied merchant_a
        (reconciliation_reply "000010" "0501" "00" "1" (no_totals "C0000000000000000") merchant_a)
        ∷ []) }
{}

/// What else a repeat says isn't compared, nor echoed: local time and date, expiry, acquirer, and
/// where its card number stands. It gets the reply that was kept, also after a reversal.
#[tactic(auto, unfolding(crate::proofs::Computing::on_literals))]
pub fn elements_not_compared()
    ensures of_a_sale { Gives 999999 merchant_a
        (sent (sale "000001" "000000001000" merchant_a) ∷ approves "A1B2C3" merchant_a 1
        ∷ Frame morning
        (codes "0200" ++ codes "7230000000C08000" ++ codes "16" ++ codes "4111111111111111"
        ++ codes "000000" ++ codes "000000001000" ++ codes "0501093000" ++ codes "000001"
        ++ codes "113000" ++ terminal ++ merchant_a ++ codes "978")
        ∷ Frame morning
        (codes "0200" ++ codes "7228000000C08000" ++ codes "16" ++ codes "4111111111111111"
        ++ codes "000000" ++ codes "000000001000" ++ codes "0501093000" ++ codes "000001"
        ++ codes "0501" ++ terminal ++ merchant_a ++ codes "978")
        ∷ Frame morning
        (codes "0200" ++ codes "7224000000C08000" ++ codes "16" ++ codes "4111111111111111"
        ++ codes "000000" ++ codes "000000001000" ++ codes "0501093000" ++ codes "000001"
        ++ codes "2404" ++ terminal ++ merchant_a ++ codes "978")
        ∷ Frame morning
        (codes "0200" ++ codes "7220000100C08000" ++ codes "16" ++ codes "4111111111111111"
        ++ codes "000000" ++ codes "000000001000" ++ codes "0501093000" ++ codes "000001"
        ++ codes "06" ++ codes "123456" ++ terminal ++ merchant_a ++ codes "978")
        ∷ Frame morning
        (codes "0200" ++ codes "3220000020C08000" ++ codes "000000" ++ codes "000000001000"
        ++ codes "0501093000" ++ codes "000001" ++ codes "21" ++ codes "4111111111111111=2912"
        ++ terminal ++ merchant_a ++ codes "978")
        ∷ sent (reversal "000003" "000000001000" (original "0200" "000001" "0501093000") merchant_a)
        ∷ sent (sale "000001" "000000001000" merchant_a) ∷ [])
        (asked merchant_a 1 1000
        ∷ replied merchant_a
        (sale_approved "000001" "000000001000" "0501" "000000000001" merchant_a)
        ∷ replied merchant_a
        (sale_approved "000001" "000000001000" "0501" "000000000001" merchant_a)
        ∷ replied merchant_a
        (sale_approved "000001" "000000001000" "0501" "000000000001" merchant_a)
        ∷ replied merchant_a
        (sale_approved "000001" "000000001000" "0501" "000000000001" merchant_a)
        ∷ replied merchant_a
        (sale_approved "000001" "000000001000" "0501" "000000000001" merchant_a)
        ∷ replied merchant_a
        (sale_approved "000001" "000000001000" "0501" "000000000001" merchant_a)
        ∷ replied merchant_a
        (reversal_accepted "000003" "000000001000" "0501" "000000000001" merchant_a)
        ∷ replied merchant_a
        (sale_approved "000001" "000000001000" "0501" "000000000001" merchant_a) ∷ []) }
    ensures while_pending { Gives 999999 merchant_a
        (sent (sale "000001" "000000001000" merchant_a)
        ∷ Frame morning
        (codes "0201" ++ codes "7238000000C08000" ++ codes "16" ++ codes "4111111111111111"
        ++ codes "000000" ++ codes "000000001000" ++ codes "0501093000" ++ codes "000001"
        ++ codes "113000" ++ codes "0501" ++ terminal ++ merchant_a ++ codes "978")
        ∷ approves "A1B2C3" merchant_a 1 ∷ [])
        (asked merchant_a 1 1000 ∷ Waiting
        ∷ replied merchant_a
        (sale_approved "000001" "000000001000" "0501" "000000000001" merchant_a) ∷ []) }
    ensures other_parts_of_the_key { Gives 999999 merchant_a
        (AddTerminal merchant_a other_terminal
        ∷ sent (sale "000001" "000000001000" merchant_a)
        ∷ Frame morning
        (codes "0200" ++ codes "7220000000C08000" ++ codes "16" ++ codes "4111111111111111"
        ++ codes "000000" ++ codes "000000001000" ++ codes "0501093001" ++ codes "000001"
        ++ terminal ++ merchant_a ++ codes "978")
        ∷ Frame morning
        (codes "0200" ++ codes "7220000000C08000" ++ codes "16" ++ codes "4111111111111111"
        ++ codes "000000" ++ codes "000000001000" ++ codes "0501093000" ++ codes "000001"
        ++ other_terminal ++ merchant_a ++ codes "978")
        ∷ sent (card_request "0100" "5500005555555559" "000000" "000000001000" "000001" merchant_a)
        ∷ sent (sale "000001" "000000001000" merchant_b)
        ∷ sent (sale "000001" "000000001000" merchant_a) ∷ [])
        (Done ∷ asked merchant_a 1 1000 ∷ asked merchant_a 2 1000 ∷ asked merchant_a 3 1000
        ∷ asked_to_hold merchant_a 4 1000 ∷ Waiting ∷ []) }
{}

/// A refusal is kept too: the same frame gets the first reply even on a day that has room, and a
/// new trace is decided anew.
#[tactic(auto, unfolding(crate::proofs::Computing::on_literals))]
pub fn refusals()
    ensures day_full { Gives 1 merchant_a
        (sent (sale "000001" "000000001000" merchant_a)
        ∷ sent (sale "000002" "000000001000" merchant_a) ∷ cutover
        ∷ sent (sale "000002" "000000001000" merchant_a)
        ∷ sent (sale "000003" "000000001000" merchant_a) ∷ [])
        (asked merchant_a 1 1000
        ∷ replied merchant_a (sale_refused "000002" "000000001000" "0501" "65" merchant_a)
        ∷ replied merchant_a (sale_refused "000002" "000000001000" "0501" "65" merchant_a)
        ∷ asked merchant_a 2 1000 ∷ []) }
{}

/// A reversal and a reconciliation marked as repeats are alike with those that aren't, whichever
/// comes first. A reversal isn't alike with a reversal advice.
#[tactic(auto, unfolding(crate::proofs::Computing::on_literals))]
pub fn marked()
    ensures either_first { Gives 999999 merchant_a
        (sent (sale "000001" "000000001000" merchant_a)
        ∷ approves "A1B2C3" merchant_a 1
        ∷ sent (reversal_as "0401" "000003" "000000001000"
        (original "0200" "000001" "0501093000") merchant_a)
        ∷ sent (reversal_as "0400" "000003" "000000001000"
        (original "0200" "000001" "0501093000") merchant_a)
        ∷ sent (reversal "000003" "000000001000" (original "0200" "000001" "0501093000") merchant_a)
        ∷ Frame morning
        (codes "0501" ++ codes "8220000000C00000" ++ codes "0078078080000000"
        ++ codes "0501100000" ++ codes "000010" ++ terminal ++ merchant_a
        ++ no_totals "C0000000000000000")
        ∷ sent (reconciliation "000010" (no_totals "C0000000000000000") merchant_a)
        ∷ [])
        (asked merchant_a 1 1000
        ∷ replied merchant_a
        (sale_approved "000001" "000000001000" "0501" "000000000001" merchant_a)
        ∷ Reply (Some merchant_a)
        (codes "0410" ++ codes "122200000AC00000" ++ codes "000000001000" ++ codes "0501093100"
        ++ codes "000003" ++ codes "0501" ++ codes "000000000001" ++ codes "00" ++ terminal
        ++ merchant_a)
        ∷ Reply (Some merchant_a)
        (codes "0410" ++ codes "122200000AC00000" ++ codes "000000001000" ++ codes "0501093100"
        ++ codes "000003" ++ codes "0501" ++ codes "000000000001" ++ codes "00" ++ terminal
        ++ merchant_a)
        ∷ replied merchant_a (reversal_refused "000003" "000000001000" "0501" "21" merchant_a)
        ∷ Reply (Some merchant_a)
        (codes "0510" ++ codes "8222000002C00000" ++ codes "4078078080000000"
        ++ codes "0501100000" ++ codes "000010" ++ codes "0501" ++ codes "95" ++ terminal
        ++ merchant_a ++ codes "2" ++ codes "0000000000" ++ codes "0000000000"
        ++ codes "0000000001" ++ codes "0000000001" ++ codes "0000000000000000"
        ++ codes "0000000000000000" ++ codes "0000000000001000" ++ codes "0000000000001000"
        ++ codes "C0000000000000000")
        ∷ Reply (Some merchant_a)
        (codes "0510" ++ codes "8222000002C00000" ++ codes "4078078080000000"
        ++ codes "0501100000" ++ codes "000010" ++ codes "0501" ++ codes "95" ++ terminal
        ++ merchant_a ++ codes "2" ++ codes "0000000000" ++ codes "0000000000"
        ++ codes "0000000001" ++ codes "0000000001" ++ codes "0000000000000000"
        ++ codes "0000000000000000" ++ codes "0000000000001000" ++ codes "0000000000001000"
        ++ codes "C0000000000000000")
        ∷ []) }
{}

/// A completion and a reversal that come again get their first replies and post nothing again.
#[tactic(auto, unfolding(crate::proofs::Computing::on_literals))]
pub fn advices()
    ensures completion_three_times { Gives 999999 merchant_a
        (sent (hold "000020" "000000005000" merchant_a) ∷ approves "H00001" merchant_a 1
        ∷ Frame next_morning (completion "000021" "000000005000" "000000000001" merchant_a)
        ∷ Frame next_morning (completion "000021" "000000005000" "000000000001" merchant_a)
        ∷ Frame next_morning
        (codes "0221" ++ codes "3220000008C08000" ++ codes "000000" ++ codes "000000005000"
        ++ codes "0502093000" ++ codes "000021" ++ codes "000000000001" ++ terminal ++ merchant_a
        ++ codes "978") ∷ [])
        (asked_to_hold merchant_a 1 5000
        ∷ replied merchant_a
        (hold_approved "000020" "000000005000" "0501" "000000000001" merchant_a)
        ∷ replied merchant_a
        (completion_reply "000021" "000000005000" "0501" "000000000001" "00" merchant_a)
        ∷ replied merchant_a
        (completion_reply "000021" "000000005000" "0501" "000000000001" "00" merchant_a)
        ∷ replied merchant_a
        (completion_reply "000021" "000000005000" "0501" "000000000001" "00" merchant_a) ∷ []) }
    ensures completion_posts_once { Posts 999999 merchant_a
        (sent (hold "000020" "000000005000" merchant_a) ∷ approves "H00001" merchant_a 1
        ∷ Frame next_morning (completion "000021" "000000005000" "000000000001" merchant_a)
        ∷ Frame next_morning (completion "000021" "000000005000" "000000000001" merchant_a)
        ∷ Frame next_morning
        (completion_as "0221" "000021" "000000005000" "000000000001" terminal merchant_a) ∷ [])
        (hold_posting 1 merchant_a may_1 Debit 5000 1 "000021" ∷ []) }
    ensures reversal_twice { Gives 999999 merchant_a
        (sent (sale "000001" "000000001000" merchant_a) ∷ approves "A1B2C3" merchant_a 1
        ∷ sent (reversal "000003" "000000001000" (original "0200" "000001" "0501093000") merchant_a)
        ∷ sent (reversal_as "0421" "000003" "000000001000"
        (original "0200" "000001" "0501093000") merchant_a) ∷ [])
        (asked merchant_a 1 1000
        ∷ replied merchant_a
        (sale_approved "000001" "000000001000" "0501" "000000000001" merchant_a)
        ∷ replied merchant_a
        (reversal_accepted "000003" "000000001000" "0501" "000000000001" merchant_a)
        ∷ replied merchant_a
        (reversal_accepted "000003" "000000001000" "0501" "000000000001" merchant_a) ∷ []) }
{}
