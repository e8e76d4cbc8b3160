//! Reversals, by what they find of their original.

ghost use Rattle.std.specs.Prelude.{◌++◌, ◌∷◌, [], codes, Some};
ghost use Rattle.acq_core.specs.declared.event.Event.TheVariants.{Frame, AddTerminal};
ghost use Rattle.acq_core.specs.declared.output.Output.TheVariants.{Reply, Done, Late};
ghost use Rattle.day_totals.specs.declared.leg.Leg.TheVariants.{Credit, CreditReversal, Debit};
ghost use Rattle.day_totals.specs.declared.leg.Leg.TheVariants.{DebitReversal};
ghost use Rattle.acq_examples.specs.Messages.{merchant_a, merchant_b, terminal, other_terminal};
ghost use Rattle.acq_examples.specs.Messages.{sale, card_return, sale_approved, sale_declined};
ghost use Rattle.acq_examples.specs.Messages.{sale_refused, card_request, card_refused, hold};
ghost use Rattle.acq_examples.specs.Messages.{hold_approved, hold_declined, hold_refused};
ghost use Rattle.acq_examples.specs.Messages.{completion, completion_reply, original};
ghost use Rattle.acq_examples.specs.Messages.{original_through, reversal, reversal_as};
ghost use Rattle.acq_examples.specs.Messages.{reversal_accepted, reversal_refused};
ghost use Rattle.acq_examples.specs.Scripts.{Gives, Posts, may_1, morning, next_morning, sent};
ghost use Rattle.acq_examples.specs.Scripts.{approves, declines, says_nothing, cutover, asked};
ghost use Rattle.acq_examples.specs.Scripts.{asked_to_hold, replied};
ghost use Rattle.acq_examples.specs.Scripts.{hold_posting, sale_posting};

/// An approved sale or return is reversed by a posting of the reversal leg. Another merchant's sale
/// of the same trace stays.
#[tactic(auto, unfolding(crate::proofs::Computing::on_literals))]
pub fn of_sales()
    ensures approved { Gives 999999 merchant_a
        (sent (sale "000001" "000000001000" merchant_a)
        ∷ sent (sale "000001" "000000001000" merchant_b)
        ∷ approves "A1B2C3" merchant_a 1 ∷ approves "A1B2C3" merchant_b 1
        ∷ Frame morning
        (codes "0420" ++ codes "9220000000C00000" ++ codes "0000004000000000"
        ++ codes "000000001000" ++ codes "0501093100" ++ codes "000003" ++ terminal ++ merchant_a
        ++ codes "0200" ++ codes "000001" ++ codes "0501093000" ++ codes "00000000000"
        ++ codes "00000000000") ∷ [])
        (asked merchant_a 1 1000
        ∷ replied merchant_a
        (sale_approved "000001" "000000001000" "0501" "000000000001" merchant_a)
        ∷ Reply (Some merchant_a)
        (codes "0430" ++ codes "122200000AC00000" ++ codes "000000001000" ++ codes "0501093100"
        ++ codes "000003" ++ codes "0501" ++ codes "000000000001" ++ codes "00" ++ terminal
        ++ merchant_a) ∷ []) }
    ensures the_other_gets_nothing { Gives 999999 merchant_b
        (sent (sale "000001" "000000001000" merchant_a)
        ∷ sent (sale "000001" "000000001000" merchant_b)
        ∷ approves "A1B2C3" merchant_a 1 ∷ approves "A1B2C3" merchant_b 1
        ∷ sent (reversal "000003" "000000001000" (original "0200" "000001" "0501093000") merchant_a)
        ∷ [])
        (asked merchant_b 1 1000
        ∷ replied merchant_b
        (sale_approved "000001" "000000001000" "0501" "000000000001" merchant_b) ∷ []) }
    ensures posted_and_reversed { Posts 999999 merchant_a
        (sent (sale "000001" "000000001000" merchant_a)
        ∷ sent (sale "000001" "000000001000" merchant_b)
        ∷ approves "A1B2C3" merchant_a 1 ∷ approves "A1B2C3" merchant_b 1
        ∷ sent (reversal "000003" "000000001000" (original "0200" "000001" "0501093000") merchant_a)
        ∷ [])
        (sale_posting 1 merchant_a may_1 Debit 1000 1 "000001"
        ∷ sale_posting 2 merchant_a may_1 DebitReversal 1000 1 "000003" ∷ []) }
    ensures one_debit_of_the_other { Posts 999999 merchant_b
        (sent (sale "000001" "000000001000" merchant_a)
        ∷ sent (sale "000001" "000000001000" merchant_b)
        ∷ approves "A1B2C3" merchant_a 1 ∷ approves "A1B2C3" merchant_b 1
        ∷ sent (reversal "000003" "000000001000" (original "0200" "000001" "0501093000") merchant_a)
        ∷ [])
        (sale_posting 1 merchant_b may_1 Debit 1000 1 "000001" ∷ []) }
    ensures return_reversed { Posts 999999 merchant_a
        (sent (card_return "000001" "000000000700" merchant_a) ∷ approves "A1B2C3" merchant_a 1
        ∷ sent (reversal "000003" "000000000700" (original "0200" "000001" "0501093000") merchant_a)
        ∷ [])
        (sale_posting 1 merchant_a may_1 Credit 700 1 "000001"
        ∷ sale_posting 2 merchant_a may_1 CreditReversal 700 1 "000003" ∷ []) }
{}

/// What is reversed while it is pending is never posted: its answer and its repeats come too late.
#[tactic(auto, unfolding(crate::proofs::Computing::on_literals))]
pub fn of_pending_requests()
    ensures sale_pending { Gives 999999 merchant_a
        (sent (sale "000001" "000000001000" merchant_a)
        ∷ sent (reversal "000003" "000000001000" (original "0200" "000001" "0501093000") merchant_a)
        ∷ approves "A1B2C3" merchant_a 1 ∷ sent (sale "000001" "000000001000" merchant_a) ∷ [])
        (asked merchant_a 1 1000
        ∷ replied merchant_a
        (reversal_accepted "000003" "000000001000" "0501" "000000000001" merchant_a)
        ∷ Late ∷ Late ∷ []) }
    ensures sale_posts_nothing { Posts 999999 merchant_a
        (sent (sale "000001" "000000001000" merchant_a)
        ∷ sent (reversal "000003" "000000001000" (original "0200" "000001" "0501093000") merchant_a)
        ∷ approves "A1B2C3" merchant_a 1 ∷ sent (sale "000001" "000000001000" merchant_a) ∷ []) [] }
    ensures hold_pending { Gives 999999 merchant_a
        (sent (hold "000020" "000000005000" merchant_a)
        ∷ sent (reversal "000022" "000000005000" (original "0100" "000020" "0501093000") merchant_a)
        ∷ approves "H00001" merchant_a 1 ∷ sent (hold "000020" "000000005000" merchant_a)
        ∷ sent (completion "000021" "000000005000" "000000000001" merchant_a) ∷ [])
        (asked_to_hold merchant_a 1 5000
        ∷ replied merchant_a
        (reversal_accepted "000022" "000000005000" "0501" "000000000001" merchant_a)
        ∷ Late ∷ Late
        ∷ replied merchant_a
        (completion_reply "000021" "000000005000" "0501" "000000000001" "25" merchant_a) ∷ []) }
    ensures still_counts { Gives 2 merchant_a
        (sent (sale "000001" "000000001000" merchant_a)
        ∷ sent (reversal "000003" "000000001000" (original "0200" "000001" "0501093000") merchant_a)
        ∷ sent (sale "000002" "000000001000" merchant_a) ∷ cutover
        ∷ sent (sale "000004" "000000001000" merchant_a) ∷ [])
        (asked merchant_a 1 1000
        ∷ replied merchant_a
        (reversal_accepted "000003" "000000001000" "0501" "000000000001" merchant_a)
        ∷ replied merchant_a (sale_refused "000002" "000000001000" "0501" "65" merchant_a)
        ∷ asked merchant_a 2 1000 ∷ []) }
    ensures hold_posts_nothing { Posts 999999 merchant_a
        (sent (hold "000020" "000000005000" merchant_a)
        ∷ sent (reversal "000022" "000000005000" (original "0100" "000020" "0501093000") merchant_a)
        ∷ approves "H00001" merchant_a 1 ∷ []) [] }
    ensures twice { Gives 999999 merchant_a
        (sent (sale "000001" "000000001000" merchant_a)
        ∷ sent (reversal "000003" "000000001000" (original "0200" "000001" "0501093000") merchant_a)
        ∷ sent (reversal "000004" "000000001000" (original "0200" "000001" "0501093000") merchant_a)
        ∷ [])
        (asked merchant_a 1 1000
        ∷ replied merchant_a
        (reversal_accepted "000003" "000000001000" "0501" "000000000001" merchant_a)
        ∷ replied merchant_a (reversal_refused "000004" "000000001000" "0501" "21" merchant_a)
        ∷ []) }
{}

/// An approved hold is reversed without a posting, also after its last second, and can't be
/// completed any more.
#[tactic(auto, unfolding(crate::proofs::Computing::on_literals))]
pub fn of_holds()
    ensures open_hold { Gives 999999 merchant_a
        (sent (hold "000020" "000000005000" merchant_a) ∷ approves "H00001" merchant_a 1
        ∷ sent (reversal "000022" "000000005000" (original "0100" "000020" "0501093000") merchant_a)
        ∷ sent (completion "000021" "000000005000" "000000000001" merchant_a) ∷ [])
        (asked_to_hold merchant_a 1 5000
        ∷ replied merchant_a
        (hold_approved "000020" "000000005000" "0501" "000000000001" merchant_a)
        ∷ replied merchant_a
        (reversal_accepted "000022" "000000005000" "0501" "000000000001" merchant_a)
        ∷ replied merchant_a
        (completion_reply "000021" "000000005000" "0501" "000000000001" "25" merchant_a) ∷ []) }
    ensures other_amount { Gives 999999 merchant_a
        (sent (hold "000020" "000000005000" merchant_a) ∷ approves "H00001" merchant_a 1
        ∷ sent (reversal "000022" "000000004999" (original "0100" "000020" "0501093000") merchant_a)
        ∷ sent (reversal "000023" "000000005001" (original "0100" "000020" "0501093000") merchant_a)
        ∷ sent (completion "000021" "000000005000" "000000000001" merchant_a) ∷ [])
        (asked_to_hold merchant_a 1 5000
        ∷ replied merchant_a
        (hold_approved "000020" "000000005000" "0501" "000000000001" merchant_a)
        ∷ replied merchant_a (reversal_refused "000022" "000000004999" "0501" "13" merchant_a)
        ∷ replied merchant_a (reversal_refused "000023" "000000005001" "0501" "13" merchant_a)
        ∷ replied merchant_a
        (completion_reply "000021" "000000005000" "0501" "000000000001" "00" merchant_a) ∷ []) }
    ensures on_a_later_day { Gives 999999 merchant_a
        (sent (hold "000020" "000000005000" merchant_a) ∷ approves "H00001" merchant_a 1 ∷ cutover
        ∷ sent (reversal "000022" "000000005000" (original "0100" "000020" "0501093000") merchant_a)
        ∷ sent (completion "000021" "000000005000" "000000000001" merchant_a)
        ∷ sent (hold "000020" "000000005000" merchant_a) ∷ [])
        (asked_to_hold merchant_a 1 5000
        ∷ replied merchant_a
        (hold_approved "000020" "000000005000" "0501" "000000000001" merchant_a)
        ∷ replied merchant_a
        (reversal_accepted "000022" "000000005000" "0502" "000000000001" merchant_a)
        ∷ replied merchant_a
        (completion_reply "000021" "000000005000" "0502" "000000000001" "25" merchant_a)
        ∷ replied merchant_a
        (hold_approved "000020" "000000005000" "0501" "000000000001" merchant_a) ∷ []) }
    ensures later_day_posts_nothing { Posts 999999 merchant_a
        (sent (hold "000020" "000000005000" merchant_a) ∷ approves "H00001" merchant_a 1 ∷ cutover
        ∷ sent (reversal "000022" "000000005000" (original "0100" "000020" "0501093000") merchant_a)
        ∷ sent (completion "000021" "000000005000" "000000000001" merchant_a) ∷ []) [] }
    ensures expired_hold { Gives 999999 merchant_a
        (sent (hold "000020" "000000005000" merchant_a) ∷ approves "H00001" merchant_a 1
        ∷ Frame 1714642201
        (reversal "000022" "000000005000" (original "0100" "000020" "0501093000") merchant_a)
        ∷ sent (completion "000021" "000000005000" "000000000001" merchant_a) ∷ [])
        (asked_to_hold merchant_a 1 5000
        ∷ replied merchant_a
        (hold_approved "000020" "000000005000" "0501" "000000000001" merchant_a)
        ∷ replied merchant_a
        (reversal_accepted "000022" "000000005000" "0501" "000000000001" merchant_a)
        ∷ replied merchant_a
        (completion_reply "000021" "000000005000" "0501" "000000000001" "25" merchant_a) ∷ []) }
    ensures posts_nothing { Posts 999999 merchant_a
        (sent (hold "000020" "000000005000" merchant_a) ∷ approves "H00001" merchant_a 1
        ∷ Frame 1714642201
        (reversal "000022" "000000005000" (original "0100" "000020" "0501093000") merchant_a)
        ∷ []) [] }
{}

/// A completed hold can't be reversed. Its completion can, shows the hold's reference, and leaves
/// the hold as it is: neither open again nor reversible.
#[tactic(auto, unfolding(crate::proofs::Computing::on_literals))]
pub fn of_completions()
    ensures completed_hold { Gives 999999 merchant_a
        (sent (hold "000020" "000000005000" merchant_a) ∷ approves "H00001" merchant_a 1
        ∷ Frame next_morning (completion "000021" "000000005000" "000000000001" merchant_a)
        ∷ Frame next_morning
        (reversal "000023" "000000005000" (original "0100" "000020" "0501093000") merchant_a) ∷ [])
        (asked_to_hold merchant_a 1 5000
        ∷ replied merchant_a
        (hold_approved "000020" "000000005000" "0501" "000000000001" merchant_a)
        ∷ replied merchant_a
        (completion_reply "000021" "000000005000" "0501" "000000000001" "00" merchant_a)
        ∷ replied merchant_a (reversal_refused "000023" "000000005000" "0501" "21" merchant_a)
        ∷ []) }
    ensures completion_reversed { Gives 999999 merchant_a
        (sent (hold "000020" "000000005000" merchant_a) ∷ approves "H00001" merchant_a 1
        ∷ Frame next_morning (completion "000021" "000000005000" "000000000001" merchant_a)
        ∷ Frame next_morning
        (codes "0420" ++ codes "9220000000C00000" ++ codes "0000004000000000"
        ++ codes "000000005000" ++ codes "0502093100" ++ codes "000022" ++ terminal ++ merchant_a
        ++ codes "0220" ++ codes "000021" ++ codes "0502093000" ++ codes "0000000000000000000000")
        ∷ Frame next_morning (completion "000024" "000000005000" "000000000001" merchant_a) ∷ [])
        (asked_to_hold merchant_a 1 5000
        ∷ replied merchant_a
        (hold_approved "000020" "000000005000" "0501" "000000000001" merchant_a)
        ∷ replied merchant_a
        (completion_reply "000021" "000000005000" "0501" "000000000001" "00" merchant_a)
        ∷ Reply (Some merchant_a)
        (codes "0430" ++ codes "122200000AC00000" ++ codes "000000005000" ++ codes "0502093100"
        ++ codes "000022" ++ codes "0501" ++ codes "000000000001" ++ codes "00" ++ terminal
        ++ merchant_a)
        ∷ replied merchant_a
        (completion_reply "000024" "000000005000" "0501" "000000000001" "25" merchant_a) ∷ []) }
    ensures of_less_than_the_hold { Gives 999999 merchant_a
        (sent (hold "000020" "000000005000" merchant_a)
        ∷ approves "H00001" merchant_a 1
        ∷ Frame next_morning (completion "000021" "000000004200" "000000000001" merchant_a)
        ∷ Frame next_morning
        (reversal "000022" "000000005000" (original "0220" "000021" "0502093000") merchant_a)
        ∷ Frame next_morning
        (reversal "000023" "000000004200" (original "0220" "000021" "0502093000") merchant_a)
        ∷ [])
        (asked_to_hold merchant_a 1 5000
        ∷ replied merchant_a
        (hold_approved "000020" "000000005000" "0501" "000000000001" merchant_a)
        ∷ replied merchant_a
        (completion_reply "000021" "000000004200" "0501" "000000000001" "00" merchant_a)
        ∷ replied merchant_a (reversal_refused "000022" "000000005000" "0501" "13" merchant_a)
        ∷ replied merchant_a
        (reversal_accepted "000023" "000000004200" "0501" "000000000001" merchant_a)
        ∷ []) }
    ensures posts_its_own_amount { Posts 999999 merchant_a
        (sent (hold "000020" "000000005000" merchant_a)
        ∷ approves "H00001" merchant_a 1
        ∷ Frame next_morning (completion "000021" "000000004200" "000000000001" merchant_a)
        ∷ Frame next_morning
        (reversal "000022" "000000005000" (original "0220" "000021" "0502093000") merchant_a)
        ∷ Frame next_morning
        (reversal "000023" "000000004200" (original "0220" "000021" "0502093000") merchant_a)
        ∷ [])
        (hold_posting 1 merchant_a may_1 Debit 4200 1 "000021"
        ∷ hold_posting 2 merchant_a may_1 DebitReversal 4200 1 "000023" ∷ []) }
    ensures hold_of_a_reversed_completion { Gives 999999 merchant_a
        (sent (hold "000020" "000000005000" merchant_a) ∷ approves "H00001" merchant_a 1
        ∷ Frame next_morning (completion "000021" "000000005000" "000000000001" merchant_a)
        ∷ Frame next_morning
        (reversal "000022" "000000005000" (original "0220" "000021" "0502093000") merchant_a)
        ∷ Frame next_morning
        (reversal "000023" "000000005000" (original "0100" "000020" "0501093000") merchant_a) ∷ [])
        (asked_to_hold merchant_a 1 5000
        ∷ replied merchant_a
        (hold_approved "000020" "000000005000" "0501" "000000000001" merchant_a)
        ∷ replied merchant_a
        (completion_reply "000021" "000000005000" "0501" "000000000001" "00" merchant_a)
        ∷ replied merchant_a
        (reversal_accepted "000022" "000000005000" "0501" "000000000001" merchant_a)
        ∷ replied merchant_a (reversal_refused "000023" "000000005000" "0501" "21" merchant_a)
        ∷ []) }
    ensures posted_and_reversed { Posts 999999 merchant_a
        (sent (hold "000020" "000000005000" merchant_a) ∷ approves "H00001" merchant_a 1
        ∷ Frame next_morning (completion "000021" "000000005000" "000000000001" merchant_a)
        ∷ Frame next_morning
        (reversal "000022" "000000005000" (original "0220" "000021" "0502093000") merchant_a) ∷ [])
        (hold_posting 1 merchant_a may_1 Debit 5000 1 "000021"
        ∷ hold_posting 2 merchant_a may_1 DebitReversal 5000 1 "000022" ∷ []) }
{}

/// What was refused or declined, also by no answer, can't be reversed, nor what was reversed
/// before.
#[tactic(auto, unfolding(crate::proofs::Computing::on_literals))]
pub fn of_nothing_to_reverse()
    ensures declined { Gives 999999 merchant_a
        (sent (sale "000001" "000000001000" merchant_a) ∷ declines "51" merchant_a 1
        ∷ Frame morning
        (codes "0400" ++ codes "9220000000C00000" ++ codes "0000004000000000"
        ++ codes "000000001000" ++ codes "0501093100" ++ codes "000003" ++ terminal ++ merchant_a
        ++ codes "0200" ++ codes "000001" ++ codes "0501093000" ++ codes "00000000000"
        ++ codes "00000000000") ∷ [])
        (asked merchant_a 1 1000
        ∷ replied merchant_a
        (sale_declined "000001" "000000001000" "0501" "000000000001" "51" merchant_a)
        ∷ Reply (Some merchant_a)
        (codes "0410" ++ codes "1222000002C00000" ++ codes "000000001000" ++ codes "0501093100"
        ++ codes "000003" ++ codes "0501" ++ codes "21" ++ terminal ++ merchant_a) ∷ []) }
    ensures no_answer { Gives 999999 merchant_a
        (sent (sale "000001" "000000001000" merchant_a) ∷ says_nothing merchant_a 1
        ∷ sent (reversal "000003" "000000001000" (original "0200" "000001" "0501093000") merchant_a)
        ∷ [])
        (asked merchant_a 1 1000
        ∷ replied merchant_a
        (sale_declined "000001" "000000001000" "0501" "000000000001" "91" merchant_a)
        ∷ replied merchant_a (reversal_refused "000003" "000000001000" "0501" "21" merchant_a)
        ∷ []) }
    ensures refused_sales { Gives 999999 merchant_a
        (sent (card_request "0200" "4111111111111111" "010000" "000000001000" "000001" merchant_a)
        ∷ sent (reversal "000011" "000000001000" (original "0200" "000001" "0501093000") merchant_a)
        ∷ sent (sale "000002" "000000000000" merchant_a)
        ∷ sent (reversal "000012" "000000000000" (original "0200" "000002" "0501093000") merchant_a)
        ∷ sent (card_request "0200" "4111111111111112" "000000" "000000001000" "000003" merchant_a)
        ∷ sent (reversal "000013" "000000001000" (original "0200" "000003" "0501093000") merchant_a)
        ∷ [])
        (replied merchant_a
        (card_refused "0210" "4111111111111111" "010000" "000000001000" "000001" "0501" "12"
        merchant_a)
        ∷ replied merchant_a (reversal_refused "000011" "000000001000" "0501" "21" merchant_a)
        ∷ replied merchant_a (sale_refused "000002" "000000000000" "0501" "13" merchant_a)
        ∷ replied merchant_a (reversal_refused "000012" "000000000000" "0501" "21" merchant_a)
        ∷ replied merchant_a
        (card_refused "0210" "4111111111111112" "000000" "000000001000" "000003" "0501" "14"
        merchant_a)
        ∷ replied merchant_a (reversal_refused "000013" "000000001000" "0501" "21" merchant_a)
        ∷ []) }
    ensures expired_and_of_no_range { Gives 999999 merchant_a
        (Frame morning
        (codes "0200" ++ codes "7224000000C08000" ++ codes "16" ++ codes "4111111111111111"
        ++ codes "000000" ++ codes "000000001000" ++ codes "0501093000" ++ codes "000001"
        ++ codes "2404" ++ terminal ++ merchant_a ++ codes "978")
        ∷ sent (reversal "000011" "000000001000" (original "0200" "000001" "0501093000") merchant_a)
        ∷ sent (card_request "0200" "6011000990139424" "000000" "000000001000" "000002" merchant_a)
        ∷ sent (reversal "000012" "000000001000" (original "0200" "000002" "0501093000") merchant_a)
        ∷ [])
        (replied merchant_a (sale_refused "000001" "000000001000" "0501" "54" merchant_a)
        ∷ replied merchant_a (reversal_refused "000011" "000000001000" "0501" "21" merchant_a)
        ∷ replied merchant_a
        (card_refused "0210" "6011000990139424" "000000" "000000001000" "000002" "0501" "15"
        merchant_a)
        ∷ replied merchant_a (reversal_refused "000012" "000000001000" "0501" "21" merchant_a)
        ∷ []) }
    ensures day_full { Gives 1 merchant_a
        (sent (sale "000001" "000000001000" merchant_a)
        ∷ sent (sale "000002" "000000001000" merchant_a)
        ∷ sent (reversal "000012" "000000001000" (original "0200" "000002" "0501093000") merchant_a)
        ∷ [])
        (asked merchant_a 1 1000
        ∷ replied merchant_a (sale_refused "000002" "000000001000" "0501" "65" merchant_a)
        ∷ replied merchant_a (reversal_refused "000012" "000000001000" "0501" "21" merchant_a)
        ∷ []) }
    ensures refused_and_declined_holds { Gives 999999 merchant_a
        (sent (hold "000020" "000000000000" merchant_a)
        ∷ sent (reversal "000030" "000000000000" (original "0100" "000020" "0501093000") merchant_a)
        ∷ sent (hold "000021" "000000005000" merchant_a) ∷ declines "51" merchant_a 1
        ∷ sent (reversal "000031" "000000005000" (original "0100" "000021" "0501093000") merchant_a)
        ∷ sent (hold "000022" "000000005000" merchant_a) ∷ says_nothing merchant_a 2
        ∷ sent (reversal "000032" "000000005000" (original "0100" "000022" "0501093000") merchant_a)
        ∷ [])
        (replied merchant_a (hold_refused "000020" "000000000000" "0501" "13" merchant_a)
        ∷ replied merchant_a (reversal_refused "000030" "000000000000" "0501" "21" merchant_a)
        ∷ asked_to_hold merchant_a 1 5000
        ∷ replied merchant_a
        (hold_declined "000021" "000000005000" "0501" "000000000001" "51" merchant_a)
        ∷ replied merchant_a (reversal_refused "000031" "000000005000" "0501" "21" merchant_a)
        ∷ asked_to_hold merchant_a 2 5000
        ∷ replied merchant_a
        (hold_declined "000022" "000000005000" "0501" "000000000002" "91" merchant_a)
        ∷ replied merchant_a (reversal_refused "000032" "000000005000" "0501" "21" merchant_a)
        ∷ []) }
    ensures refused_completion { Gives 999999 merchant_a
        (sent (completion "000021" "000000005000" "000000000001" merchant_a)
        ∷ sent (reversal "000022" "000000005000" (original "0220" "000021" "0502093000") merchant_a)
        ∷ [])
        (replied merchant_a
        (completion_reply "000021" "000000005000" "0501" "000000000001" "25" merchant_a)
        ∷ replied merchant_a (reversal_refused "000022" "000000005000" "0501" "21" merchant_a)
        ∷ []) }
    ensures reversed_before { Gives 999999 merchant_a
        (sent (sale "000001" "000000001000" merchant_a) ∷ approves "A1B2C3" merchant_a 1
        ∷ sent (reversal "000003" "000000001000" (original "0200" "000001" "0501093000") merchant_a)
        ∷ sent (reversal "000004" "000000001000" (original "0200" "000001" "0501093000") merchant_a)
        ∷ sent (reversal_as "0400" "000003" "000000001000"
        (original "0200" "000001" "0501093000") merchant_a) ∷ [])
        (asked merchant_a 1 1000
        ∷ replied merchant_a
        (sale_approved "000001" "000000001000" "0501" "000000000001" merchant_a)
        ∷ replied merchant_a
        (reversal_accepted "000003" "000000001000" "0501" "000000000001" merchant_a)
        ∷ replied merchant_a (reversal_refused "000004" "000000001000" "0501" "21" merchant_a)
        ∷ Reply (Some merchant_a)
        (codes "0410" ++ codes "1222000002C00000" ++ codes "000000001000" ++ codes "0501093100"
        ++ codes "000003" ++ codes "0501" ++ codes "21" ++ terminal ++ merchant_a) ∷ []) }
{}

/// A reversal without an original: none was sent, or it was another merchant's, another terminal's,
/// of another kind, or of another trace, date or time; or a reversal is named, or what was never
/// recorded.
#[tactic(auto, unfolding(crate::proofs::Computing::on_literals))]
pub fn without_original()
    ensures comes_first { Gives 999999 merchant_a
        (sent (reversal "000003" "000000001000" (original "0200" "000001" "0501093000") merchant_a)
        ∷ sent (sale "000001" "000000001000" merchant_a) ∷ approves "A1B2C3" merchant_a 1
        ∷ sent (reversal "000003" "000000001000" (original "0200" "000001" "0501093000") merchant_a)
        ∷ sent (reversal "000004" "000000001000" (original "0200" "000001" "0501093000") merchant_a)
        ∷ [])
        (Reply (Some merchant_a)
        (codes "0430" ++ codes "1222000002C00000" ++ codes "000000001000" ++ codes "0501093100"
        ++ codes "000003" ++ codes "0501" ++ codes "25" ++ terminal ++ merchant_a)
        ∷ asked merchant_a 1 1000
        ∷ replied merchant_a
        (sale_approved "000001" "000000001000" "0501" "000000000001" merchant_a)
        ∷ replied merchant_a (reversal_refused "000003" "000000001000" "0501" "25" merchant_a)
        ∷ replied merchant_a
        (reversal_accepted "000004" "000000001000" "0501" "000000000001" merchant_a) ∷ []) }
    ensures of_another_merchant { Gives 999999 merchant_b
        (sent (sale "000001" "000000001000" merchant_a) ∷ approves "A1B2C3" merchant_a 1
        ∷ sent (reversal "000003" "000000001000" (original "0200" "000001" "0501093000") merchant_b)
        ∷ [])
        (replied merchant_b (reversal_refused "000003" "000000001000" "0501" "25" merchant_b)
        ∷ []) }
    ensures of_another_terminal { Gives 999999 merchant_a
        (AddTerminal merchant_a other_terminal ∷ sent (sale "000001" "000000001000" merchant_a)
        ∷ approves "A1B2C3" merchant_a 1
        ∷ Frame morning
        (codes "0420" ++ codes "9220000000C00000" ++ codes "0000004000000000"
        ++ codes "000000001000" ++ codes "0501093100" ++ codes "000003" ++ other_terminal
        ++ merchant_a ++ original "0200" "000001" "0501093000") ∷ [])
        (Done ∷ asked merchant_a 1 1000
        ∷ replied merchant_a
        (sale_approved "000001" "000000001000" "0501" "000000000001" merchant_a)
        ∷ Reply (Some merchant_a)
        (codes "0430" ++ codes "1222000002C00000" ++ codes "000000001000" ++ codes "0501093100"
        ++ codes "000003" ++ codes "0501" ++ codes "25" ++ other_terminal ++ merchant_a) ∷ []) }
    ensures of_another_kind { Gives 999999 merchant_a
        (sent (sale "000001" "000000001000" merchant_a) ∷ approves "A1B2C3" merchant_a 1
        ∷ sent (reversal "000003" "000000001000" (original "0100" "000001" "0501093000") merchant_a)
        ∷ sent (reversal "000004" "000000001000" (original "0220" "000001" "0501093000") merchant_a)
        ∷ [])
        (asked merchant_a 1 1000
        ∷ replied merchant_a
        (sale_approved "000001" "000000001000" "0501" "000000000001" merchant_a)
        ∷ replied merchant_a (reversal_refused "000003" "000000001000" "0501" "25" merchant_a)
        ∷ replied merchant_a (reversal_refused "000004" "000000001000" "0501" "25" merchant_a)
        ∷ []) }
    ensures of_a_reversal { Gives 999999 merchant_a
        (sent (sale "000001" "000000001000" merchant_a) ∷ approves "A1B2C3" merchant_a 1
        ∷ sent (reversal "000003" "000000001000" (original "0200" "000001" "0501093000") merchant_a)
        ∷ sent (reversal "000004" "000000001000" (original "0420" "000003" "0501093100") merchant_a)
        ∷ [])
        (asked merchant_a 1 1000
        ∷ replied merchant_a
        (sale_approved "000001" "000000001000" "0501" "000000000001" merchant_a)
        ∷ replied merchant_a
        (reversal_accepted "000003" "000000001000" "0501" "000000000001" merchant_a)
        ∷ replied merchant_a (reversal_refused "000004" "000000001000" "0501" "25" merchant_a)
        ∷ []) }
    ensures of_a_reversal_request { Gives 999999 merchant_a
        (sent (sale "000001" "000000001000" merchant_a) ∷ approves "A1B2C3" merchant_a 1
        ∷ sent (reversal_as "0400" "000003" "000000001000"
        (original "0200" "000001" "0501093000") merchant_a)
        ∷ sent (reversal "000004" "000000001000" (original "0400" "000003" "0501093100") merchant_a)
        ∷ [])
        (asked merchant_a 1 1000
        ∷ replied merchant_a
        (sale_approved "000001" "000000001000" "0501" "000000000001" merchant_a)
        ∷ Reply (Some merchant_a)
        (codes "0410" ++ codes "122200000AC00000" ++ codes "000000001000" ++ codes "0501093100"
        ++ codes "000003" ++ codes "0501" ++ codes "000000000001" ++ codes "00" ++ terminal
        ++ merchant_a)
        ∷ replied merchant_a (reversal_refused "000004" "000000001000" "0501" "25" merchant_a)
        ∷ []) }
    ensures of_another_date_and_time { Gives 999999 merchant_a
        (sent (sale "000001" "000000001000" merchant_a) ∷ approves "A1B2C3" merchant_a 1
        ∷ sent (reversal "000003" "000000001000" (original "0200" "000001" "0501093001") merchant_a)
        ∷ sent (reversal "000004" "000000001000" (original "0200" "000001" "0502093000") merchant_a)
        ∷ sent (reversal "000005" "000000001000" (original "0200" "000011" "0501093000") merchant_a)
        ∷ sent (reversal "000006" "000000001000" (original "0200" "000001" "0501093000") merchant_a)
        ∷ [])
        (asked merchant_a 1 1000
        ∷ replied merchant_a
        (sale_approved "000001" "000000001000" "0501" "000000000001" merchant_a)
        ∷ replied merchant_a (reversal_refused "000003" "000000001000" "0501" "25" merchant_a)
        ∷ replied merchant_a (reversal_refused "000004" "000000001000" "0501" "25" merchant_a)
        ∷ replied merchant_a (reversal_refused "000005" "000000001000" "0501" "25" merchant_a)
        ∷ replied merchant_a
        (reversal_accepted "000006" "000000001000" "0501" "000000000001" merchant_a) ∷ []) }
    ensures two_of_one_trace { Gives 999999 merchant_a
        (sent (sale "000001" "000000001000" merchant_a)
        ∷ Frame morning
        (codes "0200" ++ codes "7220000000C08000" ++ codes "16" ++ codes "4111111111111111"
        ++ codes "000000" ++ codes "000000001000" ++ codes "0501093001" ++ codes "000001"
        ++ terminal ++ merchant_a ++ codes "978")
        ∷ approves "A1B2C3" merchant_a 1 ∷ approves "A1B2C3" merchant_a 2
        ∷ sent (reversal "000003" "000000001000" (original "0200" "000001" "0501093001") merchant_a)
        ∷ sent (reversal "000004" "000000001000" (original "0200" "000001" "0501093000") merchant_a)
        ∷ [])
        (asked merchant_a 1 1000 ∷ asked merchant_a 2 1000
        ∷ replied merchant_a
        (sale_approved "000001" "000000001000" "0501" "000000000001" merchant_a)
        ∷ Reply (Some merchant_a)
        (codes "0210" ++ codes "722200000EC08000" ++ codes "16" ++ codes "4111111111111111"
        ++ codes "000000" ++ codes "000000001000" ++ codes "0501093001" ++ codes "000001"
        ++ codes "0501" ++ codes "000000000002" ++ codes "A1B2C3" ++ codes "00" ++ terminal
        ++ merchant_a ++ codes "978")
        ∷ replied merchant_a
        (reversal_accepted "000003" "000000001000" "0501" "000000000002" merchant_a)
        ∷ replied merchant_a
        (reversal_accepted "000004" "000000001000" "0501" "000000000001" merchant_a) ∷ []) }
    ensures never_recorded { Gives 999999 merchant_a
        (Frame morning
        (codes "0200" ++ codes "3220000000C08000" ++ codes "000000" ++ codes "000000001000"
        ++ codes "0501093000" ++ codes "000001" ++ terminal ++ merchant_a ++ codes "978")
        ∷ sent (reversal "000003" "000000001000" (original "0200" "000001" "0501093000") merchant_a)
        ∷ [])
        (Reply (Some merchant_a)
        (codes "0210" ++ codes "3222000002C08000" ++ codes "000000" ++ codes "000000001000"
        ++ codes "0501093000" ++ codes "000001" ++ codes "0501" ++ codes "30" ++ terminal
        ++ merchant_a ++ codes "978")
        ∷ replied merchant_a (reversal_refused "000003" "000000001000" "0501" "25" merchant_a)
        ∷ []) }
{}

/// How an original is named: its type by three digits, its acquirer as zeros or as it was,
/// right-justified, or as anything where it had none; an empty one is there. The forwarder counts
/// never.
#[tactic(auto, unfolding(crate::proofs::Computing::on_literals))]
pub fn originals_named()
    ensures fourth_digit_unused { Gives 999999 merchant_a
        (sent (sale "000001" "000000001000" merchant_a) ∷ approves "A1B2C3" merchant_a 1
        ∷ sent (reversal "000003" "000000001000" (original "0209" "000001" "0501093000") merchant_a)
        ∷ [])
        (asked merchant_a 1 1000
        ∷ replied merchant_a
        (sale_approved "000001" "000000001000" "0501" "000000000001" merchant_a)
        ∷ replied merchant_a
        (reversal_accepted "000003" "000000001000" "0501" "000000000001" merchant_a) ∷ []) }
    ensures had_no_acquirer { Gives 999999 merchant_a
        (sent (sale "000001" "000000001000" merchant_a) ∷ approves "A1B2C3" merchant_a 1
        ∷ sent (reversal "000003" "000000001000"
        (original_through "0200" "000001" "0501093000" "99999999999" "88888888888") merchant_a)
        ∷ [])
        (asked merchant_a 1 1000
        ∷ replied merchant_a
        (sale_approved "000001" "000000001000" "0501" "000000000001" merchant_a)
        ∷ replied merchant_a
        (reversal_accepted "000003" "000000001000" "0501" "000000000001" merchant_a) ∷ []) }
    ensures acquirer_zeros { Gives 999999 merchant_a
        (Frame morning
        (codes "0200" ++ codes "7220000100C08000" ++ codes "16" ++ codes "4111111111111111"
        ++ codes "000000" ++ codes "000000001000" ++ codes "0501093000" ++ codes "000001"
        ++ codes "06" ++ codes "123456" ++ terminal ++ merchant_a ++ codes "978")
        ∷ approves "A1B2C3" merchant_a 1
        ∷ sent (reversal "000003" "000000001000"
        (original_through "0200" "000001" "0501093000" "00000000000" "88888888888") merchant_a)
        ∷ [])
        (asked merchant_a 1 1000
        ∷ replied merchant_a
        (sale_approved "000001" "000000001000" "0501" "000000000001" merchant_a)
        ∷ replied merchant_a
        (reversal_accepted "000003" "000000001000" "0501" "000000000001" merchant_a) ∷ []) }
    ensures acquirer_right_justified { Gives 999999 merchant_a
        (Frame morning
        (codes "0200" ++ codes "7220000100C08000" ++ codes "16" ++ codes "4111111111111111"
        ++ codes "000000" ++ codes "000000001000" ++ codes "0501093000" ++ codes "000001"
        ++ codes "06" ++ codes "123456" ++ terminal ++ merchant_a ++ codes "978")
        ∷ approves "A1B2C3" merchant_a 1
        ∷ sent (reversal "000003" "000000001000"
        (original_through "0200" "000001" "0501093000" "12345600000" "00000000000") merchant_a)
        ∷ sent (reversal "000004" "000000001000"
        (original_through "0200" "000001" "0501093000" "00000123457" "00000000000") merchant_a)
        ∷ sent (reversal "000005" "000000001000"
        (original_through "0200" "000001" "0501093000" "00000123456" "00000000000") merchant_a)
        ∷ [])
        (asked merchant_a 1 1000
        ∷ replied merchant_a
        (sale_approved "000001" "000000001000" "0501" "000000000001" merchant_a)
        ∷ replied merchant_a (reversal_refused "000003" "000000001000" "0501" "25" merchant_a)
        ∷ replied merchant_a (reversal_refused "000004" "000000001000" "0501" "25" merchant_a)
        ∷ replied merchant_a
        (reversal_accepted "000005" "000000001000" "0501" "000000000001" merchant_a) ∷ []) }
    ensures acquirer_empty { Gives 999999 merchant_a
        (Frame morning
        (codes "0200" ++ codes "7220000100C08000" ++ codes "16" ++ codes "4111111111111111"
        ++ codes "000000" ++ codes "000000001000" ++ codes "0501093000" ++ codes "000001"
        ++ codes "00" ++ terminal ++ merchant_a ++ codes "978")
        ∷ approves "A1B2C3" merchant_a 1
        ∷ sent (reversal "000003" "000000001000"
        (original_through "0200" "000001" "0501093000" "00000000001" "00000000000") merchant_a)
        ∷ sent (reversal "000004" "000000001000"
        (original_through "0200" "000001" "0501093000" "00000000000" "00000000000") merchant_a)
        ∷ [])
        (asked merchant_a 1 1000
        ∷ replied merchant_a
        (sale_approved "000001" "000000001000" "0501" "000000000001" merchant_a)
        ∷ replied merchant_a (reversal_refused "000003" "000000001000" "0501" "25" merchant_a)
        ∷ replied merchant_a
        (reversal_accepted "000004" "000000001000" "0501" "000000000001" merchant_a) ∷ []) }
{}

/// A reversal is of the original's amount, and counts against the limit of its own day. The order
/// of its checks is original, what became of it, amount, and the day's limit.
#[tactic(auto, unfolding(crate::proofs::Computing::on_literals))]
pub fn amounts_and_limits()
    ensures other_amount { Gives 999999 merchant_a
        (sent (sale "000001" "000000001000" merchant_a) ∷ approves "A1B2C3" merchant_a 1
        ∷ sent (reversal "000003" "000000000999" (original "0200" "000001" "0501093000") merchant_a)
        ∷ sent (reversal "000004" "000000001000" (original "0200" "000001" "0501093000") merchant_a)
        ∷ [])
        (asked merchant_a 1 1000
        ∷ replied merchant_a
        (sale_approved "000001" "000000001000" "0501" "000000000001" merchant_a)
        ∷ replied merchant_a (reversal_refused "000003" "000000000999" "0501" "13" merchant_a)
        ∷ replied merchant_a
        (reversal_accepted "000004" "000000001000" "0501" "000000000001" merchant_a) ∷ []) }
    ensures other_amount_of_a_declined_sale { Gives 999999 merchant_a
        (sent (sale "000001" "000000001000" merchant_a) ∷ declines "51" merchant_a 1
        ∷ sent (reversal "000003" "000000000999" (original "0200" "000001" "0501093000") merchant_a)
        ∷ [])
        (asked merchant_a 1 1000
        ∷ replied merchant_a
        (sale_declined "000001" "000000001000" "0501" "000000000001" "51" merchant_a)
        ∷ replied merchant_a (reversal_refused "000003" "000000000999" "0501" "21" merchant_a)
        ∷ []) }
    ensures day_full { Gives 1 merchant_a
        (sent (sale "000001" "000000001000" merchant_a) ∷ approves "A1B2C3" merchant_a 1
        ∷ sent (reversal "000003" "000000001000" (original "0200" "000001" "0501093000") merchant_a)
        ∷ cutover
        ∷ sent (reversal "000004" "000000001000" (original "0200" "000001" "0501093000") merchant_a)
        ∷ sent (sale "000002" "000000001000" merchant_a) ∷ [])
        (asked merchant_a 1 1000
        ∷ replied merchant_a
        (sale_approved "000001" "000000001000" "0501" "000000000001" merchant_a)
        ∷ replied merchant_a (reversal_refused "000003" "000000001000" "0501" "65" merchant_a)
        ∷ replied merchant_a
        (reversal_accepted "000004" "000000001000" "0502" "000000000001" merchant_a)
        ∷ replied merchant_a (sale_refused "000002" "000000001000" "0502" "65" merchant_a) ∷ []) }
    ensures order { Gives 1 merchant_a
        (sent (sale "000001" "000000001000" merchant_a) ∷ approves "A1B2C3" merchant_a 1
        ∷ sent (reversal "000011" "000000000999" (original "0200" "000009" "0501093000") merchant_a)
        ∷ sent (reversal "000012" "000000000999" (original "0200" "000001" "0501093000") merchant_a)
        ∷ sent (reversal "000013" "000000001000" (original "0200" "000001" "0501093000") merchant_a)
        ∷ cutover
        ∷ sent (reversal "000014" "000000001000" (original "0200" "000001" "0501093000") merchant_a)
        ∷ sent (reversal "000015" "000000000999" (original "0200" "000001" "0501093000") merchant_a)
        ∷ [])
        (asked merchant_a 1 1000
        ∷ replied merchant_a
        (sale_approved "000001" "000000001000" "0501" "000000000001" merchant_a)
        ∷ replied merchant_a (reversal_refused "000011" "000000000999" "0501" "25" merchant_a)
        ∷ replied merchant_a (reversal_refused "000012" "000000000999" "0501" "13" merchant_a)
        ∷ replied merchant_a (reversal_refused "000013" "000000001000" "0501" "65" merchant_a)
        ∷ replied merchant_a
        (reversal_accepted "000014" "000000001000" "0502" "000000000001" merchant_a)
        ∷ replied merchant_a (reversal_refused "000015" "000000000999" "0502" "21" merchant_a)
        ∷ []) }
{}
