//! Holds and their completions.

ghost use Rattle.std.specs.Prelude.{◌++◌, ◌∷◌, [], codes, Some};
ghost use Rattle.acq_core.specs.declared.event.Event.TheVariants.{Frame, AddRange, DropRange};
ghost use Rattle.acq_core.specs.declared.event.Event.TheVariants.{AddTerminal, Answer};
ghost use Rattle.acq_core.specs.declared.output.Output.TheVariants.{Reply, Ask, Done, Waiting};
ghost use Rattle.acq_core.specs.declared.output.Output.TheVariants.{AlreadyAnswered};
ghost use Rattle.acq_message.specs.declared.service.Service.TheVariants.{Authorization};
ghost use Rattle.day_totals.specs.declared.leg.Leg.TheVariants.{Debit};
ghost use Rattle.acq_message.specs.declared.verdict.Verdict.TheVariants.{Approved};
ghost use Rattle.acq_examples.specs.Messages.{merchant_a, merchant_b, terminal, other_terminal};
ghost use Rattle.acq_examples.specs.Messages.{card_request, card_refused, hold, hold_again};
ghost use Rattle.acq_examples.specs.Messages.{hold_approved, hold_declined, hold_refused, sale};
ghost use Rattle.acq_examples.specs.Messages.{sale_approved, completion, completion_as};
ghost use Rattle.acq_examples.specs.Messages.{completion_reply, card_approved};
ghost use Rattle.acq_examples.specs.Scripts.{Gives, Posts, may_1, may_2, morning, next_morning};
ghost use Rattle.acq_examples.specs.Scripts.{sent, approves, declines, says_nothing, cutover};
ghost use Rattle.acq_examples.specs.Scripts.{asked, asked_to_hold, replied};
ghost use Rattle.acq_examples.specs.Scripts.{hold_posting};

/// An authorization is asked of the issuer. Its approval opens a hold and posts nothing.
#[tactic(auto, unfolding(crate::proofs::Computing::on_literals))]
pub fn authorizations()
    ensures approved { Gives 999999 merchant_a
        (Frame morning
        (codes "0100" ++ codes "7220000000C08000" ++ codes "16" ++ codes "5500005555555559"
        ++ codes "000000" ++ codes "000000005000" ++ codes "0501093000" ++ codes "000020"
        ++ terminal ++ merchant_a ++ codes "978")
        ∷ approves "H00001" merchant_a 1 ∷ [])
        (Ask (record {
          merchant = merchant_a;
          reference = 1;
          service = Authorization;
          leg = Debit;
          card = codes "5500005555555559";
          amount = 5000;
          issuer = codes "67890";
        })
        ∷ Reply (Some merchant_a)
        (codes "0110" ++ codes "722200000EC08000" ++ codes "16" ++ codes "5500005555555559"
        ++ codes "000000" ++ codes "000000005000" ++ codes "0501093000" ++ codes "000020"
        ++ codes "0501" ++ codes "000000000001" ++ codes "H00001" ++ codes "00" ++ terminal
        ++ merchant_a ++ codes "978") ∷ []) }
    ensures posts_nothing { Posts 999999 merchant_a
        (sent (hold "000020" "000000005000" merchant_a) ∷ approves "H00001" merchant_a 1 ∷ []) [] }
    ensures declined { Gives 999999 merchant_a
        (sent (hold "000020" "000000005000" merchant_a) ∷ declines "51" merchant_a 1
        ∷ sent (completion "000021" "000000005000" "000000000001" merchant_a) ∷ [])
        (asked_to_hold merchant_a 1 5000
        ∷ replied merchant_a
        (hold_declined "000020" "000000005000" "0501" "000000000001" "51" merchant_a)
        ∷ replied merchant_a
        (completion_reply "000021" "000000005000" "0501" "000000000001" "25" merchant_a) ∷ []) }
{}

/// A hold is open for its range's days from the approval, to the last second, also at a moment
/// before the approval, and a completion debits its card.
#[tactic(auto, unfolding(crate::proofs::Computing::on_literals))]
pub fn last_seconds()
    ensures last_second_and_one_second_late { Gives 999999 merchant_a
        (sent (hold "000020" "000000005000" merchant_a)
        ∷ sent (hold "000030" "000000005000" merchant_a)
        ∷ approves "H00001" merchant_a 1 ∷ approves "H00001" merchant_a 2
        ∷ Frame 1714642200
        (codes "0220" ++ codes "3220000008C08000" ++ codes "000000" ++ codes "000000005000"
        ++ codes "0502093000" ++ codes "000021" ++ codes "000000000001" ++ terminal ++ merchant_a
        ++ codes "978")
        ∷ Frame 1714642201
        (codes "0220" ++ codes "3220000008C08000" ++ codes "000000" ++ codes "000000005000"
        ++ codes "0502093000" ++ codes "000031" ++ codes "000000000002" ++ terminal ++ merchant_a
        ++ codes "978") ∷ [])
        (asked_to_hold merchant_a 1 5000 ∷ asked_to_hold merchant_a 2 5000
        ∷ replied merchant_a
        (hold_approved "000020" "000000005000" "0501" "000000000001" merchant_a)
        ∷ replied merchant_a
        (hold_approved "000030" "000000005000" "0501" "000000000002" merchant_a)
        ∷ Reply (Some merchant_a)
        (codes "0230" ++ codes "322200000AC08000" ++ codes "000000" ++ codes "000000005000"
        ++ codes "0502093000" ++ codes "000021" ++ codes "0501" ++ codes "000000000001"
        ++ codes "00" ++ terminal ++ merchant_a ++ codes "978")
        ∷ Reply (Some merchant_a)
        (codes "0230" ++ codes "322200000AC08000" ++ codes "000000" ++ codes "000000005000"
        ++ codes "0502093000" ++ codes "000031" ++ codes "0501" ++ codes "000000000002"
        ++ codes "25" ++ terminal ++ merchant_a ++ codes "978") ∷ []) }
    ensures only_the_first_posts { Posts 999999 merchant_a
        (sent (hold "000020" "000000005000" merchant_a)
        ∷ sent (hold "000030" "000000005000" merchant_a)
        ∷ approves "H00001" merchant_a 1 ∷ approves "H00001" merchant_a 2
        ∷ Frame 1714642200 (completion "000021" "000000005000" "000000000001" merchant_a)
        ∷ Frame 1714642201 (completion "000031" "000000005000" "000000000002" merchant_a) ∷ [])
        (hold_posting 1 merchant_a may_1 Debit 5000 1 "000021" ∷ []) }
    ensures before_the_approval { Gives 999999 merchant_a
        (sent (hold "000020" "000000005000" merchant_a) ∷ approves "H00001" merchant_a 1
        ∷ Frame 1714555799 (completion "000021" "000000005000" "000000000001" merchant_a) ∷ [])
        (asked_to_hold merchant_a 1 5000
        ∷ replied merchant_a
        (hold_approved "000020" "000000005000" "0501" "000000000001" merchant_a)
        ∷ replied merchant_a
        (completion_reply "000021" "000000005000" "0501" "000000000001" "00" merchant_a) ∷ []) }
    ensures from_the_approval_on { Gives 999999 merchant_a
        (sent (hold "000020" "000000005000" merchant_a)
        ∷ sent (hold "000030" "000000005000" merchant_a)
        ∷ Answer 1714555900 merchant_a 1 (Approved (codes "H00001"))
        ∷ Answer 1714555900 merchant_a 2 (Approved (codes "H00001"))
        ∷ Frame 1714642300 (completion "000021" "000000005000" "000000000001" merchant_a)
        ∷ Frame 1714642301 (completion "000031" "000000005000" "000000000002" merchant_a)
        ∷ [])
        (asked_to_hold merchant_a 1 5000 ∷ asked_to_hold merchant_a 2 5000
        ∷ replied merchant_a
        (hold_approved "000020" "000000005000" "0501" "000000000001" merchant_a)
        ∷ replied merchant_a
        (hold_approved "000030" "000000005000" "0501" "000000000002" merchant_a)
        ∷ replied merchant_a
        (completion_reply "000021" "000000005000" "0501" "000000000001" "00" merchant_a)
        ∷ replied merchant_a
        (completion_reply "000031" "000000005000" "0501" "000000000002" "25" merchant_a)
        ∷ []) }
    ensures seven_days { Gives 999999 merchant_a
        (sent (card_request "0100" "4111111111111111" "000000" "000000005000" "000020" merchant_a)
        ∷ sent (card_request "0100" "4111111111111111" "000000" "000000005000" "000030" merchant_a)
        ∷ approves "H00001" merchant_a 1 ∷ approves "H00001" merchant_a 2
        ∷ Frame 1715160600 (completion "000021" "000000005000" "000000000001" merchant_a)
        ∷ Frame 1715160601 (completion "000031" "000000005000" "000000000002" merchant_a)
        ∷ [])
        (Ask (record {
          merchant = merchant_a;
          reference = 1;
          service = Authorization;
          leg = Debit;
          card = codes "4111111111111111";
          amount = 5000;
          issuer = codes "12345";
        })
        ∷ Ask (record {
          merchant = merchant_a;
          reference = 2;
          service = Authorization;
          leg = Debit;
          card = codes "4111111111111111";
          amount = 5000;
          issuer = codes "12345";
        })
        ∷ replied merchant_a
        (card_approved "0110" "4111111111111111" "000000" "000000005000" "000020" "0501"
        "000000000001" "H00001" merchant_a)
        ∷ replied merchant_a
        (card_approved "0110" "4111111111111111" "000000" "000000005000" "000030" "0501"
        "000000000002" "H00001" merchant_a)
        ∷ replied merchant_a
        (completion_reply "000021" "000000005000" "0501" "000000000001" "00" merchant_a)
        ∷ replied merchant_a
        (completion_reply "000031" "000000005000" "0501" "000000000002" "25" merchant_a)
        ∷ []) }
    ensures days_of_the_request { Gives 999999 merchant_a
        (sent (hold "000020" "000000005000" merchant_a)
        ∷ DropRange 50000000 59999999
        ∷ AddRange
        (record { low = 50000000; high = 59999999; issuer = codes "67890"; hold_days = 31 })
        ∷ approves "H00001" merchant_a 1
        ∷ Frame 1714642201 (completion "000021" "000000005000" "000000000001" merchant_a) ∷ [])
        (asked_to_hold merchant_a 1 5000
        ∷ replied merchant_a
        (hold_approved "000020" "000000005000" "0501" "000000000001" merchant_a)
        ∷ replied merchant_a
        (completion_reply "000021" "000000005000" "0501" "000000000001" "25" merchant_a) ∷ []) }
    ensures pending { Gives 999999 merchant_a
        (sent (hold "000020" "000000005000" merchant_a)
        ∷ sent (completion "000021" "000000005000" "000000000001" merchant_a) ∷ [])
        (asked_to_hold merchant_a 1 5000
        ∷ replied merchant_a
        (completion_reply "000021" "000000005000" "0501" "000000000001" "25" merchant_a) ∷ []) }
{}

/// A completion is of no more than the hold, and of less it debits its own amount. A hold is
/// completed once. A refusal leaves it open.
#[tactic(auto, unfolding(crate::proofs::Computing::on_literals))]
pub fn amounts()
    ensures one_too_much { Gives 999999 merchant_a
        (sent (hold "000020" "000000005000" merchant_a) ∷ approves "H00001" merchant_a 1
        ∷ Frame next_morning (completion "000021" "000000005001" "000000000001" merchant_a)
        ∷ Frame next_morning (completion "000022" "000000005000" "000000000001" merchant_a)
        ∷ Frame next_morning (completion "000023" "000000005000" "000000000001" merchant_a) ∷ [])
        (asked_to_hold merchant_a 1 5000
        ∷ replied merchant_a
        (hold_approved "000020" "000000005000" "0501" "000000000001" merchant_a)
        ∷ replied merchant_a
        (completion_reply "000021" "000000005001" "0501" "000000000001" "13" merchant_a)
        ∷ replied merchant_a
        (completion_reply "000022" "000000005000" "0501" "000000000001" "00" merchant_a)
        ∷ replied merchant_a
        (completion_reply "000023" "000000005000" "0501" "000000000001" "25" merchant_a) ∷ []) }
    ensures less { Posts 999999 merchant_a
        (sent (hold "000020" "000000005000" merchant_a) ∷ approves "H00001" merchant_a 1 ∷ cutover
        ∷ Frame next_morning (completion "000021" "000000004200" "000000000001" merchant_a) ∷ [])
        (hold_posting 1 merchant_a may_2 Debit 4200 1 "000021" ∷ []) }
    ensures day_full { Gives 1 merchant_a
        (sent (hold "000020" "000000005000" merchant_a) ∷ approves "H00001" merchant_a 1
        ∷ sent (completion "000021" "000000005000" "000000000001" merchant_a) ∷ cutover
        ∷ Frame next_morning (completion "000022" "000000005000" "000000000001" merchant_a) ∷ [])
        (asked_to_hold merchant_a 1 5000
        ∷ replied merchant_a
        (hold_approved "000020" "000000005000" "0501" "000000000001" merchant_a)
        ∷ replied merchant_a
        (completion_reply "000021" "000000005000" "0501" "000000000001" "65" merchant_a)
        ∷ replied merchant_a
        (completion_reply "000022" "000000005000" "0502" "000000000001" "00" merchant_a) ∷ []) }
{}

/// A completion names the hold by its reference, in twelve digits, among its own merchant's. Its
/// terminal and its card need not be the hold's, and a sale is no hold.
#[tactic(auto, unfolding(crate::proofs::Computing::on_literals))]
pub fn holds_named()
    ensures not_digits { Gives 999999 merchant_a
        (sent (hold "000020" "000000005000" merchant_a) ∷ approves "H00001" merchant_a 1
        ∷ sent (completion "000021" "000000005000" "00000000001A" merchant_a) ∷ [])
        (asked_to_hold merchant_a 1 5000
        ∷ replied merchant_a
        (hold_approved "000020" "000000005000" "0501" "000000000001" merchant_a)
        ∷ Reply (Some merchant_a)
        (codes "0230" ++ codes "322200000AC08000" ++ codes "000000" ++ codes "000000005000"
        ++ codes "0502093000" ++ codes "000021" ++ codes "0501" ++ codes "00000000001A"
        ++ codes "25" ++ terminal ++ merchant_a ++ codes "978") ∷ []) }
    ensures other_terminal_of_the_merchant { Gives 999999 merchant_a
        (AddTerminal merchant_a other_terminal ∷ sent (hold "000020" "000000005000" merchant_a)
        ∷ approves "H00001" merchant_a 1
        ∷ sent (completion_as "0220" "000021" "000000005000" "000000000001" other_terminal
        merchant_a) ∷ [])
        (Done ∷ asked_to_hold merchant_a 1 5000
        ∷ replied merchant_a
        (hold_approved "000020" "000000005000" "0501" "000000000001" merchant_a)
        ∷ Reply (Some merchant_a)
        (codes "0230" ++ codes "322200000AC08000" ++ codes "000000" ++ codes "000000005000"
        ++ codes "0502093000" ++ codes "000021" ++ codes "0501" ++ codes "000000000001"
        ++ codes "00" ++ codes "TERM0009" ++ merchant_a ++ codes "978") ∷ []) }
    ensures other_terminal_posts { Posts 999999 merchant_a
        (AddTerminal merchant_a other_terminal ∷ sent (hold "000020" "000000005000" merchant_a)
        ∷ approves "H00001" merchant_a 1
        ∷ sent (completion_as "0220" "000021" "000000005000" "000000000001" other_terminal
        merchant_a) ∷ [])
        ((
          1,
          record {
            merchant = merchant_a;
            day = may_1;
            leg = Debit;
            amount = 5000;
            reference = 1;
            card = codes "5500005555555559";
            terminal = other_terminal;
            trace = codes "000021";
          },
        ) ∷ []) }
    ensures other_card { Gives 999999 merchant_a
        (sent (hold "000020" "000000005000" merchant_a)
        ∷ approves "H00001" merchant_a 1
        ∷ Frame morning
        (codes "0220" ++ codes "7224000008C08000" ++ codes "16" ++ codes "4111111111111111"
        ++ codes "000000" ++ codes "000000005000" ++ codes "0502093000" ++ codes "000021"
        ++ codes "2404" ++ codes "000000000001" ++ terminal ++ merchant_a ++ codes "978")
        ∷ [])
        (asked_to_hold merchant_a 1 5000
        ∷ replied merchant_a
        (hold_approved "000020" "000000005000" "0501" "000000000001" merchant_a)
        ∷ Reply (Some merchant_a)
        (codes "0230" ++ codes "722200000AC08000" ++ codes "16" ++ codes "4111111111111111"
        ++ codes "000000" ++ codes "000000005000" ++ codes "0502093000" ++ codes "000021"
        ++ codes "0501" ++ codes "000000000001" ++ codes "00" ++ terminal ++ merchant_a
        ++ codes "978")
        ∷ []) }
    ensures posts_to_the_card_of_the_hold { Posts 999999 merchant_a
        (sent (hold "000020" "000000005000" merchant_a)
        ∷ approves "H00001" merchant_a 1
        ∷ Frame morning
        (codes "0220" ++ codes "7224000008C08000" ++ codes "16" ++ codes "4111111111111111"
        ++ codes "000000" ++ codes "000000005000" ++ codes "0502093000" ++ codes "000021"
        ++ codes "2404" ++ codes "000000000001" ++ terminal ++ merchant_a ++ codes "978")
        ∷ [])
        (hold_posting 1 merchant_a may_1 Debit 5000 1 "000021" ∷ []) }
    ensures other_merchant { Gives 999999 merchant_b
        (sent (hold "000020" "000000005000" merchant_a) ∷ approves "H00001" merchant_a 1
        ∷ sent (completion "000021" "000000005000" "000000000001" merchant_b) ∷ [])
        (replied merchant_b
        (completion_reply "000021" "000000005000" "0501" "000000000001" "25" merchant_b) ∷ []) }
    ensures a_sale { Gives 999999 merchant_a
        (sent (sale "000001" "000000005000" merchant_a) ∷ approves "A1B2C3" merchant_a 1
        ∷ sent (completion "000021" "000000005000" "000000000001" merchant_a) ∷ [])
        (asked merchant_a 1 5000
        ∷ replied merchant_a
        (sale_approved "000001" "000000005000" "0501" "000000000001" merchant_a)
        ∷ replied merchant_a
        (completion_reply "000021" "000000005000" "0501" "000000000001" "25" merchant_a) ∷ []) }
    ensures no_return { Gives 999999 merchant_a
        (sent (hold "000020" "000000005000" merchant_a) ∷ approves "H00001" merchant_a 1
        ∷ Frame morning
        (codes "0220" ++ codes "3220000008C08000" ++ codes "200000" ++ codes "000000005000"
        ++ codes "0502093000" ++ codes "000021" ++ codes "000000000001" ++ terminal ++ merchant_a
        ++ codes "978") ∷ [])
        (asked_to_hold merchant_a 1 5000
        ∷ replied merchant_a
        (hold_approved "000020" "000000005000" "0501" "000000000001" merchant_a)
        ∷ Reply (Some merchant_a)
        (codes "0230" ++ codes "322200000AC08000" ++ codes "200000" ++ codes "000000005000"
        ++ codes "0502093000" ++ codes "000021" ++ codes "0501" ++ codes "000000000001"
        ++ codes "12" ++ terminal ++ merchant_a ++ codes "978") ∷ []) }
{}

/// An authorization gets the same codes as a sale. A refusal is kept, the pending request waits,
/// and its answer is kept.
#[tactic(auto, unfolding(crate::proofs::Computing::on_literals))]
pub fn authorizations_refused()
    ensures codes_and_repeats { Gives 1 merchant_a
        (Frame morning
        (codes "0100" ++ codes "7220000000C08000" ++ codes "16" ++ codes "5500005555555559"
        ++ codes "000000" ++ codes "000000005000" ++ codes "0501093000" ++ codes "000020"
        ++ other_terminal ++ merchant_a ++ codes "978")
        ∷ sent (hold "000021" "000000000000" merchant_a)
        ∷ sent (card_request "0100" "5500005555555558" "000000" "000000005000" "000022" merchant_a)
        ∷ Frame morning
        (codes "0100" ++ codes "7224000000C08000" ++ codes "16" ++ codes "5500005555555559"
        ++ codes "000000" ++ codes "000000005000" ++ codes "0501093000" ++ codes "000023"
        ++ codes "2404" ++ terminal ++ merchant_a ++ codes "978")
        ∷ sent (card_request "0100" "6011000990139424" "000000" "000000005000" "000024" merchant_a)
        ∷ sent (hold "000020" "000000005000" merchant_a)
        ∷ sent (hold "000020" "000000004999" merchant_a)
        ∷ sent (hold_again "000020" "000000005000" merchant_a)
        ∷ sent (hold "000025" "000000005000" merchant_a)
        ∷ approves "H00001" merchant_a 1 ∷ cutover
        ∷ sent (hold_again "000020" "000000005000" merchant_a)
        ∷ sent (hold_again "000021" "000000000000" merchant_a)
        ∷ sent (card_request "0101" "5500005555555558" "000000" "000000005000" "000022" merchant_a)
        ∷ sent (hold "000023" "000000005000" merchant_a)
        ∷ sent (card_request "0100" "6011000990139424" "000000" "000000005000" "000024" merchant_a)
        ∷ sent (hold "000025" "000000005000" merchant_a)
        ∷ sent (hold "000020" "000000005001" merchant_a)
        ∷ sent (hold "000026" "000000005000" merchant_a) ∷ [])
        (Reply (Some merchant_a)
        (codes "0110" ++ codes "7222000002C08000" ++ codes "16" ++ codes "5500005555555559"
        ++ codes "000000" ++ codes "000000005000" ++ codes "0501093000" ++ codes "000020"
        ++ codes "0501" ++ codes "03" ++ other_terminal ++ merchant_a ++ codes "978")
        ∷ replied merchant_a (hold_refused "000021" "000000000000" "0501" "13" merchant_a)
        ∷ replied merchant_a
        (card_refused "0110" "5500005555555558" "000000" "000000005000" "000022" "0501" "14"
        merchant_a)
        ∷ replied merchant_a (hold_refused "000023" "000000005000" "0501" "54" merchant_a)
        ∷ replied merchant_a
        (card_refused "0110" "6011000990139424" "000000" "000000005000" "000024" "0501" "15"
        merchant_a)
        ∷ asked_to_hold merchant_a 1 5000
        ∷ replied merchant_a (hold_refused "000020" "000000004999" "0501" "94" merchant_a)
        ∷ Waiting
        ∷ replied merchant_a (hold_refused "000025" "000000005000" "0501" "65" merchant_a)
        ∷ replied merchant_a
        (hold_approved "000020" "000000005000" "0501" "000000000001" merchant_a)
        ∷ replied merchant_a
        (hold_approved "000020" "000000005000" "0501" "000000000001" merchant_a)
        ∷ replied merchant_a (hold_refused "000021" "000000000000" "0501" "13" merchant_a)
        ∷ replied merchant_a
        (card_refused "0110" "5500005555555558" "000000" "000000005000" "000022" "0501" "14"
        merchant_a)
        ∷ replied merchant_a (hold_refused "000023" "000000005000" "0501" "54" merchant_a)
        ∷ replied merchant_a
        (card_refused "0110" "6011000990139424" "000000" "000000005000" "000024" "0501" "15"
        merchant_a)
        ∷ replied merchant_a (hold_refused "000025" "000000005000" "0501" "65" merchant_a)
        ∷ replied merchant_a (hold_refused "000020" "000000005001" "0502" "94" merchant_a)
        ∷ asked_to_hold merchant_a 2 5000 ∷ []) }
    ensures no_answer { Gives 999999 merchant_a
        (sent (hold "000020" "000000005000" merchant_a) ∷ says_nothing merchant_a 1
        ∷ sent (completion "000021" "000000005000" "000000000001" merchant_a)
        ∷ sent (hold_again "000020" "000000005000" merchant_a)
        ∷ approves "H00001" merchant_a 1
        ∷ sent (completion "000022" "000000005000" "000000000001" merchant_a) ∷ [])
        (asked_to_hold merchant_a 1 5000
        ∷ replied merchant_a
        (hold_declined "000020" "000000005000" "0501" "000000000001" "91" merchant_a)
        ∷ replied merchant_a
        (completion_reply "000021" "000000005000" "0501" "000000000001" "25" merchant_a)
        ∷ replied merchant_a
        (hold_declined "000020" "000000005000" "0501" "000000000001" "91" merchant_a)
        ∷ AlreadyAnswered
        ∷ replied merchant_a
        (completion_reply "000022" "000000005000" "0501" "000000000001" "25" merchant_a) ∷ []) }
{}

/// Which code a completion gets that several checks refuse: the order is transaction or currency,
/// amount, hold, the hold's amount, and the day's limit.
#[tactic(auto, unfolding(crate::proofs::Computing::on_literals))]
pub fn order()
    ensures of_a_full_day { Gives 1 merchant_a
        (sent (hold "000020" "000000005000" merchant_a) ∷ approves "H00001" merchant_a 1
        ∷ Frame morning
        (codes "0220" ++ codes "3220000008C08000" ++ codes "200000" ++ codes "000000000000"
        ++ codes "0502093000" ++ codes "000031" ++ codes "000000000009" ++ terminal ++ merchant_a
        ++ codes "978")
        ∷ Frame morning
        (codes "0220" ++ codes "3220000008C08000" ++ codes "000000" ++ codes "000000000000"
        ++ codes "0502093000" ++ codes "000032" ++ codes "000000000009" ++ terminal ++ merchant_a
        ++ codes "840")
        ∷ sent (completion "000033" "000000000000" "000000000009" merchant_a)
        ∷ sent (completion "000034" "010000000000" "000000000009" merchant_a)
        ∷ sent (completion "000035" "000000005001" "000000000009" merchant_a)
        ∷ sent (completion "000036" "000000005001" "000000000001" merchant_a)
        ∷ sent (completion "000037" "000000005000" "000000000001" merchant_a) ∷ cutover
        ∷ sent (completion "000037" "000000005000" "000000000001" merchant_a)
        ∷ sent (completion "000038" "000000005000" "000000000001" merchant_a)
        ∷ approves "H00001" merchant_a 1 ∷ declines "51" merchant_a 1 ∷ says_nothing merchant_a 1
        ∷ sent (hold "000020" "000000005000" merchant_a)
        ∷ sent (hold "000040" "000000005000" merchant_a) ∷ [])
        (asked_to_hold merchant_a 1 5000
        ∷ replied merchant_a
        (hold_approved "000020" "000000005000" "0501" "000000000001" merchant_a)
        ∷ Reply (Some merchant_a)
        (codes "0230" ++ codes "322200000AC08000" ++ codes "200000" ++ codes "000000000000"
        ++ codes "0502093000" ++ codes "000031" ++ codes "0501" ++ codes "000000000009"
        ++ codes "12" ++ terminal ++ merchant_a ++ codes "978")
        ∷ Reply (Some merchant_a)
        (codes "0230" ++ codes "322200000AC08000" ++ codes "000000" ++ codes "000000000000"
        ++ codes "0502093000" ++ codes "000032" ++ codes "0501" ++ codes "000000000009"
        ++ codes "12" ++ terminal ++ merchant_a ++ codes "840")
        ∷ replied merchant_a
        (completion_reply "000033" "000000000000" "0501" "000000000009" "13" merchant_a)
        ∷ replied merchant_a
        (completion_reply "000034" "010000000000" "0501" "000000000009" "13" merchant_a)
        ∷ replied merchant_a
        (completion_reply "000035" "000000005001" "0501" "000000000009" "25" merchant_a)
        ∷ replied merchant_a
        (completion_reply "000036" "000000005001" "0501" "000000000001" "13" merchant_a)
        ∷ replied merchant_a
        (completion_reply "000037" "000000005000" "0501" "000000000001" "65" merchant_a)
        ∷ replied merchant_a
        (completion_reply "000037" "000000005000" "0501" "000000000001" "65" merchant_a)
        ∷ replied merchant_a
        (completion_reply "000038" "000000005000" "0502" "000000000001" "00" merchant_a)
        ∷ AlreadyAnswered ∷ AlreadyAnswered ∷ AlreadyAnswered
        ∷ replied merchant_a
        (hold_approved "000020" "000000005000" "0501" "000000000001" merchant_a)
        ∷ replied merchant_a (hold_refused "000040" "000000005000" "0502" "65" merchant_a) ∷ []) }
    ensures other_currency { Gives 999999 merchant_a
        (sent (hold "000020" "000000005000" merchant_a) ∷ approves "H00001" merchant_a 1
        ∷ Frame morning
        (codes "0220" ++ codes "3220000008C08000" ++ codes "000000" ++ codes "000000005000"
        ++ codes "0502093000" ++ codes "000031" ++ codes "000000000001" ++ terminal ++ merchant_a
        ++ codes "840")
        ∷ sent (completion "000032" "000000000000" "000000000001" merchant_a)
        ∷ Frame morning
        (codes "0220" ++ codes "3220000008C08000" ++ codes "001000" ++ codes "000000000001"
        ++ codes "0502093000" ++ codes "000033" ++ codes "000000000001" ++ terminal ++ merchant_a
        ++ codes "978") ∷ [])
        (asked_to_hold merchant_a 1 5000
        ∷ replied merchant_a
        (hold_approved "000020" "000000005000" "0501" "000000000001" merchant_a)
        ∷ Reply (Some merchant_a)
        (codes "0230" ++ codes "322200000AC08000" ++ codes "000000" ++ codes "000000005000"
        ++ codes "0502093000" ++ codes "000031" ++ codes "0501" ++ codes "000000000001"
        ++ codes "12" ++ terminal ++ merchant_a ++ codes "840")
        ∷ replied merchant_a
        (completion_reply "000032" "000000000000" "0501" "000000000001" "13" merchant_a)
        ∷ Reply (Some merchant_a)
        (codes "0230" ++ codes "322200000AC08000" ++ codes "001000" ++ codes "000000000001"
        ++ codes "0502093000" ++ codes "000033" ++ codes "0501" ++ codes "000000000001"
        ++ codes "00" ++ terminal ++ merchant_a ++ codes "978") ∷ []) }
{}
