//! Sales and returns.

ghost use Rattle.std.specs.Prelude.{◌++◌, ◌∷◌, [], codes, Some};
ghost use Rattle.acq_core.specs.declared.event.Event.TheVariants.{Frame, Answer};
ghost use Rattle.acq_core.specs.declared.output.Output.TheVariants.{Reply, Ask, AlreadyAnswered};
ghost use Rattle.acq_core.specs.declared.output.Output.TheVariants.{Late, UnknownReference};
ghost use Rattle.acq_core.specs.declared.output.Output.TheVariants.{NoSuchMerchant};
ghost use Rattle.acq_message.specs.declared.verdict.Verdict.TheVariants.{Approved, NoAnswer};
ghost use Rattle.acq_message.specs.declared.service.Service.TheVariants.{Financial};
ghost use Rattle.day_totals.specs.declared.leg.Leg.TheVariants.{Credit, Debit};
ghost use Rattle.acq_examples.specs.Messages.{merchant_a, merchant_b, merchant_c, terminal, sale};
ghost use Rattle.acq_examples.specs.Messages.{card_return, card_approved, sale_approved};
ghost use Rattle.acq_examples.specs.Messages.{sale_declined, sale_refused, original, reversal};
ghost use Rattle.acq_examples.specs.Messages.{reversal_accepted, completion, completion_reply};
ghost use Rattle.acq_examples.specs.Messages.{reversal_refused, no_totals, reconciliation};
ghost use Rattle.acq_examples.specs.Messages.{reconciliation_reply};
ghost use Rattle.acq_examples.specs.Scripts.{book_opening, GivesParty, Gives, Posts, may_1};
ghost use Rattle.acq_examples.specs.Scripts.{morning, setup, sent, approves, declines};
ghost use Rattle.acq_examples.specs.Scripts.{says_nothing, cutover, asked, replied};
ghost use Rattle.acq_examples.specs.Scripts.{sale_posting};

/// A sale is asked of the issuer, and its answer decides the reply: approved, declined, or no
/// answer. Only an approval posts. The bitmap may be in lower case.
#[tactic(auto, unfolding(crate::proofs::Computing::on_literals))]
pub fn answered()
    ensures approved { Gives 999999 merchant_a
        (Frame morning
        (codes "0200" ++ codes "7220000000C08000" ++ codes "16" ++ codes "4111111111111111"
        ++ codes "000000" ++ codes "000000001000" ++ codes "0501093000" ++ codes "000001"
        ++ terminal ++ merchant_a ++ codes "978")
        ∷ Answer morning merchant_a 1 (Approved (codes "A1B2C3")) ∷ [])
        (Ask (record {
          merchant = merchant_a;
          reference = 1;
          service = Financial;
          leg = Debit;
          card = codes "4111111111111111";
          amount = 1000;
          issuer = codes "12345";
        })
        ∷ Reply (Some merchant_a)
        (codes "0210" ++ codes "722200000EC08000" ++ codes "16" ++ codes "4111111111111111"
        ++ codes "000000" ++ codes "000000001000" ++ codes "0501093000" ++ codes "000001"
        ++ codes "0501" ++ codes "000000000001" ++ codes "A1B2C3" ++ codes "00" ++ terminal
        ++ merchant_a ++ codes "978") ∷ []) }
    ensures lower_case { Gives 999999 merchant_a
        (Frame morning
        (codes "0200" ++ codes "7220000000c08000" ++ codes "16" ++ codes "4111111111111111"
        ++ codes "000000" ++ codes "000000001000" ++ codes "0501093000" ++ codes "000001"
        ++ terminal ++ merchant_a ++ codes "978")
        ∷ approves "A1B2C3" merchant_a 1 ∷ [])
        (asked merchant_a 1 1000
        ∷ replied merchant_a
        (sale_approved "000001" "000000001000" "0501" "000000000001" merchant_a) ∷ []) }
    ensures approval_posts { Posts 999999 merchant_a
        (sent (sale "000001" "000000001000" merchant_a) ∷ approves "A1B2C3" merchant_a 1 ∷ [])
        (sale_posting 1 merchant_a may_1 Debit 1000 1 "000001" ∷ []) }
    ensures declined { Gives 999999 merchant_a
        (sent (sale "000001" "000000001000" merchant_a) ∷ declines "51" merchant_a 1 ∷ [])
        (asked merchant_a 1 1000
        ∷ Reply (Some merchant_a)
        (codes "0210" ++ codes "722200000AC08000" ++ codes "16" ++ codes "4111111111111111"
        ++ codes "000000" ++ codes "000000001000" ++ codes "0501093000" ++ codes "000001"
        ++ codes "0501" ++ codes "000000000001" ++ codes "51" ++ terminal ++ merchant_a
        ++ codes "978") ∷ []) }
    ensures decline_posts_nothing { Posts 999999 merchant_a
        (sent (sale "000001" "000000001000" merchant_a) ∷ declines "51" merchant_a 1 ∷ []) [] }
    ensures no_answer { Gives 999999 merchant_a
        (sent (sale "000001" "000000001000" merchant_a) ∷ Answer morning merchant_a 1 NoAnswer ∷ [])
        (asked merchant_a 1 1000
        ∷ replied merchant_a
        (sale_declined "000001" "000000001000" "0501" "000000000001" "91" merchant_a) ∷ []) }
{}

/// Answers that change nothing, whatever they say: to a request that was answered, also where it
/// was reversed after that, or that was reversed while it was pending, to references that were
/// never given, and to a merchant that isn't enrolled.
#[tactic(auto, unfolding(crate::proofs::Computing::on_literals))]
pub fn answers_not_taken()
    ensures second_answer { Gives 999999 merchant_a
        (sent (sale "000001" "000000001000" merchant_a) ∷ declines "51" merchant_a 1
        ∷ approves "A1B2C3" merchant_a 1 ∷ says_nothing merchant_a 1 ∷ [])
        (asked merchant_a 1 1000
        ∷ replied merchant_a
        (sale_declined "000001" "000000001000" "0501" "000000000001" "51" merchant_a)
        ∷ AlreadyAnswered ∷ AlreadyAnswered ∷ []) }
    ensures approved_before { Gives 999999 merchant_a
        (sent (sale "000001" "000000001000" merchant_a) ∷ approves "A1B2C3" merchant_a 1
        ∷ approves "D4E5F6" merchant_a 1 ∷ declines "51" merchant_a 1 ∷ says_nothing merchant_a 1
        ∷ sent (sale "000001" "000000001000" merchant_a) ∷ [])
        (asked merchant_a 1 1000
        ∷ replied merchant_a
        (sale_approved "000001" "000000001000" "0501" "000000000001" merchant_a)
        ∷ AlreadyAnswered ∷ AlreadyAnswered ∷ AlreadyAnswered
        ∷ replied merchant_a
        (sale_approved "000001" "000000001000" "0501" "000000000001" merchant_a) ∷ []) }
    ensures not_answered_before { Gives 999999 merchant_a
        (sent (sale "000001" "000000001000" merchant_a) ∷ says_nothing merchant_a 1
        ∷ approves "A1B2C3" merchant_a 1 ∷ declines "51" merchant_a 1 ∷ says_nothing merchant_a 1
        ∷ sent (sale "000001" "000000001000" merchant_a) ∷ [])
        (asked merchant_a 1 1000
        ∷ replied merchant_a
        (sale_declined "000001" "000000001000" "0501" "000000000001" "91" merchant_a)
        ∷ AlreadyAnswered ∷ AlreadyAnswered ∷ AlreadyAnswered
        ∷ replied merchant_a
        (sale_declined "000001" "000000001000" "0501" "000000000001" "91" merchant_a) ∷ []) }
    ensures approved_and_reversed { Gives 999999 merchant_a
        (sent (sale "000001" "000000001000" merchant_a) ∷ approves "A1B2C3" merchant_a 1
        ∷ sent (reversal "000003" "000000001000" (original "0200" "000001" "0501093000") merchant_a)
        ∷ approves "D4E5F6" merchant_a 1 ∷ declines "51" merchant_a 1 ∷ says_nothing merchant_a 1
        ∷ [])
        (asked merchant_a 1 1000
        ∷ replied merchant_a
        (sale_approved "000001" "000000001000" "0501" "000000000001" merchant_a)
        ∷ replied merchant_a
        (reversal_accepted "000003" "000000001000" "0501" "000000000001" merchant_a)
        ∷ AlreadyAnswered ∷ AlreadyAnswered ∷ AlreadyAnswered ∷ []) }
    ensures late_answers_post_nothing { Posts 999999 merchant_a
        (sent (sale "000001" "000000001000" merchant_a) ∷ says_nothing merchant_a 1
        ∷ approves "A1B2C3" merchant_a 1
        ∷ sent (sale "000002" "000000002000" merchant_a)
        ∷ sent (reversal "000003" "000000002000" (original "0200" "000002" "0501093000") merchant_a)
        ∷ approves "A1B2C3" merchant_a 2 ∷ [])
        [] }
    ensures reversed_while_pending { Gives 999999 merchant_a
        (sent (sale "000001" "000000001000" merchant_a)
        ∷ sent (reversal "000003" "000000001000" (original "0200" "000001" "0501093000") merchant_a)
        ∷ declines "51" merchant_a 1 ∷ says_nothing merchant_a 1 ∷ approves "A1B2C3" merchant_a 1
        ∷ [])
        (asked merchant_a 1 1000
        ∷ replied merchant_a
        (reversal_accepted "000003" "000000001000" "0501" "000000000001" merchant_a)
        ∷ Late ∷ Late ∷ Late ∷ []) }
    ensures unknown_reference { Gives 999999 merchant_a
        (sent (sale "000001" "000000001000" merchant_a) ∷ approves "A1B2C3" merchant_a 2
        ∷ declines "51" merchant_a 2 ∷ says_nothing merchant_a 2 ∷ approves "A1B2C3" merchant_a 0
        ∷ declines "51" merchant_a 0 ∷ says_nothing merchant_a 0 ∷ [])
        (asked merchant_a 1 1000 ∷ UnknownReference ∷ UnknownReference ∷ UnknownReference
        ∷ UnknownReference ∷ UnknownReference ∷ UnknownReference ∷ []) }
    ensures reference_of_another { Gives 999999 merchant_b
        (sent (sale "000001" "000000001000" merchant_a) ∷ approves "A1B2C3" merchant_b 1 ∷ [])
        (UnknownReference ∷ []) }
    ensures merchant_not_enrolled { GivesParty (book_opening 999999 may_1) (Some merchant_c)
        (setup ++ sent (sale "000001" "000000001000" merchant_a) ∷ approves "A1B2C3" merchant_c 1
        ∷ declines "51" merchant_c 1 ∷ says_nothing merchant_c 1 ∷ [])
        (NoSuchMerchant ∷ NoSuchMerchant ∷ NoSuchMerchant ∷ []) }
{}

/// A return credits the card. It has the next reference of its merchant.
#[tactic(auto, unfolding(crate::proofs::Computing::on_literals))]
pub fn returns()
    ensures approved { Gives 999999 merchant_a
        (sent (sale "000001" "000000001000" merchant_a)
        ∷ Frame morning
        (codes "0200" ++ codes "7220000000C08000" ++ codes "16" ++ codes "4111111111111111"
        ++ codes "200000" ++ codes "000000000700" ++ codes "0501093000" ++ codes "000002"
        ++ terminal ++ merchant_a ++ codes "978")
        ∷ approves "D4E5F6" merchant_a 2 ∷ [])
        (asked merchant_a 1 1000
        ∷ Ask (record {
          merchant = merchant_a;
          reference = 2;
          service = Financial;
          leg = Credit;
          card = codes "4111111111111111";
          amount = 700;
          issuer = codes "12345";
        })
        ∷ replied merchant_a
        (card_approved "0210" "4111111111111111" "200000" "000000000700" "000002" "0501"
        "000000000002" "D4E5F6" merchant_a) ∷ []) }
    ensures posting { Posts 999999 merchant_a
        (sent (sale "000001" "000000001000" merchant_a)
        ∷ sent (card_return "000002" "000000000700" merchant_a) ∷ approves "D4E5F6" merchant_a 2
        ∷ [])
        (sale_posting 1 merchant_a may_1 Credit 700 2 "000002" ∷ []) }
{}

/// A business day admits no more messages of a merchant than the limit, whatever becomes of them.
/// What is refused doesn't count, nor does a reconciliation, nor an answer to an earlier day.
/// Another merchant's day and the next day have room of their own.
#[tactic(auto, unfolding(crate::proofs::Computing::on_literals))]
pub fn limits()
    ensures fourth_of_three { Gives 3 merchant_a
        (sent (sale "000001" "000000001000" merchant_a)
        ∷ sent (sale "000002" "000000001000" merchant_a)
        ∷ sent (sale "000003" "000000001000" merchant_a)
        ∷ sent (sale "000004" "000000001000" merchant_a)
        ∷ sent (sale "000001" "000000001000" merchant_b) ∷ cutover
        ∷ sent (sale "000005" "000000001000" merchant_a) ∷ [])
        (asked merchant_a 1 1000 ∷ asked merchant_a 2 1000 ∷ asked merchant_a 3 1000
        ∷ replied merchant_a (sale_refused "000004" "000000001000" "0501" "65" merchant_a)
        ∷ asked merchant_a 4 1000 ∷ []) }
    ensures first_of_another { Gives 3 merchant_b
        (sent (sale "000001" "000000001000" merchant_a)
        ∷ sent (sale "000002" "000000001000" merchant_a)
        ∷ sent (sale "000003" "000000001000" merchant_a)
        ∷ sent (sale "000004" "000000001000" merchant_a)
        ∷ sent (sale "000001" "000000001000" merchant_b) ∷ cutover
        ∷ sent (sale "000002" "009999999999" merchant_b)
        ∷ sent (sale "000003" "010000000000" merchant_b) ∷ [])
        (asked merchant_b 1 1000 ∷ asked merchant_b 2 9999999999
        ∷ replied merchant_b (sale_refused "000003" "010000000000" "0502" "13" merchant_b) ∷ []) }
    ensures others_dont_count { Gives 1 merchant_a
        (sent (sale "000001" "000000000000" merchant_a)
        ∷ sent (reconciliation "000010" (no_totals "C0000000000000000") merchant_a)
        ∷ sent (completion "000021" "000000005000" "000000000001" merchant_a)
        ∷ sent (reversal "000003" "000000001000" (original "0200" "000009" "0501093000") merchant_a)
        ∷ sent (sale "000002" "000000001000" merchant_a)
        ∷ sent (sale "000003" "000000001000" merchant_a) ∷ cutover
        ∷ approves "A1B2C3" merchant_a 1
        ∷ sent (sale "000004" "000000001000" merchant_a)
        ∷ [])
        (replied merchant_a (sale_refused "000001" "000000000000" "0501" "13" merchant_a)
        ∷ replied merchant_a
        (reconciliation_reply "000010" "0501" "00" "1" (no_totals "C0000000000000000") merchant_a)
        ∷ replied merchant_a
        (completion_reply "000021" "000000005000" "0501" "000000000001" "25" merchant_a)
        ∷ replied merchant_a (reversal_refused "000003" "000000001000" "0501" "25" merchant_a)
        ∷ asked merchant_a 1 1000
        ∷ replied merchant_a (sale_refused "000003" "000000001000" "0501" "65" merchant_a)
        ∷ replied merchant_a
        (sale_approved "000002" "000000001000" "0501" "000000000001" merchant_a)
        ∷ asked merchant_a 2 1000
        ∷ []) }
    ensures declined_counts { Gives 1 merchant_a
        (sent (sale "000001" "000000001000" merchant_a) ∷ declines "51" merchant_a 1
        ∷ sent (sale "000002" "000000001000" merchant_a) ∷ [])
        (asked merchant_a 1 1000
        ∷ replied merchant_a
        (sale_declined "000001" "000000001000" "0501" "000000000001" "51" merchant_a)
        ∷ replied merchant_a (sale_refused "000002" "000000001000" "0501" "65" merchant_a) ∷ []) }
{}
