//! Whole rows of the tables: the requests with all their columns, the numbers of reconciliations,
//! and the holds that are open. What these rows say, their merchant's own history says too.

ghost use Rattle.std.specs.Prelude.{◌++◌, ◌∷◌, [], codes, Some, None, true, false};
ghost use Rattle.acq_core.specs.declared.event.Event.TheVariants.{Frame};
ghost use Rattle.acq_core.specs.declared.status.Status.TheVariants.{Refused, Pending, Declined};
ghost use Rattle.acq_core.specs.declared.status.Status.TheVariants.{Approved, Completed, Reversed};
ghost use Rattle.acq_core.specs.declared.status.Status.TheVariants.{ReversedPending, Reconciled};
ghost use Rattle.acq_message.specs.declared.service.Service.TheVariants.{Authorization, Financial};
ghost use Rattle.acq_message.specs.declared.service.Service.TheVariants.{Completion, Reversal};
ghost use Rattle.acq_message.specs.declared.service.Service.TheVariants.{ReversalAdvice};
ghost use Rattle.acq_message.specs.declared.service.Service.TheVariants.{Reconciliation};
ghost use Rattle.day_totals.specs.declared.leg.Leg.TheVariants.{Credit, Debit, DebitReversal};
ghost use Rattle.acq_examples.specs.Messages.{merchant_a, merchant_b, terminal, sale, hold};
ghost use Rattle.acq_examples.specs.Messages.{completion, original, reversal, reversal_as};
ghost use Rattle.acq_examples.specs.Messages.{totals_of_debits, no_totals, reconciliation};
ghost use Rattle.acq_examples.specs.Messages.{reconciliation_of};
ghost use Rattle.acq_examples.specs.Scripts.{Records, Reconciles, OpenHolds, Leaves, may_1, may_2};
ghost use Rattle.acq_examples.specs.Scripts.{morning, next_morning, sent, approves, declines};
ghost use Rattle.acq_examples.specs.Scripts.{cutover, key_from, says_nothing};
ghost use Rattle.acq_examples.specs.Scripts.{sale_posting};

/// A request's row by what became of it: refused, pending, approved, declined.
#[tactic(auto, unfolding(crate::proofs::Computing::on_literals))]
pub fn card_requests()
    ensures refused_and_pending { Records 999999 merchant_a
        (sent (sale "000001" "000000000000" merchant_a)
        ∷ sent (sale "000002" "000000001000" merchant_a) ∷ [])
        (record {
          key = key_from merchant_a Financial "000001" "0501093000";
          essence =
              codes "0200" ++ codes "7000000000008000" ++ codes "16" ++ codes "4111111111111111"
              ++ codes "000000" ++ codes "000000000000" ++ codes "978";
          day = may_1;
          status = Refused;
          admitted = false;
          reference = None;
          follows = None;
          amount = 0;
          leg = Credit;
          card = Some (codes "4111111111111111");
          acquirer = None;
          hold_days = None;
          hold_end = None;
          reply = record {
            kind = codes "0210";
            elements =
                (2, codes "4111111111111111") ∷ (3, codes "000000") ∷ (4, codes "000000000000")
                ∷ (7, codes "0501093000") ∷ (11, codes "000001") ∷ (15, codes "0501")
                ∷ (39, codes "13") ∷ (41, terminal) ∷ (42, merchant_a) ∷ (49, codes "978") ∷ [];
          };
        }
        ∷ record {
          key = key_from merchant_a Financial "000002" "0501093000";
          essence =
              codes "0200" ++ codes "7000000000008000" ++ codes "16" ++ codes "4111111111111111"
              ++ codes "000000" ++ codes "000000001000" ++ codes "978";
          day = may_1;
          status = Pending;
          admitted = true;
          reference = Some 1;
          follows = None;
          amount = 1000;
          leg = Debit;
          card = Some (codes "4111111111111111");
          acquirer = None;
          hold_days = Some 7;
          hold_end = None;
          reply = record {
            kind = codes "0210";
            elements =
                (2, codes "4111111111111111") ∷ (3, codes "000000") ∷ (4, codes "000000001000")
                ∷ (7, codes "0501093000") ∷ (11, codes "000002") ∷ (15, codes "0501")
                ∷ (37, codes "000000000001") ∷ (41, terminal) ∷ (42, merchant_a)
                ∷ (49, codes "978") ∷ [];
          };
        } ∷ []) }
    ensures approved_and_declined { Records 999999 merchant_a
        (sent (sale "000001" "000000001000" merchant_a)
        ∷ approves "A1B2C3" merchant_a 1 ∷ cutover
        ∷ Frame morning
        (codes "0200" ++ codes "7220000100C08000" ++ codes "16" ++ codes "4111111111111111"
        ++ codes "200000" ++ codes "000000000700" ++ codes "0501093000" ++ codes "000002"
        ++ codes "06" ++ codes "123456" ++ terminal ++ merchant_a ++ codes "978")
        ∷ declines "51" merchant_a 2 ∷ [])
        (record {
          key = key_from merchant_a Financial "000001" "0501093000";
          essence =
              codes "0200" ++ codes "7000000000008000" ++ codes "16" ++ codes "4111111111111111"
              ++ codes "000000" ++ codes "000000001000" ++ codes "978";
          day = may_1;
          status = Approved;
          admitted = true;
          reference = Some 1;
          follows = None;
          amount = 1000;
          leg = Debit;
          card = Some (codes "4111111111111111");
          acquirer = None;
          hold_days = Some 7;
          hold_end = None;
          reply = record {
            kind = codes "0210";
            elements =
                (2, codes "4111111111111111") ∷ (3, codes "000000") ∷ (4, codes "000000001000")
                ∷ (7, codes "0501093000") ∷ (11, codes "000001") ∷ (15, codes "0501")
                ∷ (37, codes "000000000001") ∷ (38, codes "A1B2C3") ∷ (39, codes "00")
                ∷ (41, terminal) ∷ (42, merchant_a) ∷ (49, codes "978") ∷ [];
          };
        }
        ∷ record {
          key = key_from merchant_a Financial "000002" "0501093000";
          essence =
              codes "0200" ++ codes "7000000000008000" ++ codes "16" ++ codes "4111111111111111"
              ++ codes "200000" ++ codes "000000000700" ++ codes "978";
          day = may_2;
          status = Declined;
          admitted = true;
          reference = Some 2;
          follows = None;
          amount = 700;
          leg = Credit;
          card = Some (codes "4111111111111111");
          acquirer = Some (codes "123456");
          hold_days = Some 7;
          hold_end = None;
          reply = record {
            kind = codes "0210";
            elements =
                (2, codes "4111111111111111") ∷ (3, codes "200000") ∷ (4, codes "000000000700")
                ∷ (7, codes "0501093000") ∷ (11, codes "000002") ∷ (15, codes "0502")
                ∷ (37, codes "000000000002") ∷ (39, codes "51") ∷ (41, terminal)
                ∷ (42, merchant_a) ∷ (49, codes "978") ∷ [];
          };
        } ∷ []) }
{}

/// A hold that was completed keeps its last second, and is open no more. Its completion has its
/// reference and card.
#[tactic(auto, unfolding(crate::proofs::Computing::on_literals))]
pub fn holds()
    ensures completed { Records 999999 merchant_a
        (sent (hold "000020" "000000005000" merchant_a)
        ∷ approves "H00001" merchant_a 1
        ∷ Frame next_morning
        (codes "0220" ++ codes "7224000008C08000" ++ codes "16" ++ codes "4111111111111111"
        ++ codes "000000" ++ codes "000000004200" ++ codes "0502093000" ++ codes "000021"
        ++ codes "2404" ++ codes "000000000001" ++ terminal ++ merchant_a ++ codes "978")
        ∷ [])
        (record {
          key = key_from merchant_a Authorization "000020" "0501093000";
          essence =
              codes "0100" ++ codes "7000000000008000" ++ codes "16" ++ codes "5500005555555559"
              ++ codes "000000" ++ codes "000000005000" ++ codes "978";
          day = may_1;
          status = Completed;
          admitted = true;
          reference = Some 1;
          follows = None;
          amount = 5000;
          leg = Credit;
          card = Some (codes "5500005555555559");
          acquirer = None;
          hold_days = Some 1;
          hold_end = Some 1714642200;
          reply = record {
            kind = codes "0110";
            elements =
                (2, codes "5500005555555559") ∷ (3, codes "000000") ∷ (4, codes "000000005000")
                ∷ (7, codes "0501093000") ∷ (11, codes "000020") ∷ (15, codes "0501")
                ∷ (37, codes "000000000001") ∷ (38, codes "H00001") ∷ (39, codes "00")
                ∷ (41, terminal) ∷ (42, merchant_a) ∷ (49, codes "978") ∷ [];
          };
        }
        ∷ record {
          key = key_from merchant_a Completion "000021" "0502093000";
          essence =
              codes "0220" ++ codes "7000000008008000" ++ codes "16" ++ codes "4111111111111111"
              ++ codes "000000" ++ codes "000000004200" ++ codes "000000000001" ++ codes "978";
          day = may_1;
          status = Approved;
          admitted = true;
          reference = None;
          follows = Some 1;
          amount = 4200;
          leg = Debit;
          card = Some (codes "5500005555555559");
          acquirer = None;
          hold_days = None;
          hold_end = None;
          reply = record {
            kind = codes "0230";
            elements =
                (2, codes "4111111111111111")
                ∷ (3, codes "000000") ∷ (4, codes "000000004200") ∷ (7, codes "0502093000")
                ∷ (11, codes "000021") ∷ (15, codes "0501") ∷ (37, codes "000000000001")
                ∷ (39, codes "00") ∷ (41, terminal) ∷ (42, merchant_a) ∷ (49, codes "978") ∷ [];
          };
        } ∷ []) }
    ensures open_and_reversed { Records 999999 merchant_a
        (sent (hold "000020" "000000005000" merchant_a)
        ∷ approves "H00001" merchant_a 1
        ∷ sent (hold "000030" "000000005000" merchant_a)
        ∷ approves "H00001" merchant_a 2
        ∷ sent (reversal "000031" "000000005000" (original "0100" "000030" "0501093000") merchant_a)
        ∷ [])
        (record {
          key = key_from merchant_a Authorization "000020" "0501093000";
          essence =
              codes "0100" ++ codes "7000000000008000" ++ codes "16" ++ codes "5500005555555559"
              ++ codes "000000" ++ codes "000000005000" ++ codes "978";
          day = may_1;
          status = Approved;
          admitted = true;
          reference = Some 1;
          follows = None;
          amount = 5000;
          leg = Credit;
          card = Some (codes "5500005555555559");
          acquirer = None;
          hold_days = Some 1;
          hold_end = Some 1714642200;
          reply = record {
            kind = codes "0110";
            elements =
                (2, codes "5500005555555559") ∷ (3, codes "000000") ∷ (4, codes "000000005000")
                ∷ (7, codes "0501093000") ∷ (11, codes "000020") ∷ (15, codes "0501")
                ∷ (37, codes "000000000001") ∷ (38, codes "H00001") ∷ (39, codes "00")
                ∷ (41, terminal) ∷ (42, merchant_a) ∷ (49, codes "978") ∷ [];
          };
        }
        ∷ record {
          key = key_from merchant_a Authorization "000030" "0501093000";
          essence =
              codes "0100" ++ codes "7000000000008000" ++ codes "16" ++ codes "5500005555555559"
              ++ codes "000000" ++ codes "000000005000" ++ codes "978";
          day = may_1;
          status = Reversed;
          admitted = true;
          reference = Some 2;
          follows = None;
          amount = 5000;
          leg = Credit;
          card = Some (codes "5500005555555559");
          acquirer = None;
          hold_days = Some 1;
          hold_end = Some 1714642200;
          reply = record {
            kind = codes "0110";
            elements =
                (2, codes "5500005555555559") ∷ (3, codes "000000") ∷ (4, codes "000000005000")
                ∷ (7, codes "0501093000") ∷ (11, codes "000030") ∷ (15, codes "0501")
                ∷ (37, codes "000000000002") ∷ (38, codes "H00001") ∷ (39, codes "00")
                ∷ (41, terminal) ∷ (42, merchant_a) ∷ (49, codes "978") ∷ [];
          };
        }
        ∷ record {
          key = key_from merchant_a ReversalAdvice "000031" "0501093100";
          essence =
              codes "0420" ++ codes "9000000000000000" ++ codes "0000004000000000"
              ++ codes "000000005000" ++ original "0100" "000030" "0501093000";
          day = may_1;
          status = Approved;
          admitted = true;
          reference = None;
          follows = Some 2;
          amount = 5000;
          leg = Credit;
          card = None;
          acquirer = None;
          hold_days = None;
          hold_end = None;
          reply = record {
            kind = codes "0430";
            elements =
                (4, codes "000000005000") ∷ (7, codes "0501093100") ∷ (11, codes "000031")
                ∷ (15, codes "0501") ∷ (37, codes "000000000002") ∷ (39, codes "00")
                ∷ (41, terminal) ∷ (42, merchant_a) ∷ [];
          };
        } ∷ []) }
    ensures no_answer { Records 999999 merchant_a
        (sent (hold "000020" "000000005000" merchant_a)
        ∷ says_nothing merchant_a 1
        ∷ [])
        (record {
          key = key_from merchant_a Authorization "000020" "0501093000";
          essence =
              codes "0100" ++ codes "7000000000008000" ++ codes "16" ++ codes "5500005555555559"
              ++ codes "000000" ++ codes "000000005000" ++ codes "978";
          day = may_1;
          status = Declined;
          admitted = true;
          reference = Some 1;
          follows = None;
          amount = 5000;
          leg = Credit;
          card = Some (codes "5500005555555559");
          acquirer = None;
          hold_days = Some 1;
          hold_end = None;
          reply = record {
            kind = codes "0110";
            elements =
                (2, codes "5500005555555559") ∷ (3, codes "000000") ∷ (4, codes "000000005000")
                ∷ (7, codes "0501093000") ∷ (11, codes "000020") ∷ (15, codes "0501")
                ∷ (37, codes "000000000001") ∷ (39, codes "91") ∷ (41, terminal)
                ∷ (42, merchant_a) ∷ (49, codes "978") ∷ [];
          };
        }
        ∷ []) }
    ensures two_of_three { OpenHolds 999999 merchant_a
        (sent (hold "000020" "000000005000" merchant_a)
        ∷ approves "H00001" merchant_a 1
        ∷ sent (hold "000030" "000000005000" merchant_a)
        ∷ approves "H00001" merchant_a 2
        ∷ sent (hold "000040" "000000005000" merchant_a) ∷ [])
        1714642200 ((Some 1, Some 1714642200) ∷ (Some 2, Some 1714642200) ∷ []) }
    ensures none_a_second_later { OpenHolds 999999 merchant_a
        (sent (hold "000020" "000000005000" merchant_a)
        ∷ approves "H00001" merchant_a 1
        ∷ sent (hold "000030" "000000005000" merchant_a)
        ∷ approves "H00001" merchant_a 2
        ∷ sent (hold "000040" "000000005000" merchant_a) ∷ [])
        1714642201 [] }
    ensures neither_completed_nor_reversed { OpenHolds 999999 merchant_a
        (sent (hold "000020" "000000005000" merchant_a)
        ∷ approves "H00001" merchant_a 1
        ∷ sent (hold "000030" "000000005000" merchant_a)
        ∷ approves "H00001" merchant_a 2
        ∷ sent (hold "000040" "000000005000" merchant_a)
        ∷ approves "H00001" merchant_a 3
        ∷ sent (hold "000050" "000000005000" merchant_a)
        ∷ sent (reversal "000031" "000000005000" (original "0100" "000030" "0501093000") merchant_a)
        ∷ Frame next_morning (completion "000021" "000000004200" "000000000001" merchant_a) ∷ [])
        946684800 ((Some 3, Some 1714642200) ∷ []) }
{}

/// A request that was reversed, and its reversal, which has its reference and the leg that it
/// posts. What was pending posts none.
#[tactic(auto, unfolding(crate::proofs::Computing::on_literals))]
pub fn reversals()
    ensures of_an_approved_sale { Records 999999 merchant_a
        (sent (sale "000001" "000000001000" merchant_a)
        ∷ approves "A1B2C3" merchant_a 1
        ∷ sent (reversal "000003" "000000001000" (original "0200" "000001" "0501093000") merchant_a)
        ∷ [])
        (record {
          key = key_from merchant_a Financial "000001" "0501093000";
          essence =
              codes "0200" ++ codes "7000000000008000" ++ codes "16" ++ codes "4111111111111111"
              ++ codes "000000" ++ codes "000000001000" ++ codes "978";
          day = may_1;
          status = Reversed;
          admitted = true;
          reference = Some 1;
          follows = None;
          amount = 1000;
          leg = Debit;
          card = Some (codes "4111111111111111");
          acquirer = None;
          hold_days = Some 7;
          hold_end = None;
          reply = record {
            kind = codes "0210";
            elements =
                (2, codes "4111111111111111") ∷ (3, codes "000000") ∷ (4, codes "000000001000")
                ∷ (7, codes "0501093000") ∷ (11, codes "000001") ∷ (15, codes "0501")
                ∷ (37, codes "000000000001") ∷ (38, codes "A1B2C3") ∷ (39, codes "00")
                ∷ (41, terminal) ∷ (42, merchant_a) ∷ (49, codes "978") ∷ [];
          };
        }
        ∷ record {
          key = key_from merchant_a ReversalAdvice "000003" "0501093100";
          essence =
              codes "0420" ++ codes "9000000000000000" ++ codes "0000004000000000"
              ++ codes "000000001000" ++ original "0200" "000001" "0501093000";
          day = may_1;
          status = Approved;
          admitted = true;
          reference = None;
          follows = Some 1;
          amount = 1000;
          leg = DebitReversal;
          card = None;
          acquirer = None;
          hold_days = None;
          hold_end = None;
          reply = record {
            kind = codes "0430";
            elements =
                (4, codes "000000001000") ∷ (7, codes "0501093100") ∷ (11, codes "000003")
                ∷ (15, codes "0501") ∷ (37, codes "000000000001") ∷ (39, codes "00")
                ∷ (41, terminal) ∷ (42, merchant_a) ∷ [];
          };
        } ∷ []) }
    ensures of_a_pending_sale { Records 999999 merchant_a
        (sent (sale "000001" "000000001000" merchant_a)
        ∷ sent (reversal_as "0400" "000003" "000000001000"
        (original "0200" "000001" "0501093000") merchant_a) ∷ [])
        (record {
          key = key_from merchant_a Financial "000001" "0501093000";
          essence =
              codes "0200" ++ codes "7000000000008000" ++ codes "16" ++ codes "4111111111111111"
              ++ codes "000000" ++ codes "000000001000" ++ codes "978";
          day = may_1;
          status = ReversedPending;
          admitted = true;
          reference = Some 1;
          follows = None;
          amount = 1000;
          leg = Debit;
          card = Some (codes "4111111111111111");
          acquirer = None;
          hold_days = Some 7;
          hold_end = None;
          reply = record {
            kind = codes "0210";
            elements =
                (2, codes "4111111111111111") ∷ (3, codes "000000") ∷ (4, codes "000000001000")
                ∷ (7, codes "0501093000") ∷ (11, codes "000001") ∷ (15, codes "0501")
                ∷ (37, codes "000000000001") ∷ (41, terminal) ∷ (42, merchant_a)
                ∷ (49, codes "978") ∷ [];
          };
        }
        ∷ record {
          key = key_from merchant_a Reversal "000003" "0501093100";
          essence =
              codes "0400" ++ codes "9000000000000000" ++ codes "0000004000000000"
              ++ codes "000000001000" ++ original "0200" "000001" "0501093000";
          day = may_1;
          status = Approved;
          admitted = true;
          reference = None;
          follows = Some 1;
          amount = 1000;
          leg = Credit;
          card = None;
          acquirer = None;
          hold_days = None;
          hold_end = None;
          reply = record {
            kind = codes "0410";
            elements =
                (4, codes "000000001000") ∷ (7, codes "0501093100") ∷ (11, codes "000003")
                ∷ (15, codes "0501") ∷ (37, codes "000000000001") ∷ (39, codes "00")
                ∷ (41, terminal) ∷ (42, merchant_a) ∷ [];
          };
        } ∷ []) }
{}

/// A reconciliation with totals is recorded on the day of its arrival, and numbered on the day that
/// was reconciled. One without is a refused request alone.
#[tactic(auto, unfolding(crate::proofs::Computing::on_literals))]
pub fn reconciliations()
    ensures rows { Records 999999 merchant_a
        (sent (sale "000001" "000000001000" merchant_a)
        ∷ approves "A1B2C3" merchant_a 1 ∷ cutover
        ∷ sent (reconciliation_of "000010" "0501"
        (totals_of_debits "0000000001" "0000000000001000" "D0000000000001000") merchant_a)
        ∷ sent (reconciliation "000011"
        (totals_of_debits "0000000001" "0000000000001000" "D0000000000001000") merchant_a)
        ∷ sent (reconciliation_of "000012" "0401"
        (totals_of_debits "0000000001" "0000000000001000" "D0000000000001000") merchant_a) ∷ [])
        (record {
          key = key_from merchant_a Financial "000001" "0501093000";
          essence =
              codes "0200" ++ codes "7000000000008000" ++ codes "16" ++ codes "4111111111111111"
              ++ codes "000000" ++ codes "000000001000" ++ codes "978";
          day = may_1;
          status = Approved;
          admitted = true;
          reference = Some 1;
          follows = None;
          amount = 1000;
          leg = Debit;
          card = Some (codes "4111111111111111");
          acquirer = None;
          hold_days = Some 7;
          hold_end = None;
          reply = record {
            kind = codes "0210";
            elements =
                (2, codes "4111111111111111") ∷ (3, codes "000000") ∷ (4, codes "000000001000")
                ∷ (7, codes "0501093000") ∷ (11, codes "000001") ∷ (15, codes "0501")
                ∷ (37, codes "000000000001") ∷ (38, codes "A1B2C3") ∷ (39, codes "00")
                ∷ (41, terminal) ∷ (42, merchant_a) ∷ (49, codes "978") ∷ [];
          };
        }
        ∷ record {
          key = key_from merchant_a Reconciliation "000010" "0501100000";
          essence =
              codes "0500" ++ codes "8002000000000000" ++ codes "0078078080000000" ++ codes "0501"
              ++ totals_of_debits "0000000001" "0000000000001000" "D0000000000001000";
          day = may_2;
          status = Reconciled;
          admitted = false;
          reference = None;
          follows = None;
          amount = 0;
          leg = Credit;
          card = None;
          acquirer = None;
          hold_days = None;
          hold_end = None;
          reply = record {
            kind = codes "0510";
            elements =
                (7, codes "0501100000") ∷ (11, codes "000010") ∷ (15, codes "0501")
                ∷ (39, codes "00") ∷ (41, terminal) ∷ (42, merchant_a) ∷ (66, codes "1")
                ∷ (74, codes "0000000000") ∷ (75, codes "0000000000") ∷ (76, codes "0000000001")
                ∷ (77, codes "0000000000") ∷ (86, codes "0000000000000000")
                ∷ (87, codes "0000000000000000") ∷ (88, codes "0000000000001000")
                ∷ (89, codes "0000000000000000") ∷ (97, codes "D0000000000001000") ∷ [];
          };
        }
        ∷ record {
          key = key_from merchant_a Reconciliation "000011" "0501100000";
          essence =
              codes "0500" ++ codes "8000000000000000" ++ codes "0078078080000000"
              ++ totals_of_debits "0000000001" "0000000000001000" "D0000000000001000";
          day = may_2;
          status = Reconciled;
          admitted = false;
          reference = None;
          follows = None;
          amount = 0;
          leg = Credit;
          card = None;
          acquirer = None;
          hold_days = None;
          hold_end = None;
          reply = record {
            kind = codes "0510";
            elements =
                (7, codes "0501100000") ∷ (11, codes "000011") ∷ (15, codes "0502")
                ∷ (39, codes "95") ∷ (41, terminal) ∷ (42, merchant_a) ∷ (66, codes "2")
                ∷ (74, codes "0000000000") ∷ (75, codes "0000000000") ∷ (76, codes "0000000000")
                ∷ (77, codes "0000000000") ∷ (86, codes "0000000000000000")
                ∷ (87, codes "0000000000000000") ∷ (88, codes "0000000000000000")
                ∷ (89, codes "0000000000000000") ∷ (97, codes "C0000000000000000") ∷ [];
          };
        }
        ∷ record {
          key = key_from merchant_a Reconciliation "000012" "0501100000";
          essence =
              codes "0500" ++ codes "8002000000000000" ++ codes "0078078080000000" ++ codes "0401"
              ++ totals_of_debits "0000000001" "0000000000001000" "D0000000000001000";
          day = may_2;
          status = Refused;
          admitted = false;
          reference = None;
          follows = None;
          amount = 0;
          leg = Credit;
          card = None;
          acquirer = None;
          hold_days = None;
          hold_end = None;
          reply = record {
            kind = codes "0510";
            elements =
                (7, codes "0501100000") ∷ (11, codes "000012") ∷ (15, codes "0502")
                ∷ (39, codes "95") ∷ (41, terminal) ∷ (42, merchant_a) ∷ [];
          };
        } ∷ []) }
    ensures numbers { Reconciles 999999 merchant_a
        (sent (reconciliation "000010" (no_totals "C0000000000000000") merchant_a)
        ∷ sent (reconciliation "000010" (no_totals "C0000000000000000") merchant_b)
        ∷ sent (reconciliation "000010" (no_totals "C0000000000000000") merchant_a)
        ∷ sent (reconciliation "000011" (no_totals "C0000000000000001") merchant_a) ∷ cutover
        ∷ sent (reconciliation "000012" (no_totals "C0000000000000000") merchant_a)
        ∷ sent (reconciliation_of "000013" "0501" (no_totals "C0000000000000000") merchant_a)
        ∷ sent (reconciliation_of "000014" "0401" (no_totals "C0000000000000000") merchant_a) ∷ [])
        ((
          1,
          record { merchant = merchant_a; day = may_1; in_balance = true },
        )
        ∷ (
          2,
          record { merchant = merchant_a; day = may_1; in_balance = false },
        )
        ∷ (
          1,
          record { merchant = merchant_a; day = may_2; in_balance = true },
        )
        ∷ (
          3,
          record { merchant = merchant_a; day = may_1; in_balance = true },
        ) ∷ []) }
    ensures numbers_of_the_other { Reconciles 999999 merchant_b
        (sent (reconciliation "000010" (no_totals "C0000000000000000") merchant_a)
        ∷ sent (reconciliation "000010" (no_totals "C0000000000000000") merchant_b)
        ∷ sent (reconciliation "000010" (no_totals "C0000000000000000") merchant_a)
        ∷ sent (reconciliation "000011" (no_totals "C0000000000000001") merchant_a) ∷ cutover
        ∷ sent (reconciliation "000012" (no_totals "C0000000000000000") merchant_a)
        ∷ sent (reconciliation_of "000013" "0501" (no_totals "C0000000000000000") merchant_a)
        ∷ sent (reconciliation_of "000014" "0401" (no_totals "C0000000000000000") merchant_a) ∷ [])
        ((
          1,
          record { merchant = merchant_b; day = may_1; in_balance = true },
        ) ∷ []) }
{}

/// The tables whole, after a sale of one merchant, a cutover, and a reconciliation of another.
#[tactic(auto, unfolding(crate::proofs::Computing::on_literals))]
pub fn whole()
    ensures two_merchants { Leaves 3
        (sent (sale "000001" "000000001000" merchant_a) ∷ approves "A1B2C3" merchant_a 1 ∷ cutover
        ∷ sent (reconciliation "000010" (no_totals "C0000000000000000") merchant_b) ∷ [])
        (record {
          limit = 3;
          day = may_2;
          merchants =
              record { id = merchant_a; currency = codes "978"; first_reference = 1 }
              ∷ record { id = merchant_b; currency = codes "978"; first_reference = 1 } ∷ [];
          terminals =
              record { merchant = merchant_a; id = terminal }
              ∷ record { merchant = merchant_b; id = terminal } ∷ [];
          ranges =
              record { low = 40000000; high = 49999999; issuer = codes "12345"; hold_days = 7 }
              ∷ record { low = 50000000; high = 59999999; issuer = codes "67890"; hold_days = 1 }
              ∷ [];
          requests =
              record {
                key = key_from merchant_a Financial "000001" "0501093000";
                essence =
                    codes "0200" ++ codes "7000000000008000" ++ codes "16"
                    ++ codes "4111111111111111"
                    ++ codes "000000" ++ codes "000000001000" ++ codes "978";
                day = may_1;
                status = Approved;
                admitted = true;
                reference = Some 1;
                follows = None;
                amount = 1000;
                leg = Debit;
                card = Some (codes "4111111111111111");
                acquirer = None;
                hold_days = Some 7;
                hold_end = None;
                reply = record {
                  kind = codes "0210";
                  elements =
                      (2, codes "4111111111111111") ∷ (3, codes "000000")
                      ∷ (4, codes "000000001000")
                      ∷ (7, codes "0501093000") ∷ (11, codes "000001") ∷ (15, codes "0501")
                      ∷ (37, codes "000000000001") ∷ (38, codes "A1B2C3") ∷ (39, codes "00")
                      ∷ (41, terminal) ∷ (42, merchant_a) ∷ (49, codes "978") ∷ [];
                };
              }
              ∷ record {
                key = key_from merchant_b Reconciliation "000010" "0501100000";
                essence =
                    codes "0500" ++ codes "8000000000000000" ++ codes "0078078080000000"
                    ++ no_totals "C0000000000000000";
                day = may_2;
                status = Reconciled;
                admitted = false;
                reference = None;
                follows = None;
                amount = 0;
                leg = Credit;
                card = None;
                acquirer = None;
                hold_days = None;
                hold_end = None;
                reply = record {
                  kind = codes "0510";
                  elements =
                      (7, codes "0501100000") ∷ (11, codes "000010") ∷ (15, codes "0502")
                      ∷ (39, codes "00") ∷ (41, terminal) ∷ (42, merchant_b) ∷ (66, codes "1")
                      ∷ (74, codes "0000000000") ∷ (75, codes "0000000000")
                      ∷ (76, codes "0000000000")
                      ∷ (77, codes "0000000000") ∷ (86, codes "0000000000000000")
                      ∷ (87, codes "0000000000000000") ∷ (88, codes "0000000000000000")
                      ∷ (89, codes "0000000000000000") ∷ (97, codes "C0000000000000000") ∷ [];
                };
              } ∷ [];
          postings = sale_posting 1 merchant_a may_1 Debit 1000 1 "000001" ∷ [];
          reconciliations = (
            1,
            record { merchant = merchant_b; day = may_2; in_balance = true },
          ) ∷ [];
        }) }
{}
