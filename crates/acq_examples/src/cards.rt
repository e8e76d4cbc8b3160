//! What a card request is refused for before its issuer is asked. A refusal takes no reference.

ghost use Rattle.std.specs.Prelude.{◌++◌, ◌∷◌, [], codes, Some};
ghost use Rattle.acq_core.specs.declared.event.Event.TheVariants.{Frame};
ghost use Rattle.acq_core.specs.declared.output.Output.TheVariants.{Reply, Ask, Done};
ghost use Rattle.acq_message.specs.declared.service.Service.TheVariants.{Financial};
ghost use Rattle.day_totals.specs.declared.leg.Leg.TheVariants.{Debit};
ghost use Rattle.acq_examples.specs.Messages.{merchant_a, terminal, other_terminal, sale};
ghost use Rattle.acq_examples.specs.Messages.{card_request, card_refused, sale_refused};
ghost use Rattle.acq_examples.specs.Scripts.{Gives, morning, sent, approves, asked, replied};
ghost use Rattle.acq_examples.specs.Scripts.{book_opening, GivesParty, setup, cutover};

/// Card numbers: with a wrong check digit, of no range, of no digits (which are echoed), and from
/// track 2.
#[tactic(auto, unfolding(crate::proofs::Computing::on_literals))]
pub fn numbers()
    ensures wrong_check_digit { Gives 999999 merchant_a
        (Frame morning
        (codes "0200" ++ codes "7220000000C08000" ++ codes "16" ++ codes "4111111111111112"
        ++ codes "000000" ++ codes "000000001000" ++ codes "0501093000" ++ codes "000002"
        ++ terminal ++ merchant_a ++ codes "978")
        ∷ sent (sale "000003" "000000001000" merchant_a) ∷ [])
        (Reply (Some merchant_a)
        (codes "0210" ++ codes "7222000002C08000" ++ codes "16" ++ codes "4111111111111112"
        ++ codes "000000" ++ codes "000000001000" ++ codes "0501093000" ++ codes "000002"
        ++ codes "0501" ++ codes "14" ++ terminal ++ merchant_a ++ codes "978")
        ∷ asked merchant_a 1 1000 ∷ []) }
    ensures of_no_range { Gives 999999 merchant_a
        (sent (card_request "0200" "6011000990139424" "000000" "000000001000" "000001" merchant_a)
        ∷ sent (sale "000002" "000000001000" merchant_a) ∷ [])
        (replied merchant_a
        (card_refused "0210" "6011000990139424" "000000" "000000001000" "000001" "0501" "15"
        merchant_a) ∷ asked merchant_a 1 1000 ∷ []) }
    ensures lengths { Gives 999999 merchant_a
        (Frame morning
        (codes "0200" ++ codes "7220000000C08000" ++ codes "09" ++ codes "400000006"
        ++ codes "000000" ++ codes "000000001000" ++ codes "0501093000" ++ codes "000001"
        ++ terminal ++ merchant_a ++ codes "978")
        ∷ Frame morning
        (codes "0200" ++ codes "7220000000C08000" ++ codes "10" ++ codes "4000000002"
        ++ codes "000000" ++ codes "000000001000" ++ codes "0501093000" ++ codes "000002"
        ++ terminal ++ merchant_a ++ codes "978")
        ∷ Frame morning
        (codes "0200" ++ codes "7220000000C08000" ++ codes "19" ++ codes "4000000000000000006"
        ++ codes "000000" ++ codes "000000001000" ++ codes "0501093000" ++ codes "000003"
        ++ terminal ++ merchant_a ++ codes "978")
        ∷ [])
        (Reply (Some merchant_a)
        (codes "0210" ++ codes "7222000002C08000" ++ codes "09" ++ codes "400000006"
        ++ codes "000000" ++ codes "000000001000" ++ codes "0501093000" ++ codes "000001"
        ++ codes "0501" ++ codes "14" ++ terminal ++ merchant_a ++ codes "978")
        ∷ Ask (record {
          merchant = merchant_a;
          reference = 1;
          service = Financial;
          leg = Debit;
          card = codes "4000000002";
          amount = 1000;
          issuer = codes "12345";
        })
        ∷ Ask (record {
          merchant = merchant_a;
          reference = 2;
          service = Financial;
          leg = Debit;
          card = codes "4000000000000000006";
          amount = 1000;
          issuer = codes "12345";
        })
        ∷ []) }
    ensures no_digits { Gives 999999 merchant_a
        (Frame morning
        (codes "0200" ++ codes "7220000000C08000" ++ codes "00" ++ codes "000000"
        ++ codes "000000001000" ++ codes "0501093000" ++ codes "000001" ++ terminal ++ merchant_a
        ++ codes "978") ∷ [])
        (Reply (Some merchant_a)
        (codes "0210" ++ codes "7222000002C08000" ++ codes "00" ++ codes "000000"
        ++ codes "000000001000" ++ codes "0501093000" ++ codes "000001" ++ codes "0501"
        ++ codes "14" ++ terminal ++ merchant_a ++ codes "978") ∷ []) }
    ensures no_digits_in_track { Gives 999999 merchant_a
        (Frame morning
        (codes "0200" ++ codes "3220000020C08000" ++ codes "000000" ++ codes "000000001000"
        ++ codes "0501093000" ++ codes "000001" ++ codes "05" ++ codes "=2912" ++ terminal
        ++ merchant_a ++ codes "978") ∷ [])
        (Reply (Some merchant_a)
        (codes "0210" ++ codes "3222000002C08000" ++ codes "000000" ++ codes "000000001000"
        ++ codes "0501093000" ++ codes "000001" ++ codes "0501" ++ codes "14" ++ terminal
        ++ merchant_a ++ codes "978") ∷ []) }
    ensures from_track { Gives 999999 merchant_a
        (Frame morning
        (codes "0200" ++ codes "3220000020C08000" ++ codes "000000" ++ codes "000000001000"
        ++ codes "0501093000" ++ codes "000001" ++ codes "21" ++ codes "4111111111111111=2912"
        ++ terminal ++ merchant_a ++ codes "978")
        ∷ approves "A1B2C3" merchant_a 1 ∷ [])
        (asked merchant_a 1 1000
        ∷ Reply (Some merchant_a)
        (codes "0210" ++ codes "322200000EC08000" ++ codes "000000" ++ codes "000000001000"
        ++ codes "0501093000" ++ codes "000001" ++ codes "0501" ++ codes "000000000001"
        ++ codes "A1B2C3" ++ codes "00" ++ terminal ++ merchant_a ++ codes "978") ∷ []) }
    ensures expiry_in_track { Gives 999999 merchant_a
        (Frame morning
        (codes "0200" ++ codes "3220000020C08000" ++ codes "000000" ++ codes "000000001000"
        ++ codes "0501093000" ++ codes "000001" ++ codes "21" ++ codes "4111111111111111D2912"
        ++ terminal ++ merchant_a ++ codes "978")
        ∷ Frame morning
        (codes "0200" ++ codes "3220000020C08000" ++ codes "000000" ++ codes "000000001000"
        ++ codes "0501093000" ++ codes "000002" ++ codes "21" ++ codes "4111111111111111D2404"
        ++ terminal ++ merchant_a ++ codes "978")
        ∷ Frame morning
        (codes "0200" ++ codes "3220000020C08000" ++ codes "000000" ++ codes "000000001000"
        ++ codes "0501093000" ++ codes "000003" ++ codes "20" ++ codes "4111111111111111=240"
        ++ terminal ++ merchant_a ++ codes "978")
        ∷ Frame morning
        (codes "0200" ++ codes "3220000020C08000" ++ codes "000000" ++ codes "000000001000"
        ++ codes "0501093000" ++ codes "000004" ++ codes "21" ++ codes "4111111111111111=24:4"
        ++ terminal ++ merchant_a ++ codes "978")
        ∷ Frame morning
        (codes "0200" ++ codes "3224000020C08000" ++ codes "000000" ++ codes "000000001000"
        ++ codes "0501093000" ++ codes "000005" ++ codes "2912" ++ codes "21"
        ++ codes "4111111111111111=2404" ++ terminal ++ merchant_a ++ codes "978") ∷ [])
        (asked merchant_a 1 1000
        ∷ Reply (Some merchant_a)
        (codes "0210" ++ codes "3222000002C08000" ++ codes "000000" ++ codes "000000001000"
        ++ codes "0501093000" ++ codes "000002" ++ codes "0501" ++ codes "54" ++ terminal
        ++ merchant_a ++ codes "978")
        ∷ asked merchant_a 2 1000 ∷ asked merchant_a 3 1000 ∷ asked merchant_a 4 1000 ∷ []) }
{}

/// A card is good until the end of its expiry's month. The expiry is in track 2 or in element 14,
/// which comes first; one that names no month has passed.
#[tactic(auto, unfolding(crate::proofs::Computing::on_literals))]
pub fn expiries()
    ensures last_month { Gives 999999 merchant_a
        (Frame morning
        (codes "0200" ++ codes "3220000020C08000" ++ codes "000000" ++ codes "000000001000"
        ++ codes "0501093000" ++ codes "000001" ++ codes "21" ++ codes "4111111111111111=2404"
        ++ terminal ++ merchant_a ++ codes "978") ∷ [])
        (Reply (Some merchant_a)
        (codes "0210" ++ codes "3222000002C08000" ++ codes "000000" ++ codes "000000001000"
        ++ codes "0501093000" ++ codes "000001" ++ codes "0501" ++ codes "54" ++ terminal
        ++ merchant_a ++ codes "978") ∷ []) }
    ensures this_month { Gives 999999 merchant_a
        (Frame morning
        (codes "0200" ++ codes "3220000020C08000" ++ codes "000000" ++ codes "000000001000"
        ++ codes "0501093000" ++ codes "000001" ++ codes "21" ++ codes "4111111111111111=2405"
        ++ terminal ++ merchant_a ++ codes "978") ∷ [])
        (asked merchant_a 1 1000 ∷ []) }
    ensures element_14_first { Gives 999999 merchant_a
        (Frame morning
        (codes "0200" ++ codes "3224000020C08000" ++ codes "000000" ++ codes "000000001000"
        ++ codes "0501093000" ++ codes "000001" ++ codes "2404" ++ codes "21"
        ++ codes "4111111111111111=2912" ++ terminal ++ merchant_a ++ codes "978") ∷ [])
        (Reply (Some merchant_a)
        (codes "0210" ++ codes "3222000002C08000" ++ codes "000000" ++ codes "000000001000"
        ++ codes "0501093000" ++ codes "000001" ++ codes "0501" ++ codes "54" ++ terminal
        ++ merchant_a ++ codes "978") ∷ []) }
    ensures beside_card { Gives 999999 merchant_a
        (Frame morning
        (codes "0200" ++ codes "7220000020C08000" ++ codes "16" ++ codes "4111111111111111"
        ++ codes "000000" ++ codes "000000001000" ++ codes "0501093000" ++ codes "000001"
        ++ codes "21" ++ codes "4111111111111111=2404" ++ terminal ++ merchant_a ++ codes "978")
        ∷ [])
        (replied merchant_a (sale_refused "000001" "000000001000" "0501" "54" merchant_a) ∷ []) }
    ensures month_13 { Gives 999999 merchant_a
        (Frame morning
        (codes "0200" ++ codes "7224000000C08000" ++ codes "16" ++ codes "4111111111111111"
        ++ codes "000000" ++ codes "000000001000" ++ codes "0501093000" ++ codes "000001"
        ++ codes "9913" ++ terminal ++ merchant_a ++ codes "978") ∷ [])
        (replied merchant_a (sale_refused "000001" "000000001000" "0501" "54" merchant_a) ∷ []) }
    ensures other_years { Gives 999999 merchant_a
        (Frame morning
        (codes "0200" ++ codes "7224000000C08000" ++ codes "16" ++ codes "4111111111111111"
        ++ codes "000000" ++ codes "000000001000" ++ codes "0501093000" ++ codes "000001"
        ++ codes "2312" ++ terminal ++ merchant_a ++ codes "978")
        ∷ Frame morning
        (codes "0200" ++ codes "7224000000C08000" ++ codes "16" ++ codes "4111111111111111"
        ++ codes "000000" ++ codes "000000001000" ++ codes "0501093000" ++ codes "000002"
        ++ codes "2501" ++ terminal ++ merchant_a ++ codes "978")
        ∷ Frame morning
        (codes "0200" ++ codes "7224000000C08000" ++ codes "16" ++ codes "4111111111111111"
        ++ codes "000000" ++ codes "000000001000" ++ codes "0501093000" ++ codes "000003"
        ++ codes "2404" ++ terminal ++ merchant_a ++ codes "978")
        ∷ Frame morning
        (codes "0200" ++ codes "7224000000C08000" ++ codes "16" ++ codes "4111111111111111"
        ++ codes "000000" ++ codes "000000001000" ++ codes "0501093000" ++ codes "000004"
        ++ codes "2406" ++ terminal ++ merchant_a ++ codes "978")
        ∷ Frame morning
        (codes "0200" ++ codes "7224000000C08000" ++ codes "16" ++ codes "4111111111111111"
        ++ codes "000000" ++ codes "000000001000" ++ codes "0501093000" ++ codes "000005"
        ++ codes "9901" ++ terminal ++ merchant_a ++ codes "978")
        ∷ Frame morning
        (codes "0200" ++ codes "7224000000C08000" ++ codes "16" ++ codes "4111111111111111"
        ++ codes "000000" ++ codes "000000001000" ++ codes "0501093000" ++ codes "000006"
        ++ codes "0012" ++ terminal ++ merchant_a ++ codes "978")
        ∷ Frame morning
        (codes "0200" ++ codes "7224000000C08000" ++ codes "16" ++ codes "4111111111111111"
        ++ codes "000000" ++ codes "000000001000" ++ codes "0501093000" ++ codes "000007"
        ++ codes "2412" ++ terminal ++ merchant_a ++ codes "978")
        ∷ [])
        (replied merchant_a (sale_refused "000001" "000000001000" "0501" "54" merchant_a)
        ∷ asked merchant_a 1 1000
        ∷ replied merchant_a (sale_refused "000003" "000000001000" "0501" "54" merchant_a)
        ∷ asked merchant_a 2 1000
        ∷ asked merchant_a 3 1000
        ∷ replied merchant_a (sale_refused "000006" "000000001000" "0501" "54" merchant_a)
        ∷ asked merchant_a 4 1000
        ∷ []) }
    ensures end_of_the_month { GivesParty (book_opening 999999 8917) (Some merchant_a)
        (setup ++ Frame morning
        (codes "0200" ++ codes "7224000000C08000" ++ codes "16" ++ codes "4111111111111111"
        ++ codes "000000" ++ codes "000000001000" ++ codes "0501093000" ++ codes "000001"
        ++ codes "2405" ++ terminal ++ merchant_a ++ codes "978")
        ∷ cutover
        ∷ Frame morning
        (codes "0200" ++ codes "7224000000C08000" ++ codes "16" ++ codes "4111111111111111"
        ++ codes "000000" ++ codes "000000001000" ++ codes "0501093000" ++ codes "000002"
        ++ codes "2405" ++ terminal ++ merchant_a ++ codes "978")
        ∷ Frame morning
        (codes "0200" ++ codes "7224000000C08000" ++ codes "16" ++ codes "4111111111111111"
        ++ codes "000000" ++ codes "000000001000" ++ codes "0501093000" ++ codes "000003"
        ++ codes "2406" ++ terminal ++ merchant_a ++ codes "978")
        ∷ [])
        (Done ∷ Done
        ∷ asked merchant_a 1 1000
        ∷ replied merchant_a (sale_refused "000002" "000000001000" "0601" "54" merchant_a)
        ∷ asked merchant_a 2 1000
        ∷ []) }
    ensures month_0 { Gives 999999 merchant_a
        (Frame morning
        (codes "0200" ++ codes "7224000000C08000" ++ codes "16" ++ codes "4111111111111111"
        ++ codes "000000" ++ codes "000000001000" ++ codes "0501093000" ++ codes "000001"
        ++ codes "0000" ++ terminal ++ merchant_a ++ codes "978") ∷ [])
        (replied merchant_a (sale_refused "000001" "000000001000" "0501" "54" merchant_a) ∷ []) }
{}

/// What is asked for: no return is authorized, no other transaction served, the currency is the
/// merchant's, and the amount at least one minor unit and at most ten digits.
#[tactic(auto, unfolding(crate::proofs::Computing::on_literals))]
pub fn transactions()
    ensures authorized_return { Gives 999999 merchant_a
        (sent (card_request "0100" "5500005555555559" "200000" "000000005000" "000020" merchant_a)
        ∷ [])
        (Reply (Some merchant_a)
        (codes "0110" ++ codes "7222000002C08000" ++ codes "16" ++ codes "5500005555555559"
        ++ codes "200000" ++ codes "000000005000" ++ codes "0501093000" ++ codes "000020"
        ++ codes "0501" ++ codes "12" ++ terminal ++ merchant_a ++ codes "978") ∷ []) }
    ensures cash { Gives 999999 merchant_a
        (sent (card_request "0200" "4111111111111111" "010000" "000000001000" "000001" merchant_a)
        ∷ [])
        (replied merchant_a
        (card_refused "0210" "4111111111111111" "010000" "000000001000" "000001" "0501" "12"
        merchant_a) ∷ []) }
    ensures other_digits_unused { Gives 999999 merchant_a
        (sent (card_request "0200" "4111111111111111" "001234" "000000001000" "000001" merchant_a)
        ∷ [])
        (asked merchant_a 1 1000 ∷ []) }
    ensures other_currency { Gives 999999 merchant_a
        (Frame morning
        (codes "0200" ++ codes "7220000000C08000" ++ codes "16" ++ codes "4111111111111111"
        ++ codes "000000" ++ codes "000000001000" ++ codes "0501093000" ++ codes "000001"
        ++ terminal ++ merchant_a ++ codes "840") ∷ [])
        (Reply (Some merchant_a)
        (codes "0210" ++ codes "7222000002C08000" ++ codes "16" ++ codes "4111111111111111"
        ++ codes "000000" ++ codes "000000001000" ++ codes "0501093000" ++ codes "000001"
        ++ codes "0501" ++ codes "12" ++ terminal ++ merchant_a ++ codes "840") ∷ []) }
    ensures greatest_amount { Gives 999999 merchant_a
        (sent (sale "000001" "009999999999" merchant_a) ∷ []) (asked merchant_a 1 9999999999 ∷ []) }
    ensures amount_too_great { Gives 999999 merchant_a
        (sent (sale "000001" "010000000000" merchant_a) ∷ [])
        (replied merchant_a (sale_refused "000001" "010000000000" "0501" "13" merchant_a) ∷ []) }
    ensures no_amount { Gives 999999 merchant_a
        (sent (sale "000001" "000000000000" merchant_a) ∷ [])
        (replied merchant_a (sale_refused "000001" "000000000000" "0501" "13" merchant_a) ∷ []) }
{}

/// Which code a request gets that several checks refuse: the order is transaction, amount, card
/// number, expiry, range, and the day's limit. A key that is recorded goes before all of them.
#[tactic(auto, unfolding(crate::proofs::Computing::on_literals))]
pub fn order()
    ensures of_a_full_day { Gives 1 merchant_a
        (sent (sale "000001" "000000001000" merchant_a)
        ∷ sent (card_request "0200" "4111111111111112" "010000" "000000000000" "000002" merchant_a)
        ∷ sent (card_request "0200" "4111111111111112" "000000" "000000000000" "000003" merchant_a)
        ∷ Frame morning
        (codes "0200" ++ codes "7224000000C08000" ++ codes "16" ++ codes "6011000990139425"
        ++ codes "000000" ++ codes "000000001000" ++ codes "0501093000" ++ codes "000004"
        ++ codes "2404" ++ terminal ++ merchant_a ++ codes "978")
        ∷ sent (card_request "0200" "6011000990139425" "000000" "000000001000" "000005" merchant_a)
        ∷ Frame morning
        (codes "0200" ++ codes "7224000000C08000" ++ codes "16" ++ codes "6011000990139424"
        ++ codes "000000" ++ codes "000000001000" ++ codes "0501093000" ++ codes "000006"
        ++ codes "2404" ++ terminal ++ merchant_a ++ codes "978")
        ∷ sent (card_request "0200" "6011000990139424" "000000" "000000001000" "000007" merchant_a)
        ∷ sent (sale "000008" "000000001000" merchant_a)
        ∷ sent (card_request "0200" "4111111111111112" "010000" "000000000000" "000001" merchant_a)
        ∷ [])
        (asked merchant_a 1 1000
        ∷ replied merchant_a
        (card_refused "0210" "4111111111111112" "010000" "000000000000" "000002" "0501" "12"
        merchant_a)
        ∷ replied merchant_a
        (card_refused "0210" "4111111111111112" "000000" "000000000000" "000003" "0501" "13"
        merchant_a)
        ∷ replied merchant_a
        (card_refused "0210" "6011000990139425" "000000" "000000001000" "000004" "0501" "14"
        merchant_a)
        ∷ replied merchant_a
        (card_refused "0210" "6011000990139425" "000000" "000000001000" "000005" "0501" "14"
        merchant_a)
        ∷ replied merchant_a
        (card_refused "0210" "6011000990139424" "000000" "000000001000" "000006" "0501" "54"
        merchant_a)
        ∷ replied merchant_a
        (card_refused "0210" "6011000990139424" "000000" "000000001000" "000007" "0501" "15"
        merchant_a)
        ∷ replied merchant_a (sale_refused "000008" "000000001000" "0501" "65" merchant_a)
        ∷ replied merchant_a
        (card_refused "0210" "4111111111111112" "010000" "000000000000" "000001" "0501" "94"
        merchant_a) ∷ []) }
    ensures other_terminal_before_the_key { Gives 1 merchant_a
        (sent (sale "000001" "000000001000" merchant_a)
        ∷ Frame morning
        (codes "0200" ++ codes "7220000000C08000" ++ codes "16" ++ codes "4111111111111112"
        ++ codes "010000" ++ codes "000000000000" ++ codes "0501093000" ++ codes "000001"
        ++ other_terminal ++ merchant_a ++ codes "978") ∷ [])
        (asked merchant_a 1 1000
        ∷ Reply (Some merchant_a)
        (codes "0210" ++ codes "7222000002C08000" ++ codes "16" ++ codes "4111111111111112"
        ++ codes "010000" ++ codes "000000000000" ++ codes "0501093000" ++ codes "000001"
        ++ codes "0501" ++ codes "03" ++ other_terminal ++ merchant_a ++ codes "978") ∷ []) }
{}
