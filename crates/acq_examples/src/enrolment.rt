//! Merchants and their terminals.

ghost use Rattle.std.specs.Prelude.{◌++◌, ◌∷◌, [], codes, Some};
ghost use Rattle.acq_core.specs.declared.event.Event.TheVariants.{Frame, Enrol, AddTerminal};
ghost use Rattle.acq_core.specs.declared.output.Output.TheVariants.{Reply, Done, AlreadyEnrolled};
ghost use Rattle.acq_core.specs.declared.output.Output.TheVariants.{NoSuchMerchant};
ghost use Rattle.acq_examples.specs.Messages.{merchant_a, merchant_c, terminal, other_terminal};
ghost use Rattle.acq_examples.specs.Messages.{sale, sale_approved, sale_refused, merchant_b};
ghost use Rattle.acq_examples.specs.Scripts.{book_opening, GivesParty, Gives, may_1, morning};
ghost use Rattle.acq_examples.specs.Scripts.{setup, sent, approves, asked, replied};

/// A merchant is enrolled once, and keeps its currency. Its first reference is its own.
#[tactic(auto, unfolding(crate::proofs::Computing::on_literals))]
pub fn merchants()
    ensures enrolled_again { Gives 999999 merchant_a
        (Enrol merchant_a (codes "840") 500 ∷ sent (sale "000001" "000000001000" merchant_a) ∷ [])
        (AlreadyEnrolled ∷ asked merchant_a 1 1000 ∷ []) }
    ensures not_enrolled { GivesParty (book_opening 999999 may_1) (Some merchant_c)
        (setup ++ sent (sale "000001" "000000001000" merchant_c) ∷ [])
        (replied merchant_c (sale_refused "000001" "000000001000" "0501" "03" merchant_c) ∷ []) }
    ensures own_currency { GivesParty (book_opening 999999 may_1) (Some merchant_c)
        (setup ++ Enrol merchant_c (codes "840") 1
        ∷ AddTerminal merchant_c terminal
        ∷ Frame morning
        (codes "0200" ++ codes "7220000000C08000" ++ codes "16" ++ codes "4111111111111111"
        ++ codes "000000" ++ codes "000000001000" ++ codes "0501093000" ++ codes "000001"
        ++ terminal ++ merchant_c ++ codes "840")
        ∷ sent (sale "000002" "000000001000" merchant_c)
        ∷ [])
        (Done ∷ Done
        ∷ asked merchant_c 1 1000
        ∷ replied merchant_c (sale_refused "000002" "000000001000" "0501" "12" merchant_c)
        ∷ []) }
    ensures first_reference { GivesParty (book_opening 999999 may_1) (Some merchant_c)
        (setup ++ Enrol merchant_c (codes "978") 900000000000 ∷ AddTerminal merchant_c terminal
        ∷ sent (sale "000001" "000000001000" merchant_c) ∷ approves "A1B2C3" merchant_c 900000000000
        ∷ [])
        (Done ∷ Done ∷ asked merchant_c 900000000000 1000
        ∷ replied merchant_c
        (sale_approved "000001" "000000001000" "0501" "900000000000" merchant_c) ∷ []) }
{}

/// A terminal is served once it is added at its merchant. What came before isn't recorded. Adding
/// it again changes nothing.
#[tactic(auto, unfolding(crate::proofs::Computing::on_literals))]
pub fn terminals()
    ensures added_later { Gives 999999 merchant_a
        (Frame morning
        (codes "0200" ++ codes "7220000000C08000" ++ codes "16" ++ codes "4111111111111111"
        ++ codes "000000" ++ codes "000000001000" ++ codes "0501093000" ++ codes "000001"
        ++ codes "TERM0009" ++ merchant_a ++ codes "978")
        ∷ AddTerminal merchant_a other_terminal
        ∷ Frame morning
        (codes "0200" ++ codes "7220000000C08000" ++ codes "16" ++ codes "4111111111111111"
        ++ codes "000000" ++ codes "000000001000" ++ codes "0501093000" ++ codes "000001"
        ++ codes "TERM0009" ++ merchant_a ++ codes "978") ∷ [])
        (Reply (Some merchant_a)
        (codes "0210" ++ codes "7222000002C08000" ++ codes "16" ++ codes "4111111111111111"
        ++ codes "000000" ++ codes "000000001000" ++ codes "0501093000" ++ codes "000001"
        ++ codes "0501" ++ codes "03" ++ codes "TERM0009" ++ merchant_a ++ codes "978")
        ∷ Done ∷ asked merchant_a 1 1000 ∷ []) }
    ensures added_at_another_merchant { Gives 999999 merchant_a
        (AddTerminal merchant_b other_terminal
        ∷ Frame morning
        (codes "0200" ++ codes "7220000000C08000" ++ codes "16" ++ codes "4111111111111111"
        ++ codes "000000" ++ codes "000000001000" ++ codes "0501093000" ++ codes "000001"
        ++ codes "TERM0009" ++ merchant_a ++ codes "978")
        ∷ [])
        (Reply (Some merchant_a)
        (codes "0210" ++ codes "7222000002C08000" ++ codes "16" ++ codes "4111111111111111"
        ++ codes "000000" ++ codes "000000001000" ++ codes "0501093000" ++ codes "000001"
        ++ codes "0501" ++ codes "03" ++ codes "TERM0009" ++ merchant_a ++ codes "978")
        ∷ []) }
    ensures added_again { Gives 999999 merchant_a
        (AddTerminal merchant_a terminal ∷ sent (sale "000001" "000000001000" merchant_a) ∷ [])
        (Done ∷ asked merchant_a 1 1000 ∷ []) }
    ensures added_before_its_merchant { GivesParty (book_opening 999999 may_1) (Some merchant_c)
        (setup ++ AddTerminal merchant_c terminal ∷ Enrol merchant_c (codes "978") 1
        ∷ sent (sale "000001" "000000001000" merchant_c)
        ∷ AddTerminal merchant_c terminal
        ∷ sent (sale "000001" "000000001000" merchant_c)
        ∷ [])
        (NoSuchMerchant ∷ Done
        ∷ replied merchant_c (sale_refused "000001" "000000001000" "0501" "03" merchant_c)
        ∷ Done ∷ asked merchant_c 1 1000
        ∷ []) }
    ensures merchant_not_enrolled { GivesParty (book_opening 999999 may_1) (Some merchant_c)
        (setup ++ AddTerminal merchant_c terminal ∷ []) (NoSuchMerchant ∷ []) }
{}
