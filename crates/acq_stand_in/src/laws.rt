//! Answers read back as events, and worked rows of the definitions.

ghost use Rattle.std.specs.Prelude.{◌≡◌, ℕ, true, List, [], ◌∷◌, ◌++◌, Option, Some, None};
ghost use Rattle.std.specs.Prelude.{Ok, Err, codes};
ghost use Rattle.acq_core.specs.Pasts.{HasPast};
ghost use Rattle.acq_core.specs.Tables.{Tables};
ghost use Rattle.acq_message.specs.Moments.{is_moment};
ghost use Rattle.acq_stand_in.specs.Answers.{answers_of_text, verdict_for, takes_for};
ghost use Rattle.acq_stand_in.specs.Pending.{AreVerdicts, ReadsAsAnswers, pending_text};
ghost use Rattle.acq_stand_in.specs.declared.card_answer.CardAnswer.{CardAnswer};
ghost use Rattle.acq_stand_in.specs.Worked.{approving, approving_later, declining, silent};
ghost use Rattle.acq_stand_in.specs.Worked.{of_no_card, worked_tables};

/// What is written of a book's waiting requests reads back as event lines: an answer to each, in
/// order, at the moment, for its merchant and its reference, with the verdict on its card.
pub fn answers_read_back()
    ensures { (answers : List CardAnswer) (moment : ℕ) (day : Option ℕ) (t : Tables)
        → is_moment moment ≡ true → AreVerdicts answers → HasPast t
        → ReadsAsAnswers answers moment day t }
{}

/// Files, computed.
pub fn worked_files()
    ensures empty { answers_of_text [] ≡ Ok [] }
    ensures approved { answers_of_text (codes "4111111111111111,approved,A1B2C3\n")
        ≡ Ok (approving ∷ []) }
    ensures three { answers_of_text (codes "4111111111111111,approved,A1B2C3\r\n"
        ++ codes "5500005555555559,declined,51\n5500005555555559,none,")
        ≡ Ok (approving ∷ declining ∷ silent ∷ []) }
    ensures no_card { answers_of_text (codes "4111111111111112,declined,51\n")
        ≡ Ok (of_no_card ∷ []) }
    ensures two_fields { answers_of_text (codes "4111111111111111,none\n") ≡ Err 1 }
    ensures four_fields { answers_of_text (codes "4111111111111111,approved,A1B2C3,250\n")
        ≡ Ok (approving_later ∷ []) }
    ensures seven_digits { answers_of_text (codes "4111111111111111,approved,A1B2C3,0000250\n")
        ≡ Ok (approving_later ∷ []) }
    ensures eight_digits { answers_of_text (codes "4111111111111111,approved,A1B2C3,12345678\n")
        ≡ Err 1 }
    ensures no_digits { answers_of_text (codes "4111111111111111,none,,\n") ≡ Err 1 }
    ensures letter { answers_of_text (codes "4111111111111111,none,,1s\n") ≡ Err 1 }
    ensures five_fields { answers_of_text (codes "4111111111111111,approved,A1B2C3,250,\n")
        ≡ Err 1 }
    ensures code_00 { answers_of_text
        (codes "4111111111111111,approved,A1B2C3\n4111111111111111,declined,00\n") ≡ Err 2 }
    ensures short_id { answers_of_text (codes "4111111111111111,approved,A1B2C\n") ≡ Err 1 }
    ensures text { answers_of_text (codes "4111111111111111,none,91\n") ≡ Err 1 }
    ensures word { answers_of_text (codes "4111111111111111,Approved,A1B2C3\n") ≡ Err 1 }
{}

/// Verdicts, computed: the first answer for the card decides.
pub fn worked_verdicts()
    ensures approved { verdict_for (approving ∷ declining ∷ []) (codes "4111111111111111")
        ≡ approving.verdict }
    ensures first { verdict_for (declining ∷ silent ∷ []) (codes "5500005555555559")
        ≡ declining.verdict }
    ensures other { verdict_for (of_no_card ∷ declining ∷ []) (codes "4111111111111111")
        ≡ silent.verdict }
{}

/// Milliseconds, computed: those of the first answer for the card.
pub fn worked_times()
    ensures at_once { takes_for (approving ∷ approving_later ∷ []) (codes "4111111111111111") ≡ 0 }
    ensures later { takes_for (declining ∷ approving_later ∷ []) (codes "4111111111111111") ≡ 250 }
    ensures other { takes_for (approving_later ∷ []) (codes "5500005555555559") ≡ 0 }
{}

/// Answers to what waits, computed: by a file's answers, and by none.
pub fn worked_pending()
    ensures all { pending_text (approving ∷ declining ∷ []) 1714608000 None worked_tables
        ≡ codes "answer,1714608000,MERCHANT0000001,000000000012,approved,A1B2C3\n"
        ++ codes "answer,1714608000,\"SHOES, BAGS&CO \",000000000007,declined,51\n" }
    ensures one_day { pending_text (declining ∷ []) 946684800 (Some 8887) worked_tables
        ≡ codes "answer,946684800,MERCHANT0000001,000000000012,none,\n" }
    ensures no_file { pending_text [] 1714608000 (Some 8888) worked_tables
        ≡ codes "answer,1714608000,\"SHOES, BAGS&CO \",000000000007,none,\n" }
    ensures other_day { pending_text [] 1714608000 (Some 8886) worked_tables ≡ [] }
{}
