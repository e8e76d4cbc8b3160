//! Laws of all that a gateway gets over one connection.

ghost use Rattle.std.specs.Prelude.{◌≡◌, ◌++◌, ◌∷◌, [], ℕ, List, Some, None, codes};
ghost use Rattle.acq_gateway.specs.declared.gateway.Gateway.{Gateway};
ghost use Rattle.acq_gateway.specs.Telling.{IsNew, bad_line, missing_line, outcome_line};
ghost use Rattle.acq_gateway.specs.Telling.{unsent_of};
ghost use Rattle.acq_gateway_lines.specs.declared.answer_outcome.AnswerOutcome.TheVariants.{Done};
ghost use Rattle.acq_gateway_lines.specs.declared.answer_outcome.AnswerOutcome.TheVariants.{Late};
ghost use Rattle.acq_gateway_lines.specs.Lines.{row_line};
ghost use Rattle.acq_gateway_lines.specs.Slices.{lines_of};
ghost use Rattle.acq_gateway_stream.specs.Stream.{AreSteps, AskNothing, Follow, Step};
ghost use Rattle.acq_gateway_stream.specs.Stream.{behind, pieces_by, told_by, wrote_by};
ghost use Rattle.acq_gateway_stream.specs.Worked.{merchant, message, waiting_sale, worked_tables};

/// What was written of a connection, and behind it what is still to be written, is what its steps
/// told, one behind the other.
pub fn what_goes_out_is_what_was_told()
    ensures { (gateway : Gateway) (steps : List Step) → IsNew gateway → AreSteps gateway steps
        → wrote_by steps ++ unsent_of (behind gateway steps) ≡ told_by steps }
{}

/// A gateway that was told so many rows, and asks for none anew, gets the lines of the rows behind
/// them in pieces, of which each begins where the last one ended, up to the rows that it was told.
pub fn rows_follow_one_another()
    ensures { (gateway : Gateway) (steps : List Step) (begin : ℕ)
        → gateway.rows ≡ Some begin → gateway.from ≡ None
        → (are : AreSteps gateway steps) → AskNothing gateway steps are
        → (end : ℕ) × ((behind gateway steps).rows ≡ Some end)
        × Follow begin (pieces_by gateway steps are) end }
{}

/// Lines of rows, computed: what was asked of an issuer, a completion, what ended without an
/// answer, and a reversal in part; nothing of what was approved, and of what was declined.
pub fn worked_lines()
    ensures query { row_line worked_tables 1714555800 (message ∷ []) 1 waiting_sale
        ≡ codes "query,1,MERCHANT0000001,000000000001,financial,debit,4111111111111111,1000,"
        ++ codes "978,12345,1714555800,303A\n" }
    ensures again { row_line worked_tables 1714555801 [] 1 waiting_sale
        ≡ codes "query,1,MERCHANT0000001,000000000001,financial,debit,4111111111111111,1000,"
        ++ codes "978,12345,1714555801,\n" }
    ensures rows { lines_of worked_tables 1714555800 [] 0 worked_tables.requests
        ≡ codes "query,1,MERCHANT0000001,000000000001,financial,debit,4111111111111111,1000,"
        ++ codes "978,12345,1714555800,\n"
        ++ codes "advice,3,MERCHANT0000001,000000000002,completion,authorization,"
        ++ codes "4111111111111111,1000,0,978,12345\n"
        ++ codes "advice,4,MERCHANT0000001,000000000003,timeout,financial,"
        ++ codes "4111111111111111,1000,0,978,12345\n"
        ++ codes "advice,7,MERCHANT0000001,000000000005,reversal,financial,"
        ++ codes "4111111111111111,600,400,978,12345\n" }
{}

/// What else a gateway is told, computed.
pub fn worked_words()
    ensures done { outcome_line merchant 7 Done ≡ codes "done,MERCHANT0000001,000000000007\n" }
    ensures late { outcome_line merchant 7 Late
        ≡ codes "refused,33,MERCHANT0000001,000000000007\n" }
    ensures missing { missing_line 20 ≡ codes "acqd: 65 RowsMissing 20\n" }
    ensures bad { bad_line 3 ≡ codes "acqd: 62 BadLine 3\n" }
{}
