//! Laws of the books: balance, repeats, sums, conservation and finality, what is accepted and what
//! that posts.

ghost use Rattle.std.specs.Prelude.{List, ℕ};
ghost use Rattle.acq_history.specs.Acceptance.{Admits, AcceptsCompletions, AcceptsReversals};
ghost use Rattle.acq_history.specs.ExactAcceptance.{AdmitsOnly, AdmittedMayBe, CompletesOnly};
ghost use Rattle.acq_history.specs.ExactAcceptance.{ReversesOnly};
ghost use Rattle.acq_history.specs.CheckedValues.{AmountsAreWithin, CardsAreInForce};
ghost use Rattle.acq_history.specs.CheckedValues.{HoldsAreOpenToTheirEnd};
ghost use Rattle.acq_history.specs.CheckedValues.{AcquirersAreNamed, OriginalsStand};
ghost use Rattle.acq_history.specs.SpelledAmounts.{AmountsAreSpelled, RemaindersAreSpelled};
ghost use Rattle.acq_history.specs.SpelledAmounts.{NothingElseRemains, RequestsAreMessages};
ghost use Rattle.acq_history.specs.SaidOutputs.{RepliesGoOut, OnlyRepliesGoOut};
ghost use Rattle.acq_history.specs.SaidOutputs.{QueriesGoOut, OnlyQueriesGoOut};
ghost use Rattle.acq_history.specs.EchoedElements.{RepliesEcho, AnsweredRepliesEcho};
ghost use Rattle.acq_history.specs.Balance.{BalancesExactly};
ghost use Rattle.acq_history.specs.Captures.{CapturesWithinHold, CapturesOnce, ReversesOnce};
ghost use Rattle.acq_history.specs.OpenHolds.{OpenHoldsAreCapturable, ApprovedHoldsAreOpen};
ghost use Rattle.acq_history.specs.OpenHolds.{LoweredHoldsStayOpen};
ghost use Rattle.acq_history.specs.KeptRepeats.{RepeatsAreKept, OthersAreDuplicates};
ghost use Rattle.acq_history.specs.KeptRepeats.{OnlyRepeatsAreKept};
ghost use Rattle.acq_history.specs.DaySums.{SumsAreTotals};
ghost use Rattle.acq_history.specs.Conservation.{Conserves, NeverExceeds};
ghost use Rattle.acq_history.specs.Cleared.{ClearsAsTold};
ghost use Rattle.acq_history.specs.ClearedRequests.{ClearsByRequest, ClearsUnderItsLeg};
ghost use Rattle.acq_history.specs.ClearedReplies.{RepliesNameWhatClears};
ghost use Rattle.acq_history.specs.ToldEffects.{DoesAsTold};
ghost use Rattle.acq_history.specs.IssuersCodes.{TellsIssuersCodes, TellsIssuersIds};
ghost use Rattle.acq_history.specs.Finality.{IsFinal};
ghost use Rattle.acq_history.specs.PostedRows.{ApprovalsPost, CompletionsPost, ReversalsPost};
ghost use Rattle.acq_history.specs.PostedRows.{NothingElsePosts, TablesPost};

/// Every reconciliation by a merchant's own terminal, under a new key, whose day resolves gets the
/// totals over its merchant's own postings of that day, and its reply says that it is in balance
/// exactly where these are what it claims.
pub fn reconciliations_balance_exactly()
    ensures { (m : List ℕ) → BalancesExactly m }
{}

/// A request whose key is recorded with the same essence gets the reply that was kept, or the
/// output that it has to wait or comes too late. With another essence it is told 94, and a kept
/// reply is given again to no other request.
pub fn repeats_are_kept()
    ensures kept { (m : List ℕ) → RepeatsAreKept m }
    ensures others { (m : List ℕ) → OthersAreDuplicates m }
    ensures only { (m : List ℕ) → OnlyRepeatsAreKept m }
{}

/// The sums by leg of a merchant among a day's postings are its totals of the day.
pub fn sums_are_totals()
    ensures { SumsAreTotals }
{}

/// Nothing is posted twice and nothing reversed twice, whatever comes: of each merchant and
/// reference there is at most one posting of an original and at most one of a reversal, and where a
/// reversal stands, so does its original, earlier, of the same card and of no smaller amount.
pub fn postings_are_conserved()
    ensures { Conserves }
{}

/// No more is reversed than was posted, whatever comes: of each merchant and reference the amounts
/// of reversals never sum up to more than those of originals.
pub fn reversals_never_exceed()
    ensures { NeverExceeds }
{}

/// Once a day is past and none of its requests is pending, its postings stay as they are.
pub fn closed_days_are_final()
    ensures { IsFinal }
{}

/// A request that passes every check, each said in the words of its merchant's history, is admitted
/// or accepted.
pub fn requests_are_accepted()
    ensures admitted { (m : List ℕ) → Admits m }
    ensures completions { (m : List ℕ) → AcceptsCompletions m }
    ensures reversals { (m : List ℕ) → AcceptsReversals m }
{}

/// Only a request that passes every check is asked about, and only a completion or a reversal that
/// does is told 00: the converse of [`requests_are_accepted`].
pub fn only_such_are_accepted()
    ensures asked { (m : List ℕ) → AdmitsOnly m }
    ensures admitted { (m : List ℕ) → AdmittedMayBe m }
    ensures completions { (m : List ℕ) → CompletesOnly m }
    ensures reversals { (m : List ℕ) → ReversesOnly m }
{}

/// What the checks let pass, and only that, in numbers and in entries: an accepted amount, a card
/// that is in force, a hold up to its end, an original's acquirer, and an original that stands.
pub fn checks_let_pass()
    ensures amounts { AmountsAreWithin }
    ensures cards { CardsAreInForce }
    ensures holds { HoldsAreOpenToTheirEnd }
    ensures acquirers { AcquirersAreNamed }
    ensures originals { OriginalsStand }
{}

/// The amounts that elements 4 and 95 of a message say are those of their digits; and each request
/// that the first check passes is a message.
pub fn amounts_are_spelled()
    ensures messages { RequestsAreMessages }
    ensures amounts { AmountsAreSpelled }
    ensures remainders { RemaindersAreSpelled }
    ensures nothing { NothingElseRemains }
{}

/// No more is captured than was held: an accepted completion captures of an approved hold at most
/// what was authorized and what a reversal let remain, once, and not behind its last second. What
/// the rows of open holds say is just what can still be captured; and an approved hold is open for
/// its hold days, unless it was completed or undone; one that was lowered is, with what was let
/// remain of it.
pub fn captures_stay_within_holds()
    ensures within { (m : List ℕ) → CapturesWithinHold m }
    ensures once { (m : List ℕ) → CapturesOnce m }
    ensures reversed { (m : List ℕ) → ReversesOnce m }
    ensures listed { (m : List ℕ) → OpenHoldsAreCapturable m }
    ensures open_until { (m : List ℕ) → ApprovedHoldsAreOpen m }
    ensures lowered { (m : List ℕ) → LoweredHoldsStayOpen m }
{}

/// What each event of a merchant's posts: an approved sale or return, an accepted completion and an
/// accepted reversal of what an earlier entry has posted exactly one row each, and nothing else
/// posts. So it is with its rows in the tables.
pub fn entries_post_exactly()
    ensures approvals { (m : List ℕ) → ApprovalsPost m }
    ensures completions { (m : List ℕ) → CompletionsPost m }
    ensures reversals { (m : List ℕ) → ReversalsPost m }
    ensures others { (m : List ℕ) → NothingElsePosts m }
    ensures tables { (m : List ℕ) → TablesPost m }
{}

/// What goes out is what was told and what was asked: a reply, made now or kept, in its own
/// spelling for the merchant that was named, and a query as it stands. Nothing else goes out as
/// either.
pub fn outcomes_go_out()
    ensures replies { RepliesGoOut }
    ensures only_replies { OnlyRepliesGoOut }
    ensures queries { QueriesGoOut }
    ensures only_queries { OnlyQueriesGoOut }
{}

/// What was told is what clears. The rows of a merchant's postings are one for each reply that said
/// 00 to what moves money, in that order, and no other; so those of a day are one for each recorded
/// request of that day whose reply says so, under the leg of what was asked for. Each such reply
/// names its posting. Of what is about a card 00 is told exactly where a request is approved,
/// completes a hold or reverses its original; and what an issuer says, its code and its
/// authorization id, is told as it was given.
pub fn told_is_cleared()
    ensures clears { (m : List ℕ) → ClearsAsTold m }
    ensures requests { (m : List ℕ) → ClearsByRequest m }
    ensures legs { ClearsUnderItsLeg }
    ensures named { (m : List ℕ) → RepliesNameWhatClears m }
    ensures done { (m : List ℕ) → DoesAsTold m }
    ensures issuers { (m : List ℕ) → TellsIssuersCodes m }
    ensures ids { (m : List ℕ) → TellsIssuersIds m }
{}

/// Each reply, whatever its code is, has what its request said in elements 2, 3, 4, 7, 11, 12, 13,
/// 41, 42 and 49, a completion's also in 37, and one of network management also in 70: as it came,
/// or nothing where the request had nothing. So has the reply to a request that an issuer answers.
pub fn requests_are_echoed()
    ensures replies { RepliesEcho }
    ensures answered { (m : List ℕ) → AnsweredRepliesEcho m }
{}
