//! Isolation: what a party gets depends on its own events and the shared ones alone.

ghost use Rattle.std.specs.Prelude.{ℕ, List};
ghost use Rattle.acq_history.specs.PartyHistory.{Party};
ghost use Rattle.acq_history.specs.Isolation.{IsIsolated, IsSameInTwoRuns, PostsAlone};
ghost use Rattle.acq_history.specs.Isolation.{HoldsAlone};
ghost use Rattle.acq_history.specs.Reconciliations.{ReconcilesAlone};
ghost use Rattle.acq_history.specs.Splitting.{SplitsOverHosts};
ghost use Rattle.acq_history.specs.QuietRepeats.{RepeatsAreQuiet};

/// What each merchant gets, and what goes out for nobody, depends on its own events and the shared
/// ones alone; so do a merchant's postings, its open holds and its reconciliations.
pub fn isolation()
    ensures isolated { (party : Party) → IsIsolated party }
    ensures two_runs { (party : Party) → IsSameInTwoRuns party }
    ensures posted { (m : List ℕ) → PostsAlone m }
    ensures holds { (m : List ℕ) → HoldsAlone m }
    ensures reconciled { (m : List ℕ) → ReconcilesAlone m }
{}

/// However merchants are split over hosts, each gets what it gets from one host.
pub fn splitting()
    ensures { SplitsOverHosts }
{}

/// A repeat changes nothing of what the merchant gets of all else.
pub fn quiet_repeats()
    ensures quiet { (m : List ℕ) → RepeatsAreQuiet m }
{}
