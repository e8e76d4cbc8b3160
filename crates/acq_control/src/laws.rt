//! Laws of control connections and terminals to one host.

ghost use Rattle.std.specs.Prelude.{◌≢◌, ℕ, List, [], ◌∷◌, ◌++◌};
ghost use Rattle.acq_core.specs.declared.event.Event.{Event};
ghost use Rattle.acq_core.specs.Tables.{Tables};
ghost use Rattle.acq_control.specs.Log.{Act, FollowsActs, served_by};

/// Each control connection follows what was done for all connections to a host: whatever is asked
/// on the others, and whatever terminals send, it gets the answers to its own lines.
pub fn connections_follow()
    // At first.
    ensures nothing { (k : ℕ) (t : Tables) → FollowsActs k t [] [] [] [] [] 0 }
    // Something was done for another.
    ensures other { (k : ℕ) (t : Tables) (acts : List Act) (a : Act)
        (input output held unsent : List ℕ) (taken : ℕ)
        → FollowsActs k t acts input output held unsent taken → a.connection ≢ k
        → FollowsActs k t (acts ++ a ∷ []) input output held unsent taken }
    // A terminal was served.
    ensures served { (k j : ℕ) (t : Tables) (acts : List Act) (events : List Event)
        (input output held unsent : List ℕ) (taken : ℕ)
        → FollowsActs k t acts input output held unsent taken
        → FollowsActs k t (acts ++ served_by j events ∷ []) input output held unsent taken }
{}
