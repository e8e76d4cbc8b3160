//! Where connections come from, and where they go.

ghost use Rattle.std.specs.Prelude.{◌≡◌, ◌+◌, ◌++◌, ℕ, Bool, not, List, [], ◌∷◌, IfSome, is_some};
ghost use Rattle.std.specs.Prelude.{if◌then◌else◌, OnOk};
ghost use Rattle.acq_core.specs.declared.event.Event.{Event};
ghost use Rattle.acq_core.specs.Tables.{Tables};
ghost use Rattle.acq_front.specs.Stops.{left_of};
ghost use Rattle.acq_rounds.specs.Acts.{Connection};
ghost use Rattle.acq_rounds.specs.Places.{seen};
ghost use Rattle.acq_rounds.specs.Reaching.{ReachesBy};
ghost use Rattle.acq_rounds.specs.Runs.{Following, Group, Grouped, OthersGoOn, Step, Untold};
ghost use Rattle.acq_rounds.specs.Taking.{TellsFault};

use crate::place::Place;
use crate::talk::Talk;
use acq_book::{Book, BookFault};
use acq_front::{Clock, FrontFault, Line};
use acq_host::Host;
use std::alloc::Global;
use std::time::Duration;

/// Where connections come from, and where they go.
pub trait Gate<L: Line, T: Talk> {
    // The connections that ended, as they were then.
    ghost ended: { Self → List Connection };

    // How many connections it gave so far.
    ghost given: { Self → ℕ };

    // Whether it said that no round is to follow.
    ghost has_stopped: { Self → Bool };

    // What whoever else it serves between two groups has had, as control connections have: its
    // type,
    ghost aside: { Type 0 };

    // what they had,
    ghost others: { Self → aside };

    // and what it is that they follow what was done.
    ghost follow: { Following aside };

    // A group is nothing to them,
    ghost past_group: { (t : Tables) (steps : List Step) (g : Group) (had : aside)
        → follow t steps had → follow t (steps ++ Grouped g ∷ []) had };

    // nor are events of which nothing is told.
    ghost past_untold: { (t : Tables) (steps : List Step) (events : List Event)
        (had : aside) → follow t steps had → follow t (steps ++ Untold events ∷ []) had };

    /// Waits until a line has something to do, or a connection comes, and for this time at most, if
    /// one is given; not at all, where one has already. Whether a round is to follow.
    fn wait(&mut self, has_already: bool, at_most: Option<Duration>) -> bool
        ensures given { given self.new ≡ given self.old }
        ensures others { others self.new ≡ others self.old }
        ensures ended { ended self.new ≡ ended self.old }
        ensures stopped { has_stopped self.new ≡ not result };

    /// The number of the next connection whose line has something to do, if one has.
    fn woken(&mut self) -> Option<u64>
        ensures given { given self.new ≡ given self.old }
        ensures others { others self.new ≡ others self.old }
        ensures ended { ended self.new ≡ ended self.old };

    /// The next connection, if one came: nothing has passed over it yet.
    fn next(&mut self) -> Option<(L, T)>
        ensures received { IfSome result (λ c. L.received c.0 ≡ []) }
        ensures sent { IfSome result (λ c. L.sent c.0 ≡ []) }
        ensures held { IfSome result (λ c. T.held c.1 ≡ []) }
        ensures unsent { IfSome result (λ c. T.unsent c.1 ≡ []) }
        ensures given { given self.new ≡ given self.old + (if is_some result then 1 else 0) }
        ensures others { others self.new ≡ others self.old }
        ensures ended { ended self.new ≡ ended self.old };

    /// Does over the host what else is asked of it between two groups, as control connections ask.
    fn between<B: Book + Drop, C: Clock>(
        &mut self,
        alloc: Global,
        host: &mut Host<B>,
        clock: &mut C,
    ) -> Result<(), BookFault>
        ensures given { given self.new ≡ given self.old }
        ensures ended { ended self.new ≡ ended self.old }
        ensures reaches { B.is_honest host.new → B.is_open host.old
            → ReachesBy (B.tables host.old) (left_of B.Book host.new)
            (OthersGoOn follow (B.tables host.old) (others self.old) (others self.new)) result }
        ensures was_honest { B.is_honest host.new → B.is_honest host.old }
        ensures stays_open { B.is_honest host.new → B.is_open host.old
            → OnOk result (B.is_open host.new) }
        ensures given_later { (m : ℕ) → C.may_give clock.new m → C.may_give clock.old m }
        ensures store { TellsFault result (B.failures host.old) (B.failures host.new)
            (B.is_honest host.new → B.is_open host.old → ⊥) };

    /// Whether it looks at the connections in this round, if one of them is to end.
    fn looks(&mut self) -> bool
        ensures given { given self.new ≡ given self.old }
        ensures others { others self.new ≡ others self.old }
        ensures ended { ended self.new ≡ ended self.old };

    /// How a connection is to end now, if it is: one that took too long, for example.
    fn ends(&mut self, place: &Place<L, T>) -> Option<Result<(), FrontFault>>
        ensures given { given self.new ≡ given self.old }
        ensures others { others self.new ≡ others self.old }
        ensures ended { ended self.new ≡ ended self.old };

    /// A turn of this connection was taken, its group is kept, and what was said to it is about to
    /// be written, or its issuer's answer is waited for.
    fn said(&mut self, place: &Place<L, T>)
        ensures given { given self.new ≡ given self.old }
        ensures others { others self.new ≡ others self.old }
        ensures ended { ended self.new ≡ ended self.old };

    /// A connection ended.
    fn part(&mut self, place: Place<L, T>)
        ensures given { given self.new ≡ given self.old }
        ensures others { others self.new ≡ others self.old }
        ensures stopped { has_stopped self.new ≡ has_stopped self.old }
        ensures ended { ended self.new ≡ ended self.old ++ seen L.Line T.Talk place ∷ [] };
}
