//! What tells the moment.

ghost use Rattle.std.specs.Prelude.{ℕ, List, Option, None};
ghost use Rattle.acq_front.specs.Coming.{GivesNext};
ghost use Rattle.acq_front.specs.Talk.{first_moment};

use acq_core::Moment;

/// What tells the moment at which something comes.
pub trait Clock {
    // The moments that it will give, where they are known. Past them it gives the first that there
    // is.
    ghost coming: { Self → Option (List ℕ) } = { λ _. None };

    // The moments that it may give, now or later.
    ghost may_give: { Self → ℕ → Type 0 } = { λ _ _. Unit {0} };

    /// The moment.
    fn now(&mut self) -> Moment
        ensures coming { GivesNext first_moment (coming self.old) (coming self.new) result }
        ensures given { may_give self.old result }
        ensures later { (m : ℕ) → may_give self.new m → may_give self.old m };
}
