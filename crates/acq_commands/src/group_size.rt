//! How many events are taken at once.

ghost use Rattle.std.specs.Prelude.{◌≡◌, ◌+◌, ◌<◌, min, true, SomeIff};
ghost use Rattle.acq_commands.specs.Groups.{is_group_size};

use std::marker::Model;

/// How many events are taken in one group, from 1 to 10,000 (own profile). Contracts see it as a
/// number.
#[derive(Clone, Copy)]
pub struct GroupSize {
    events: usize,
}

impl Model for GroupSize {
    ghost use Rattle.std.specs.Prelude.{ℕ, ◌≡◌, true};
    ghost use Rattle.acq_commands.specs.Groups.{is_group_size};

    ghost Value = { ℕ };

    ghost view = { λ x. x.events };

    ghost invariant = { λ x. is_group_size x.events ≡ true };

    ghost inverse = { λ n. record { events = n } };
}

impl GroupSize {
    /// Groups of so many events, or `None` outside the range.
    pub fn new(events: usize) -> Option<GroupSize>
        ensures { SomeIff result (is_group_size events ≡ true) events }
    {
        if (1..=10_000).contains(&events) {
            Some(GroupSize { events })
        } else {
            None
        }
    }

    /// Groups of one event.
    pub fn one() -> GroupSize
        ensures { result ≡ 1 }
    {
        GroupSize { events: 1 }
    }

    /// Where the group ends that begins behind so many of all events: the last may be shorter.
    pub(crate) fn end_behind(self, taken: usize, events: usize) -> usize
        requires { taken < events }
        ensures end { result ≡ min (taken + self) events }
        ensures more { taken < result }
    {
        if self.events < events - taken {
            taken + self.events
        } else {
            events
        }
    }
}
