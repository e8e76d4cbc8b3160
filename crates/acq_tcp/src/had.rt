//! How many connections came. Only proofs read it: it takes no memory, and its methods do nothing
//! at run time.

ghost use Rattle.std.specs.Prelude.{◌≡◌, ◌+◌, ℕ};
ghost use Rattle.std.specs.Borrow.{ftrue};

use std::marker::Model;

/// So many more.
#[derive(Clone, Copy, Drop)]
pub(crate) struct Given {
    pub(crate) number: u64,
}

/// How many connections came, however many: no number of the machine is large enough for all.
#[derive(Drop)]
pub(crate) struct Had {
    pub ghost count: { ℕ },
}

impl Model for Had {
    ghost also_owns = { λ _. ftrue };
}

impl Had {
    ghost use Rattle.acq_tcp.specs.Had.{IsMore, IsNone};

    /// None came yet.
    pub(crate) fn none() -> Had
        ensures { IsNone result }
    {
        Had {}
    }

    /// These came, and then so many more.
    pub(crate) fn plus(&self, _more: &Given) -> Had
        ensures { IsMore self.now _more.now result }
    {
        Had {}
    }
}
