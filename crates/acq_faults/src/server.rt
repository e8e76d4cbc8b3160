//! Connections that are served at once.

ghost use Rattle.std.specs.Prelude.{ℕ, List};
ghost use Rattle.acq_faults.specs.Faults.{TellsStore};
ghost use Rattle.acq_faults.specs.Serving.{Serves};
ghost use Rattle.acq_front.specs.Stops.{left_of};
ghost use Rattle.acq_front.specs.Talk.{in_time};
ghost use Rattle.acq_rounds.specs.Acts.{Connection};
ghost use Rattle.acq_rounds.specs.Runs.{Following};

use crate::fault::Fault;
use acq_book::Book;
use acq_front::{Clock, Issuer};
use acq_host::Host;
use acq_link::Sink;
use std::alloc::Global;

/// Serves connections at once.
pub trait Server {
    // The connections that it had, in the order in which they ended.
    ghost had: { Self → List Connection };

    // How many connections it had.
    ghost many: { Self → ℕ };

    // What whoever else it serves meanwhile has had, as control connections have: its type,
    ghost aside: { Type 0 };

    // what they had,
    ghost others: { Self → aside };

    // and what it is that they follow what was done.
    ghost follow: { Following aside };

    /// Serves so many connections over a host, many at once, in rounds: the messages that are ready
    /// are taken in one group. A connection whose issuer answers later waits for that alone, and
    /// may get no answer in time. A connection's fault is a line of `faults`, and the others go on;
    /// want of memory and a fault of the store end it.
    fn serve_all<B: Book + Drop, C: Clock, I: Issuer, F: Sink>(
        &mut self,
        alloc: Global,
        host: &mut Host<B>,
        count: u64,
        clock: &mut C,
        issuer: &mut I,
        faults: &mut F,
    ) -> Result<(), Fault>
        // One list of steps is what the host did, what all connections had, and what others follow.
        ensures serves { B.is_honest host.new → B.is_open host.old
            → Serves (C.may_give clock.old) (in_time (I.may_say issuer.old)) follow
            (B.tables host.old) (left_of B.Book host.new) (others self.old) (others self.new)
            (had self.old) (had self.new) (many self.old) (many self.new) result }
        // The store's fault comes only where a call of it failed, or gave what no host wrote; and
        // with any other end none failed.
        ensures store { TellsStore result (B.failures host.old) (B.failures host.new)
            (B.is_honest host.new → B.is_open host.old → ⊥) };
}
