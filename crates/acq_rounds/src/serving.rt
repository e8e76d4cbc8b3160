//! A run from nothing.

ghost use Rattle.std.specs.Prelude.{◌≡◌, [], OnErr, OnOk};
ghost use Rattle.acq_front.specs.Stops.{left_of};
ghost use Rattle.acq_rounds.specs.Runs.{IsLast, ServedOn, ServedUntil};
ghost use Rattle.acq_rounds.specs.Taking.{TellsFault};

use crate::gate::Gate;
use crate::rounds::Rounds;
use crate::talk::Talk;
use acq_book::{Book, BookFault};
use acq_front::{Clock, Issuer, Line};
use acq_host::Host;
use std::alloc::Global;

/// Serves so many rounds at most, from no connection on, until the gate says that none is to
/// follow, and then parts with all that are open.
pub fn serve<L: Line + Drop, T: Talk + Drop, B: Book + Drop, C: Clock, I: Issuer, G: Gate<L, T>>(
    alloc: Global,
    host: &mut Host<B>,
    clock: &mut C,
    issuer: &mut I,
    gate: &mut G,
    rounds: u64,
) -> Result<(), BookFault>
    requires none_ended { G.ended gate.old ≡ [] }
    requires none_given { G.given gate.old ≡ 0 }
    ensures served { B.is_honest host.new → B.is_open host.old → OnOk result
        (ServedOn (C.may_give clock.old) (I.may_say issuer.old) G.follow (B.tables host.old)
        (left_of B.Book host.new) (G.ended gate.new) (G.given gate.new) (G.others gate.old)
        (G.others gate.new) (IsLast rounds (G.has_stopped gate.new))) }
    // Where memory or the store refused something.
    ensures stopped { B.is_honest host.new → B.is_open host.old → OnErr result
        (ServedUntil (C.may_give clock.old) (I.may_say issuer.old) G.follow (B.tables host.old)
        (left_of B.Book host.new) (G.ended gate.new) (G.given gate.new) (G.others gate.old)
        (G.others gate.new)) }
    ensures was_honest { B.is_honest host.new → B.is_honest host.old }
    ensures stays_open { B.is_honest host.new → B.is_open host.old
        → OnOk result (B.is_open host.new) }
    // The store's fault comes only where a call of it failed, or gave what no host wrote; and with
    // any other end none failed.
    ensures store { TellsFault result (B.failures host.old) (B.failures host.new)
        (B.is_honest host.new → B.is_open host.old → ⊥) }
{
    let mut served = Rounds::new(alloc);
    let result = served.serve_all(host, clock, issuer, gate, rounds);
    served.part_all(gate);
    result
}
