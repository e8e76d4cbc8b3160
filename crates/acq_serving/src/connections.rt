//! Connections that come one after the other.

ghost use Rattle.std.specs.Prelude.{◌≡◌, ◌+◌, ◌++◌, ℕ, List};
ghost use Rattle.std.specs.List.{All};
ghost use Rattle.acq_front.specs.Coming.{GivesAll};
ghost use Rattle.acq_front.specs.Faults.{TellsStore, UnlessRefused, failed_reads, failed_writes};
ghost use Rattle.acq_serving.specs.Passing.{CameOver, FailsOver, PassesOver};
ghost use Rattle.acq_serving.specs.Serving.{Connection, FrameCame, Serves};
ghost use Rattle.acq_front.specs.Stops.{left_of};
ghost use Rattle.acq_front.specs.Talk.{first_moment};

use crate::serving::serve;
use acq_book::Book;
use acq_core::{Query, Verdict};
use acq_front::{Clock, FrontFault, Issuer};
use acq_host::Host;
use acq_link::{Sink, Source};
use std::alloc::Global;

/// Connections that come one after the other.
pub trait Connections {
    // What came over them so far, one behind the other.
    ghost received: { Self → List ℕ };

    // What went out over them so far, one behind the other.
    ghost sent: { Self → List ℕ };

    // How many reads failed so far. A connection that couldn't be had is one.
    ghost read_failures: { Self → ℕ };

    // How many writes failed so far.
    ghost write_failures: { Self → ℕ };

    /// Waits for the next connection, and serves it to its end. One that can't be had is a failed
    /// read.
    fn serve_next<B: Book + Drop, C: Clock, I: Issuer>(
        &mut self,
        alloc: Global,
        host: &mut Host<B>,
        clock: &mut C,
        issuer: &mut I,
    ) -> Result<(), FrontFault>
        ensures served { B.is_honest host.new → B.is_open host.old → (c : Connection)
            × (received self.new ≡ received self.old ++ c.input)
            × (sent self.new ≡ sent self.old ++ c.output)
            × GivesAll first_moment (C.coming clock.old) (C.coming clock.new) c.moments
            × All (C.may_give clock.old) c.moments
            × GivesAll Verdict.NoAnswer (I.coming issuer.old) (I.coming issuer.new) c.verdicts
            × Serves (I.may_say issuer.old) (B.tables host.old)
            (left_of B.Book host.new) c result }
        ensures was_honest { B.is_honest host.new → B.is_honest host.old }
        ensures said_later { (q : Query) (v : Verdict) → I.may_say issuer.new q v
            → I.may_say issuer.old q v }
        ensures given_later { (m : ℕ) → C.may_give clock.new m → C.may_give clock.old m }
        // The book stays open, save where memory or the store refused a call.
        ensures stays_open { B.is_honest host.new → B.is_open host.old
            → UnlessRefused result (B.is_open host.new) }
        // A fault of reading or writing comes only where a read or a write failed.
        ensures reads { read_failures self.new ≡ read_failures self.old + failed_reads result }
        ensures writes { write_failures self.new ≡ write_failures self.old + failed_writes result }
        // The store's fault comes only where a call of it failed, or gave for a message that came
        // what no host wrote; and with any other end none failed.
        ensures store { TellsStore result (B.failures host.old) (B.failures host.new)
            (FrameCame (received self.old) (received self.new)
            × (B.is_honest host.new → B.is_open host.old → ⊥)) };
}

/// Serves the connection that has these two ends to its end. Without them none was had, which is a
/// failed read.
pub fn serve_ends<B: Book + Drop, S: Source + Drop, K: Sink + Drop, C: Clock, I: Issuer>(
    alloc: Global,
    host: &mut Host<B>,
    ends: &mut Option<(S, K)>,
    clock: &mut C,
    issuer: &mut I,
) -> Result<(), FrontFault>
    ensures served { B.is_honest host.new → B.is_open host.old → (c : Connection)
        × PassesOver S.received K.sent ends.old ends.new c
        × GivesAll first_moment (C.coming clock.old) (C.coming clock.new) c.moments
        × All (C.may_give clock.old) c.moments
        × GivesAll Verdict.NoAnswer (I.coming issuer.old) (I.coming issuer.new) c.verdicts
        × Serves (I.may_say issuer.old) (B.tables host.old)
        (left_of B.Book host.new) c result }
    ensures was_honest { B.is_honest host.new → B.is_honest host.old }
    ensures said_later { (q : Query) (v : Verdict) → I.may_say issuer.new q v
        → I.may_say issuer.old q v }
    ensures given_later { (m : ℕ) → C.may_give clock.new m → C.may_give clock.old m }
    ensures stays_open { B.is_honest host.new → B.is_open host.old
        → UnlessRefused result (B.is_open host.new) }
    // A fault of reading or writing comes only where a read or a write of theirs failed.
    ensures fails { FailsOver S.failures K.failures ends.old ends.new result }
    ensures store { TellsStore result (B.failures host.old) (B.failures host.new)
        (CameOver S.received FrameCame ends.old ends.new
        × (B.is_honest host.new → B.is_open host.old → ⊥)) }
{
    match ends {
        Some((source, sink)) => serve(alloc, host, source, sink, clock, issuer),
        None => Err(FrontFault::Read),
    }
}
