//! Connections served, one after the other or at once.

ghost use Rattle.std.specs.Prelude.{◌≡◌, ℕ, OnOk};
ghost use Rattle.acq_core.specs.Pasts.{HasPast};
ghost use Rattle.acq_front.specs.Stops.{left_of};
ghost use Rattle.acq_front.specs.Talk.{in_time};
ghost use Rattle.acq_faults.specs.Faults.{TellsStore};
ghost use Rattle.acq_faults.specs.Serving.{Serves};
ghost use Rattle.acq_commands.specs.Listening.{Served, ServesConnections};
ghost use Rattle.acq_faults.specs.Ends.{going_on};
ghost use Rattle.acq_commands.specs.Listening.{ServesOne, traffic};
ghost use Rattle.acq_commands.specs.Listening.{with_served};

use acq_book::Book;
use acq_core::{Query, Verdict};
use acq_faults::{Fault, Server, end_connection};
use acq_front::{Clock, Issuer};
use acq_host::Host;
use acq_link::Sink;
use acq_serving::Connections;
use std::alloc::Global;

/// Serves so many connections over a book, one after the other. A connection's fault is a line of
/// `faults`, and the next one is served; want of memory and a fault of the store end it. The book
/// is given back with how it ended.
pub fn listen_on<B: Book + Drop, N: Connections, C: Clock, I: Issuer, F: Sink>(
    alloc: Global,
    book: B,
    connections: &mut N,
    count: u64,
    clock: &mut C,
    issuer: &mut I,
    faults: &mut F,
) -> (B, Result<(), Fault>)
    requires past { B.is_open book → HasPast (B.tables book) }
    // How they were served, over the book that is left.
    ensures served { B.is_honest result.0 → B.is_open book
        → ServesConnections (C.may_give clock.old) (I.may_say issuer.old) (B.tables book)
        (left_of B.Book result.0)
        (traffic N.received N.sent N.read_failures N.write_failures connections.old)
        (traffic N.received N.sent N.read_failures N.write_failures connections.new)
        count result.1 }
    // The store's fault comes only where a call of it failed, or gave what no host wrote; and with
    // any other end none failed.
    ensures store { TellsStore result.1 (B.failures book) (B.failures result.0)
        (B.is_honest result.0 → B.is_open book → ⊥) }
{
    let mut host = Host::new(alloc, book);
    let ended = serve_all(alloc, &mut host, connections, count, clock, issuer, faults);
    (host.into_book(), ended)
}

/// Serves so many connections over a book, many at once. A connection's fault is a line of
/// `faults`, and the others go on; want of memory and a fault of the store end it. The book is
/// given back with how it ended.
pub fn listen_together_on<B: Book + Drop, N: Server, C: Clock, I: Issuer, F: Sink>(
    alloc: Global,
    book: B,
    server: &mut N,
    count: u64,
    clock: &mut C,
    issuer: &mut I,
    faults: &mut F,
) -> (B, Result<(), Fault>)
    requires past { B.is_open book → HasPast (B.tables book) }
    // One list of steps is what the book that is left has in addition, what all connections had,
    // and what others follow.
    ensures serves { B.is_honest result.0 → B.is_open book
        → Serves (C.may_give clock.old) (in_time (I.may_say issuer.old)) N.follow (B.tables book)
        (left_of B.Book result.0) (N.others server.old) (N.others server.new)
        (N.had server.old) (N.had server.new) (N.many server.old) (N.many server.new) result.1 }
    ensures store { TellsStore result.1 (B.failures book) (B.failures result.0)
        (B.is_honest result.0 → B.is_open book → ⊥) }
{
    let mut host = Host::new(alloc, book);
    let ended = server.serve_all(alloc, &mut host, count, clock, issuer, faults);
    (host.into_book(), ended)
}

/// Serves so many connections over a host.
fn serve_all<B: Book + Drop, N: Connections, C: Clock, I: Issuer, F: Sink>(
    alloc: Global,
    host: &mut Host<B>,
    connections: &mut N,
    count: u64,
    clock: &mut C,
    issuer: &mut I,
    faults: &mut F,
) -> Result<(), Fault>
    ensures served { B.is_honest host.new → B.is_open host.old
        → ServesConnections (C.may_give clock.old) (I.may_say issuer.old) (B.tables host.old)
        (left_of B.Book host.new)
        (traffic N.received N.sent N.read_failures N.write_failures connections.old)
        (traffic N.received N.sent N.read_failures N.write_failures connections.new)
        count result }
    ensures store { TellsStore result (B.failures host.old) (B.failures host.new)
        (B.is_honest host.new → B.is_open host.old → ⊥) }
{
    for _ in 0..count {
        serve_one(alloc, host, connections, clock, issuer, faults)?;
    }
    Ok(())
}

/// Serves one connection over a host, and tells its fault.
fn serve_one<B: Book + Drop, N: Connections, C: Clock, I: Issuer, F: Sink>(
    alloc: Global,
    host: &mut Host<B>,
    connections: &mut N,
    clock: &mut C,
    issuer: &mut I,
    faults: &mut F,
) -> Result<(), Fault>
    ensures served { B.is_honest host.new → B.is_open host.old → (s : Served)
        × ServesOne (C.may_give clock.old) (I.may_say issuer.old) (B.tables host.old)
        (left_of B.Book host.new) s
        × (traffic N.received N.sent N.read_failures N.write_failures connections.new
        ≡ with_served (traffic N.received N.sent N.read_failures N.write_failures connections.old)
        s)
        × (result ≡ going_on s.ended) }
    ensures was_honest { B.is_honest host.new → B.is_honest host.old }
    ensures stays_open { B.is_honest host.new → B.is_open host.old
        → OnOk result (B.is_open host.new) }
    ensures said_later { (q : Query) (v : Verdict) → I.may_say issuer.new q v
        → I.may_say issuer.old q v }
    ensures given_later { (m : ℕ) → C.may_give clock.new m → C.may_give clock.old m }
    ensures store { TellsStore result (B.failures host.old) (B.failures host.new)
        (B.is_honest host.new → B.is_open host.old → ⊥) }
{
    let ended = connections.serve_next(alloc, host, clock, issuer);
    end_connection(ended, faults)
}
