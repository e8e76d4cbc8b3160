//! One connection, from its first byte on.

ghost use Rattle.std.specs.Prelude.{◌≡◌, ◌+◌, ◌≤◌, ◌++◌, ℕ, List};
ghost use Rattle.std.specs.List.{All};
ghost use Rattle.acq_link.specs.Moves.{TakesAll};
ghost use Rattle.acq_front.specs.Coming.{GivesAll};
ghost use Rattle.acq_front.specs.Talk.{first_moment};
ghost use Rattle.acq_front.specs.Faults.{AtEnd, IfStore, TellsStore, UnlessRefused};
ghost use Rattle.acq_front.specs.Faults.{failed_reads, failed_writes};
ghost use Rattle.acq_front.specs.Turns.{ReplyFits, Turns};
ghost use Rattle.acq_front.specs.Stops.{left_of};
ghost use Rattle.acq_serving.specs.Sending.{OfMessage, SendsReply};
ghost use Rattle.acq_serving.specs.Serving.{Connection, FrameCame, Serves};

use acq_book::Book;
use acq_core::{Output, Query, Verdict};
use acq_front::{Clock, FrontFault, Issuer, take_message};
use acq_host::Host;
use acq_link::{Deframer, LONGEST_FRAME, LONGEST_MESSAGE, Sink, Source, send_frame};
use std::alloc::Global;

/// Serves one connection: takes each message as soon as its frame is whole, asks the issuer where
/// the host says so, and reads on only once the reply, if there is one, is written.
pub fn serve<B: Book + Drop, S: Source, K: Sink, C: Clock, I: Issuer>(
    alloc: Global,
    host: &mut Host<B>,
    source: &mut S,
    sink: &mut K,
    clock: &mut C,
    issuer: &mut I,
) -> Result<(), FrontFault>
    // What came and what went out, how it was served, and what a stop may leave.
    ensures served { B.is_honest host.new → B.is_open host.old → (c : Connection)
        × (S.received source.new ≡ S.received source.old ++ c.input)
        × (K.sent sink.new ≡ K.sent sink.old ++ c.output)
        × GivesAll first_moment (C.coming clock.old) (C.coming clock.new) c.moments
        × All (C.may_give clock.old) c.moments
        × GivesAll Verdict.NoAnswer (I.coming issuer.old) (I.coming issuer.new) c.verdicts
        × Serves (I.may_say issuer.old) (B.tables host.old)
        (left_of B.Book host.new) c result }
    ensures was_honest { B.is_honest host.new → B.is_honest host.old }
    // Clock and issuer give nothing later that they might not have given at first.
    ensures said_later { (q : Query) (v : Verdict) → I.may_say issuer.new q v
        → I.may_say issuer.old q v }
    ensures given_later { (m : ℕ) → C.may_give clock.new m → C.may_give clock.old m }
    // The book stays open, save where memory or the store refused a call.
    ensures stays_open { B.is_honest host.new → B.is_open host.old
        → UnlessRefused result (B.is_open host.new) }
    // Where the input ended, it was read to its end.
    ensures whole { AtEnd result
        (TakesAll (S.remaining source.old) (S.received source.old) (S.received source.new)) }
    // A fault of reading or writing comes only where a read or a write failed.
    ensures reads { S.failures source.new ≡ S.failures source.old + failed_reads result }
    ensures writes { K.failures sink.new ≡ K.failures sink.old + failed_writes result }
    // The store's fault comes only where a call of it failed, or gave for a message that came what
    // no host wrote; and with any other end none failed.
    ensures store { TellsStore result (B.failures host.old) (B.failures host.new)
        (FrameCame (S.received source.old) (S.received source.new)
        × (B.is_honest host.new → B.is_open host.old → ⊥)) }
{
    let mut input = Deframer::new();
    let mut piece = [0; LONGEST_FRAME];
    loop {
        if let Some(message) = input.take_message(alloc)? {
            answer_message(message, host, sink, clock, issuer)?;
            continue;
        }
        let room = input.room();
        let n = source.read(&mut piece[..room])?;
        if n == 0 {
            return if input.is_empty() {
                Ok(())
            } else {
                Err(FrontFault::Ended)
            };
        }
        input.feed(&piece[..n]);
    }
}

/// Takes one message, and the issuer's answer where it is asked, and writes the reply.
pub fn answer_message<B: Book + Drop, K: Sink, C: Clock, I: Issuer>(
    message: Vec<u8>,
    host: &mut Host<B>,
    sink: &mut K,
    clock: &mut C,
    issuer: &mut I,
) -> Result<(), FrontFault>
    ensures turns { B.is_honest host.new → B.is_open host.old → (out moments : List ℕ)
        × (verdicts : List Verdict)
        × (K.sent sink.new ≡ K.sent sink.old ++ out)
        × GivesAll first_moment (C.coming clock.old) (C.coming clock.new) moments
        × All (C.may_give clock.old) moments
        × GivesAll Verdict.NoAnswer (I.coming issuer.old) (I.coming issuer.new) verdicts
        × Turns (I.may_say issuer.old) (B.tables host.old) (left_of B.Book host.new)
        (record { message = message.items; moments = moments; verdicts = verdicts }) out result }
    ensures was_honest { B.is_honest host.new → B.is_honest host.old }
    ensures stays_open { B.is_honest host.new → B.is_open host.old
        → UnlessRefused result (B.is_open host.new) }
    ensures later { (q : Query) (v : Verdict) → I.may_say issuer.new q v
        → I.may_say issuer.old q v }
    ensures moments_later { (m : ℕ) → C.may_give clock.new m → C.may_give clock.old m }
    ensures fault { OfMessage result }
    ensures writes { K.failures sink.new ≡ K.failures sink.old + failed_writes result }
    ensures rise { B.failures host.old ≤ B.failures host.new }
    ensures store { TellsStore result (B.failures host.old) (B.failures host.new)
        (B.is_honest host.new → B.is_open host.old → ⊥) }
{
    let said = take_message(message, host, clock, issuer)?;
    send_reply(&said, sink)
}

/// Writes what the host said, if it is a reply, as a frame. A reply that fits no frame can only
/// come of rows that no host wrote.
fn send_reply<K: Sink>(said: &Output, sink: &mut K) -> Result<(), FrontFault>
    ensures sent { ReplyFits said.now
        → SendsReply said.now (K.sent sink.old) (K.sent sink.new) result }
    ensures fault { OfMessage result }
    ensures writes { K.failures sink.new ≡ K.failures sink.old + failed_writes result }
    ensures store { IfStore result (ReplyFits said.now → ⊥) }
{
    match said {
        Output::Reply(_, reply) => {
            let text = reply.as_bytes();
            if text.is_empty() || text.len() > LONGEST_MESSAGE {
                return Err(FrontFault::Store);
            }
            match send_frame(text, sink) {
                Ok(()) => Ok(()),
                Err(bytes) => Err(FrontFault::Write(bytes)),
            }
        }
        _ => Ok(()),
    }
}
