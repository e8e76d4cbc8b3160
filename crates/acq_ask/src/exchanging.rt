//! A message to a host, and its reply.

ghost use Rattle.std.specs.Prelude.{◌≡◌, ◌⊎◌, ◌++◌, ℕ, List, true};
ghost use Rattle.acq_link.specs.Frames.{fits_frame, frame};
ghost use Rattle.acq_ask.specs.Turns.{Comes, outcome_of, sent_by};
ghost use Rattle.acq_ask.specs.Exchanges.{Exchanges};
ghost use Rattle.acq_ask.specs.declared.no_reply.NoReply.TheVariants.{Read, Silent};

use crate::no_reply::NoReply;
use crate::watch::Watch;
use acq_link::{Deframer, Failed, LONGEST_FRAME, Sink, Source, send_frame};
use std::alloc::Global;

/// Sends a message as a frame, and waits for its reply, of which some bytes may be held before;
/// what comes behind it is held for the next one.
pub(crate) fn exchange<L: Sink, A: Source, W: Watch>(
    alloc: Global,
    message: &[u8],
    lines: &mut L,
    answers: &mut A,
    held: &mut Deframer,
    watch: &W,
) -> Result<Vec<u8>, NoReply>
    requires { fits_frame message.now ≡ true }
    ensures { (sent came : List ℕ)
        × (L.sent lines.new ≡ L.sent lines.old ++ sent)
        × (A.received answers.new ≡ A.received answers.old ++ came)
        × Exchanges message.now held.old sent came held.new (outcome_of result) }
{
    match send_frame(message, lines) {
        Ok(()) => read_reply(alloc, answers, held, watch),
        Err(bytes) => Err(NoReply::Unsent(bytes)),
    }
}

/// Reads until a reply is whole.
fn read_reply<A: Source, W: Watch>(
    alloc: Global,
    answers: &mut A,
    held: &mut Deframer,
    watch: &W,
) -> Result<Vec<u8>, NoReply>
    ensures came { (came : List ℕ)
        × (A.received answers.new ≡ A.received answers.old ++ came)
        × Comes (held.old ++ came) held.new (outcome_of result) }
    // All of it was sent.
    ensures sent { (message : List ℕ) → sent_by message (outcome_of result)
        ≡ frame message }
{
    let mut piece = [0; LONGEST_FRAME];
    loop {
        if let Some(reply) = held.take_message(alloc)? {
            return Ok(reply);
        }
        let room = held.room();
        let n = match answers.read(&mut piece[..room]) {
            Ok(n) => n,
            Err(Failed) => return Err(why_unread(watch)),
        };
        if n == 0 {
            return Err(NoReply::Ended);
        }
        held.feed(&piece[..n]);
    }
}

/// Why a read failed.
fn why_unread<W: Watch>(watch: &W) -> NoReply
    ensures { result ≡ Silent ⊎ result ≡ Read }
{
    if watch.was_silent() {
        NoReply::Silent
    } else {
        NoReply::Read
    }
}
