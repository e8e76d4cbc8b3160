//! One message, taken and not answered yet.

ghost use Rattle.std.specs.Prelude.{◌≤◌, ℕ, List};
ghost use Rattle.std.specs.List.{All};
ghost use Rattle.acq_front.specs.Coming.{GivesAll};
ghost use Rattle.acq_front.specs.Talk.{first_moment};
ghost use Rattle.acq_front.specs.Faults.{CountsStore, UnlessRefused};
ghost use Rattle.acq_front.specs.Turns.{OfTaking, Takes};
ghost use Rattle.acq_front.specs.Stops.{left_of};

use crate::clock::Clock;
use crate::front_fault::FrontFault;
use crate::issuer::Issuer;
use acq_book::Book;
use acq_core::{Event, MessageText, Output, Query, Verdict};
use acq_host::Host;

/// Takes one message, and the issuer's answer where it is asked, and returns what the host said
/// last.
pub fn take_message<B: Book + Drop, C: Clock, I: Issuer>(
    message: Vec<u8>,
    host: &mut Host<B>,
    clock: &mut C,
    issuer: &mut I,
) -> Result<Output, FrontFault>
    ensures takes { B.is_honest host.new → B.is_open host.old → (moments : List ℕ)
        × (verdicts : List Verdict)
        × GivesAll first_moment (C.coming clock.old) (C.coming clock.new) moments
        × All (C.may_give clock.old) moments
        × GivesAll Verdict.NoAnswer (I.coming issuer.old) (I.coming issuer.new) verdicts
        × Takes (I.may_say issuer.old) (B.tables host.old) (left_of B.Book host.new)
        (record { message = message.items; moments = moments; verdicts = verdicts }) result }
    ensures was_honest { B.is_honest host.new → B.is_honest host.old }
    ensures stays_open { B.is_honest host.new → B.is_open host.old
        → UnlessRefused result (B.is_open host.new) }
    ensures later { (q : Query) (v : Verdict) → I.may_say issuer.new q v
        → I.may_say issuer.old q v }
    ensures moments_later { (m : ℕ) → C.may_give clock.new m → C.may_give clock.old m }
    ensures fault { OfTaking result }
    ensures rise { B.failures host.old ≤ B.failures host.new }
    ensures store { CountsStore result (B.failures host.old) (B.failures host.new) }
{
    let came = Event::Frame(clock.now(), MessageText::from_vec(message));
    let said = host.take(&came)?;
    drop(came);
    match said {
        Output::Undecodable(fault) => Err(FrontFault::Undecodable(fault)),
        Output::Ask(query) => {
            let verdict = issuer.answer(&query);
            let answer = Event::Answer(clock.now(), query.merchant, query.reference, verdict);
            let said = host.take(&answer)?;
            Ok(said)
        }
        _ => Ok(said),
    }
}
