//! Turns that the host takes in one group.

ghost use Rattle.std.specs.Prelude.{◌≡◌, ◌≤◌, ℕ, List, [], ◌∷◌, is_ok, true, None};
ghost use Rattle.std.specs.Prelude.{IfErr, IfOk, OnErr, OnOk};
ghost use Rattle.acq_book.specs.declared.book_fault.BookFault.TheVariants.{Store};
ghost use Rattle.acq_core.specs.Tables.{Tables};
ghost use Rattle.acq_front.specs.Stops.{left_of};
ghost use Rattle.acq_front.specs.Turns.{ReplyFits};
ghost use Rattle.acq_rounds.specs.Acts.{Message, query_in};
ghost use Rattle.acq_rounds.specs.Said.{told_at, told_by, told_by_all, turn_in, turns_in};
ghost use Rattle.acq_rounds.specs.Taking.{TellsFault, TookAll, TookNone};
ghost use Rattle.acq_rounds.specs.Within.{IfWithin, StaysWithin, TookAnswer, TookNext, TookWithin};

use crate::said::{Said, Settled};
use crate::turn::Turn;
use acq_book::{Book, BookFault};
use acq_core::{Event, MessageText, Output, Query, Verdict};
use acq_front::{Clock, Issuer};
use acq_host::Host;
use acq_link::LONGEST_MESSAGE;
use acq_reasons::Reason;
use std::alloc::Global;

/// Has the host take turns in one group, all of them or none, and returns what the host said to
/// each. A message is taken with its issuer's answer where it is asked and the answer is there;
/// where it isn't, what the host said is what is asked. Before the group is kept nothing is said.
pub fn take_together<B: Book + Drop, C: Clock, I: Issuer>(
    alloc: Global,
    turns: Vec<Turn<'_>>,
    host: &mut Host<B>,
    clock: &mut C,
    issuer: &mut I,
) -> Result<Vec<Said>, BookFault>
    ensures took { B.is_honest host.new → B.is_open host.old → IfOk result (λ said.
        TookAll (C.may_give clock.old) (I.may_say issuer.old) (B.tables host.old)
        (left_of B.Book host.new) (turns_in turns.entry.items) (told_by_all said.items)) }
    ensures refused { B.is_honest host.new → B.is_open host.old → OnErr result
        (TookNone (C.may_give clock.old) (I.may_say issuer.old) (B.tables host.old)
        (left_of B.Book host.new) (turns_in turns.entry.items)) }
    ensures was_honest { B.is_honest host.new → B.is_honest host.old }
    ensures stays_open { B.is_honest host.new → B.is_open host.old
        → OnOk result (B.is_open host.new) }
    ensures said_later { (q : Query) (v : Verdict) → I.may_say issuer.new q v
        → I.may_say issuer.old q v }
    ensures given_later { (m : ℕ) → C.may_give clock.new m → C.may_give clock.old m }
    // The store's fault comes only where a call of it failed, or gave what no host wrote; and with
    // any other end none failed.
    ensures store { TellsFault result (B.failures host.old) (B.failures host.new)
        (B.is_honest host.new → B.is_open host.old → ⊥) }
{
    if turns.is_empty() {
        return Ok(Vec::new(alloc));
    }
    host.begin()?;
    match take_each(alloc, turns, host, clock, issuer) {
        Ok(said) => {
            host.keep()?;
            Ok(said)
        }
        Err(fault) => {
            host.give_up();
            Err(fault)
        }
    }
}

/// Takes turns within a group, to the last or to the first fault.
fn take_each<B: Book + Drop, C: Clock, I: Issuer>(
    alloc: Global,
    turns: Vec<Turn<'_>>,
    host: &mut Host<B>,
    clock: &mut C,
    issuer: &mut I,
) -> Result<Vec<Said>, BookFault>
    ensures took { IfWithin B.Book host.old host.new (IfOk result (λ said.
        TookWithin B.Book (C.may_give clock.old) (I.may_say issuer.old) host.old host.new
        (turns_in turns.entry.items) (told_by_all said.items))) }
    ensures stays { StaysWithin B.Book host.old host.new (is_ok result) }
    ensures said_later { (q : Query) (v : Verdict) → I.may_say issuer.new q v
        → I.may_say issuer.old q v }
    ensures given_later { (m : ℕ) → C.may_give clock.new m → C.may_give clock.old m }
    ensures store { TellsFault result (B.failures host.old) (B.failures host.new)
        (IfWithin B.Book host.old host.new ⊥) }
{
    let mut said = Vec::new(alloc);
    let mut turns = turns.into_iter();
    while let Some(turn) = turns.next() {
        take_next(&mut said, turn, host, clock, issuer)?;
    }
    Ok(said)
}

/// Takes one turn within a group, and puts what the host says to it behind what it said so far.
fn take_next<B: Book + Drop, C: Clock, I: Issuer>(
    said: &mut Vec<Said>,
    turn: Turn<'_>,
    host: &mut Host<B>,
    clock: &mut C,
    issuer: &mut I,
) -> Result<(), BookFault>
    ensures took { IfWithin B.Book host.old host.new (OnOk result
        (TookNext B.Book (C.may_give clock.old) (I.may_say issuer.old) host.old host.new
        (turn_in turn.entry) said.old.items said.new.items)) }
    ensures stays { StaysWithin B.Book host.old host.new (is_ok result) }
    ensures said_later { (q : Query) (v : Verdict) → I.may_say issuer.new q v
        → I.may_say issuer.old q v }
    ensures given_later { (m : ℕ) → C.may_give clock.new m → C.may_give clock.old m }
    ensures store { TellsFault result (B.failures host.old) (B.failures host.new)
        (IfWithin B.Book host.old host.new ⊥) }
{
    // Once the turn is taken memory may not fail, so the place of what is said is taken first.
    said.reserve(1)?;
    let next = take_one(turn, host, clock, issuer)?;
    said.push(next).unwrap();
    Ok(())
}

/// Takes one turn within a group.
fn take_one<B: Book + Drop, C: Clock, I: Issuer>(
    turn: Turn<'_>,
    host: &mut Host<B>,
    clock: &mut C,
    issuer: &mut I,
) -> Result<Said, BookFault>
    ensures took { IfWithin B.Book host.old host.new (IfOk result (λ said.
        TookWithin B.Book (C.may_give clock.old) (I.may_say issuer.old) host.old host.new
        (turn_in turn.entry ∷ []) (told_by said ∷ []))) }
    ensures stays { StaysWithin B.Book host.old host.new (is_ok result) }
    ensures said_later { (q : Query) (v : Verdict) → I.may_say issuer.new q v
        → I.may_say issuer.old q v }
    ensures given_later { (m : ℕ) → C.may_give clock.new m → C.may_give clock.old m }
    ensures store { TellsFault result (B.failures host.old) (B.failures host.new)
        (IfWithin B.Book host.old host.new ⊥) }
{
    match turn {
        Turn::Message(message) => take_message(message, host, clock, issuer),
        Turn::Answer(query) => take_answer(query, host, clock, issuer),
    }
}

/// Takes one message within a group, and its issuer's answer where it is asked and the answer is
/// there.
fn take_message<B: Book + Drop, C: Clock, I: Issuer>(
    message: Vec<u8>,
    host: &mut Host<B>,
    clock: &mut C,
    issuer: &mut I,
) -> Result<Said, BookFault>
    ensures took { IfWithin B.Book host.old host.new (IfOk result (λ said.
        TookWithin B.Book (C.may_give clock.old) (I.may_say issuer.old) host.old host.new
        (Message message.items ∷ []) (told_by said ∷ []))) }
    ensures stays { StaysWithin B.Book host.old host.new (is_ok result) }
    ensures said_later { (q : Query) (v : Verdict) → I.may_say issuer.new q v
        → I.may_say issuer.old q v }
    ensures given_later { (m : ℕ) → C.may_give clock.new m → C.may_give clock.old m }
    ensures store { TellsFault result (B.failures host.old) (B.failures host.new)
        (IfWithin B.Book host.old host.new ⊥) }
{
    let came = Event::Frame(clock.now(), MessageText::from_vec(message));
    let output = host.take(&came)?;
    drop(came);
    match output {
        Output::Ask(query) => {
            if issuer.has_answer(&query) {
                take_answer(&query, host, clock, issuer)
            } else {
                Ok(Said::Asked(query))
            }
        }
        output => said_last(output, host.reason()),
    }
}

/// Takes an issuer's answer within a group.
fn take_answer<B: Book + Drop, C: Clock, I: Issuer>(
    query: &Query,
    host: &mut Host<B>,
    clock: &mut C,
    issuer: &mut I,
) -> Result<Said, BookFault>
    ensures took { IfWithin B.Book host.old host.new (IfOk result (λ said.
        TookAnswer (C.may_give clock.old) (I.may_say issuer.old) (B.tables host.old)
        (B.tables host.new) query.now said)) }
    ensures stays { StaysWithin B.Book host.old host.new (is_ok result) }
    ensures said_later { (q : Query) (v : Verdict) → I.may_say issuer.new q v
        → I.may_say issuer.old q v }
    ensures given_later { (m : ℕ) → C.may_give clock.new m → C.may_give clock.old m }
    ensures store { TellsFault result (B.failures host.old) (B.failures host.new)
        (IfWithin B.Book host.old host.new ⊥) }
{
    let verdict = issuer.answer(query);
    let answer = Event::Answer(clock.now(), query.merchant, query.reference, verdict);
    let output = host.take(&answer)?;
    said_last(output, host.reason())
}

/// What the host said last, if it fits a frame.
fn said_last(output: Output, reason: Option<Reason>) -> Result<Said, BookFault>
    ensures told { IfOk result (λ said. told_by said ≡ told_at output) }
    ensures fit { IfOk result (λ said. ReplyFits output) }
    ensures fits { ReplyFits output → is_ok result ≡ true }
    ensures fault { IfErr result (λ fault. fault ≡ Store) }
{
    match output {
        Output::Ask(query) => Ok(Said::Asked(query)),
        output => settled(output, reason),
    }
}

/// The host's last word, if it fits a frame: a reply that fits none can only come of rows that no
/// host wrote.
fn settled(output: Output, reason: Option<Reason>) -> Result<Said, BookFault>
    requires { query_in output ≡ None }
    ensures told { IfOk result (λ said. told_by said ≡ told_at output) }
    ensures fit { IfOk result (λ said. ReplyFits output) }
    ensures fits { ReplyFits output → is_ok result ≡ true }
    ensures fault { IfErr result (λ fault. fault ≡ Store) }
{
    if let Output::Reply(_, reply) = &output {
        let text = reply.as_bytes();
        if text.is_empty() || text.len() > LONGEST_MESSAGE {
            return Err(BookFault::Store);
        }
    }
    Ok(Said::Settled(Settled { output, reason }))
}
