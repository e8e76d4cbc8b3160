//! Requests that wait for their issuer's answer, and get none.

ghost use Rattle.std.specs.Prelude.{◌≡◌, ◌++◌, ℕ, length, string_bytes, IfErr, IfOk, OnErr, OnOk};
ghost use Rattle.std.specs.Prelude.{is_ok};
ghost use Rattle.acq_core.specs.Pasts.{HasPast};
ghost use Rattle.acq_book.specs.Calls.{Looks};
ghost use Rattle.acq_book.specs.Lookups.{waiting_at};
ghost use Rattle.acq_book.specs.Promise.{CountsFault};
ghost use Rattle.acq_front.specs.Stops.{left_of};
ghost use Rattle.acq_faults.specs.Faults.{CountsStore};
ghost use Rattle.acq_commands.specs.Ending.{EndsWaiting, all_unanswered, ended_line};

use acq_book::{Book, BookFault, Visit};
use acq_core::{Event, Moment, Reference, Request, Verdict};
use acq_faults::Fault;
use acq_front::Clock;
use acq_host::Host;
use acq_link::{Sink, write_out};
use std::alloc::{AllocError, Global};

/// Ends each request that waits for its issuer's answer: it gets none, at this moment of the clock.
/// All are ended at once or none is, in the order in which they came. Then a line of `faults` says
/// how many there were, if there were any. The book is given back with how that ended.
pub fn end_waiting_on<B: Book + Drop, C: Clock, F: Sink>(
    alloc: Global,
    mut book: B,
    clock: &mut C,
    faults: &mut F,
) -> (B, Result<(), Fault>)
    requires past { B.is_open book → HasPast (B.tables book) }
    // What comes of them is what comes of so many answers, and of nothing else.
    ensures ended { B.is_honest result.0 → B.is_open book → (moment : ℕ)
        × C.may_give clock.old moment
        × EndsWaiting moment (B.tables book) (left_of B.Book result.0) result.1 }
    ensures told { B.is_honest result.0 → B.is_open book → OnOk result.1
        (F.failures faults.new ≡ F.failures faults.old → F.sent faults.new
        ≡ F.sent faults.old ++ ended_line (length (waiting_at (B.tables book)))) }
    ensures untold { OnErr result.1 (faults.new ≡ faults.old) }
    // The book can be used on, as it could before.
    ensures past { B.is_open result.0 → HasPast (B.tables result.0) }
    ensures was_honest { B.is_honest result.0 → B.is_honest book }
    ensures stays_open { B.is_honest result.0 → B.is_open book
        → OnOk result.1 (B.is_open result.0) }
    ensures store { CountsStore result.1 (B.failures book) (B.failures result.0) }
{
    let moment = clock.now();
    let (answers, line) = match answers_and_line(alloc, &mut book, moment) {
        Ok(made) => made,
        Err(fault) => return (book, Err(Fault::from(fault))),
    };
    let mut host = Host::new(alloc, book);
    match host.take_group(answers.as_slice()) {
        Ok(said) => drop(said),
        Err(fault) => return (host.into_book(), Err(Fault::from(fault))),
    }
    // A line that can't be written is no reason to stop.
    let _ = write_out(faults, line.as_bytes());
    (host.into_book(), Ok(()))
}

/// What is taken of those that wait, and the line that says so.
fn answers_and_line<B: Book>(
    alloc: Global,
    book: &mut B,
    moment: Moment,
) -> Result<(Vec<Event>, String), BookFault>
    ensures answers { B.is_honest book.new → B.is_open book.old → IfOk result (λ made.
        made.0.items ≡ all_unanswered moment (B.tables book.old)) }
    ensures line { B.is_honest book.new → B.is_open book.old → IfOk result (λ made.
        string_bytes made.1 ≡ ended_line (length (waiting_at (B.tables book.old)))) }
    ensures looks { Looks B.Book book.old book.new (is_ok result) }
    ensures store { CountsFault result (B.failures book.old) (B.failures book.new) }
{
    let mut waiting = Unanswered::new(alloc, moment);
    book.walk_pending(&mut waiting)?;
    let answers = waiting.into_answers()?;
    let line = ended_line(alloc, answers.len())?;
    Ok((answers, line))
}

/// The line that says how many requests that waited were ended, or nothing of none.
fn ended_line(alloc: Global, count: usize) -> Result<String, AllocError>
    ensures { IfOk result (λ line. string_bytes line ≡ ended_line count) }
{
    match count {
        0 => Ok(String::new(alloc)),
        1 => format!(in alloc; "acqd: ended 1 request that waited\n"),
        _ => format!(in alloc; "acqd: ended {count} requests that waited\n"),
    }
}

/// Makes an answer to each request that it is shown: its issuer gives none.
#[derive(Drop)]
struct Unanswered {
    moment: Moment,
    answers: Vec<Event>,
    /// Whether there is one to each that was shown.
    is_whole: bool,
}

impl Unanswered {
    ghost use Rattle.std.specs.Prelude.{◌≡◌, ◌++◌, ◌∷◌, [], true, OnOk, IfOk};
    ghost use Rattle.acq_commands.specs.Ending.{unanswered};

    /// It was shown nothing.
    fn new(alloc: Global, moment: Moment) -> Unanswered
        ensures moment { result.moment ≡ moment }
        ensures answers { result.answers.items ≡ [] }
        ensures whole { result.is_whole ≡ true }
    {
        Unanswered {
            moment,
            answers: Vec::new(alloc),
            is_whole: true,
        }
    }

    /// The answers, unless memory ran out for one.
    fn into_answers(self) -> Result<Vec<Event>, BookFault>
        ensures whole { IfOk result (λ answers. (answers ≡ self.answers) × (self.is_whole ≡ true)) }
        ensures memory { IfErr result (λ fault. fault ≡ BookFault.Memory) }
    {
        if self.is_whole {
            Ok(self.answers)
        } else {
            Err(BookFault::Memory)
        }
    }

    /// Puts an answer to a request behind the others, and returns whether there was memory for it.
    fn put(&mut self, row: &Request) -> bool
        ensures put { result ≡ true → self.new.answers.items
            ≡ self.old.answers.items ++ unanswered self.old.moment row.now ∷ [] }
        ensures same { self.new ≡ record self.old { answers = self.new.answers } }
    {
        // A request that waits has a reference.
        let reference = row.reference.unwrap_or(Reference::from_number(0).unwrap());
        let answer = Event::Answer(self.moment, row.key.merchant, reference, Verdict::NoAnswer);
        self.answers.push(answer).is_ok()
    }
}

impl Visit<Request> for Unanswered {
    ghost use Rattle.acq_commands.specs.Answering.{Answers};

    ghost sees = { Answers };

    fn row(&mut self, row: &Request) -> bool {
        let is_put = self.put(row);
        if !is_put {
            self.is_whole = false;
        }
        is_put
    }
}
