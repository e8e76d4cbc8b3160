//! A host over a book.

ghost use Rattle.std.specs.Prelude.{◌≡◌, ◌⊎◌, ◌≤◌, ◌+◌, ℕ, [], ◌∷◌, ◌++◌, is_ok};
ghost use Rattle.std.specs.Prelude.{IfOk, IfErr, OnOk, OnErr};
ghost use Rattle.acq_core.specs.Arrivals.{arrival_of};
ghost use Rattle.acq_core.specs.Tables.{Tables, outputs, step_output, step_tables, tables_after};
ghost use Rattle.acq_book.specs.Calls.{Makes, MakesWithin};
ghost use Rattle.acq_book.specs.Promise.{CountsFault, HasRisen};
ghost use Rattle.acq_core.specs.Pasts.{HasPast};
ghost use Rattle.acq_host.specs.Groups.{Begins, Keeps, Returns};
ghost use Rattle.acq_host.specs.Runs.{CountsRun, IsWellSaid, StopsAt, after_first};

mod issuing;
mod looking;
mod reporting;

use crate::deciding::{apply, decide};
use crate::run_fault::RunFault;
use acq_book::{Book, BookFault};
use acq_core::{Event, Output};
use acq_reasons::Reason;
use acq_soundness::every_event;
use std::alloc::Global;
use std::marker::Model;

/// A host over a book that began new, and that events alone have changed. Contracts see it as its
/// book.
#[derive(Drop)]
pub struct Host<B: Book + Drop> {
    alloc: Global,
    book: B,
    /// Why the last event that was taken got another code than 00, if it did.
    reason: Option<Reason>,
}

impl<B: Book + Drop> Model for Host<B> {
    ghost use Rattle.acq_core.specs.Pasts.{HasPast};

    ghost Value = { B };

    ghost view = { λ host. host.book };

    ghost invariant = { λ host. B.is_open host.book → HasPast (B.tables host.book) };
}

impl<B: Book + Drop> Host<B> {
    /// A host over this book.
    pub fn new(alloc: Global, book: B) -> Host<B>
        requires past { B.is_open book → HasPast (B.tables book) }
        ensures { result ≡ book }
    {
        Host {
            alloc,
            book,
            reason: None,
        }
    }

    /// The book.
    pub fn into_book(self) -> B
        ensures book { result ≡ self }
        ensures past { B.is_open result → HasPast (B.tables result) }
    {
        self.book
    }

    /// Takes one event whole, or not at all, and returns what the host says to it.
    pub fn take(&mut self, event: &Event) -> Result<Output, BookFault>
        ensures output { B.is_honest self.new → B.is_open self.old → IfOk result (λ output.
            output ≡ step_output (B.tables self.old) (arrival_of event.now)) }
        // A reply is the text of one, and so fits a frame.
        ensures reply { B.is_honest self.new → B.is_open self.old → IfOk result IsWellSaid }
        // The tables after it, and what a stop at any moment may leave.
        ensures tables { Makes B.Book self.old self.new (is_ok result)
            (step_tables (B.tables self.old) (arrival_of event.now)) }
        // Within a group of the book it is taken with the group.
        ensures output_within { (began : Tables) (faults : ℕ) → B.is_honest self.new
            → B.is_within self.old began faults → IfOk result (λ output.
            output ≡ step_output (B.tables self.old) (arrival_of event.now)) }
        ensures reply_within { (began : Tables) (faults : ℕ) → B.is_honest self.new
            → B.is_within self.old began faults → IfOk result IsWellSaid }
        ensures within { MakesWithin B.Book self.old self.new (is_ok result)
            (step_tables (B.tables self.old) (arrival_of event.now)) }
        ensures past { B.is_open self.new → HasPast (B.tables self.new) }
        // Events lead to what a stop leaves, too.
        ensures left { B.is_honest self.new → B.is_open self.old
            → (t : Tables) → B.may_leave self.new t → HasPast t }
        ensures store { CountsFault result (B.failures self.old) (B.failures self.new) }
    {
        every_event(event);
        let (output, change, reason) = decide(self.alloc, &mut self.book, event)?;
        self.reason = reason;
        let made = apply(&mut self.book, &change);
        drop(change);
        made?;
        Ok(output)
    }

    /// Why the last event that was taken got another code than 00, for logs. A repeat gets the code
    /// that was kept, and no reason.
    pub fn reason(&self) -> Option<Reason> {
        self.reason
    }

    /// Takes events in order, to the last or to the first fault, and returns what the host says to
    /// each.
    pub fn run(&mut self, events: &[Event]) -> Result<Vec<Output>, RunFault>
        ensures outputs { B.is_honest self.new → B.is_open self.old → IfOk result (λ said.
            said.items ≡ outputs (B.tables self.old) events.now) }
        ensures tables { B.is_honest self.new → B.is_open self.old → OnOk result
            (B.tables self.new ≡ tables_after (B.tables self.old) events.now) }
        // After a fault so it is of the events before it.
        ensures fault { B.is_honest self.new → B.is_open self.old → IfErr result (λ fault.
            StopsAt (B.tables self.old) events.now fault.at fault.outputs.items) }
        ensures fault_tables { B.is_open self.old → B.is_open self.new → IfErr result (λ fault.
            B.tables self.new ≡ after_first fault.at (B.tables self.old) events.now) }
        // Events alone led to the tables, before and after.
        ensures began { B.is_open self.old → HasPast (B.tables self.old) }
        ensures past { B.is_open self.new → HasPast (B.tables self.new) }
        // A stop leaves all events so far, each time in a book that stores them, and events lead to
        // what it leaves.
        ensures stop { B.is_honest self.new → B.is_open self.old
            → (t : Tables) → B.may_leave self.new t → OnOk result
            (t ≡ tables_after (B.tables self.old) events.now) }
        ensures fault_stop { B.is_honest self.new → B.is_open self.old
            → (t : Tables) → B.may_leave self.new t → IfErr result (λ fault.
            (t ≡ after_first fault.at (B.tables self.old) events.now)
            ⊎ (t ≡ after_first (fault.at + 1) (B.tables self.old) events.now)) }
        ensures books { B.is_honest self.new → B.is_open self.old → B.leaves_books self.new }
        ensures left { B.is_honest self.new → B.is_open self.old
            → (t : Tables) → B.may_leave self.new t → HasPast t }
        // Only a fault of the store itself shuts the book.
        ensures shuts { B.is_honest self.new → B.is_open self.old → B.is_open self.new
            ⊎ HasRisen (B.store_faults self.old) (B.store_faults self.new) }
        // The count of failed calls of the store rises exactly where its fault is told.
        ensures store { CountsRun result (B.failures self.old) (B.failures self.new) }
    {
        let mut said = Vec::new(self.alloc);
        for (at, event) in events.iter().enumerate() {
            if let Err(fault) = self.take_next(&mut said, event) {
                return Err(RunFault {
                    at,
                    outputs: said,
                    fault,
                });
            }
        }
        Ok(said)
    }

    /// Takes events in a group, all of them or none, and returns what the host says to each. Before
    /// the group is kept nothing is said.
    pub fn take_group(&mut self, events: &[Event]) -> Result<Vec<Output>, BookFault>
        ensures outputs { B.is_honest self.new → B.is_open self.old → IfOk result (λ said.
            said.items ≡ outputs (B.tables self.old) events.now) }
        // The tables after all of them, and what a stop at any moment may leave: the tables from
        // before the group, or from after it.
        ensures tables { Makes B.Book self.old self.new (is_ok result)
            (tables_after (B.tables self.old) events.now) }
        ensures past { B.is_open self.new → HasPast (B.tables self.new) }
        ensures left { B.is_honest self.new → B.is_open self.old
            → (t : Tables) → B.may_leave self.new t → HasPast t }
        ensures store { CountsFault result (B.failures self.old) (B.failures self.new) }
    {
        self.book.begin()?;
        match self.take_each(events) {
            Ok(said) => {
                self.book.keep()?;
                Ok(said)
            }
            Err(fault) => {
                self.book.give_up();
                Err(fault)
            }
        }
    }

    /// Begins a group: what is taken from now on is kept whole, or not at all.
    pub fn begin(&mut self) -> Result<(), BookFault>
        ensures begins { Begins B.Book self.old self.new (is_ok result) }
        ensures store { CountsFault result (B.failures self.old) (B.failures self.new) }
    {
        self.book.begin()
    }

    /// Keeps the group, whole. If it can't be kept, it is given up.
    pub fn keep(&mut self) -> Result<(), BookFault>
        ensures keeps { Keeps B.Book self.old self.new (is_ok result) }
        ensures store { CountsFault result (B.failures self.old) (B.failures self.new) }
    {
        self.book.keep()
    }

    /// Gives up the group, and leads back to the tables at which it began.
    pub fn give_up(&mut self)
        ensures { Returns B.Book self.old self.new }
    {
        self.book.give_up();
    }

    /// Takes events within a group, to the last or to the first fault.
    fn take_each(&mut self, events: &[Event]) -> Result<Vec<Output>, BookFault>
        ensures outputs { (began : Tables) (faults : ℕ) → B.is_honest self.new
            → B.is_within self.old began faults → IfOk result (λ said.
            said.items ≡ outputs (B.tables self.old) events.now) }
        ensures within { MakesWithin B.Book self.old self.new (is_ok result)
            (tables_after (B.tables self.old) events.now) }
        ensures was_honest { B.is_honest self.new → B.is_honest self.old }
        ensures rise { B.failures self.old ≤ B.failures self.new }
        ensures counts { B.store_faults self.old ≤ B.store_faults self.new }
        ensures store { CountsFault result (B.failures self.old) (B.failures self.new) }
    {
        let mut said = Vec::new(self.alloc);
        for event in events {
            self.take_next(&mut said, event)?;
        }
        Ok(said)
    }

    /// Takes one event, and puts what the host says to it behind what it said so far.
    fn take_next(&mut self, said: &mut Vec<Output>, event: &Event) -> Result<(), BookFault>
        ensures said { B.is_honest self.new → B.is_open self.old → OnOk result (said.new.items
            ≡ said.old.items ++ step_output (B.tables self.old) (arrival_of event.now) ∷ []) }
        ensures kept { OnErr result (said.new.items ≡ said.old.items) }
        ensures tables { Makes B.Book self.old self.new (is_ok result)
            (step_tables (B.tables self.old) (arrival_of event.now)) }
        ensures past { B.is_open self.new → OnOk result (HasPast (B.tables self.new)) }
        ensures left { B.is_honest self.new → B.is_open self.old → HasPast (B.tables self.old)
            → (t : Tables) → B.may_leave self.new t → HasPast t }
        ensures said_within { (began : Tables) (faults : ℕ) → B.is_honest self.new
            → B.is_within self.old began faults → OnOk result (said.new.items
            ≡ said.old.items ++ step_output (B.tables self.old) (arrival_of event.now) ∷ []) }
        ensures within { MakesWithin B.Book self.old self.new (is_ok result)
            (step_tables (B.tables self.old) (arrival_of event.now)) }
        ensures store { CountsFault result (B.failures self.old) (B.failures self.new) }
    {
        // Once the event is taken nothing may fail, so the place of its output is taken first.
        said.reserve(1)?;
        let output = self.take(event)?;
        said.push(output).unwrap();
        Ok(())
    }
}
