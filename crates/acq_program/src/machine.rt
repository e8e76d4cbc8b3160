//! What a command finds on its machine.

use crate::page_options::PageOptions;
use crate::page_sums::PageSums;
use acq_ask::Watch;
use acq_book::Book;
use acq_core::{Event, Limit};
use acq_faults::{Fault, ListenOptions, Patience, Server};
use acq_front::Issuer;
use acq_link::{Sink, Source};
use acq_serving::Connections;
use acq_stand_in::StandIn;
use card_no::RangeList;
use day_totals::Day;
use std::alloc::Global;
use std::hash::RandomState;
use std::net::SocketAddrV4;

/// What a command finds on its machine: files, by their paths, ports, and time. `B` is the book in
/// a file.
pub trait Machine<B: Book + Drop>: Sized + Watch {
    ghost use Rattle.std.specs.Prelude.{◌≡◌, ◌⊎◌, IfErr, IfOk};
    ghost use Rattle.acq_core.specs.Pasts.{HasPast};
    ghost use Rattle.acq_faults.specs.declared.fault.Fault.TheVariants.{Memory, Read, Silent};
    ghost use Rattle.acq_faults.specs.Faults.{IsOfAnswers, IsOfListening};
    ghost use Rattle.acq_program.specs.BookFaults.{IsClosing, IsOfEvents, IsOfRanges, IsOpening};

    /// The connections that come in at a port.
    type Connections: Connections + Drop;

    /// Connections that come in at a port and are served at once.
    type Server: Server + Drop;

    /// A gateway to issuers.
    type Desk: Issuer + Drop;

    /// Where lines to a host go.
    type Lines: Sink + Drop;

    /// What a host answers.
    type Answers: Source + Drop;

    /// Where messages to a host go.
    type Requests: Sink + Drop;

    /// What a host replies.
    type Replies: Source + Drop;

    /// Opens the book in the file at a path. Where there is none, nothing is made.
    fn open_book(self, path: &str) -> Result<B, Fault>
        ensures fault { IfErr result IsOpening }
        // Events alone have changed it.
        ensures past { IfOk result (λ book. B.is_open book → HasPast (B.tables book)) };

    /// Makes a new book in the file at a path, where there is none yet. The file alone is the book
    /// then, and a stop leaves there what was before or the whole book.
    fn make_book(
        self,
        path: &str,
        limit: Limit,
        first_day: Day,
        sums: PageSums,
    ) -> Result<(), Fault>
        ensures { IfErr result IsOpening };

    /// Migrates the book in the file at a path, where it is of the version before.
    fn migrate_book(self, path: &str) -> Result<B, Fault>
        ensures { IfErr result IsOpening };

    /// Gives back a book in a file that was changed, with nothing left of it in the file's log, so
    /// that the file alone is the book. Where that can't be done the file and its log together are
    /// the book, as a stop would leave them.
    fn close_book(book: B) -> Result<(), Fault>
        ensures { IfErr result IsClosing };

    /// Compares the book in the file at a path with the one that events make: these, or without
    /// them events that are sought in its rows. Returns the line of what differs first, if
    /// something does. Nothing in the book is changed.
    fn audit_book(
        self,
        alloc: Global,
        keys: RandomState,
        path: &str,
        events: Option<Vec<Event>>,
    ) -> Result<Option<Vec<u8>>, Fault>
        ensures { IfErr result IsOpening };

    /// Reads the file of issuers' answers at a path.
    fn read_answers(&self, alloc: Global, path: &str) -> Result<StandIn, Fault>
        ensures { IfErr result IsOfAnswers };

    /// Reads the file of event lines at a path.
    fn read_events(&self, alloc: Global, path: &str) -> Result<Vec<Event>, Fault>
        ensures { IfErr result IsOfEvents };

    /// Reads the list of ranges in the file at a path.
    fn read_ranges(&self, alloc: Global, path: &str) -> Result<RangeList, Fault>
        ensures { IfErr result IsOfRanges };

    /// Listens at an address and a port. A connection that takes longer than this patience lasts is
    /// closed as a failed read, or a failed write.
    fn listen_at(
        &self,
        endpoint: SocketAddrV4,
        patience: Patience,
    ) -> Result<Self::Connections, Fault>
        ensures { IfErr result (λ fault. fault ≡ Read) };

    /// Who asks the gateway that connects at the socket's file, if one is asked for.
    fn desk(&self) -> Result<Self::Desk, Fault>
        ensures { IfErr result (λ fault. fault ≡ Memory) };

    /// Listens as it is asked for, as `listen_at` does, for so many connections at once, and at the
    /// sockets for control connections and for a gateway, if they are asked for. A file, or for `-`
    /// standard error, takes a log for operators, if one is asked for.
    fn serve_at(&self, alloc: Global, asked: &ListenOptions) -> Result<Self::Server, Fault>
        ensures { IfErr result IsOfListening };

    /// Lets connections go, and what was made for them.
    fn end_serving(server: Self::Server, asked: &ListenOptions);

    /// Connects to the host that takes control connections at a path, for whose answers so many
    /// seconds are waited; 0 is for ever.
    fn connect_at(&self, path: &str, within: u64) -> Result<(Self::Lines, Self::Answers), Fault>
        ensures { IfErr result (λ fault. fault ≡ Read ⊎ fault ≡ Silent) };

    /// Shows the page of the host that takes control connections at a path, at a port of this
    /// machine, until connections can't be had there.
    fn serve_page(&self, alloc: Global, asked: &PageOptions) -> Result<(), Fault>
        ensures { IfErr result IsOfListening };

    /// Connects to the host that takes connections at an address and a port, for whose replies so
    /// many seconds are waited; 0 is for ever.
    fn ask_at(
        &self,
        endpoint: SocketAddrV4,
        within: u64,
    ) -> Result<(Self::Requests, Self::Replies), Fault>
        ensures { IfErr result (λ fault. fault ≡ Read ⊎ fault ≡ Silent) };
}
