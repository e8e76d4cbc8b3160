//! The machine that the program runs on.

ghost use Rattle.std.specs.Prelude.{◌≡◌, IfErr};
ghost use Rattle.acq_faults.specs.Faults.{IsOfAnswers, IsOfListening};
ghost use Rattle.acq_program.specs.BookFaults.{IsClosing, IsOfEvents, IsOfRanges, IsOpening};
ghost use Rattle.acqd.specs.BookFiles.{of_opening};

use crate::apart::names_a_file_twice;
use crate::auditing::audit_line;
use crate::book_files::find_book;
use crate::control_host::control_host;
use crate::control_socket::{control_socket, remove_socket};
use crate::host_line::HostLine;
use crate::log_output::LogOutput;
use crate::new_book_file::NewBookFile;
use crate::open_book::{make_book, migrate_book, open_book};
use crate::page_host::PageHost;
use crate::terminals_host::terminals_host;
use acq_ask::Watch;
use acq_causes::{Lack, Signs};
use acq_core::{Event, Limit};
use acq_faults::{Fault, ListenOptions, Patience};
use acq_gateway::{GatewayDesk, GatewayIssuer};
use acq_link::{ReadSource, WriteSink};
use acq_out::read_events;
use acq_page_server::PageServer;
use acq_program::{Machine, PageOptions, PageSums};
use acq_sql::OnceBook;
use acq_sql_checking::OpeningFault;
use acq_stand_in::StandIn;
use acq_tcp::{HostLog, Sockets, TcpConnections, TcpServer};
use card_no::RangeList;
use day_totals::Day;
use mio::net::UnixListener;
use sqlite::{Error, ErrorCode};
use sqlite_disk::Start;
use sqlite_std_file::FileFrom;
use sqlite_store::FileStore;
use std::alloc::Global;
use std::fs::File;
use std::hash::RandomState;
use std::net::{Ipv4Addr, SocketAddr, SocketAddrV4, TcpListener, TcpStream};
use std::os::unix::net::UnixStream;
use std::time::{Duration, Instant};

/// The machine that the program runs on; `D` says what the book's file holds before it is opened.
#[derive(Drop)]
pub struct ThisMachine<'a, D: Start> {
    rt: &'a HostRuntime,
    start: D,
    signs: &'a Signs,
    /// Where requests lie that a gateway to issuers is asked about.
    desk: GatewayDesk,
    /// When it was made, if its clock could be read.
    began: Option<Instant>,
}

impl<'a, D: Start> ThisMachine<'a, D> {
    /// The machine of this runtime, which gives these signs; a gateway to issuers is asked at this
    /// desk.
    pub fn new(
        rt: &'a HostRuntime,
        start: D,
        signs: &'a Signs,
        desk: GatewayDesk,
    ) -> ThisMachine<'a, D> {
        let began = Instant::now(rt).ok();
        ThisMachine {
            rt,
            start,
            signs,
            desk,
            began,
        }
    }
}

impl<'a, D: Start> ThisMachine<'a, D> {
    /// The sockets that are asked for.
    fn sockets(&self, asked: &ListenOptions) -> Result<Sockets, Fault>
        ensures { IfErr result IsOfListening }
    {
        let within = Duration::from_secs(asked.patience.gateway_within);
        self.desk.set_patience(within);
        let Ok(desk) = self.desk.share() else {
            return Err(Fault::Memory);
        };
        let control = control_asked(self.rt, self.signs, asked)?;
        match gateway_asked(self.rt, self.signs, asked) {
            Ok(gateway) => Ok(Sockets {
                control,
                gateway,
                desk,
            }),
            Err(fault) => Err(fault),
        }
    }
}

impl<'a, D: Start> Machine<OnceBook<FileStore<FileFrom<D>>>> for ThisMachine<'a, D> {
    type Connections = TcpConnections<'a, HostRuntime>;

    type Server = TcpServer<'a, HostRuntime, LogOutput<'a>>;

    type Desk = GatewayIssuer;

    type Lines = WriteSink<HostLine<'a, UnixStream>>;

    type Answers = ReadSource<HostLine<'a, UnixStream>>;

    type Requests = WriteSink<HostLine<'a, TcpStream>>;

    type Replies = ReadSource<HostLine<'a, TcpStream>>;

    fn open_book(self, path: &str) -> Result<OnceBook<FileStore<FileFrom<D>>>, Fault> {
        if let Err(cause) = find_book(self.rt, path) {
            return Err(fault_of_opening(cause));
        }
        match open_book(self.rt, path, self.start) {
            Ok(book) => {
                self.signs.opened_book();
                Ok(OnceBook::new(self.rt.alloc(), book))
            }
            Err(none) => Err(fault_of_opening(none.into_fault())),
        }
    }

    fn make_book(
        self,
        path: &str,
        limit: Limit,
        first_day: Day,
        sums: PageSums,
    ) -> Result<(), Fault> {
        let file = match NewBookFile::make(self.rt, path) {
            Ok(file) => file,
            Err(cause) => return Err(fault_of_opening(cause)),
        };
        match made_in(self.rt, &file, self.start, limit, first_day, sums) {
            Ok(()) => Ok(()),
            Err(cause) => {
                // What is wrong is said already, and the next one removes what can't be now.
                let _ = file.remove(self.rt);
                Err(fault_of_opening(cause))
            }
        }
    }

    fn migrate_book(self, path: &str) -> Result<OnceBook<FileStore<FileFrom<D>>>, Fault> {
        if let Err(cause) = find_book(self.rt, path) {
            return Err(fault_of_opening(cause));
        }
        match migrate_book(self.rt, path, self.start) {
            Ok(book) => Ok(OnceBook::new(self.rt.alloc(), book)),
            Err(cause) => Err(fault_of_opening(cause)),
        }
    }

    fn close_book(book: OnceBook<FileStore<FileFrom<D>>>) -> Result<(), Fault>
        ensures { IfErr result IsClosing }
    {
        match book.into_book().close() {
            Ok(()) => Ok(()),
            Err(error) => Err(fault_of_closing(&error)),
        }
    }

    fn audit_book(
        self,
        alloc: Global,
        keys: RandomState,
        path: &str,
        events: Option<Vec<Event>>,
    ) -> Result<Option<Vec<u8>>, Fault> {
        if let Err(cause) = find_book(self.rt, path) {
            return Err(fault_of_opening(cause));
        }
        match open_book(self.rt, path, self.start) {
            Ok(book) => {
                self.signs.opened_book();
                audit_line(alloc, keys, book.into_connection(), events)
            }
            Err(none) => Err(fault_of_opening(none.into_fault())),
        }
    }

    fn read_answers(&self, alloc: Global, path: &str) -> Result<StandIn, Fault> {
        let answers = answers_in(self.rt, alloc, path);
        if answers.is_err() {
            self.signs.note(Lack::Issuers);
        }
        answers
    }

    fn read_events(&self, alloc: Global, path: &str) -> Result<Vec<Event>, Fault> {
        let events = events_in(self.rt, alloc, path);
        if events.is_err() {
            self.signs.note(Lack::Events);
        }
        events
    }

    fn read_ranges(&self, alloc: Global, path: &str) -> Result<RangeList, Fault> {
        let ranges = ranges_in(self.rt, alloc, path);
        if ranges.is_err() {
            self.signs.note(Lack::Ranges);
        }
        ranges
    }

    fn listen_at(
        &self,
        endpoint: SocketAddrV4,
        patience: Patience,
    ) -> Result<TcpConnections<'a, HostRuntime>, Fault> {
        self.signs.listens.set(true);
        match TcpListener::bind(self.rt, endpoint) {
            Ok(listener) => Ok(TcpConnections::new(listener, self.rt, patience)),
            Err(fault) => {
                self.signs.note(Lack::Port(fault.kind()));
                Err(Fault::Read)
            }
        }
    }

    fn desk(&self) -> Result<GatewayIssuer, Fault> {
        match self.desk.share() {
            Ok(desk) => Ok(GatewayIssuer::new(desk)),
            Err(_) => Err(Fault::Memory),
        }
    }

    fn serve_at(
        &self,
        alloc: Global,
        asked: &ListenOptions,
    ) -> Result<TcpServer<'a, HostRuntime, LogOutput<'a>>, Fault> {
        self.signs.listens.set(true);
        if names_a_file_twice(self.rt, asked) {
            self.signs.note(Lack::SameFile);
            return Err(Fault::Read);
        }
        let log = log_asked(self.rt, alloc, self.signs, asked)?;
        let sockets = self.sockets(asked)?;
        let listening = TcpServer::listen(self.rt, self.rt, alloc, asked, sockets, log);
        if listening.is_err() {
            note_port(self.rt, self.signs, asked.endpoint);
        }
        listening
    }

    fn end_serving(server: TcpServer<'a, HostRuntime, LogOutput<'a>>, asked: &ListenOptions) {
        let rt = server.clock();
        drop(server);
        for path in [&asked.control, &asked.gateway] {
            if let Some(path) = path {
                remove_socket(rt, path.as_str());
            }
        }
    }

    fn connect_at(
        &self,
        path: &str,
        within: u64,
    ) -> Result<
        (
            WriteSink<HostLine<'a, UnixStream>>,
            ReadSource<HostLine<'a, UnixStream>>,
        ),
        Fault,
    > {
        let (lines, answers) = control_host(self.rt, path, within, self.signs)?;
        Ok((WriteSink::new(lines), ReadSource::new(answers)))
    }

    fn serve_page(&self, alloc: Global, asked: &PageOptions) -> Result<(), Fault> {
        self.signs.listens.set(true);
        let endpoint = SocketAddrV4::new(Ipv4Addr::LOCALHOST, asked.port);
        let Ok(mut server) = PageServer::listen(self.rt, alloc, SocketAddr::V4(endpoint)) else {
            note_port(self.rt, self.signs, endpoint);
            return Err(Fault::Read);
        };
        let host = PageHost {
            rt: self.rt,
            path: asked.control.as_str(),
            signs: self.signs,
        };
        match server.serve(alloc, &host, self.rt) {
            Ok(()) => Ok(()),
            Err(_) => Err(Fault::Read),
        }
    }

    fn ask_at(
        &self,
        endpoint: SocketAddrV4,
        within: u64,
    ) -> Result<
        (
            WriteSink<HostLine<'a, TcpStream>>,
            ReadSource<HostLine<'a, TcpStream>>,
        ),
        Fault,
    > {
        let (requests, replies) = terminals_host(self.rt, endpoint, within, self.signs)?;
        Ok((WriteSink::new(requests), ReadSource::new(replies)))
    }
}

impl<'a, D: Start> Watch for ThisMachine<'a, D> {
    fn was_silent(&self) -> bool {
        self.signs.silent.get()
    }

    /// A clock that can't be read stands still.
    fn micros(&self) -> u64 {
        match (self.began, Instant::now(self.rt)) {
            (Some(began), Ok(now)) => {
                let passed = now.saturating_duration_since(began);
                u64::try_from(passed.as_micros()).unwrap_or(u64::MAX)
            }
            _ => 0,
        }
    }
}

/// What the file at a path says that issuers answer.
fn answers_in(rt: &HostRuntime, alloc: Global, path: &str) -> Result<StandIn, Fault>
    ensures { IfErr result IsOfAnswers }
{
    let Ok(file) = File::open(rt, path) else {
        return Err(Fault::Read);
    };
    Ok(StandIn::read(alloc, &mut ReadSource::new(file))?)
}

/// The events of the lines in the file at a path.
fn events_in(rt: &HostRuntime, alloc: Global, path: &str) -> Result<Vec<Event>, Fault>
    ensures { IfErr result IsOfEvents }
{
    let Ok(file) = File::open(rt, path) else {
        return Err(Fault::Read);
    };
    Ok(read_events(alloc, &mut ReadSource::new(file))?)
}

/// The list of ranges in the file at a path.
fn ranges_in(rt: &HostRuntime, alloc: Global, path: &str) -> Result<RangeList, Fault>
    ensures { IfErr result IsOfRanges }
{
    let Ok(file) = File::open(rt, path) else {
        return Err(Fault::Read);
    };
    match RangeList::read_csv(alloc, file) {
        Ok(ranges) => Ok(ranges),
        Err(fault) => Err(Fault::from(fault)),
    }
}

/// The log that is asked for, if one is.
fn log_asked<'a>(
    rt: &'a HostRuntime,
    alloc: Global,
    signs: &Signs,
    asked: &ListenOptions,
) -> Result<Option<HostLog<LogOutput<'a>>>, Fault>
    ensures { IfErr result IsOfListening }
{
    let Some(path) = &asked.log else {
        return Ok(None);
    };
    match LogOutput::open(rt, path.as_str(), asked.log_bytes) {
        Ok(output) => {
            signs.log.set(Some(asked.log_bytes));
            Ok(Some(HostLog::new(alloc, output)))
        }
        Err(fault) => {
            signs.note(Lack::Log);
            Err(fault)
        }
    }
}

/// The control socket that is asked for, if one is.
fn control_asked(
    rt: &HostRuntime,
    signs: &Signs,
    asked: &ListenOptions,
) -> Result<Option<UnixListener>, Fault>
    ensures { IfErr result IsOfListening }
{
    let Some(path) = &asked.control else {
        return Ok(None);
    };
    match control_socket(rt, path.as_str()) {
        Ok(listener) => Ok(Some(listener)),
        Err(fault) => {
            signs.note(Lack::Control);
            Err(fault)
        }
    }
}

/// The socket for a gateway to issuers that is asked for, if one is.
fn gateway_asked(
    rt: &HostRuntime,
    signs: &Signs,
    asked: &ListenOptions,
) -> Result<Option<UnixListener>, Fault>
    ensures { IfErr result IsOfListening }
{
    let Some(path) = &asked.gateway else {
        return Ok(None);
    };
    match control_socket(rt, path.as_str()) {
        Ok(listener) => Ok(Some(listener)),
        Err(fault) => {
            signs.note(Lack::Gateway);
            Err(fault)
        }
    }
}

/// Notes why a port couldn't be listened at, by trying it once more.
fn note_port(rt: &HostRuntime, signs: &Signs, endpoint: SocketAddrV4) {
    if let Err(fault) = TcpListener::bind(rt, endpoint) {
        signs.note(Lack::Port(fault.kind()));
    }
}

/// Makes a new book in its file, closes it, and puts it to its place.
fn made_in<D: Start>(
    rt: &HostRuntime,
    file: &NewBookFile,
    start: D,
    limit: Limit,
    first_day: Day,
    sums: PageSums,
) -> Result<(), OpeningFault> {
    let book = make_book(rt, file.beside(), start, limit, first_day, sums)?;
    book.close()?;
    file.put(rt)
}

/// The refusal of a book, as the command tells it.
fn fault_of_opening(cause: OpeningFault) -> Fault
    ensures fault { result ≡ of_opening cause }
    ensures opening { IsOpening result }
{
    match cause {
        OpeningFault::Memory => Fault::Memory,
        OpeningFault::Store => Fault::Store,
        OpeningFault::NotABook => Fault::NotABook,
        OpeningFault::OtherVersion(version) => Fault::OtherVersion(version),
    }
}

/// Why a book was not closed, as the command tells it.
fn fault_of_closing(error: &Error) -> Fault
    ensures { IsClosing result }
{
    match error {
        Error::SqliteFailure(ErrorCode::OutOfMemory) => Fault::Memory,
        _ => Fault::Store,
    }
}
