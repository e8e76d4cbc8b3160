//! One run of the program.

ghost use Rattle.std.specs.Prelude.{◌≡◌, ◌≤◌, ℕ, [], map, true, false, Ok, IfErr, IfOk};
ghost use Rattle.std.specs.Prelude.{MatchResult, OnOk};
ghost use Rattle.clap.specs.Words.{fault_of, kind_of};
ghost use Rattle.clap.specs.declared.error.kind.ErrorKind.TheVariants.{OutOfMemory};
ghost use Rattle.acq_program.specs.Program.{program};
ghost use Rattle.acq_program.specs.BookFaults.{IsClosing, IsOpening};
ghost use Rattle.acq_core.specs.Pasts.{HasPast};
ghost use Rattle.acq_front.specs.Stops.{left_of};
ghost use Rattle.acq_commands.specs.Ending.{EndsWaiting};
ghost use Rattle.acq_commands.specs.Runs.{RunsReplay};
ghost use Rattle.acq_program.specs.Runs.{Does, IsQuiet, IsUntouched, MayCome};
ghost use Rattle.acq_program.specs.Runs.{ReadsWhole, Runs, ServesAsked, ServesIn, Tells};
ghost use Rattle.acq_program.specs.Runs.{plain_end, status_in};

use crate::asking::ask_host;
use crate::auditing::audit;
use crate::explaining::explain;
use crate::finding::write_found;
use crate::listing::write_list;
use crate::machine::Machine;
use crate::page_options::PageOptions;
use crate::page_sums::PageSums;
use crate::pending::answer_pending;
use crate::setting_host_ranges::set_ranges_of_host;
use crate::setting_ranges::set_ranges;
use crate::stating::{report_csv, state};
use crate::status::tell_status;
use crate::telling::tell_host;
use crate::{Action, UsageFault, action_of};
use acq_book::Book;
use acq_commands::{
    BookReport, HoldsOptions, NewBook, OnceOptions, Progress, ReplayOptions, TextSink,
    end_waiting_on, holds_of, listen_on, listen_together_on, make, once_in_memory, once_on,
    replay_in_memory, replay_on, report_on, show,
};
use acq_faults::{Fault, ListenOptions};
use acq_front::{Clock, FixedClock, Issuer, NoIssuer};
use acq_link::{Sink, Source};
use acq_recall::{Lenient, RecallingBook};
use clap::error::ErrorKind;
use std::alloc::Global;
use std::convert::AsStr;
use std::fmt::Write;
use std::hash::RandomState;

/// The status of wrong usage.
const USAGE: u8 = 2;

/// Runs the command that the arguments name, the program's own name first, and returns the status:
/// 0 where all is well, 1 for a fault, its own or one that a host told, 2 for wrong usage, 3 where
/// memory ran out. A fault, or what is wrong with the arguments, is written to `faults`; help goes
/// to `output`. A book in memory finds its rows by hash, under `keys`; files and ports are those of
/// `machine`. The moments at which frames come are told by `clock`. How far a long run is goes to
/// `progress`.
pub fn command<
    W: AsStr,
    B: Lenient + Drop,
    M: Machine<B> + Drop,
    C: Clock,
    S: Source,
    K: Sink,
    F: Sink,
    P: Progress,
>(
    alloc: Global,
    keys: RandomState,
    args: &[W],
    machine: M,
    clock: &mut C,
    input: &mut S,
    output: &mut K,
    faults: &mut F,
    progress: &mut P,
) -> u8
    ensures status { result ≤ 3 }
    // Where nothing is wrong with the arguments, what they ask for is done.
    ensures ran { fault_of program (map W.text args.now) ≡ []
        → Runs (map W.text args.now) (S.remaining input.old)
        (record { before = S.received input.old; after = S.received input.new })
        (record { before = K.sent output.old; after = K.sent output.new })
        (record { before = F.sent faults.old; after = F.sent faults.new }) result }
    // Else nothing was read.
    ensures unread { ¬ (fault_of program (map W.text args.now) ≡ [])
        → S.received input.new ≡ S.received input.old }
    // Where all is well, no fault is written, but those of connections.
    ensures quiet { result ≡ 0
        → IsQuiet (map W.text args.now) (F.sent faults.old) (F.sent faults.new) }
    // After wrong usage nothing was read, and nothing written but what is wrong.
    ensures usage_unread { result ≡ 2 → S.received input.new ≡ S.received input.old }
    ensures usage_unwritten { result ≡ 2 → K.sent output.new ≡ K.sent output.old }
{
    match action_of(alloc, args) {
        Ok(action) => {
            let ended = run(
                alloc, keys, action, machine, clock, input, output, faults, progress,
            );
            finish(ended, faults)
        }
        Err(UsageFault::BadValue(option)) => {
            let _ = writeln!(TextSink::new(faults), "acqd: bad value {option}");
            USAGE
        }
        Err(UsageFault::Words(said)) => tell(&said, output, faults),
    }
}

/// Does what is asked, and returns the status where no fault stops it.
fn run<B: Lenient + Drop, M: Machine<B> + Drop, C: Clock, S: Source, K: Sink, F: Sink, P: Progress>(
    alloc: Global,
    keys: RandomState,
    action: Action,
    machine: M,
    clock: &mut C,
    input: &mut S,
    output: &mut K,
    faults: &mut F,
    progress: &mut P,
) -> Result<u8, Fault>
    ensures done { Does action (S.remaining input.old)
        (record { before = S.received input.old; after = S.received input.new })
        (record { before = K.sent output.old; after = K.sent output.new })
        (record { before = F.sent faults.old; after = F.sent faults.new }) result }
    ensures told { Tells action (F.sent faults.old) (F.sent faults.new) result }
    ensures status { IfOk result (λ status. status ≤ 1) }
{
    match action {
        Action::Init(new, sums) => plainly(init(machine, &new, sums)),
        Action::Migrate(path) => plainly(migrate(machine, &path)),
        Action::Once(asked) => { plainly(once(alloc, keys, machine, &asked, clock, input, output)) }
        Action::Listen(asked) => plainly(listen(alloc, keys, machine, &asked, clock, faults)),
        Action::Replay(options) => plainly(replay(
            alloc, keys, machine, &options, input, output, progress,
        )),
        Action::Report(options) => plainly(report(alloc, machine, &options, output)),
        Action::ReportCsv(asked) => plainly(report_csv(alloc, machine, &asked, output)),
        Action::Statement(asked) => plainly(state(alloc, machine, &asked, output)),
        Action::Find(asked) => plainly(write_found(alloc, machine, &asked, output)),
        Action::Holds(options) => plainly(holds(alloc, machine, &options, output)),
        Action::List(asked) => plainly(write_list(alloc, machine, &asked, output)),
        Action::Ranges(asked) => plainly(set_ranges(
            alloc, keys, machine, &asked, output, progress,
        )),
        Action::HostRanges(asked) => set_ranges_of_host(alloc, machine, &asked, output, faults),
        Action::Pending(asked) => plainly(answer_pending(alloc, machine, &asked, clock, output)),
        Action::Show(how, form) => plainly(show(alloc, how, form, input, output)),
        Action::Make(said, form) => plainly(make(alloc, said, &form, input, output)),
        Action::Status(path) => plainly(tell_status(alloc, machine, &path, output)),
        Action::Audit(asked) => audit(alloc, keys, machine, &asked, output),
        Action::Page(asked) => plainly(serve_page(alloc, machine, &asked)),
        Action::Explain(asked) => {
            plainly(explain(alloc, keys, machine, &asked, clock, input, output))
        }
        Action::Ask(asked) => plainly(ask_host(alloc, machine, &asked, input, output)),
        Action::Tell(asked) => tell_host(alloc, machine, &asked, input, output, faults),
    }
}

/// Shows the page of a host.
fn serve_page<B: Book + Drop, M: Machine<B> + Drop>(
    alloc: Global,
    machine: M,
    asked: &PageOptions,
) -> Result<(), Fault> {
    machine.serve_page(alloc, asked)
}

/// How a command ended that has no status of its own: with 0 where all is well.
fn plainly(ended: Result<(), Fault>) -> Result<u8, Fault>
    ensures same { result ≡ plain_end ended }
    ensures status { IfOk result (λ status. status ≤ 1) }
{
    match ended {
        Ok(()) => Ok(0),
        Err(fault) => Err(fault),
    }
}

/// Makes a new book.
fn init<B: Book + Drop, M: Machine<B>>(
    machine: M,
    new: &NewBook,
    sums: PageSums,
) -> Result<(), Fault>
    ensures { IfErr result IsOpening }
{
    machine.make_book(new.path.as_str(), new.limit, new.first_day, sums)
}

/// Migrates the book in a file, which is given back at once.
#[tactic(auto, using(crate::proofs::Closing::closing_is_opening))]
fn migrate<B: Book + Drop, M: Machine<B>>(machine: M, path: &String) -> Result<(), Fault>
    ensures { IfErr result IsOpening }
{
    let book = machine.migrate_book(path.as_str())?;
    M::close_book(book)
}

/// Answers the frames of the input, and asks the issuers' file, or without one nobody.
fn once<B: Lenient + Drop, M: Machine<B> + Drop, C: Clock, S: Source, K: Sink>(
    alloc: Global,
    keys: RandomState,
    machine: M,
    asked: &OnceOptions,
    clock: &mut C,
    input: &mut S,
    output: &mut K,
) -> Result<(), Fault>
    ensures served { ServesAsked asked.now
        (record { before = S.received input.old; after = S.received input.new })
        (record { before = K.sent output.old; after = K.sent output.new }) result }
    ensures whole { ReadsWhole
        (S.remaining input.old) (S.received input.old) (S.received input.new) result }
{
    match &asked.issuers {
        Some(path) => {
            let answers = machine.read_answers(alloc, path.as_str());
            once_at(alloc, keys, machine, asked, clock, answers, input, output)
        }
        None => once_at(
            alloc,
            keys,
            machine,
            asked,
            clock,
            Ok(NoIssuer),
            input,
            output,
        ),
    }
}

/// Answers the frames of the input, at one moment where one is asked for.
fn once_at<B: Lenient + Drop, M: Machine<B> + Drop, C: Clock, I: Issuer + Drop, S: Source, K: Sink>(
    alloc: Global,
    keys: RandomState,
    machine: M,
    asked: &OnceOptions,
    clock: &mut C,
    issuers: Result<I, Fault>,
    input: &mut S,
    output: &mut K,
) -> Result<(), Fault>
    ensures served { MatchResult issuers
        (λ issuer. ServesIn asked.now.book (MayCome asked.now.moment) (I.may_say issuer)
        (record { before = S.received input.old; after = S.received input.new })
        (record { before = K.sent output.old; after = K.sent output.new }) result)
        (λ fault. IsUntouched
        (record { before = S.received input.old; after = S.received input.new })
        (record { before = K.sent output.old; after = K.sent output.new })) }
    ensures whole { ReadsWhole
        (S.remaining input.old) (S.received input.old) (S.received input.new) result }
{
    let path = &asked.book;
    match asked.moment {
        Some(moment) => {
            let mut clock = FixedClock::new(moment);
            once_over(
                alloc, keys, machine, path, &mut clock, issuers, input, output,
            )
        }
        None => once_over(alloc, keys, machine, path, clock, issuers, input, output),
    }
}

/// Answers the frames of the input over the book in a file, or without one over a new book. Where
/// the issuers' file can't be read, that is told behind what is wrong with the book.
fn once_over<
    B: Lenient + Drop,
    M: Machine<B> + Drop,
    C: Clock,
    I: Issuer + Drop,
    S: Source,
    K: Sink,
>(
    alloc: Global,
    keys: RandomState,
    machine: M,
    path: &Option<String>,
    clock: &mut C,
    issuers: Result<I, Fault>,
    input: &mut S,
    output: &mut K,
) -> Result<(), Fault>
    ensures served { MatchResult issuers
        (λ issuer. ServesIn path.now (C.may_give clock.old) (I.may_say issuer)
        (record { before = S.received input.old; after = S.received input.new })
        (record { before = K.sent output.old; after = K.sent output.new }) result)
        (λ fault. IsUntouched
        (record { before = S.received input.old; after = S.received input.new })
        (record { before = K.sent output.old; after = K.sent output.new })) }
    ensures whole { ReadsWhole
        (S.remaining input.old) (S.received input.old) (S.received input.new) result }
{
    match path {
        Some(path) => {
            let opened = machine.open_book(path.as_str());
            let (book, mut issuer, ()) = all_opened(opened, issuers, Ok(()))?;
            let book = RecallingBook::new(alloc, keys, book);
            closed::<B, M>(once_on(alloc, book, clock, &mut issuer, input, output))
        }
        None => {
            let mut issuer = issuers?;
            once_in_memory(alloc, keys, clock, &mut issuer, input, output)
        }
    }
}

/// Answers the frames of connections, and asks the issuers' file, or the gateway, or without either
/// nobody.
fn listen<B: Lenient + Drop, M: Machine<B> + Drop, C: Clock, F: Sink>(
    alloc: Global,
    keys: RandomState,
    machine: M,
    asked: &ListenOptions,
    clock: &mut C,
    faults: &mut F,
) -> Result<(), Fault> {
    match &asked.issuers {
        Some(path) => {
            let answers = machine.read_answers(alloc, path.as_str());
            listen_at(alloc, keys, machine, asked, clock, answers, faults)
        }
        None if asked.gateway.is_some() => {
            let desk = machine.desk();
            listen_at(alloc, keys, machine, asked, clock, desk, faults)
        }
        None => listen_at(alloc, keys, machine, asked, clock, Ok(NoIssuer), faults),
    }
}

/// Answers the frames of connections, at one moment where one is asked for.
fn listen_at<B: Lenient + Drop, M: Machine<B> + Drop, C: Clock, I: Issuer + Drop, F: Sink>(
    alloc: Global,
    keys: RandomState,
    machine: M,
    asked: &ListenOptions,
    clock: &mut C,
    issuers: Result<I, Fault>,
    faults: &mut F,
) -> Result<(), Fault> {
    match asked.moment {
        Some(moment) => {
            let mut clock = FixedClock::new(moment);
            listen_over(alloc, keys, machine, asked, &mut clock, issuers, faults)
        }
        None => listen_over(alloc, keys, machine, asked, clock, issuers, faults),
    }
}

/// Answers the frames of connections over the book in a file, one connection after the other or
/// many at once. What is wrong is told of the book first, then of the issuers' file, then of the
/// port.
fn listen_over<B: Lenient + Drop, M: Machine<B> + Drop, C: Clock, I: Issuer + Drop, F: Sink>(
    alloc: Global,
    keys: RandomState,
    machine: M,
    asked: &ListenOptions,
    clock: &mut C,
    issuers: Result<I, Fault>,
    faults: &mut F,
) -> Result<(), Fault> {
    if needs_server(asked) {
        return serve_over(alloc, keys, machine, asked, clock, issuers, faults);
    }
    let connections = machine.listen_at(asked.endpoint, asked.patience);
    let opened = machine.open_book(asked.path.as_str());
    let (book, mut issuer, mut connections) = all_opened(opened, issuers, connections)?;
    let book = RecallingBook::new(alloc, keys, book);
    let (book, ended) = end_waiting_first(alloc, book, asked, clock, faults);
    ended?;
    closed::<B, M>(listen_on(
        alloc,
        book,
        &mut connections,
        asked.count,
        clock,
        &mut issuer,
        faults,
    ))
}

/// Ends the requests that wait for their issuer, where that is asked for. The book is given back
/// with how it ended.
fn end_waiting_first<B: Book + Drop, C: Clock, F: Sink>(
    alloc: Global,
    book: B,
    asked: &ListenOptions,
    clock: &mut C,
    faults: &mut F,
) -> (B, Result<(), Fault>)
    requires past { B.is_open book → HasPast (B.tables book) }
    // If it is asked for, so many get no answer, and nothing else comes of it; else nothing does.
    ensures ended { asked.now.end_waiting ≡ true → B.is_honest result.0 → B.is_open book
        → (moment : ℕ) × C.may_give clock.old moment
        × EndsWaiting moment (B.tables book) (left_of B.Book result.0) result.1 }
    ensures unasked { asked.now.end_waiting ≡ false → (result.0 ≡ book) × (result.1 ≡ Ok tt)
        × (clock.new ≡ clock.old) × (faults.new ≡ faults.old) }
    ensures past { B.is_open result.0 → HasPast (B.tables result.0) }
{
    if asked.end_waiting {
        end_waiting_on(alloc, book, clock, faults)
    } else {
        (book, Ok(()))
    }
}

/// Has the book count what a status asks for, which is then recalled, if it may be asked for one:
/// all requests, terminals and ranges are gone over for that, and no terminal waits for it yet. A
/// fault of the store comes to whoever asks it next.
fn count_first<B: Book>(book: &mut B, asked: &ListenOptions) {
    if asked.control.is_some() {
        if let Ok(day) = book.day() {
            let _ = book.used_on(day);
        }
        let _ = book.waiting_count();
        let _ = book.terminal_count();
        let _ = book.range_count();
    }
}

/// Whether connections are to be served as many at once are, of which one may be there alone.
fn needs_server(asked: &ListenOptions) -> bool {
    // Each is cheap to look at, and a proof walks through each way to leave a chain of `||`.
    (asked.together > 1)
        | asked.from_one_address.is_some()
        | asked.proxy_protocol
        | asked.gateway.is_some()
        | asked.control.is_some()
        | asked.log.is_some()
}

/// Answers the frames of connections over the book in a file, many at once.
fn serve_over<B: Lenient + Drop, M: Machine<B> + Drop, C: Clock, I: Issuer + Drop, F: Sink>(
    alloc: Global,
    keys: RandomState,
    machine: M,
    asked: &ListenOptions,
    clock: &mut C,
    issuers: Result<I, Fault>,
    faults: &mut F,
) -> Result<(), Fault> {
    let server = machine.serve_at(alloc, asked);
    let opened = machine.open_book(asked.path.as_str());
    let (book, mut issuer, mut server) = all_opened(opened, issuers, server)?;
    let mut book = RecallingBook::new(alloc, keys, book);
    count_first(&mut book, asked);
    let (book, ended) = end_waiting_first(alloc, book, asked, clock, faults);
    let ran = match ended {
        Ok(()) => listen_together_on(
            alloc,
            book,
            &mut server,
            asked.count,
            clock,
            &mut issuer,
            faults,
        ),
        Err(fault) => (book, Err(fault)),
    };
    M::end_serving(server, asked);
    closed::<B, M>(ran)
}

/// The book, who answers and what connections come over, or the first fault in this order. It is
/// apart, since a proof of what each fault lets go takes long beside all that a command holds.
fn all_opened<B: Drop, I: Drop, N: Drop>(
    book: Result<B, Fault>,
    issuer: Result<I, Fault>,
    connections: Result<N, Fault>,
) -> Result<(B, I, N), Fault>
    ensures book { IfOk result (λ opened. book ≡ Ok opened.0) }
    ensures issuer { IfOk result (λ opened. issuer ≡ Ok opened.1) }
{
    Ok((book?, issuer?, connections?))
}

/// Gives back the book of a run that ended well.
fn closed<B: Lenient + Drop, M: Machine<B>>(
    ran: (RecallingBook<B>, Result<(), Fault>),
) -> Result<(), Fault>
    ensures { OnOk result (ran.1 ≡ Ok tt) }
{
    let (book, ended) = ran;
    match ended {
        Ok(()) => M::close_book(book.into_book()),
        Err(fault) => Err(fault),
    }
}

/// Writes a report on the book in a file.
fn report<B: Book + Drop, M: Machine<B>, K: Sink>(
    alloc: Global,
    machine: M,
    options: &BookReport,
    output: &mut K,
) -> Result<(), Fault> {
    let book = machine.open_book(options.path.as_str())?;
    let (book, ended) = report_on(alloc, book, options, output);
    drop(book);
    ended
}

/// Writes the open holds of a merchant of the book in a file.
fn holds<B: Book + Drop, M: Machine<B>, K: Sink>(
    alloc: Global,
    machine: M,
    options: &HoldsOptions,
    output: &mut K,
) -> Result<(), Fault> {
    let book = machine.open_book(options.path.as_str())?;
    let (book, ended) = holds_of(alloc, book, options, output);
    drop(book);
    ended
}

/// Replays an input over the book in a file, or without one over a new book.
fn replay<B: Lenient + Drop, M: Machine<B> + Drop, S: Source, K: Sink, P: Progress>(
    alloc: Global,
    keys: RandomState,
    machine: M,
    options: &ReplayOptions,
    input: &mut S,
    output: &mut K,
    progress: &mut P,
) -> Result<(), Fault>
    ensures runs { RunsReplay options.now
        (record { before = S.received input.old; after = S.received input.new })
        (record { before = K.sent output.old; after = K.sent output.new }) result }
    ensures whole { ReadsWhole
        (S.remaining input.old) (S.received input.old) (S.received input.new) result }
{
    match &options.book {
        Some(path) => {
            let opened = machine.open_book(path.as_str());
            replay_in_file::<B, M, S, K, P>(alloc, keys, opened, options, input, output, progress)
        }
        None => replay_in_memory(alloc, keys, options, input, output, progress),
    }
}

/// Replays an input over the book that was opened.
fn replay_in_file<B: Lenient + Drop, M: Machine<B> + Drop, S: Source, K: Sink, P: Progress>(
    alloc: Global,
    keys: RandomState,
    opened: Result<B, Fault>,
    options: &ReplayOptions,
    input: &mut S,
    output: &mut K,
    progress: &mut P,
) -> Result<(), Fault>
    ensures { ReadsWhole
        (S.remaining input.old) (S.received input.old) (S.received input.new) result }
{
    let book = RecallingBook::new(alloc, keys, opened?);
    let reports = options.reports.as_slice();
    closed::<B, M>(replay_on(alloc, book, options.group, reports, input, output, progress))
}

/// Writes what clap says of the arguments, help and the version to `output`, and returns the
/// status.
fn tell<K: Sink, F: Sink>(said: &clap::Error, output: &mut K, faults: &mut F) -> u8
    ensures status { result ≤ 3 }
    ensures memory { kind_of said.now ≡ OutOfMemory
        → (result ≡ 3) × (K.sent output.new ≡ K.sent output.old) }
    ensures quiet { result ≡ 0 → F.sent faults.new ≡ F.sent faults.old }
    ensures usage_unwritten { result ≡ 2 → K.sent output.new ≡ K.sent output.old }
{
    if said.kind() == ErrorKind::OutOfMemory {
        return finish(Err(Fault::Memory), faults);
    }
    if said.use_stderr() {
        let _ = write!(TextSink::new(faults), "{said}");
        return USAGE;
    }
    match write!(TextSink::new(output), "{said}") {
        Ok(()) => 0,
        Err(_) => finish(Err(Fault::Write(0)), faults),
    }
}

/// Writes that there was no memory for the arguments, and returns the status.
pub fn memory_fault<F: Sink>(faults: &mut F) -> u8
    ensures { result ≡ 3 }
{
    finish(Err(Fault::Memory), faults)
}

/// Writes that there was no randomness for the keys of hashes, and returns the status.
pub fn read_fault<F: Sink>(faults: &mut F) -> u8
    ensures { result ≡ 1 }
{
    finish(Err(Fault::Read), faults)
}

/// Writes that an argument isn't UTF-8, which is wrong usage, and returns the status. Arguments are
/// counted from 1, behind the program's own name.
pub fn utf8_fault<F: Sink>(place: usize, faults: &mut F) -> u8
    ensures { result ≡ 2 }
{
    let _ = writeln!(
        TextSink::new(faults),
        "error: argument {place} is not UTF-8"
    );
    USAGE
}

/// Writes a fault, and returns the status.
fn finish<F: Sink>(ended: Result<u8, Fault>, faults: &mut F) -> u8
    ensures status { result ≡ status_in ended }
    ensures quiet { OnOk ended (F.sent faults.new ≡ F.sent faults.old) }
{
    match ended {
        Ok(status) => status,
        Err(fault) => {
            let _ = writeln!(TextSink::new(faults), "acqd: {fault}");
            fault.status()
        }
    }
}
