//! `acqd`, the acquirer host: reads its arguments, runs a command over standard input and output,
//! and ends with a status.
#![tactic(auto)]

ghost use Rattle.std.specs.Prelude.{◌≤◌};

mod apart;
mod at_once;
mod auditing;
mod book_files;
mod book_signs;
mod control_host;
mod control_socket;
mod fault_event;
mod host_line;
mod log_output;
mod new_book_file;
mod no_book;
mod open_book;
mod page_host;
mod standard_descriptors;
mod standard_error;
mod stopped_runs;
mod terminals_host;
mod this_machine;

use acq_causes::{Asked, Emptiness, Explained, Signs};
use acq_commands::{Progress, PromptLines, SystemClock, TerminalProgress};
use acq_gateway::GatewayDesk;
use acq_link::{ReadSource, Sink, Source, WriteSink};
use acq_program::{Machine, command, memory_fault, read_fault, utf8_fault};
use acq_recall::Lenient;
use acq_sql::OnceBook;
use fault_event::log_fault;
pub use no_book::NoBook;
pub use open_book::{make_book, migrate_book, open_book};
use sqlite::Alter;
use sqlite_disk::{Start, Unknown};
use standard_descriptors::take_closed;
use standard_error::StandardError;
use std::env::{Env, FillError};
use std::hash::RandomState;
use std::io::IsTerminal;
use std::process::ExitCode;
use std::{env, io, str};
pub use stopped_runs::{reopened, stopped_run};
pub use this_machine::ThisMachine;

fn main(rt: HostRuntime) -> ExitCode {
    if take_closed(&rt).is_err() {
        return ExitCode::from(read_fault(&mut WriteSink::new(rt.stderr())));
    }
    ExitCode::from(run(&rt, Unknown))
}

/// Runs the program over the streams and the files of this machine; `D` says what the file that is
/// opened holds before. Where a person reads what it tells, that is explained.
fn run<D: Start>(rt: &HostRuntime, start: D) -> u8 {
    let terminal = rt.stderr();
    let is_read = terminal.is_terminal();
    let terminal = is_read.then_some(terminal);
    let signs = Signs::new();
    let words = args(rt).unwrap_or_else(|_| Vec::new(rt.alloc()));
    let asked = Asked::new(words.as_slice());
    let faults = PromptLines::new(rt.alloc(), StandardError::new(rt), &signs.listens);
    let mut faults = WriteSink::new(Explained::new(rt, faults, asked, &signs, is_read));
    let mut output = WriteSink::new(Emptiness::new(rt.stdout(), asked));
    let status = run_over_files(
        rt,
        start,
        &signs,
        &mut ReadSource::new(rt.stdin()),
        &mut output,
        &mut faults,
        &mut TerminalProgress::new(rt, terminal),
    );
    if let Some(ended) = faults.into_inner().ended() {
        log_fault(rt, asked, &signs, ended);
    }
    if is_read && status == 0 && output.into_inner().is_of(asked) {
        tell_of_nothing(rt, asked);
    }
    status
}

/// Tells a person, and no script, that a report has nothing in it.
fn tell_of_nothing(rt: &HostRuntime, asked: Asked<'_>) {
    if let Some(day) = asked.value("--day") {
        let _ = eprintln!(rt; "acqd: note: {day}: no posting of that day is in the book");
    }
}

/// Runs the program over the files of this machine. It is apart from the streams, since a proof
/// that holds both types at once grows too large.
fn run_over_files<D: Start, S: Source, K: Sink, F: Sink, P: Progress>(
    rt: &HostRuntime,
    start: D,
    signs: &Signs,
    input: &mut S,
    output: &mut K,
    faults: &mut F,
    progress: &mut P,
) -> u8
    ensures { result ≤ 3 }
{
    let Ok(desk) = GatewayDesk::new(rt.alloc()) else {
        return memory_fault(faults);
    };
    let machine = ThisMachine::new(rt, start, signs, desk);
    run_over_store(rt, machine, input, output, faults, progress)
}

/// Runs the program over a machine that keeps books in SQL. It is apart from the store that this
/// machine has, for the same reason.
fn run_over_store<
    T: Alter + Drop,
    M: Machine<OnceBook<T>> + Drop,
    S: Source,
    K: Sink,
    F: Sink,
    P: Progress,
>(
    rt: &HostRuntime,
    machine: M,
    input: &mut S,
    output: &mut K,
    faults: &mut F,
    progress: &mut P,
) -> u8
    ensures { result ≤ 3 }
{
    run_over(rt, machine, input, output, faults, progress)
}

/// Runs the program with the arguments of this process.
fn run_over<B: Lenient + Drop, M: Machine<B> + Drop, S: Source, K: Sink, F: Sink, P: Progress>(
    rt: &HostRuntime,
    machine: M,
    input: &mut S,
    output: &mut K,
    faults: &mut F,
    progress: &mut P,
) -> u8
    ensures { result ≤ 3 }
{
    match args(rt) {
        Ok(args) => match RandomState::new(rt) {
            Ok(keys) => command(
                rt.alloc(),
                keys,
                args.as_slice(),
                machine,
                &mut SystemClock::new(rt),
                input,
                output,
                faults,
                progress,
            ),
            Err(_) => read_fault(faults),
        },
        Err(_) => match first_not_text(rt) {
            Some(place) => utf8_fault(place, faults),
            None => memory_fault(faults),
        },
    }
}

/// The program's own name and the arguments behind it.
fn args<R: Env + AllocGlobal>(rt: &R) -> io::Result<Vec<String>> {
    Ok(env::args(rt)?.collect(rt.alloc())?)
}

/// The place of the first argument that isn't UTF-8. One too long for a look is passed over.
fn first_not_text(rt: &impl Env) -> Option<usize> {
    let mut buffer = [0; 4096];
    for place in 0..usize::MAX {
        match rt.arg(place, &mut buffer) {
            Ok(len) => {
                if str::from_utf8(&buffer[..len]).is_err() {
                    return Some(place);
                }
            }
            Err(FillError::TooLong) => {}
            Err(FillError::NotPresent) => return None,
        }
    }
    None
}
