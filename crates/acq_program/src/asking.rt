//! The messages of the input to a host.

ghost use Rattle.std.specs.Prelude.{◌≡◌};
ghost use Rattle.acq_program.specs.Runs.{ReadsWhole};
ghost use Rattle.acq_program.specs.Asking.{AsksHost, end_of_asking, end_of_repeating, of_ask};
ghost use Rattle.acq_program.specs.Asking.{of_no_reply};

use crate::ask_options::AskOptions;
use crate::machine::Machine;
use acq_ask::{AskFault, NoReply, ask, repeat};
use acq_book::Book;
use acq_faults::Fault;
use acq_link::{Sink, Source};
use std::alloc::Global;

/// Sends the messages of the input to a host, and writes what a person is shown of them and of
/// what comes back; or sends one so often, and writes what came of all of it. That a message got
/// no reply in time is told at the end.
pub(crate) fn ask_host<B: Book + Drop, M: Machine<B> + Drop, S: Source, K: Sink>(
    alloc: Global,
    machine: M,
    asked: &AskOptions,
    input: &mut S,
    output: &mut K,
) -> Result<(), Fault>
    ensures asks { AsksHost asked.now
        (record { before = S.received input.old; after = S.received input.new })
        (record { before = K.sent output.old; after = K.sent output.new }) result }
    ensures whole { ReadsWhole
        (S.remaining input.old) (S.received input.old) (S.received input.new) result }
{
    let within = asked.within;
    let (mut requests, mut replies) = machine.ask_at(asked.endpoint, within)?;
    match asked.repeat {
        None => end_of_asking(ask(
            alloc,
            input,
            &mut requests,
            &mut replies,
            &machine,
            within,
            output,
        )),
        Some(count) => end_of_repeating(repeat(
            alloc,
            count,
            input,
            &mut requests,
            &mut replies,
            &machine,
            output,
        )),
    }
}

/// How a command ends that asked: that a message got no reply in time is a fault.
fn end_of_asking(asked: Result<bool, AskFault>) -> Result<(), Fault>
    ensures { result ≡ end_of_asking asked }
{
    match asked {
        Ok(false) => Ok(()),
        Ok(true) => Err(Fault::Silent),
        Err(fault) => Err(of_ask(fault)),
    }
}

/// How a command ends that asked again and again.
fn end_of_repeating(repeated: Result<(), AskFault>) -> Result<(), Fault>
    ensures { result ≡ end_of_repeating repeated }
{
    match repeated {
        Ok(()) => Ok(()),
        Err(fault) => Err(of_ask(fault)),
    }
}

/// Why no more messages were sent, as the command tells it.
fn of_ask(fault: AskFault) -> Fault
    ensures { result ≡ of_ask fault }
{
    match fault {
        AskFault::Memory => Fault::Memory,
        AskFault::Read => Fault::Read,
        AskFault::BadLength => Fault::BadLength,
        AskFault::Ended => Fault::Ended,
        AskFault::Undecodable(cause) => Fault::Undecodable(cause),
        AskFault::Write(bytes) => Fault::Write(bytes),
        AskFault::NoReply(cause) => of_no_reply(cause),
    }
}

/// Why a message got no reply, as the command tells it.
fn of_no_reply(cause: NoReply) -> Fault
    ensures { result ≡ of_no_reply cause }
{
    match cause {
        NoReply::Memory => Fault::Memory,
        NoReply::Unsent(bytes) => Fault::Write(bytes),
        NoReply::Silent => Fault::Silent,
        NoReply::Ended => Fault::Ended,
        NoReply::BadLength => Fault::BadLength,
        NoReply::Read => Fault::Read,
    }
}
