//! Lines of an input to a host, and its answers to them.

ghost use Rattle.std.specs.Prelude.{◌≡◌, ◌+◌, ◌++◌, ℕ, List, Ok, OnOk, false};
ghost use Rattle.acq_link.specs.Moves.{TakesAll};
ghost use Rattle.acq_control.specs.Lines.{ended};
ghost use Rattle.acq_control.specs.Telling.{Talk, TakesTurn, Tells, Writes, failed_reads};
ghost use Rattle.acq_control.specs.Telling.{failed_writes};

use crate::answer_kind::AnswerKind;
use crate::host_answer::HostAnswer;
use crate::input_lines::InputLines;
use acq_faults::Fault;
use acq_link::{Sink, Source, write_out};
use std::alloc::Global;

/// Sends the lines of an input to a host, the next one once the answer to the one before is whole,
/// and writes what the answers say: lines and texts to `output`, lines of faults to `faults`.
/// Returns whether one was a fault's line. A host that ends before an answer is whole is a fault
/// (`Ended`), and so are a line that is too long, which isn't sent, and a text without its length
/// (`BadLength`).
pub fn tell<S: Source, L: Sink, A: Source, K: Sink, F: Sink>(
    alloc: Global,
    input: &mut S,
    lines: &mut L,
    answers: &mut A,
    output: &mut K,
    faults: &mut F,
) -> Result<bool, Fault>
    // What was read of the input, what was said of it, and how it went.
    ensures tells { (bytes : List ℕ) × (talk : Talk)
        × (S.received input.new ≡ S.received input.old ++ bytes)
        × (L.sent lines.new ≡ L.sent lines.old ++ talk.sent)
        × (A.received answers.new ≡ A.received answers.old ++ talk.came)
        × (K.sent output.new ≡ K.sent output.old ++ talk.shown)
        × (F.sent faults.new ≡ F.sent faults.old ++ talk.told)
        × Tells bytes talk result }
    // No fault's line is written where none came.
    ensures quiet { result ≡ Ok false → F.sent faults.new ≡ F.sent faults.old }
    // Where all is well, the whole input was read.
    ensures whole { OnOk result
        (TakesAll (S.remaining input.old) (S.received input.old) (S.received input.new)) }
    // A fault of reading or writing comes only where a read or a write failed.
    ensures reads { S.failures input.new + A.failures answers.new
        ≡ S.failures input.old + A.failures answers.old + failed_reads result }
    ensures writes { L.failures lines.new + K.failures output.new + F.failures faults.new
        ≡ L.failures lines.old + K.failures output.old + F.failures faults.old
        + failed_writes result }
{
    let mut coming = InputLines::new();
    let mut held = Vec::new(alloc);
    let mut refused = false;
    loop {
        let Some(line) = coming.take_next(alloc, input)? else {
            return Ok(refused);
        };
        refused |= ask(alloc, line, lines, answers, &mut held, output, faults)?;
    }
}

/// Sends one line, which has its line feed, waits for the answer, and writes what that says.
fn ask<L: Sink, A: Source, K: Sink, F: Sink>(
    alloc: Global,
    line: Vec<u8>,
    lines: &mut L,
    answers: &mut A,
    held: &mut Vec<u8>,
    output: &mut K,
    faults: &mut F,
) -> Result<bool, Fault>
    ensures turn { (turn : Talk)
        × (L.sent lines.new ≡ L.sent lines.old ++ turn.sent)
        × (A.received answers.new ≡ A.received answers.old ++ turn.came)
        × (K.sent output.new ≡ K.sent output.old ++ turn.shown)
        × (F.sent faults.new ≡ F.sent faults.old ++ turn.told)
        × ((it : List ℕ) → line.items ≡ ended it
        → TakesTurn it held.old.items turn held.new.items result) }
    ensures reads { A.failures answers.new ≡ A.failures answers.old + failed_reads result }
    ensures writes { L.failures lines.new + K.failures output.new + F.failures faults.new
        ≡ L.failures lines.old + K.failures output.old + F.failures faults.old
        + failed_writes result }
{
    match write_out(lines, line.as_slice()) {
        Ok(()) => {}
        Err(bytes) => return Err(Fault::Write(bytes)),
    }
    drop(line);
    let answer = HostAnswer::read(alloc, answers, held)?;
    write_answer(answer.kind, answer.said.as_slice(), output, faults)
}

/// Writes what an answer says, and returns whether it is a fault.
fn write_answer<K: Sink, F: Sink>(
    kind: AnswerKind,
    said: &[u8],
    output: &mut K,
    faults: &mut F,
) -> Result<bool, Fault>
    ensures writes { (shown told : List ℕ) × (K.sent output.new ≡ K.sent output.old ++ shown)
        × (F.sent faults.new ≡ F.sent faults.old ++ told)
        × Writes kind said.now shown told result }
    ensures failures { K.failures output.new + F.failures faults.new
        ≡ K.failures output.old + F.failures faults.old + failed_writes result }
{
    let written = if kind.is_fault() {
        write_out(faults, said)
    } else {
        write_out(output, said)
    };
    match written {
        Ok(()) => Ok(kind.is_fault()),
        Err(bytes) => Err(Fault::Write(bytes)),
    }
}
