//! Text or JSON in, messages out.

ghost use Rattle.std.specs.Prelude.{◌≡◌, ◌⊎◌, ◌+◌, ◌++◌, ℕ, List, IfErr, IfOk, Ok, Err};
ghost use Rattle.iso_codec.specs.Message.{IsoMessage};
ghost use Rattle.acq_link.specs.Moves.{TakesAll};
ghost use Rattle.acq_faults.specs.Faults.{failed_reads, failed_writes};
ghost use Rattle.acq_make.specs.Written.{written};
ghost use Rattle.acq_make.specs.declared.make_fault.MakeFault.TheVariants.{Memory};
ghost use Rattle.acq_commands.specs.Make.{MakesOf, RunsMake, messages_said};
ghost use Rattle.acq_commands.specs.Replay.{AfterReading};

use crate::said_form::SaidForm;
use acq_faults::Fault;
use acq_json::make_of_json;
use acq_link::{Sink, Source, read_to_end, write_out};
use acq_make::{MadeForm, MakeFault, make_messages};
use std::alloc::Global;

/// Reads the whole input, lines or objects of JSON, and then writes the messages that it says, in
/// this form. Where a line is out of its form, or a message can't be made of it, nothing is written.
pub fn make<S: Source, K: Sink>(
    alloc: Global,
    said: SaidForm,
    form: &MadeForm,
    input: &mut S,
    output: &mut K,
) -> Result<(), Fault>
    // What was read, and what was written of it.
    ensures made { RunsMake said form.now
        (record { before = S.received input.old; after = S.received input.new })
        (record { before = K.sent output.old; after = K.sent output.new }) result }
    // Unless memory ran out or a read failed, the whole input was read.
    ensures whole { AfterReading result
        (TakesAll (S.remaining input.old) (S.received input.old) (S.received input.new)) }
    // A fault of reading or writing comes only where a read or a write failed.
    ensures reads { S.failures input.new ≡ S.failures input.old + failed_reads result }
    ensures writes { K.failures output.new ≡ K.failures output.old + failed_writes result }
{
    let text = read_to_end(alloc, input)?;
    make_of(alloc, said, form, text.as_slice(), output)
}

/// Writes the messages that an input says.
fn make_of<K: Sink>(
    alloc: Global,
    said: SaidForm,
    form: &MadeForm,
    text: &[u8],
    output: &mut K,
) -> Result<(), Fault>
    ensures made { (out : List ℕ) × (K.sent output.new ≡ K.sent output.old ++ out)
        × MakesOf said form.now text.now out result }
    ensures reads { failed_reads result ≡ 0 }
    ensures writes { K.failures output.new ≡ K.failures output.old + failed_writes result }
{
    let messages = made(alloc, said, form, text)?;
    match write_out(output, messages.as_slice()) {
        Ok(()) => Ok(()),
        Err(bytes) => Err(Fault::Write(bytes)),
    }
}

/// The messages that an input says, one behind another in this form.
fn made(alloc: Global, said: SaidForm, form: &MadeForm, text: &[u8]) -> Result<Vec<u8>, MakeFault>
    ensures made { IfOk result (λ out. (messages : List IsoMessage)
        × (messages_said said text.now ≡ Ok messages) × (out.items ≡ written form.now messages)) }
    ensures fault { IfErr result (λ fault. (fault ≡ Memory)
        ⊎ (messages_said said text.now ≡ Err fault)) }
{
    match said {
        SaidForm::Lines => make_messages(alloc, form, text),
        SaidForm::Json => make_of_json(alloc, form, text),
    }
}
