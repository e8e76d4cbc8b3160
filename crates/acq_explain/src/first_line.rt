//! The first line of what is explained: what the host would say.

ghost use Rattle.std.specs.Prelude.{◌≡◌, ◌++◌, IfOk, OnOk};
ghost use Rattle.iso_codec.specs.Reading.{reading_of};
ghost use Rattle.acq_core.specs.Looking.{known_of};
ghost use Rattle.acq_out.specs.OutputLines.{line_of};
ghost use Rattle.acq_explain.specs.Explained.{code_read, kept_mark, coded, said, is_repeat};
ghost use Rattle.acq_explain.specs.Explained.{numbered, why_line, first_line};

use crate::passed::has_used_key;
use acq_core::{Arrival, Looked, Output};
use acq_link::MemorySink;
use acq_message::text_at;
use acq_out::write_output;
use acq_reasons::Reason;
use iso_codec::{DecodeFault, decode};
use itoa::Buffer;
use std::alloc::{AllocError, Global};

/// Puts the first line: why a reply has another code than 00, or what goes out.
pub(crate) fn put_first_line(
    alloc: Global,
    text: &mut Vec<u8>,
    looked: &Looked,
    arrival: &Arrival,
    reason: &Option<Reason>,
    output: &Output,
) -> Result<(), AllocError>
    ensures { OnOk result (text.new.items ≡ text.old.items
        ++ first_line (known_of looked.now) arrival.now reason.now output.now) }
{
    match reason {
        Some(reason) => put_why(text, reason),
        None => put_said(alloc, text, is_repeat(looked, arrival), output),
    }
}

/// Whether a request came whose key is used; one that isn't refused for it is a repeat.
fn is_repeat(looked: &Looked, arrival: &Arrival) -> bool
    ensures { result ≡ is_repeat (known_of looked.now) arrival.now }
{
    match arrival {
        Arrival::Requested(request) => has_used_key(looked, request),
        _ => false,
    }
}

/// Puts what goes out for no reason.
fn put_said(
    alloc: Global,
    text: &mut Vec<u8>,
    kept: bool,
    output: &Output,
) -> Result<(), AllocError>
    ensures { OnOk result (text.new.items ≡ text.old.items ++ said kept output.now) }
{
    match output {
        Output::Reply(_, reply) => {
            let code = code_read(alloc, reply.as_bytes())?;
            put_coded(text, kept, code.as_slice())
        }
        _ => {
            let line = line_of(alloc, output)?;
            text.extend_from_slice(line.as_slice())
        }
    }
}

/// The code of a reply.
fn code_read(alloc: Global, reply: &[u8]) -> Result<Vec<u8>, AllocError>
    ensures { IfOk result (λ code. code.items ≡ code_read (reading_of reply.now)) }
{
    let mut code = Vec::new(alloc);
    match decode(alloc, reply) {
        Ok(message) => code.extend_from_slice(text_at(&message, 39))?,
        Err(DecodeFault::Memory) => return Err(AllocError),
        Err(_) => {}
    }
    Ok(code)
}

/// Puts the line of a reply with a code that isn't refused now.
fn put_coded(text: &mut Vec<u8>, kept: bool, code: &[u8]) -> Result<(), AllocError>
    ensures { OnOk result (text.new.items ≡ text.old.items ++ coded kept code.now) }
{
    text.extend_from_slice(b"reply ")?;
    text.extend_from_slice(code)?;
    text.extend_from_slice(kept_mark(kept))?;
    text.extend_from_slice(b"\n")
}

/// What stands behind the code of a reply that was kept.
fn kept_mark(kept: bool) -> &'static [u8]
    ensures { result.now ≡ kept_mark kept }
{
    if kept { b", as it was kept" } else { b"" }
}

/// The line of any other output.
fn line_of(alloc: Global, output: &Output) -> Result<Vec<u8>, AllocError>
    ensures { IfOk result (λ text. text.items ≡ line_of output.now) }
{
    let mut line = MemorySink::new(alloc);
    match write_output(alloc, output, &mut line) {
        Ok(()) => line.as_bytes().to_vec(alloc),
        Err(_) => Err(AllocError),
    }
}

/// Puts the code, the word and the sentence of a reason.
fn put_why(text: &mut Vec<u8>, reason: &Reason) -> Result<(), AllocError>
    ensures { OnOk result (text.new.items ≡ text.old.items ++ why_line reason.now) }
{
    text.extend_from_slice(b"reply ")?;
    text.extend_from_slice(&reason.code().to_bytes())?;
    text.extend_from_slice(b", ")?;
    text.extend_from_slice(reason.word().as_bytes())?;
    put_number(text, reason.element())?;
    text.extend_from_slice(b": ")?;
    text.extend_from_slice(reason.sentence().as_bytes())?;
    text.extend_from_slice(b"\n")
}

/// Puts the number of the word's element.
fn put_number(text: &mut Vec<u8>, number: Option<u8>) -> Result<(), AllocError>
    ensures { OnOk result (text.new.items ≡ text.old.items ++ numbered number) }
{
    match number {
        Some(number) => {
            text.extend_from_slice(b"-")?;
            text.extend_from_slice(Buffer::new().format(number).as_bytes())
        }
        None => Ok(()),
    }
}
