//! The messages that a text says.

ghost use Rattle.std.specs.Prelude.{◌≡◌, ◌⊎◌, ◌++◌, ◌∷◌, [], List, Ok, Err, Some, None, IfOk, IfErr};
ghost use Rattle.std.specs.Prelude.{OnOk, OnErr};
ghost use Rattle.iso_codec.specs.Message.{IsoMessage};
ghost use Rattle.acq_link.specs.Frames.{fits_frame};
ghost use Rattle.acq_make.specs.Contents.{content_said};
ghost use Rattle.acq_make.specs.Lines.{said_text};
ghost use Rattle.acq_make.specs.Said.{begun, ended, messages_said, step, with_line};
ghost use Rattle.acq_make.specs.Said.{with_new_element};
ghost use Rattle.acq_make.specs.Written.{written};
ghost use Rattle.acq_make.specs.declared.make_fault.MakeFault.TheVariants.{Memory};

use crate::contents::content_said;
use crate::draft::Draft;
use crate::line_kind::LineKind;
use crate::lines::{line_kind, said_text};
use crate::made_form::MadeForm;
use crate::make_fault::MakeFault;
use crate::written::put_made;
use acq_link::LONGEST_MESSAGE;
use acq_show::{line_at, without_return};
use iso_codec::{Message, SetFault, encode};
use std::alloc::Global;

/// The messages that a text says (`specs/Said.antt`), one behind another in this form.
pub fn make_messages(alloc: Global, form: &MadeForm, text: &[u8]) -> Result<Vec<u8>, MakeFault>
    // What is written are the spellings of the messages that the lines say.
    ensures made { IfOk result (λ out. (messages : List IsoMessage)
        × (messages_said text.now ≡ Ok messages) × (out.items ≡ written form.now messages)) }
    // A fault is the text's first one, or memory ran out.
    ensures fault { IfErr result (λ fault. (fault ≡ Memory)
        ⊎ (messages_said text.now ≡ Err fault)) }
{
    let mut out = Vec::new(alloc);
    let mut draft = None;
    let mut rest = text;
    let mut number = 0;
    while !rest.is_empty() {
        let (line, after) = line_at(rest);
        number += 1;
        take_line(
            alloc,
            form,
            &mut out,
            &mut draft,
            number,
            without_return(line),
        )?;
        rest = after;
    }
    end_message(alloc, form, &mut out, draft)?;
    Ok(out)
}

/// Takes a line, behind which another message may go on.
fn take_line(
    alloc: Global,
    form: &MadeForm,
    out: &mut Vec<u8>,
    draft: &mut Option<Draft>,
    number: u64,
    line: &[u8],
) -> Result<(), MakeFault>
    ensures step { OnOk result ((messages : List IsoMessage)
        × (step draft.old number line.now ≡ Ok (messages, draft.new))
        × (out.new.items ≡ out.old.items ++ written form.now messages)) }
    ensures fault { IfErr result (λ fault. (fault ≡ Memory)
        ⊎ (step draft.old number line.now ≡ Err fault)) }
{
    match line_kind(line) {
        None => Err(MakeFault::BadLine(number)),
        Some(LineKind::Remark) => Ok(()),
        Some(LineKind::Empty) => end_message(alloc, form, out, draft.take()),
        Some(LineKind::Head(kind)) => {
            end_message(alloc, form, out, draft.take())?;
            *draft = Some(begun(alloc, number, kind)?);
            Ok(())
        }
        Some(LineKind::Element(element)) => {
            *draft = Some(with_line(alloc, number, draft.take(), element, line)?);
            Ok(())
        }
    }
}

/// Writes the message that ends, if one was begun.
fn end_message(
    alloc: Global,
    form: &MadeForm,
    out: &mut Vec<u8>,
    draft: Option<Draft>,
) -> Result<(), MakeFault>
    ensures ok { OnOk result ((messages : List IsoMessage) × (ended draft ≡ Ok messages)
        × (out.new.items ≡ out.old.items ++ written form.now messages)) }
    ensures fault { IfErr result (λ fault. (fault ≡ Memory) ⊎ (ended draft ≡ Err fault)) }
{
    let Some(draft) = draft else {
        return Ok(());
    };
    let mut text = Vec::new(alloc);
    encode(alloc, &draft.message, &mut text)?;
    if !fits_frame(text.as_slice()) {
        return Err(MakeFault::BadMessage(draft.line, SetFault::BadLength(0)));
    }
    put_made(alloc, form, out, text.as_slice())?;
    Ok(())
}

/// Whether a message has 1 to 4,096 bytes.
fn fits_frame(text: &[u8]) -> bool
    ensures { result ≡ fits_frame text.now }
{
    !text.is_empty() && text.len() <= LONGEST_MESSAGE
}

/// A message without elements, if these bytes are a type.
#[tactic(auto, unfolding(crate::specs::Said::begun))]
fn begun(alloc: Global, line: u64, kind: [u8; 4]) -> Result<Draft, MakeFault>
    ensures ok { IfOk result (λ draft. begun line kind ≡ Ok draft) }
    ensures fault { IfErr result (λ fault. begun line kind ≡ Err fault) }
{
    match Message::new(alloc, kind) {
        Some(message) => Ok(Draft { line, message }),
        None => Err(MakeFault::BadLine(line)),
    }
}

/// The message with the element that a line says.
#[tactic(auto, unfolding(crate::specs::Said::with_line))]
fn with_line(
    alloc: Global,
    number: u64,
    draft: Option<Draft>,
    element: u8,
    line: &[u8],
) -> Result<Draft, MakeFault>
    ensures ok { IfOk result (λ next.
        with_line number draft element (content_said element (said_text element line.now))
        ≡ Ok next) }
    ensures fault { IfErr result (λ fault. (fault ≡ Memory)
        ⊎ (with_line number draft element (content_said element (said_text element line.now))
        ≡ Err fault)) }
{
    let Some(draft) = draft else {
        return Err(MakeFault::BadLine(number));
    };
    match content_said(alloc, element, said_text(element, line))? {
        Some(content) => with_element(alloc, number, draft, element, content.as_slice()),
        None => Err(MakeFault::BadLine(number)),
    }
}

/// The message with an element that it doesn't have.
fn with_element(
    alloc: Global,
    number: u64,
    mut draft: Draft,
    element: u8,
    content: &[u8],
) -> Result<Draft, MakeFault>
    ensures ok { IfOk result (λ next.
        with_new_element number draft element content.now ≡ Ok next) }
    ensures fault { IfErr result (λ fault. (fault ≡ Memory)
        ⊎ (with_new_element number draft element content.now ≡ Err fault)) }
{
    if draft.message.get(element).is_some() {
        return Err(MakeFault::BadLine(number));
    }
    match draft.message.set(alloc, element, content) {
        Ok(()) => Ok(draft),
        Err(SetFault::Memory) => Err(MakeFault::Memory),
        Err(fault) => Err(MakeFault::BadMessage(number, fault)),
    }
}
