//! Messages: how an element is looked up and set, and what is printed of them.

ghost use Rattle.std.specs.Prelude.{◌≡◌, ◌↔◌, ◌⊎◌, ◌≤◌, ℕ, List, true, [], Some, None, Err, length};
ghost use Rattle.std.specs.Prelude.{◌<◌, ◌==◌, ◌∷◌, ◌++◌, false, slice_index_or, slice_set, filter};
ghost use Rattle.std.specs.Prelude.{IfSome, IsSome, IfOk, OnOk, OnErr, IfErr};
ghost use Rattle.std.specs.List.{list_all, list_any, insert};
ghost use Rattle.std.specs.Option.{option_copied};
ghost use Rattle.std.specs.Char.{is_ascii_digit};
ghost use Rattle.iso_codec.specs.declared.set_fault.SetFault.{SetFault};
ghost use Rattle.iso_codec.specs.declared.set_fault.SetFault.TheVariants.{Memory};
ghost use Rattle.iso_codec.specs.Content.{has_length};
ghost use Rattle.iso_codec.specs.Message.{IsMessage, content_of, with_content, is_among};
ghost use Rattle.iso_codec.specs.Setting.{set_fault, IsPlace};
ghost use Rattle.iso_codec.specs.Span.{elements_in, is_within, IsStored};

use crate::classes::{all_digits, fits_class};
use crate::element_format::format_at;
use crate::form::Form;
use crate::set_fault::SetFault;
use crate::span::{Span, bytes_at};
use std::alloc::{AllocError, Global};
use std::fmt;
use std::marker::Model;

/// A message: four digits of type, and the contents of its elements. Contracts see it as a record
/// of the two, the elements as pairs of number and content in ascending order.
#[derive(Drop)]
pub struct Message {
    kind: [u8; 4],
    /// The elements, in ascending order.
    spans: Vec<Span>,
    /// Their contents, in any order.
    bytes: Vec<u8>,
}

impl Model for Message {
    ghost use Rattle.iso_codec.specs.Message.{IsoMessage};
    ghost use Rattle.iso_codec.specs.Span.{elements_in, IsStored};

    ghost Value = { IsoMessage };

    ghost view = { λ m. record {
      kind = m.kind;
      elements = elements_in m.bytes.items m.spans.items;
    } };

    ghost invariant = { λ m. IsStored m.kind m.bytes.items m.spans.items };
}

/// The type, and each element's number and length. No content is printed, since it may be a card
/// number or a track.
impl fmt::Debug for Message {
    ghost use Rattle.std.specs.Prelude.{Some};
    ghost use Rattle.iso_codec.specs.Shown.{shown_message};

    ghost debug_output = { λ m. Some (shown_message m) };

    fn fmt<W: fmt::Write>(&self, f: &mut fmt::Formatter<W>) -> fmt::Result {
        let Ok(kind) = str::from_utf8(&self.kind) else {
            unreachable!();
        };
        write!(f, "Message({kind}")?;
        let spans = self.spans.as_slice();
        for span in spans {
            write!(f, ", {}: {} bytes", span.number, span.len)?;
        }
        write!(f, ")")
    }
}

impl Message {
    /// A message without elements, or `None` where the type isn't four digits. It takes no memory.
    pub fn new(alloc: Global, kind: [u8; 4]) -> Option<Message>
        ensures there { IsSome result ↔ (list_all is_ascii_digit kind ≡ true) }
        ensures value { IfSome result (λ m. m ≡ record { kind = kind; elements = [] }) }
    {
        if !all_digits(&kind) {
            return None;
        }
        Some(Message {
            kind,
            spans: Vec::new(alloc),
            bytes: Vec::new(alloc),
        })
    }

    /// A message of the elements at these spans.
    pub(crate) fn with_spans(kind: [u8; 4], spans: Vec<Span>, bytes: Vec<u8>) -> Message
        requires { IsStored kind bytes.items spans.items }
        ensures { result ≡ record {
          kind = kind;
          elements = elements_in bytes.items spans.items;
        } }
    {
        Message { kind, spans, bytes }
    }

    /// The four digits of type.
    pub fn kind(&self) -> [u8; 4]
        ensures { result ≡ self.now.kind }
    {
        self.kind
    }

    /// The elements' spans, in ascending order, and the bytes that they stand in.
    pub(crate) fn parts(&self) -> (&[Span], &[u8])
        ensures value { elements_in result.1.now result.0.now ≡ self.now.elements }
        ensures stored { IsStored self.now.kind result.1.now result.0.now }
    {
        (self.spans.as_slice(), self.bytes.as_slice())
    }

    /// The content of an element, where it is there. It takes no memory.
    pub fn get(&self, number: u8) -> Option<&[u8]>
        ensures value { option_copied result ≡ content_of self.now.elements number }
        // What was there may be set again.
        ensures fits { IfSome result (λ content. set_fault number content.now ≡ None) }
        // The elements stand in ascending order, each with its length and class.
        ensures whole { IsMessage self.now }
    {
        find(self.spans.as_slice(), self.bytes.as_slice(), number)
    }

    /// Sets the content of an element, which is its bytes without a length prefix, in place of what
    /// was there. An `Err` changes nothing.
    pub fn set(&mut self, alloc: Global, number: u8, content: &[u8]) -> Result<(), SetFault>
        ensures ok { OnOk result (self.new ≡ record {
          kind = self.old.kind;
          elements = with_content self.old.elements number content.now;
        }) }
        ensures fits { OnOk result (set_fault number content.now ≡ None) }
        ensures err { OnErr result (self.new ≡ self.old) }
        ensures fault { IfErr result (λ f. (f ≡ Memory) ⊎ (set_fault number content.now ≡ Some f)) }
        // A content that the element can't have is reported, whatever memory there is.
        ensures reports { (f : SetFault) → set_fault number content.now ≡ Some f → result ≡ Err f }
    {
        if let Some(fault) = refusal(number, content) {
            return Err(fault);
        }
        put(alloc, &mut self.spans, &mut self.bytes, number, content)?;
        Ok(())
    }

    /// A message of another type, with those of this one's elements whose numbers are among these.
    pub fn select(
        &self,
        alloc: Global,
        kind: [u8; 4],
        numbers: &[u8],
    ) -> Result<Message, AllocError>
        requires { list_all is_ascii_digit kind ≡ true }
        ensures { IfOk result (λ m. m ≡ record {
          kind = kind;
          elements = filter (is_among numbers.now) self.now.elements;
        }) }
    {
        let (spans, bytes) = selected(
            alloc,
            self.spans.as_slice(),
            self.bytes.as_slice(),
            numbers,
        )?;
        Ok(Message { kind, spans, bytes })
    }

    /// A copy.
    pub fn copied(&self, alloc: Global) -> Result<Message, AllocError>
        ensures { IfOk result (λ m. m ≡ self.now) }
    {
        let spans = Vec::from_slice(alloc, self.spans.as_slice())?;
        let bytes = Vec::from_slice(alloc, self.bytes.as_slice())?;
        Ok(Message {
            kind: self.kind,
            spans,
            bytes,
        })
    }
}

fn find<'a>(spans: &[Span], bytes: &'a [u8], number: u8) -> Option<&'a [u8]>
    requires { list_all (is_within (length bytes.now)) spans.now ≡ true }
    ensures { option_copied result ≡ content_of (elements_in bytes.now spans.now) number }
{
    for span in spans {
        if span.number == number {
            return Some(bytes_at(bytes, *span));
        }
    }
    None
}

fn fits_length(form: Form, len: usize) -> bool
    ensures { result ≡ has_length form len }
{
    match form {
        Form::Fixed(size) => len == size as usize,
        Form::Llvar(greatest) => len <= greatest as usize,
        Form::Lllvar(greatest) => len <= greatest as usize,
    }
}

/// Why an element can't have a content.
fn refusal(number: u8, content: &[u8]) -> Option<SetFault>
    ensures { result ≡ set_fault number content.now }
{
    let Some(format) = format_at(number) else {
        return Some(SetFault::UnknownElement(number));
    };
    if !fits_length(format.form, content.len()) {
        return Some(SetFault::BadLength(number));
    }
    if !fits_class(format.class, content) {
        return Some(SetFault::BadContent(number));
    }
    None
}

/// The place of the first element that isn't below a number.
fn place(spans: &[Span], number: u8) -> usize
    ensures { (bytes : List ℕ) → IsPlace (elements_in bytes spans.now) number result }
{
    for (i, span) in spans.iter().enumerate() {
        if span.number >= number {
            return i;
        }
    }
    spans.len()
}

/// Puts an element at its place, in place of one with its number.
fn put(
    alloc: Global,
    spans: &mut Vec<Span>,
    bytes: &mut Vec<u8>,
    number: u8,
    content: &[u8],
) -> Result<(), AllocError>
    requires { list_all (is_within (length bytes.old.items)) spans.old.items ≡ true }
    ensures ok { OnOk result (elements_in bytes.new.items spans.new.items
        ≡ with_content (elements_in bytes.old.items spans.old.items) number content.now) }
    ensures err { OnErr result (elements_in bytes.new.items spans.new.items
        ≡ elements_in bytes.old.items spans.old.items) }
    ensures within { list_all (is_within (length bytes.new.items)) spans.new.items ≡ true }
{
    let at = place(spans.as_slice(), number);
    if at < spans.len() && spans[at].number == number {
        let (fresh_spans, fresh_bytes) = replaced(
            alloc,
            spans.as_slice(),
            bytes.as_slice(),
            at,
            number,
            content,
        )?;
        *spans = fresh_spans;
        *bytes = fresh_bytes;
        Ok(())
    } else {
        add(spans, bytes, at, number, content)
    }
}

/// How many elements and bytes of content most messages have.
const USUAL_ELEMENTS: usize = 16;

const USUAL_BYTES: usize = 128;

/// Makes room for a usual message, at its first element.
fn make_room(spans: &mut Vec<Span>, bytes: &mut Vec<u8>) -> Result<(), AllocError>
    ensures spans { spans.new.items ≡ spans.old.items }
    ensures bytes { bytes.new.items ≡ bytes.old.items }
{
    if spans.capacity() == 0 {
        spans.reserve(USUAL_ELEMENTS)?;
        return bytes.reserve(USUAL_BYTES);
    }
    Ok(())
}

/// Adds an element at a place, its content behind the others.
fn add(
    spans: &mut Vec<Span>,
    bytes: &mut Vec<u8>,
    at: usize,
    number: u8,
    content: &[u8],
) -> Result<(), AllocError>
    requires place { at ≤ length spans.old.items }
    requires stand { list_all (is_within (length bytes.old.items)) spans.old.items ≡ true }
    ensures ok { OnOk result (elements_in bytes.new.items spans.new.items
        ≡ insert (elements_in bytes.old.items spans.old.items) at (number, content.now)) }
    ensures err { OnErr result (elements_in bytes.new.items spans.new.items
        ≡ elements_in bytes.old.items spans.old.items) }
    ensures within { list_all (is_within (length bytes.new.items)) spans.new.items ≡ true }
{
    make_room(spans, bytes)?;
    let start = bytes.len();
    bytes.extend_from_slice(content)?;
    let span = Span {
        number,
        start,
        len: content.len(),
    };
    match spans.insert(at, span) {
        Ok(()) => Ok(()),
        Err(_) => {
            bytes.truncate(start);
            Err(AllocError)
        }
    }
}

/// Adds an element behind the others. After an `Err` neither vector is used again.
fn append(
    spans: &mut Vec<Span>,
    bytes: &mut Vec<u8>,
    number: u8,
    content: &[u8],
) -> Result<(), AllocError>
    requires { list_all (is_within (length bytes.old.items)) spans.old.items ≡ true }
    ensures ok { OnOk result (elements_in bytes.new.items spans.new.items
        ≡ elements_in bytes.old.items spans.old.items ++ (number, content.now) ∷ []) }
    ensures within { OnOk result (list_all (is_within (length bytes.new.items)) spans.new.items
        ≡ true) }
{
    let start = bytes.len();
    bytes.extend_from_slice(content)?;
    spans.push(Span {
        number,
        start,
        len: content.len(),
    })?;
    Ok(())
}

/// The elements anew, with another content at one place and nothing of the old one.
fn replaced(
    alloc: Global,
    spans: &[Span],
    bytes: &[u8],
    at: usize,
    number: u8,
    content: &[u8],
) -> Result<(Vec<Span>, Vec<u8>), AllocError>
    requires { list_all (is_within (length bytes.now)) spans.now ≡ true }
    ensures value { IfOk result (λ x. elements_in x.1.items x.0.items
        ≡ slice_set (elements_in bytes.now spans.now) at (number, content.now)) }
    ensures within { IfOk result (λ x. list_all (is_within (length x.1.items)) x.0.items ≡ true) }
{
    let mut fresh_spans = Vec::with_capacity(alloc, spans.len())?;
    let mut fresh_bytes = Vec::with_capacity(alloc, bytes.len().saturating_add(content.len()))?;
    for (i, span) in spans.iter().enumerate() {
        if i == at {
            append(&mut fresh_spans, &mut fresh_bytes, number, content)?;
        } else {
            let kept = bytes_at(bytes, *span);
            append(&mut fresh_spans, &mut fresh_bytes, span.number, kept)?;
        }
    }
    Ok((fresh_spans, fresh_bytes))
}

/// How many elements and bytes of content are mostly added to a selection.
const SPARE_ELEMENTS: usize = 4;

const SPARE_BYTES: usize = 32;

/// Whether each number is among these.
fn marked(numbers: &[u8]) -> [bool; 256]
    ensures size { length result ≡ 256 }
    ensures value { (n : ℕ) → n < 256
        → slice_index_or result n false ≡ list_any (λ m. m == n) numbers.now }
{
    let mut marks = [false; 256];
    for number in numbers {
        marks[*number as usize] = true;
    }
    marks
}

/// The elements whose numbers are among these, anew.
fn selected(
    alloc: Global,
    spans: &[Span],
    bytes: &[u8],
    numbers: &[u8],
) -> Result<(Vec<Span>, Vec<u8>), AllocError>
    requires { list_all (is_within (length bytes.now)) spans.now ≡ true }
    ensures value { IfOk result (λ x. elements_in x.1.items x.0.items
        ≡ filter (is_among numbers.now) (elements_in bytes.now spans.now)) }
    ensures within { IfOk result (λ x. list_all (is_within (length x.1.items)) x.0.items ≡ true) }
{
    let mut kept_spans = Vec::with_capacity(alloc, spans.len().saturating_add(SPARE_ELEMENTS))?;
    let mut kept_bytes = Vec::with_capacity(alloc, bytes.len().saturating_add(SPARE_BYTES))?;
    let wanted = marked(numbers);
    for span in spans {
        if wanted[span.number as usize] {
            let content = bytes_at(bytes, *span);
            append(&mut kept_spans, &mut kept_bytes, span.number, content)?;
        }
    }
    Ok((kept_spans, kept_bytes))
}
