//! Answers of a host, out of a stream that comes in pieces.

ghost use Rattle.std.specs.Prelude.{◌≡◌, ◌+◌, ◌<◌, IfErr, IfNone, IfOk, IfSome};
ghost use Rattle.std.specs.Prelude.{None, OnErr, length};
ghost use Rattle.acq_faults.specs.declared.fault.Fault.TheVariants.{BadLength};
ghost use Rattle.acq_control.specs.HostAnswers.{Answer, BeginsWithAnswer, HasBadHeading};
ghost use Rattle.acq_control.specs.HostAnswers.{IsInAnswer, kind_of_line, length_by_kind};
ghost use Rattle.acq_control.specs.HostAnswers.{length_of_text, said, said_by_kind};
ghost use Rattle.acq_control.specs.Telling.{CannotTake, ComesOf, failed_reads};

use crate::answer_kind::AnswerKind;
use crate::line_buffer::line_end;
use acq_faults::Fault;
use acq_link::{Failed, Source};
use acq_message::digits_value;
use iso_codec::all_digits;
use std::alloc::Global;

/// How many bytes one read asks for.
const PIECE: usize = 64 * 1024;

/// The most digits of a text's length.
const MOST_LENGTH_DIGITS: usize = 16;

/// An answer of a host: what it is, and what it says, of a text its bytes alone.
#[derive(Drop)]
pub(crate) struct HostAnswer {
    pub(crate) kind: AnswerKind,
    pub(crate) said: Vec<u8>,
}

impl HostAnswer {
    /// Reads until an answer is whole, of which some bytes may be held before; what comes behind it
    /// is held for the next one.
    pub(crate) fn read<A: Source>(
        alloc: Global,
        source: &mut A,
        held: &mut Vec<u8>,
    ) -> Result<HostAnswer, Fault>
        ensures comes { ComesOf (A.received source.old) (A.received source.new) held.old.items
            held.new.items result }
        ensures reads { A.failures source.new ≡ A.failures source.old + failed_reads result }
    {
        let mut piece = [0; PIECE];
        loop {
            if let Some(answer) = HostAnswer::take(alloc, held)? {
                return Ok(answer);
            }
            let n = match source.read(&mut piece) {
                Ok(n) => n,
                Err(Failed) => return Err(Fault::Read),
            };
            if n == 0 {
                return Err(Fault::Ended);
            }
            held.extend_from_slice(&piece[..n])?;
        }
    }

    /// Takes out the answer in front, if it is whole. After an `Err` nothing has changed.
    fn take(alloc: Global, held: &mut Vec<u8>) -> Result<Option<HostAnswer>, Fault>
        ensures some { IfOk result (λ o. IfSome o (λ it. (answer : Answer)
            × BeginsWithAnswer held.old.items answer held.new.items
            × (it.kind ≡ kind_of_line answer.line) × (it.said.items ≡ said answer))) }
        ensures none { IfOk result (λ o. IfNone o
            ((held.new.items ≡ held.old.items) × IsInAnswer held.old.items)) }
        ensures kept { OnErr result (held.new.items ≡ held.old.items) }
        ensures refused { IfErr result (CannotTake held.old.items) }
    {
        let Some(front) = AnswerFront::of(held.as_slice())? else {
            return Ok(None);
        };
        let kind = front.kind;
        let said = Vec::from_slice(alloc, front.said)?;
        let rest = Vec::from_slice(alloc, front.rest)?;
        *held = rest;
        Ok(Some(HostAnswer { kind, said }))
    }
}

/// The answer at the front of some bytes, and what stands behind it.
#[derive(Clone, Copy, Drop)]
struct AnswerFront<'a> {
    kind: AnswerKind,
    said: &'a [u8],
    rest: &'a [u8],
}

impl<'a> AnswerFront<'a> {
    /// The answer at the front, if it is whole.
    fn of(bytes: &'a [u8]) -> Result<Option<AnswerFront<'a>>, Fault>
        ensures some { IfOk result (λ o. IfSome o (λ it. (answer : Answer)
            × BeginsWithAnswer bytes.entry.now answer it.rest.now
            × (it.kind ≡ kind_of_line answer.line) × (it.said.now ≡ said answer))) }
        ensures none { IfOk result (λ o. IfNone o (IsInAnswer bytes.entry.now)) }
        ensures bad { IfErr result (λ fault. (fault ≡ BadLength) × HasBadHeading bytes.entry.now) }
    {
        let Some(end) = line_end(bytes) else {
            return Ok(None);
        };
        let line = &bytes[..end];
        let kind = AnswerKind::of(line);
        let Some(length) = length_behind(kind, line) else {
            return Err(Fault::BadLength);
        };
        let (whole, behind) = bytes.split_at(end + 1);
        if behind.len() < length {
            return Ok(None);
        }
        let (text, rest) = behind.split_at(length);
        let said = said_by(kind, whole, text);
        Ok(Some(AnswerFront { kind, said, rest }))
    }
}

/// What an answer says, of a text its bytes alone.
fn said_by<'a>(kind: AnswerKind, line: &'a [u8], text: &'a [u8]) -> &'a [u8]
    ensures { result.now ≡ said_by_kind kind line.entry.now text.entry.now }
{
    match kind {
        AnswerKind::Text => text,
        _ => line,
    }
}

/// How many bytes stand behind an answer's line, if a text's heading says it.
fn length_behind(kind: AnswerKind, line: &[u8]) -> Option<usize>
    requires { kind ≡ kind_of_line line.now }
    ensures { result ≡ length_by_kind kind line.now }
{
    match kind {
        AnswerKind::Text => length_of(&line[5..]),
        _ => Some(0),
    }
}

/// The length that a text spells: one to sixteen digits (own profile).
fn length_of(digits: &[u8]) -> Option<usize>
    ensures { result ≡ length_of_text digits.now }
{
    if digits.is_empty() || digits.len() > MOST_LENGTH_DIGITS || !all_digits(digits) {
        return None;
    }
    Some(digits_value(digits) as usize)
}
