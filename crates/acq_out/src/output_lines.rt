//! Lines of outputs.

ghost use Rattle.std.specs.Prelude.{◌≡◌, ◌+◌, ◌++◌, IfOk, OnOk, codes};
ghost use Rattle.acq_out.specs.Faults.{failed_writes};
ghost use Rattle.acq_out.specs.OutputLines.{WritesLine, line_of, words_of, query_words};
ghost use Rattle.acq_out.specs.OutputLines.{end_digits};

use crate::out_fault::OutFault;
use acq_core::{Output, Query};
use acq_link::{Sink, write_out};
use card_no::{Prefix, Range};
use day_totals::write_digits;
use iso_codec::DecodeFault;
use itoa::Buffer;
use std::alloc::{AllocError, Global};

/// Room for the words of any line but a reply's, with most issuers.
const SHORT: usize = 96;

/// Writes the line of an output (own profile; `specs/OutputLines.antt`). `Write` tells how many
/// bytes of it went out.
pub fn write_output<K: Sink>(alloc: Global, output: &Output, writer: &mut K) -> Result<(), OutFault>
    ensures sent { WritesLine output.now (K.sent writer.old) (K.sent writer.new) result }
    ensures failures { K.failures writer.new ≡ K.failures writer.old + failed_writes result }
{
    let line = line_of(alloc, output)?;
    match write_out(writer, line.as_slice()) {
        Ok(()) => Ok(()),
        Err(bytes) => Err(OutFault::Write(bytes)),
    }
}

/// The line of an output.
fn line_of(alloc: Global, output: &Output) -> Result<Vec<u8>, AllocError>
    ensures { IfOk result (λ line. line.items ≡ line_of output.now) }
{
    let text_len = match output {
        Output::Reply(_, text) => text.as_bytes().len(),
        _ => 0,
    };
    let mut line = Vec::with_capacity(alloc, text_len.saturating_add(SHORT))?;
    put_words(&mut line, output)?;
    line.push(b'\n')?;
    Ok(line)
}

/// Puts what the line of an output says behind other bytes.
fn put_words(line: &mut Vec<u8>, output: &Output) -> Result<(), AllocError>
    ensures { OnOk result (line.new.items ≡ line.old.items ++ words_of output.now) }
{
    match output {
        Output::Reply(_, text) => put_both(line, b"reply ", text.as_bytes()),
        Output::Ask(query) => put_query(line, query),
        Output::Done => line.extend_from_slice(b"done"),
        Output::BadRange => line.extend_from_slice(b"refused 20"),
        Output::Overlap(range) => put_overlap(line, range),
        Output::NoSuchRange => line.extend_from_slice(b"refused 22"),
        Output::Undecodable(fault) => put_fault(line, *fault),
        Output::UnservedType(kind) => put_both(line, b"refused 31 ", kind),
        Output::Waiting => line.extend_from_slice(b"refused 32"),
        Output::Late => line.extend_from_slice(b"refused 33"),
        Output::UnknownReference => line.extend_from_slice(b"refused 34"),
        Output::AlreadyAnswered => line.extend_from_slice(b"refused 35"),
        Output::AlreadyEnrolled => line.extend_from_slice(b"refused 36"),
        Output::NoSuchMerchant => line.extend_from_slice(b"refused 37"),
        Output::LastDay => line.extend_from_slice(b"refused 38"),
    }
}

/// Puts two texts behind other bytes.
fn put_both(line: &mut Vec<u8>, front: &[u8], back: &[u8]) -> Result<(), AllocError>
    ensures { OnOk result (line.new.items ≡ line.old.items ++ (front.now ++ back.now)) }
{
    line.extend_from_slice(front)?;
    line.extend_from_slice(back)
}

/// Puts a request, its card masked, behind other bytes.
fn put_query(line: &mut Vec<u8>, query: &Query) -> Result<(), AllocError>
    ensures { OnOk result (line.new.items
        ≡ line.old.items ++ (codes "ask " ++ query_words query.now)) }
{
    put_both(line, b"ask ", &query.merchant.to_bytes())?;
    put_both(line, b" ", &query.reference.text())?;
    put_both(line, b" ", query.card.masked().as_bytes())?;
    put_both(
        line,
        b" ",
        Buffer::new().format(query.amount.number()).as_bytes(),
    )?;
    put_both(line, b" ", query.issuer.as_bytes())
}

/// Puts the ends of a range that overlaps behind other bytes.
fn put_overlap(line: &mut Vec<u8>, range: &Range) -> Result<(), AllocError>
    ensures { OnOk result (line.new.items
        ≡ line.old.items ++ words_of (Output.Overlap range.now)) }
{
    put_both(line, b"refused 21 ", &end_digits(range.low))?;
    put_both(line, b" ", &end_digits(range.high))
}

/// The end of a range, with as many digits as a prefix has.
fn end_digits(end: u32) -> [u8; Prefix::DIGITS]
    ensures { result ≡ end_digits end }
{
    let mut digits = [b'0'; Prefix::DIGITS];
    write_digits(u64::from(end), &mut digits);
    digits
}

/// Puts why a frame spells no message behind other bytes.
fn put_fault(line: &mut Vec<u8>, fault: DecodeFault) -> Result<(), AllocError>
    ensures { OnOk result (line.new.items
        ≡ line.old.items ++ words_of (Output.Undecodable fault)) }
{
    let mut number = Buffer::new();
    let mut element = Buffer::new();
    put_both(
        line,
        b"refused 30 ",
        number.format(fault.number()).as_bytes(),
    )?;
    put_both(line, b" ", element.format(fault.element()).as_bytes())
}
