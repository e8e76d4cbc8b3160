//! Totals in words.

ghost use Rattle.std.specs.Prelude.{◌≡◌, ◌∷◌, [], codes, flat_map, IfOk, OnOk};
ghost use Rattle.std.specs.Fmt.{decimal};
ghost use Rattle.day_totals.specs.Totals.{net_text_of};
ghost use Rattle.acq_statement.specs.LegTexts.{joined, legs_text, legs_listed, owed_text, with_leg};

use crate::leg_sum::LegSum;
use crate::sums::Sums;
use day_totals::{Claimed, Leg, write_digits};
use itoa::Buffer;
use std::alloc::{AllocError, Global};

/// These texts, one after another.
pub(crate) fn joined(alloc: Global, texts: &[&[u8]]) -> Result<Vec<u8>, AllocError>
    ensures { IfOk result (λ text. text.items ≡ flat_map (λ part. part.now) texts.now) }
{
    let mut text = Vec::new(alloc);
    for part in texts.iter() {
        text.extend_from_slice(part)?;
    }
    Ok(text)
}

/// The legs that have postings, or that there are none.
pub(crate) fn legs_text(alloc: Global, sums: &Sums) -> Result<Vec<u8>, AllocError>
    ensures { IfOk result (λ text. text.items ≡ legs_text sums.now) }
{
    let legs = legs_listed(alloc, sums)?;
    if legs.is_empty() {
        return Vec::from_slice(alloc, b"nothing");
    }
    Ok(legs)
}

/// The legs that have postings.
fn legs_listed(alloc: Global, sums: &Sums) -> Result<Vec<u8>, AllocError>
    ensures { IfOk result (λ text. text.items ≡ legs_listed sums.now) }
{
    let mut legs = Vec::new(alloc);
    put_leg(alloc, &mut legs, b"credits", sums.leg(Leg::Credit))?;
    put_leg(
        alloc,
        &mut legs,
        b"credit reversals",
        sums.leg(Leg::CreditReversal),
    )?;
    put_leg(alloc, &mut legs, b"debits", sums.leg(Leg::Debit))?;
    put_leg(
        alloc,
        &mut legs,
        b"debit reversals",
        sums.leg(Leg::DebitReversal),
    )?;
    Ok(legs)
}

/// Puts a leg behind those that are listed already, if it has postings.
fn put_leg(alloc: Global, legs: &mut Vec<u8>, name: &[u8], leg: LegSum) -> Result<(), AllocError>
    ensures { OnOk result (legs.new.items ≡ with_leg legs.old.items name.now leg) }
{
    if leg.count() == 0 {
        return Ok(());
    }
    let text = leg_text(alloc, name, leg)?;
    if !legs.is_empty() {
        legs.extend_from_slice(b", ")?;
    }
    legs.extend_from_slice(text.as_slice())
}

fn leg_text(alloc: Global, name: &[u8], leg: LegSum) -> Result<Vec<u8>, AllocError>
    ensures { IfOk result (λ text. text.items ≡ joined (name.now ∷ codes " " ∷ decimal leg.amount
        ∷ codes " (" ∷ decimal leg.count ∷ codes ")" ∷ [])) }
{
    let mut amount = Buffer::new();
    let mut count = Buffer::new();
    let amount = amount.format(leg.amount()).as_bytes();
    let count = count.format(leg.count()).as_bytes();
    let texts: [&[u8]; 6] = [name, b" ", amount, b" (", count, b")"];
    joined(alloc, &texts)
}

/// Who owes whom how much, with a word for the merchants and a verb for what they do.
pub(crate) fn owed_text(
    alloc: Global,
    merchants: &[u8],
    owe: &[u8],
    sums: &Sums,
) -> Result<Vec<u8>, AllocError>
    ensures { IfOk result (λ text. text.items ≡ owed_text merchants.now owe.now sums.now) }
{
    let merchant = sums.due_to_merchant();
    let acquirer = sums.due_to_acquirer();
    if merchant == acquirer {
        return Vec::from_slice(alloc, b"  nothing is owed\n");
    }
    let mut number = Buffer::new();
    if acquirer < merchant {
        let number = number.format(merchant - acquirer).as_bytes();
        let texts: [&[u8]; 5] = [b"  the acquirer owes the ", merchants, b" ", number, b"\n"];
        joined(alloc, &texts)
    } else {
        let number = number.format(acquirer - merchant).as_bytes();
        let texts: [&[u8]; 5] = [b"  the ", merchants, owe, number, b"\n"];
        joined(alloc, &texts)
    }
}

/// A claimed net, as element 97 has it.
pub(crate) fn net_text(claimed: &Claimed) -> [u8; 17]
    ensures { result ≡ net_text_of claimed.now.net }
{
    let net = claimed.net;
    let mut text = [if net < 0 { b'D' } else { b'C' }; 17];
    write_digits(net.unsigned_abs(), &mut text[1..]);
    text
}
