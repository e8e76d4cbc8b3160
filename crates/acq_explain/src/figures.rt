//! The figures of a reconciliation that aren't the day's.

ghost use Rattle.std.specs.Prelude.{◌≡◌, ◌++◌, OnOk, flat_map};
ghost use Rattle.acq_message.specs.Reply.{count_elements, amount_elements};
ghost use Rattle.acq_explain.specs.Figures.{both_shown, claim_line, figure_line, net_line};
ghost use Rattle.acq_explain.specs.Figures.{figure_lines};

use crate::details::{put_element_name, put_shown};
use acq_message::{claimed_in, text_at};
use day_totals::{Leg, Totals};
use iso_codec::Message;
use std::alloc::AllocError;

/// Puts the figures that a reconciliation claims otherwise than the day has them, and the day's.
pub(crate) fn put_figures(
    text: &mut Vec<u8>,
    message: &Message,
    totals: &Totals,
) -> Result<(), AllocError>
    ensures { OnOk result (text.new.items
        ≡ text.old.items ++ figure_lines message.now totals.now) }
{
    put_counts(text, message, totals)?;
    put_amounts(text, message, totals)?;
    put_net(text, message, totals)
}

/// Puts those of elements 74 to 77.
fn put_counts(text: &mut Vec<u8>, message: &Message, totals: &Totals) -> Result<(), AllocError>
    ensures { OnOk result (text.new.items
        ≡ text.old.items ++ flat_map (figure_line message.now) (count_elements totals.now)) }
{
    put_figure(text, message, 74, &totals.count_text(Leg::Credit))?;
    put_figure(text, message, 75, &totals.count_text(Leg::CreditReversal))?;
    put_figure(text, message, 76, &totals.count_text(Leg::Debit))?;
    put_figure(text, message, 77, &totals.count_text(Leg::DebitReversal))
}

/// Puts those of elements 86 to 89.
fn put_amounts(text: &mut Vec<u8>, message: &Message, totals: &Totals) -> Result<(), AllocError>
    ensures { OnOk result (text.new.items
        ≡ text.old.items ++ flat_map (figure_line message.now) (amount_elements totals.now)) }
{
    put_figure(text, message, 86, &totals.amount_text(Leg::Credit))?;
    put_figure(text, message, 87, &totals.amount_text(Leg::CreditReversal))?;
    put_figure(text, message, 88, &totals.amount_text(Leg::Debit))?;
    put_figure(text, message, 89, &totals.amount_text(Leg::DebitReversal))
}

/// Puts element 97, if it isn't the day's net.
#[tactic(auto, unfolding(crate::specs::Figures::net_line))]
fn put_net(text: &mut Vec<u8>, message: &Message, totals: &Totals) -> Result<(), AllocError>
    ensures { OnOk result (text.new.items
        ≡ text.old.items ++ net_line message.now totals.now) }
{
    if claimed_in(message).net == totals.net() {
        return Ok(());
    }
    put_claim(text, message, 97, &totals.net_text())
}

/// Puts the line of an element that isn't the day's figure.
#[tactic(auto, unfolding(crate::specs::Figures::figure_line))]
fn put_figure(
    text: &mut Vec<u8>,
    message: &Message,
    number: u8,
    figure: &[u8],
) -> Result<(), AllocError>
    ensures { OnOk result (text.new.items
        ≡ text.old.items ++ figure_line message.now (number, figure.now)) }
{
    if text_at(message, number) == figure {
        return Ok(());
    }
    put_claim(text, message, number, figure)
}

/// Puts the line of an element, and the day's figure.
#[tactic(auto, unfolding(crate::specs::Figures::claim_line))]
fn put_claim(
    text: &mut Vec<u8>,
    message: &Message,
    number: u8,
    figure: &[u8],
) -> Result<(), AllocError>
    ensures { OnOk result (text.new.items
        ≡ text.old.items ++ claim_line message.now number figure.now) }
{
    text.extend_from_slice(b"    ")?;
    put_element_name(text, number)?;
    text.extend_from_slice(b": ")?;
    put_both(text, number, text_at(message, number), figure)?;
    text.extend_from_slice(b"\n")
}

/// Puts an element's content, and the day's figure.
#[tactic(auto, unfolding(crate::specs::Figures::both_shown))]
fn put_both(text: &mut Vec<u8>, number: u8, content: &[u8], figure: &[u8]) -> Result<(), AllocError>
    ensures { OnOk result (text.new.items
        ≡ text.old.items ++ both_shown number content.now figure.now) }
{
    put_shown(text, number, content)?;
    text.extend_from_slice(b", the day's ")?;
    text.extend_from_slice(figure)
}
