//! A status in writing.

ghost use Rattle.std.specs.Prelude.{◌≡◌, ◌++◌, IfOk, OnOk, codes};
ghost use Rattle.std.specs.List.{flat_map};
ghost use Rattle.acq_status.specs.Figures.{figures_of};
ghost use Rattle.acq_status.specs.Names.{key_of};
ghost use Rattle.acq_status.specs.Replies.{value_text};
ghost use Rattle.acq_status.specs.Texts.{about, about_line, dated, metric, metrics_of};
ghost use Rattle.acq_status.specs.Texts.{pending_line, pending_sample, status_line, status_of};
ghost use Rattle.acq_status.specs.Texts.{version};

use crate::book_figures::BookFigures;
use crate::figure::Figure;
use crate::pending_day::PendingDay;
use crate::reading::Reading;
use crate::readings::{begin_of, readings_of};
use crate::reply_texts::{put_reply_metrics, put_status_replies};
use crate::serving::Serving;
use day_totals::Day;
use itoa::Buffer;
use std::alloc::{AllocError, Global};

/// The program's version.
pub const VERSION: &str = "0.2.0";

/// What stands before it in metrics.
const ABOUT_VERSION: &[u8] = b"# HELP acqd_info The program's version.\n# TYPE acqd_info gauge\n";

/// Room for a text.
const TEXT: usize = 4096;

/// The figures of a book, and of what is served (own profile; `specs/Texts.antt`): a
/// line for each, its key and its value, the version of these lines and the business day first.
pub(crate) fn status_text(
    alloc: Global,
    figures: &BookFigures,
    serving: Option<Serving>,
) -> Result<Vec<u8>, AllocError>
    ensures { IfOk result (λ text.
        text.items ≡ status_of (figures_of figures.now) serving) }
{
    let readings = readings_of(alloc, figures, serving)?;
    let mut text = Vec::with_capacity(alloc, TEXT)?;
    put_version(&mut text, b"version ", b"\n")?;
    put_dated(&mut text, b"day ", figures.day, b"\n")?;
    put_status_lines(&mut text, readings.as_slice())?;
    put_status_replies(&mut text, serving)?;
    put_pending_lines(&mut text, figures.pending.as_slice())?;
    Ok(text)
}

/// The same figures as metrics (Prometheus, text-based format).
pub(crate) fn metrics_text(
    alloc: Global,
    figures: &BookFigures,
    serving: Option<Serving>,
) -> Result<Vec<u8>, AllocError>
    ensures { IfOk result (λ text.
        text.items ≡ metrics_of (figures_of figures.now) serving) }
{
    let readings = readings_of(alloc, figures, serving)?;
    let mut text = Vec::with_capacity(alloc, TEXT)?;
    text.extend_from_slice(ABOUT_VERSION)?;
    put_version(&mut text, b"acqd_info{version=\"", b"\"} 1\n")?;
    put_metric(
        &mut text,
        Reading::new(Figure::BusinessDay, begin_of(figures.day)),
    )?;
    put_metrics(&mut text, readings.as_slice())?;
    put_reply_metrics(&mut text, serving)?;
    put_about(&mut text, Figure::Pending)?;
    put_pending_samples(&mut text, figures.pending.as_slice())?;
    Ok(text)
}

/// Puts the version between two texts.
fn put_version(text: &mut Vec<u8>, before: &[u8], behind: &[u8]) -> Result<(), AllocError>
    ensures { OnOk result (text.new.items
        ≡ text.old.items ++ (before.now ++ version ++ behind.now)) }
{
    text.extend_from_slice(before)?;
    text.extend_from_slice(VERSION.as_bytes())?;
    text.extend_from_slice(behind)
}

fn put_status_lines(text: &mut Vec<u8>, readings: &[Reading]) -> Result<(), AllocError>
    ensures { OnOk result (text.new.items
        ≡ text.old.items ++ flat_map status_line readings.now) }
{
    for reading in readings.iter() {
        put_status_line(text, *reading)?;
    }
    Ok(())
}

fn put_status_line(text: &mut Vec<u8>, reading: Reading) -> Result<(), AllocError>
    ensures { OnOk result (text.new.items ≡ text.old.items ++ status_line reading) }
{
    text.extend_from_slice(reading.figure.key().as_bytes())?;
    text.extend_from_slice(b" ")?;
    put_value(text, reading.value)
}

fn put_pending_lines(text: &mut Vec<u8>, days: &[PendingDay]) -> Result<(), AllocError>
    ensures { OnOk result (text.new.items
        ≡ text.old.items ++ flat_map pending_line days.now) }
{
    for day in days.iter() {
        put_pending_line(text, *day)?;
    }
    Ok(())
}

#[tactic(auto, unfolding(crate::specs::Texts::pending_line))]
fn put_pending_line(text: &mut Vec<u8>, pending: PendingDay) -> Result<(), AllocError>
    ensures { OnOk result (text.new.items ≡ text.old.items ++ pending_line pending) }
{
    put_dated(text, b"pending.", pending.day, b" ")?;
    put_value(text, pending.requests)
}

fn put_metrics(text: &mut Vec<u8>, readings: &[Reading]) -> Result<(), AllocError>
    ensures { OnOk result (text.new.items ≡ text.old.items ++ flat_map metric readings.now) }
{
    for reading in readings.iter() {
        put_metric(text, *reading)?;
    }
    Ok(())
}

#[tactic(auto, unfolding(crate::specs::Texts::metric))]
fn put_metric(text: &mut Vec<u8>, reading: Reading) -> Result<(), AllocError>
    ensures { OnOk result (text.new.items ≡ text.old.items ++ metric reading) }
{
    put_about(text, reading.figure)?;
    text.extend_from_slice(b"acqd_")?;
    put_status_line(text, reading)
}

/// Puts what stands before a figure's values.
pub(crate) fn put_about(text: &mut Vec<u8>, figure: Figure) -> Result<(), AllocError>
    ensures { OnOk result (text.new.items ≡ text.old.items ++ about figure) }
{
    put_about_line(text, b"# HELP acqd_", figure, figure.help().as_bytes())?;
    put_about_line(text, b"# TYPE acqd_", figure, figure.kind().as_bytes())
}

fn put_about_line(
    text: &mut Vec<u8>,
    before: &[u8],
    figure: Figure,
    said: &[u8],
) -> Result<(), AllocError>
    ensures { OnOk result (text.new.items
        ≡ text.old.items ++ about_line before.now figure said.now) }
{
    put_key(text, before, figure)?;
    text.extend_from_slice(said)?;
    text.extend_from_slice(b"\n")
}

fn put_key(text: &mut Vec<u8>, before: &[u8], figure: Figure) -> Result<(), AllocError>
    ensures { OnOk result (text.new.items
        ≡ text.old.items ++ (before.now ++ key_of figure ++ codes " ")) }
{
    text.extend_from_slice(before)?;
    text.extend_from_slice(figure.key().as_bytes())?;
    text.extend_from_slice(b" ")
}

fn put_pending_samples(text: &mut Vec<u8>, days: &[PendingDay]) -> Result<(), AllocError>
    ensures { OnOk result (text.new.items
        ≡ text.old.items ++ flat_map pending_sample days.now) }
{
    for day in days.iter() {
        put_pending_sample(text, *day)?;
    }
    Ok(())
}

#[tactic(auto, unfolding(crate::specs::Texts::pending_sample))]
fn put_pending_sample(text: &mut Vec<u8>, pending: PendingDay) -> Result<(), AllocError>
    ensures { OnOk result (text.new.items ≡ text.old.items ++ pending_sample pending) }
{
    put_dated(text, b"acqd_pending{day=\"", pending.day, b"\"} ")?;
    put_value(text, pending.requests)
}

/// Puts the date of a day between two texts.
fn put_dated(text: &mut Vec<u8>, before: &[u8], day: Day, behind: &[u8]) -> Result<(), AllocError>
    ensures { OnOk result (text.new.items
        ≡ text.old.items ++ dated before.now day behind.now) }
{
    text.extend_from_slice(before)?;
    text.extend_from_slice(&day.date_text())?;
    text.extend_from_slice(behind)
}

/// Puts a value, which ends its line.
pub(crate) fn put_value(text: &mut Vec<u8>, value: u64) -> Result<(), AllocError>
    ensures { OnOk result (text.new.items ≡ text.old.items ++ value_text value) }
{
    text.extend_from_slice(Buffer::new().format(value).as_bytes())?;
    text.extend_from_slice(b"\n")
}
