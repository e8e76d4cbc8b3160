//! Figures with their values, in the order in which they are written.

ghost use Rattle.std.specs.Prelude.{◌≡◌, ◌++◌, IfOk, OnOk};
ghost use Rattle.acq_status.specs.Figures.{figures_of};
ghost use Rattle.acq_status.specs.Texts.{begin_of, book_readings, known_reading};
ghost use Rattle.acq_status.specs.Texts.{known_readings, missing_readings, readings_of};
ghost use Rattle.acq_status.specs.Texts.{serving_readings, taken_readings};

use crate::book_figures::BookFigures;
use crate::figure::Figure;
use crate::reading::Reading;
use crate::serving::Serving;
use crate::unanswered_counts::UnansweredCounts;
use day_totals::Day;
use std::alloc::{AllocError, Global};

/// How many figures there may be.
const MOST: usize = 21;

/// 2000-01-01, in days since 1970-01-01.
const FIRST_DAY: u64 = 10_957;

/// The figures of a book, and of what is served.
pub(crate) fn readings_of(
    alloc: Global,
    figures: &BookFigures,
    serving: Option<Serving>,
) -> Result<Vec<Reading>, AllocError>
    ensures { IfOk result (λ readings.
        readings.items ≡ readings_of (figures_of figures.now) serving) }
{
    let mut readings = Vec::with_capacity(alloc, MOST)?;
    put_book(&mut readings, figures)?;
    if let Some(serving) = serving {
        put_serving(&mut readings, serving)?;
    }
    Ok(readings)
}

/// Puts the figures of a book.
fn put_book(readings: &mut Vec<Reading>, figures: &BookFigures) -> Result<(), AllocError>
    ensures { OnOk result (readings.new.items
        ≡ readings.old.items ++ book_readings (figures_of figures.now)) }
{
    readings.push(Reading::new(Figure::Limit, figures.limit.number() as u64))?;
    readings.push(Reading::new(Figure::Merchants, figures.merchants))?;
    readings.push(Reading::new(Figure::Terminals, figures.terminals))?;
    readings.push(Reading::new(Figure::Ranges, figures.ranges))?;
    readings.push(Reading::new(Figure::RequestsToday, figures.requests_today))?;
    Ok(())
}

/// Puts the figures of what is served.
fn put_serving(readings: &mut Vec<Reading>, serving: Serving) -> Result<(), AllocError>
    ensures { OnOk result (readings.new.items
        ≡ readings.old.items ++ serving_readings (Some serving)) }
{
    put_taken(readings, serving)?;
    put_missing(readings, serving.unanswered, serving.lost_lines)?;
    put_known(readings, serving)
}

/// Puts how much was taken in.
fn put_taken(readings: &mut Vec<Reading>, serving: Serving) -> Result<(), AllocError>
    ensures { OnOk result (readings.new.items ≡ readings.old.items ++ taken_readings serving) }
{
    readings.push(Reading::new(Figure::Places, serving.places))?;
    readings.push(Reading::new(Figure::OpenPlaces, serving.open_places))?;
    readings.push(Reading::new(Figure::Connections, serving.connections))?;
    readings.push(Reading::new(Figure::Events, serving.events))?;
    readings.push(Reading::new(Figure::Lines, serving.lines))?;
    readings.push(Reading::new(Figure::RefusedFrames, serving.refused_frames))?;
    Ok(())
}

/// Puts how many messages got no reply, and how many lines of the log were lost.
fn put_missing(
    readings: &mut Vec<Reading>,
    counts: UnansweredCounts,
    lost_lines: u64,
) -> Result<(), AllocError>
    ensures { OnOk result (readings.new.items
        ≡ readings.old.items ++ missing_readings counts lost_lines) }
{
    readings.push(Reading::new(Figure::UnansweredUnserved, counts.unserved))?;
    readings.push(Reading::new(Figure::UnansweredWaiting, counts.waiting))?;
    readings.push(Reading::new(Figure::UnansweredLate, counts.late))?;
    readings.push(Reading::new(Figure::LostLines, lost_lines))?;
    Ok(())
}

/// Puts what is known of gateways, ages and sizes.
fn put_known(readings: &mut Vec<Reading>, serving: Serving) -> Result<(), AllocError>
    ensures { OnOk result (readings.new.items ≡ readings.old.items ++ known_readings serving) }
{
    let oldest = serving.oldest_pending_age;
    put_if_known(readings, Figure::Gateways, serving.gateways)?;
    put_if_known(readings, Figure::RowsMissing, serving.rows_missing)?;
    put_if_known(readings, Figure::LastEventAge, serving.last_event_age)?;
    put_if_known(readings, Figure::OldestPendingAge, oldest)?;
    put_if_known(readings, Figure::BookBytes, serving.book_bytes)?;
    put_if_known(readings, Figure::WalBytes, serving.wal_bytes)
}

/// Puts a figure, where its value is known.
fn put_if_known(
    readings: &mut Vec<Reading>,
    figure: Figure,
    value: Option<u64>,
) -> Result<(), AllocError>
    ensures { OnOk result (readings.new.items
        ≡ readings.old.items ++ known_reading figure value) }
{
    if let Some(value) = value {
        readings.push(Reading::new(figure, value))?;
    }
    Ok(())
}

/// When a day's date begins, in seconds since 1970-01-01 00:00:00 UTC.
pub(crate) fn begin_of(day: Day) -> u64
    ensures { result ≡ begin_of day }
{
    (day.number() as u64 + FIRST_DAY) * 86_400
}
