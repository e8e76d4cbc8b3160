//! What needs a person, as a status says it.

use crate::alarm::Alarm;
use crate::figures::{counted, first_behind, number_behind};
use crate::html::Html;
use std::alloc::{AllocError, Global};

/// For how many seconds a request may wait before that is told.
const LONGEST_WAIT: u64 = 60;

/// Puts what needs a person.
pub(crate) fn put_alarms<'a>(
    alloc: Global,
    html: &mut Html<'a>,
    lines: &[&'a [u8]],
) -> Result<(), AllocError> {
    let alarms = alarms_in(alloc, lines)?;
    if alarms.is_empty() {
        return html.words("<p class=\"calm\">Nothing needs you.</p>");
    }
    html.words("<ul class=\"alarm\">")?;
    for alarm in alarms.iter() {
        html.words("<li>")?;
        put_alarm(html, *alarm)?;
        html.words("</li>")?;
    }
    html.words("</ul>")
}

/// What the lines of a status say that needs a person.
fn alarms_in<'a>(alloc: Global, lines: &[&'a [u8]]) -> Result<Vec<Alarm<'a>>, AllocError> {
    let mut alarms = Vec::new(alloc);
    add_earlier_days(alloc, &mut alarms, lines)?;
    if let Some(seconds) = above(lines, b"oldest_pending_age_seconds ", LONGEST_WAIT) {
        alarms.push(Alarm::LongWait(seconds))?;
    }
    if number_behind(lines, b"open_places ") == Some(0) {
        alarms.push(Alarm::NoPlace)?;
    }
    if let Some(lost) = above(lines, b"log_lines_lost_total ", 0) {
        alarms.push(Alarm::LostLines(lost))?;
    }
    if let Some(times) = above(lines, b"rows_missing_total ", 0) {
        alarms.push(Alarm::RowsMissing(times))?;
    }
    if let Some(refused) = above(lines, b"refused_frames_total ", 0) {
        alarms.push(Alarm::RefusedFrames(refused))?;
    }
    Ok(alarms)
}

/// The figure with this key, if it is above a limit.
fn above(lines: &[&[u8]], key: &[u8], limit: u64) -> Option<u64> {
    match number_behind(lines, key) {
        Some(number) if number > limit => Some(number),
        _ => None,
    }
}

/// Adds each day before the business day of which something waits.
fn add_earlier_days<'a>(
    alloc: Global,
    alarms: &mut Vec<Alarm<'a>>,
    lines: &[&'a [u8]],
) -> Result<(), AllocError> {
    let today = first_behind(lines, b"day ").unwrap_or(b"");
    for day in counted(alloc, lines, b"pending.", b" ")? {
        if day.count > 0 && day.name != today {
            alarms.push(Alarm::EarlierDay(day.name, day.count))?;
        }
    }
    Ok(())
}

fn put_alarm<'a>(html: &mut Html<'a>, alarm: Alarm<'a>) -> Result<(), AllocError> {
    match alarm {
        Alarm::EarlierDay(day, requests) => {
            html.number(requests)?;
            html.words(" waiting of ")?;
            html.text(day)?;
            html.words(", a day that is over: its clearing file can't be made before they end")
        }
        Alarm::LongWait(seconds) => {
            html.words("The request that waits the longest has waited for ")?;
            html.number(seconds)?;
            html.words(" seconds")
        }
        Alarm::NoPlace => html.words("No place for a terminal is free"),
        Alarm::LostLines(lost) => put_count(html, "Lines of the log that were lost: ", lost),
        Alarm::RowsMissing(times) => put_count(
            html,
            "A gateway asked for rows that the book doesn't have. Times: ",
            times,
        ),
        Alarm::RefusedFrames(refused) => {
            put_count(html, "Connections that ended for a bad frame: ", refused)
        }
    }
}

fn put_count(html: &mut Html<'_>, words: &'static str, count: u64) -> Result<(), AllocError> {
    html.words(words)?;
    html.number(count)
}
