//! All figures of a status.

use crate::figures::cut_at;
use crate::html::Html;
use std::alloc::AllocError;

/// What the figures of a status are, in words.
const WORDS: [(&str, &str); 23] = [
    ("version", "Version"),
    ("day", "Business day"),
    ("limit", "Messages of a merchant that a day admits"),
    ("merchants", "Merchants"),
    ("terminals", "Terminals"),
    ("ranges", "Ranges of card numbers"),
    ("requests_today", "Messages of the day that count"),
    ("places", "Places for terminals"),
    ("open_places", "of which are free"),
    ("connections_total", "Connections taken in"),
    ("events_total", "Messages answered"),
    ("lines_total", "Control lines answered"),
    (
        "refused_frames_total",
        "Connections that ended for a bad frame",
    ),
    (
        "unanswered_unserved_total",
        "Messages without a reply: not served",
    ),
    (
        "unanswered_waiting_total",
        "the same: repeats of one that waits",
    ),
    (
        "unanswered_late_total",
        "the same: reversed before the answer",
    ),
    ("log_lines_lost_total", "Lines of the log lost"),
    ("gateways", "Gateways connected"),
    (
        "rows_missing_total",
        "Times that a gateway asked for rows that aren't there",
    ),
    ("last_event_age_seconds", "Seconds since the last message"),
    (
        "oldest_pending_age_seconds",
        "Seconds that the oldest has waited",
    ),
    ("book_bytes", "Bytes of the book's file"),
    ("wal_bytes", "Bytes of its WAL file"),
];

/// Puts each figure of a status that is not shown elsewhere.
pub(crate) fn put_figures<'a>(html: &mut Html<'a>, lines: &[&'a [u8]]) -> Result<(), AllocError> {
    html.words("<h2>All figures</h2><table class=\"few\"><tbody>")?;
    for line in lines.iter() {
        if let Some((key, value)) = cut_at(line, b" ") {
            if !is_elsewhere(key) {
                put_figure(html, key, value)?;
            }
        }
    }
    html.words("</tbody></table>")
}

/// Whether a figure has a part of the page of its own.
fn is_elsewhere(key: &[u8]) -> bool {
    key.starts_with(b"replies_total.") || key.starts_with(b"pending.")
}

fn put_figure<'a>(html: &mut Html<'a>, key: &'a [u8], value: &'a [u8]) -> Result<(), AllocError> {
    html.words("<tr><th>")?;
    match words_for(key) {
        Some(words) => html.words(words)?,
        None => html.text(key)?,
    }
    html.words("</th><td class=\"n\">")?;
    html.text(value)?;
    html.words("</td></tr>")
}

/// What a figure is, in words, if it has a key that is known.
fn words_for(key: &[u8]) -> Option<&'static str> {
    for (known, words) in WORDS.iter() {
        if key == known.as_bytes() {
            return Some(words);
        }
    }
    None
}
