//! Times as lines of the log have them.

use day_totals::Day;
use std::time;
use std::time::{SystemTime, UNIX_EPOCH};

/// 2000-01-01, the first day that is told, in days from 1970-01-01.
const FIRST_DAY: u64 = 10_957;

/// The seconds of a day.
const DAY: u64 = 24 * 60 * 60;

/// Times as lines of the log have them. The text of a second is kept for the lines that come in it.
#[derive(Drop)]
pub(crate) struct LogTime {
    second: u64,
    text: Option<[u8; 20]>,
}

impl LogTime {
    /// No time yet.
    pub(crate) fn new() -> LogTime {
        LogTime {
            second: 0,
            text: None,
        }
    }

    /// The time by this clock, YYYY-MM-DDThh:mm:ssZ in UTC, where the system tells it and it is of
    /// the years 2000 to 2099.
    pub(crate) fn text<T: time::Clock>(&mut self, clock: &T) -> Option<[u8; 20]> {
        let second = second_of(clock)?;
        if second != self.second {
            self.text = text_of(second);
            self.second = second;
        }
        self.text
    }
}

/// The second by this clock, since 1970-01-01 00:00:00 UTC, where the system tells it.
pub(crate) fn second_of<T: time::Clock>(clock: &T) -> Option<u64> {
    let now = SystemTime::now(clock).ok()?;
    Some(now.duration_since(UNIX_EPOCH).ok()?.as_secs())
}

/// A second since 1970-01-01 00:00:00 UTC as YYYY-MM-DDThh:mm:ssZ.
fn text_of(second: u64) -> Option<[u8; 20]> {
    let number = (second / DAY).checked_sub(FIRST_DAY)?;
    let day = Day::from_number(u32::try_from(number).ok()?)?;
    let mut text = *b"YYYY-MM-DDThh:mm:ssZ";
    text[..10].copy_from_slice(&day.date_text());
    let (hour, minute, second) = (second % DAY / 3600, second % 3600 / 60, second % 60);
    [text[11], text[12]] = two_digits(hour);
    [text[14], text[15]] = two_digits(minute);
    [text[17], text[18]] = two_digits(second);
    Some(text)
}

/// The last two digits of a number.
fn two_digits(number: u64) -> [u8; 2] {
    [b'0' + (number / 10 % 10) as u8, b'0' + (number % 10) as u8]
}
