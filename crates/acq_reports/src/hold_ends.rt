//! Ends of holds.

ghost use Rattle.std.specs.Prelude.{◌≡◌, ◌<◌, ◌≤◌};
ghost use Rattle.day_totals.specs.Day.{date_text_of, two_digits};
ghost use Rattle.acq_reports.specs.Marks.{clock_text, end_text};

use day_totals::Day;

/// 2000-01-01, in days since 1970-01-01.
const FIRST_DAY: u64 = 10_957;

/// 2100-01-31 23:59:59: every hold has ended then, 31 days past the last moment.
const LAST_END: u64 = 4_105_123_199;

/// The last second of a hold, given in seconds since 1970-01-01 00:00:00, written
/// YYYY-MM-DD hh:mm:ss in UTC.
pub fn hold_end_text(seconds: u64) -> [u8; 19]
    ensures { result ≡ end_text seconds }
{
    let seconds = seconds.min(LAST_END);
    let day = date_text((seconds / 86_400).saturating_sub(FIRST_DAY) as u32);
    let clock = clock_text((seconds % 86_400) as u32);
    [
        day[0], day[1], day[2], day[3], day[4], day[5], day[6], day[7], day[8], day[9], b' ',
        clock[0], clock[1], clock[2], clock[3], clock[4], clock[5], clock[6], clock[7],
    ]
}

/// The date of a day, or of one of the 31 after the last day.
fn date_text(number: u32) -> [u8; 10]
    requires { number ≤ 36_555 }
    ensures { result ≡ date_text_of number }
{
    if let Some(day) = Day::from_number(number) {
        return day.date_text();
    }
    // January 2100 is written as January 2000, but for a digit.
    let Some(day) = Day::from_number(number - Day::LAST_NUMBER - 1) else {
        unreachable!();
    };
    let mut text = day.date_text();
    text[1] = b'1';
    text
}

/// Hours, minutes and seconds of a day.
fn clock_text(seconds: u32) -> [u8; 8]
    requires { seconds < 86_400 }
    ensures { result ≡ clock_text seconds }
{
    let hours = two_digits((seconds / 3600) as u8);
    let minutes = two_digits((seconds / 60 % 60) as u8);
    let seconds = two_digits((seconds % 60) as u8);
    [
        hours[0], hours[1], b':', minutes[0], minutes[1], b':', seconds[0], seconds[1],
    ]
}

fn two_digits(number: u8) -> [u8; 2]
    requires { number < 100 }
    ensures { result ≡ two_digits number }
{
    [b'0' + number / 10, b'0' + number % 10]
}
