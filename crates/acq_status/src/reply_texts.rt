//! Replies by response code, and how long they took, in writing.

ghost use Rattle.std.specs.Prelude.{◌≡◌, ◌++◌, ◌<◌, OnOk};
ghost use Rattle.day_totals.specs.Day.{two_digits};
ghost use Rattle.acq_status.specs.Replies.{bounds, bucket, buckets, code_line, duration_samples};
ghost use Rattle.acq_status.specs.Replies.{reply_line, reply_lines, seconds_text};
ghost use Rattle.acq_status.specs.Texts.{reply_metrics, status_replies};

use crate::figure::Figure;
use crate::reply_counts::{CODES, ReplyCounts};
use crate::reply_durations::{BUCKETS, ReplyDurations, bound_of};
use crate::serving::Serving;
use crate::texts::{put_about, put_value};
use itoa::Buffer;
use std::alloc::AllocError;

/// Puts the lines of a status about the replies of a host that serves.
pub(crate) fn put_status_replies(
    text: &mut Vec<u8>,
    serving: Option<Serving>,
) -> Result<(), AllocError>
    ensures { OnOk result (text.new.items ≡ text.old.items ++ status_replies serving) }
{
    match serving {
        Some(serving) => put_reply_lines(text, b"replies_total.", b" ", &serving.replies),
        None => Ok(()),
    }
}

/// Puts its replies as metrics, and how long they took.
pub(crate) fn put_reply_metrics(
    text: &mut Vec<u8>,
    serving: Option<Serving>,
) -> Result<(), AllocError>
    ensures { OnOk result (text.new.items ≡ text.old.items ++ reply_metrics serving) }
{
    let Some(serving) = serving else {
        return Ok(());
    };
    put_about(text, Figure::Replies)?;
    put_reply_lines(
        text,
        b"acqd_replies_total{code=\"",
        b"\"} ",
        &serving.replies,
    )?;
    put_about(text, Figure::ReplySeconds)?;
    put_durations(text, &serving.durations)
}

/// Puts a line for each response code that was given, which stands between two texts.
fn put_reply_lines(
    text: &mut Vec<u8>,
    before: &[u8],
    behind: &[u8],
    counts: &ReplyCounts,
) -> Result<(), AllocError>
    ensures { OnOk result (text.new.items
        ≡ text.old.items ++ reply_lines before.now behind.now counts.now) }
{
    for code in 0..CODES {
        let replies = counts.by_code[code];
        put_reply_line(text, before, behind, &two_digits(code as u8), replies)?;
    }
    put_reply_line(text, before, behind, b"other", counts.other)
}

fn put_reply_line(
    text: &mut Vec<u8>,
    before: &[u8],
    behind: &[u8],
    code: &[u8],
    replies: u64,
) -> Result<(), AllocError>
    ensures { OnOk result (text.new.items
        ≡ text.old.items ++ reply_line before.now behind.now code.now replies) }
{
    if replies == 0 {
        return Ok(());
    }
    text.extend_from_slice(before)?;
    text.extend_from_slice(code)?;
    text.extend_from_slice(behind)?;
    put_value(text, replies)
}

/// Puts a histogram.
fn put_durations(text: &mut Vec<u8>, durations: &ReplyDurations) -> Result<(), AllocError>
    ensures { OnOk result (text.new.items
        ≡ text.old.items ++ duration_samples durations.now) }
{
    put_buckets(text, durations)?;
    put_bucket(text, b"+Inf", durations.replies)?;
    text.extend_from_slice(b"acqd_reply_seconds_sum ")?;
    put_seconds(text, durations.microseconds)?;
    text.extend_from_slice(b"acqd_reply_seconds_count ")?;
    put_value(text, durations.replies)
}

/// Puts the buckets that have a bound.
fn put_buckets(text: &mut Vec<u8>, durations: &ReplyDurations) -> Result<(), AllocError>
    ensures { OnOk result (text.new.items
        ≡ text.old.items ++ buckets bounds durations.now.within) }
{
    for place in 0..BUCKETS {
        let (bound, _) = bound_of(place);
        put_bucket(text, bound.as_bytes(), durations.within[place])?;
    }
    Ok(())
}

fn put_bucket(text: &mut Vec<u8>, bound: &[u8], replies: u64) -> Result<(), AllocError>
    ensures { OnOk result (text.new.items ≡ text.old.items ++ bucket bound.now replies) }
{
    text.extend_from_slice(b"acqd_reply_seconds_bucket{le=\"")?;
    text.extend_from_slice(bound)?;
    text.extend_from_slice(b"\"} ")?;
    put_value(text, replies)
}

/// Puts microseconds as seconds, with six decimals, which end their line.
fn put_seconds(text: &mut Vec<u8>, microseconds: u64) -> Result<(), AllocError>
    ensures { OnOk result (text.new.items ≡ text.old.items ++ seconds_text microseconds) }
{
    text.extend_from_slice(Buffer::new().format(microseconds / 1_000_000).as_bytes())?;
    text.extend_from_slice(b".")?;
    text.extend_from_slice(&two_digits((microseconds / 10_000 % 100) as u8))?;
    text.extend_from_slice(&two_digits((microseconds / 100 % 100) as u8))?;
    text.extend_from_slice(&two_digits((microseconds % 100) as u8))?;
    text.extend_from_slice(b"\n")
}

fn two_digits(number: u8) -> [u8; 2]
    requires { number < 100 }
    ensures { result ≡ two_digits number }
{
    [b'0' + number / 10, b'0' + number % 10]
}
