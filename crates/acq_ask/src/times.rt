//! How long replies took.

ghost use Rattle.std.specs.Prelude.{◌≡◌, ◌++◌, ℕ, List, OnOk};

use crate::load::Load;
use day_totals::write_digits;
use itoa::Buffer;
use std::alloc::AllocError;

/// How many microseconds a second has.
const SECOND: u64 = 1_000_000;

/// How many a millisecond has.
const MILLISECOND: u64 = 1_000;

/// Puts how long the replies took behind a text, if any came: half of them, and 99 of 100, no
/// longer than this, and none longer than that, in milliseconds; and how many came a second.
pub(crate) fn put_times(text: &mut Vec<u8>, load: &mut Load) -> Result<(), AllocError>
    ensures text { OnOk result ((times : List ℕ)
        × (text.new.items ≡ text.old.items ++ times)) }
    ensures codes { load.new.codes.items ≡ load.old.codes.items }
{
    load.times.sort_unstable();
    let times = load.times.as_slice();
    if times.is_empty() {
        return Ok(());
    }
    put_time(text, b"median ", share_of(times, 50))?;
    put_time(text, b"99 of 100 ", share_of(times, 99))?;
    put_time(text, b"greatest ", share_of(times, 100))?;
    put_rate(text, times.len() as u64, load.micros)
}

/// The least of some times, in ascending order, that so many of 100 of them don't pass.
fn share_of(times: &[u64], of_hundred: u64) -> u64 {
    let share = (times.len() as u64).saturating_mul(of_hundred);
    let place = share.saturating_sub(1) / 100;
    match times.get(place as usize) {
        Some(micros) => *micros,
        None => 0,
    }
}

/// Puts a line of a time, in milliseconds with three digits behind the point.
fn put_time(text: &mut Vec<u8>, name: &[u8], micros: u64) -> Result<(), AllocError>
    ensures { OnOk result ((line : List ℕ) × (text.new.items ≡ text.old.items ++ line)) }
{
    let mut digits = Buffer::new();
    let mut thousandths = [0; 3];
    write_digits(micros % MILLISECOND, &mut thousandths);
    text.extend_from_slice(name)?;
    text.extend_from_slice(digits.format(micros / MILLISECOND).as_bytes())?;
    text.extend_from_slice(b".")?;
    text.extend_from_slice(&thousandths)?;
    text.extend_from_slice(b" ms\n")
}

/// Puts a line of how many replies came a second.
fn put_rate(text: &mut Vec<u8>, replies: u64, micros: u64) -> Result<(), AllocError>
    ensures { OnOk result ((line : List ℕ) × (text.new.items ≡ text.old.items ++ line)) }
{
    let mut digits = Buffer::new();
    let rate = replies.saturating_mul(SECOND) / micros.max(1);
    text.extend_from_slice(digits.format(rate).as_bytes())?;
    text.extend_from_slice(b" a second\n")
}
