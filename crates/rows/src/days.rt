//! Business days and their totals.

use crate::texts::{number_of, put_bytes, put_number, split_at_first};
use day_totals::{Day, Leg, Totals};
use std::str;

/// The day of a date.
fn day_of(text: &[u8]) -> Option<Day> {
    Day::read(str::from_utf8(text).ok()?)
}

/// Puts the number of a date.
pub fn put_day(text: &[u8], answer: &mut String) -> Option<()> {
    match day_of(text) {
        Some(day) => put_number(u64::from(day.number()), answer),
        None => answer.push_str("none").ok(),
    }
}

/// Puts the day that a month and day mean, today: `MMDD YYYY-MM-DD`.
pub fn put_resolved(text: &[u8], answer: &mut String) -> Option<()> {
    let (mmdd, today) = split_at_first(text, b' ')?;
    let today = day_of(today)?;
    match Day::resolve(*mmdd.first_chunk()?, today) {
        Some(day) => put_bytes(&day.date_text(), answer),
        None => answer.push_str("none").ok(),
    }
}

/// Puts the totals of four counts and four amounts, of credits, their reversals, debits and theirs,
/// as elements 74 to 77, 86 to 89 and 97.
pub fn put_totals(text: &[u8], answer: &mut String) -> Option<()> {
    let [a, b, c, d, e, f, g, h] = eight_numbers(text)?;
    match Totals::from_parts([a, b, c, d], [e, f, g, h]) {
        Some(totals) => put_elements(&totals, answer),
        None => answer.push_str("none").ok(),
    }
}

/// The numbers of a text, of which there are eight.
fn eight_numbers(text: &[u8]) -> Option<[u64; 8]> {
    let mut numbers = [0; 8];
    let mut words = text.split(|byte| *byte == b' ');
    for number in numbers.iter_mut() {
        *number = number_of(words.next()?)?;
    }
    Some(numbers)
}

/// Puts the counts of totals, their amounts, and the net.
fn put_elements(totals: &Totals, answer: &mut String) -> Option<()> {
    for leg in Leg::ALL {
        put_word(&totals.count_text(leg), answer)?;
    }
    for leg in Leg::ALL {
        put_word(&totals.amount_text(leg), answer)?;
    }
    put_bytes(&totals.net_text(), answer)
}

/// Puts a word, and a space behind it.
fn put_word(word: &[u8], answer: &mut String) -> Option<()> {
    put_bytes(word, answer)?;
    answer.push_str(" ").ok()
}
