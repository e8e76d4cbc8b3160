//! The kinds of rows, by their numbers.

use crate::asking::put_asked;
use crate::cards::{put_card, put_track2};
use crate::days::{put_day, put_resolved, put_totals};
use crate::messages::{put_class, put_element, put_frames, put_reply_type};
use crate::ranges::{put_added, put_found, put_removed, read_failing, read_in_memory, read_ranges};
use crate::values::{put_number_taken, put_text_taken};
use std::hash::RandomState;

/// Puts what is said of a text. `None` where there is no such kind, the text is not in its form, or
/// memory runs out.
pub fn put_answer(rt: &HostRuntime, question: &[u8], answer: &mut String) -> Option<()> {
    let alloc = rt.alloc();
    let (kind, text) = question.split_first()?;
    match kind {
        0 => put_card(text, answer),
        1 => put_track2(text, answer),
        2 => put_class(text, answer),
        3 => put_frames(alloc, text, answer),
        4 => read_ranges(alloc, text, answer),
        5 => read_in_memory(alloc, text, answer),
        6 => read_failing(alloc, text, answer),
        7 => put_found(alloc, text, answer),
        8 => put_added(alloc, text, answer),
        9 => put_removed(alloc, text, answer),
        10 => put_day(text, answer),
        11 => put_resolved(text, answer),
        12 => put_element(alloc, text, answer),
        13 => put_reply_type(text, answer),
        14 => put_totals(text, answer),
        31 => put_asked(alloc, RandomState::new(rt).ok()?, text, answer),
        15..=21 => put_text_taken(*kind, text, answer),
        _ => put_number_taken(*kind, text, answer),
    }
}
