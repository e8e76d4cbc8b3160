//! What is gone over before a line is taken.

ghost use Rattle.std.specs.Prelude.{◌≡◌, [], IfSome, Some};
ghost use Rattle.acq_core.specs.Tables.{Tables};
ghost use Rattle.acq_control.specs.Unmade.{MayBeUnmade, unmade_at};

use crate::find_line::sought_of;
use crate::line_buffer::line_end;
use crate::question_word::QuestionWord;
use crate::reading::{CSV, comma_in, without_return};
use crate::statement_line::statement_of;
use crate::unmade_answer::UnmadeAnswer;
use acq_inquiry::Search;
use acq_reports::DayComparison;
use acq_statement::Gathering;
use day_totals::Day;
use std::alloc::Global;
use std::str;

/// What rows are to be gone over for before the line in front of these bytes is taken, if it asks
/// for such; nothing is gone over yet.
pub(crate) fn prepared_in_front(alloc: Global, front: &[u8]) -> Option<UnmadeAnswer>
    ensures may { IfSome result (λ unmade. (t : Tables) → MayBeUnmade t (Some unmade)) }
    ensures unsaid { IfSome result (λ unmade. (t : Tables) → unmade_at t (Some unmade) ≡ []) }
{
    let line = without_return(&front[..line_end(front)?]);
    let word = QuestionWord::of(line);
    let rest = &line[word.length()..];
    match word {
        QuestionWord::Find => {
            let sought = sought_of(rest)?;
            let search = Search::of(alloc, sought.merchant, sought.inquiry);
            Some(UnmadeAnswer::Finding(search))
        }
        QuestionWord::Statement => {
            let asked = statement_of(rest)?;
            let gathering = Gathering::of(alloc, asked.merchant, asked.day, asked.form);
            Some(UnmadeAnswer::Stating(gathering))
        }
        QuestionWord::Report => {
            let comparison = DayComparison::of(reported_day(rest)?);
            Some(UnmadeAnswer::Comparing(comparison))
        }
        _ => None,
    }
}

/// The day of a settlement report, by the text behind the word.
fn reported_day(text: &[u8]) -> Option<Day> {
    let date = match comma_in(text) {
        None => text,
        Some(comma) if &text[comma + 1..] == CSV => &text[..comma],
        Some(_) => return None,
    };
    let Ok(date) = str::from_utf8(date) else {
        return None;
    };
    Day::read(date)
}
