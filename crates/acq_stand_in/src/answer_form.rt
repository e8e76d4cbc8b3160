//! The form of the stand-in file's records.

ghost use Rattle.std.specs.Prelude.{◌≡◌};
ghost use Rattle.std.specs.List.{list_all};
ghost use Rattle.std.specs.Char.{is_ascii_digit};
ghost use Rattle.csv.specs.Records.{fields_of};
ghost use Rattle.acq_out.specs.Fields.{verdict_of_texts};
ghost use Rattle.acq_stand_in.specs.Answers.{answer_of, answer_of_fields, card_of_text};
ghost use Rattle.acq_stand_in.specs.Answers.{is_milliseconds_text, milliseconds_of_text};

use crate::card_answer::CardAnswer;
use acq_message::digits_value;
use acq_out::records::{RecordForm, field};
use acq_out::verdict_of;
use card_no::CardNumber;
use csv::ByteRecord;
use std::alloc::{AllocError, Global};

/// How many fields a record has whose answer takes no time.
const FIELDS: usize = 3;

/// How many fields a record has that says how long its answer takes.
const TIMED_FIELDS: usize = 4;

/// The most digits of the milliseconds that an answer takes.
const MOST_DIGITS: usize = 7;

/// The forms `card,verdict,text` and `card,verdict,text,milliseconds`.
pub(crate) struct AnswerForm;

impl RecordForm<CardAnswer> for AnswerForm {
    ghost use Rattle.acq_stand_in.specs.Answers.{answer_of_fields};

    ghost spelled = { answer_of_fields };

    fn value(&self, _: Global, fields: &ByteRecord) -> Result<Option<CardAnswer>, AllocError> {
        Ok(answer_in(fields))
    }
}

/// The answer that a record spells, or `None` where it is out of its form.
fn answer_in(fields: &ByteRecord) -> Option<CardAnswer>
    ensures { result ≡ answer_of_fields (fields_of fields.now) }
{
    let takes = match fields.len() {
        FIELDS => Some(0),
        TIMED_FIELDS => milliseconds_of(field(fields, 3)),
        _ => return None,
    };
    answer_of(field(fields, 0), field(fields, 1), field(fields, 2), takes)
}

/// The answer of a record's texts, where it takes so many milliseconds.
fn answer_of(card: &[u8], word: &[u8], text: &[u8], takes: Option<u32>) -> Option<CardAnswer>
    ensures { result ≡ answer_of card.now (verdict_of_texts word.now text.now) takes }
{
    Some(CardAnswer {
        card: card_of(card),
        verdict: verdict_of(word, text)?,
        takes: takes?,
    })
}

/// The card that a text names: a text that is no valid card number names none.
fn card_of(text: &[u8]) -> Option<CardNumber>
    ensures { result ≡ card_of_text text.now }
{
    CardNumber::read(text)
}

/// The milliseconds that 1 to 7 digits spell.
fn milliseconds_of(text: &[u8]) -> Option<u32>
    ensures { result ≡ milliseconds_of_text text.now }
{
    if is_milliseconds_text(text) {
        Some(digits_value(text) as u32)
    } else {
        None
    }
}

/// Whether a text is 1 to 7 digits.
fn is_milliseconds_text(text: &[u8]) -> bool
    ensures { result ≡ is_milliseconds_text text.now }
{
    (1..=MOST_DIGITS).contains(&text.len()) && all_digits(text)
}

/// Whether a text is digits alone.
fn all_digits(text: &[u8]) -> bool
    ensures { result ≡ list_all is_ascii_digit text.now }
{
    text.iter().all(|b| b.is_ascii_digit())
}
