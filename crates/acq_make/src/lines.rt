//! What a line of a text says.

ghost use Rattle.std.specs.Prelude.{◌≡◌, ◌-◌, ◌≤◌, ◌==◌, drop, length, not};
ghost use Rattle.std.specs.List.{position};
ghost use Rattle.acq_show.specs.Lines.{begins};
ghost use Rattle.acq_show.specs.Shown.{spaces};
ghost use Rattle.acq_make.specs.Lines.{behind_name, behind_spaces, behind_word, first_word};
ghost use Rattle.acq_make.specs.Lines.{has_name, is_remark, line_kind, said_text, word_kind};

use crate::line_kind::LineKind;
use acq_message::digits_value;
use acq_show::{NAME_WIDTH, element_name};
use iso_codec::all_digits;

/// As many spaces as the column of names has bytes.
const SPACES: [u8; NAME_WIDTH] = [b' '; NAME_WIDTH];

/// The most digits of an element's number.
const MOST_DIGITS: usize = 3;

/// The greatest number of an element (ISO 8583:1987).
const GREATEST_ELEMENT: u64 = 128;

/// What a line is, or `None` where its first word is neither a type nor an element's number.
#[tactic(auto, unfolding(crate::specs::Lines::line_kind))]
pub(crate) fn line_kind(line: &[u8]) -> Option<LineKind>
    ensures { result ≡ line_kind line.now }
{
    let text = behind_spaces(line);
    if text.is_empty() {
        return Some(LineKind::Empty);
    }
    if is_remark(text) {
        return Some(LineKind::Remark);
    }
    word_kind(first_word(text))
}

/// The text of a line behind its element's number, and behind the element's name where that stands
/// there as `show` prints it.
#[tactic(auto, unfolding(crate::specs::Lines::said_text))]
pub(crate) fn said_text(number: u8, line: &[u8]) -> &[u8]
    ensures { result.now ≡ said_text number line.now }
{
    behind_name(number, behind_word(behind_spaces(line)))
}

fn is_remark(text: &[u8]) -> bool
    ensures { result ≡ is_remark text.now }
{
    text.starts_with(b"#") || text.starts_with(b"the host replies ")
}

/// What a line with this first word is.
fn word_kind(word: &[u8]) -> Option<LineKind>
    ensures { result ≡ word_kind word.now }
{
    if let [a, b, c, d] = word {
        return Some(LineKind::Head([*a, *b, *c, *d]));
    }
    if word.len() > MOST_DIGITS || !all_digits(word) {
        return None;
    }
    let number = digits_value(word);
    if number > GREATEST_ELEMENT {
        return None;
    }
    Some(LineKind::Element(number as u8))
}

/// A text up to its first space.
fn first_word(text: &[u8]) -> &[u8]
    ensures { result.now ≡ first_word text.now }
{
    match space(text) {
        Some(end) => &text[..end],
        None => text,
    }
}

/// What stands behind the first word and its spaces.
fn behind_word(text: &[u8]) -> &[u8]
    ensures { result.now ≡ behind_word text.now }
{
    match space(text) {
        Some(end) => behind_spaces(&text[end..]),
        None => &[],
    }
}

/// Where the first space stands, if one does.
fn space(text: &[u8]) -> Option<usize>
    ensures { result ≡ position (λ byte. byte == 32) text.now }
{
    text.iter().position(|byte| *byte == b' ')
}

/// A text without the spaces in front.
fn behind_spaces(text: &[u8]) -> &[u8]
    ensures { result.now ≡ behind_spaces text.now }
{
    match word_start(text) {
        Some(start) => &text[start..],
        None => &[],
    }
}

/// Where the first byte stands that is no space, if one does.
fn word_start(text: &[u8]) -> Option<usize>
    ensures { result ≡ position (λ byte. not (byte == 32)) text.now }
{
    text.iter().position(|byte| *byte != b' ')
}

/// What stands behind an element's name and the spaces that fill its column, or the whole text
/// where these don't stand there.
fn behind_name(number: u8, text: &[u8]) -> &[u8]
    ensures { result.now ≡ behind_name number text.now }
{
    let name = element_name(number).as_bytes();
    if !has_name(name, text) {
        return text;
    }
    behind(behind(text, name.len()), fill(name))
}

/// Whether an element's name stands there, and the spaces that fill its column.
fn has_name(name: &[u8], text: &[u8]) -> bool
    ensures { result ≡ has_name name.now text.now }
{
    text.starts_with(name) && has_spaces(behind(text, name.len()), fill(name))
}

/// How many spaces fill a name's column.
fn fill(name: &[u8]) -> usize
    ensures value { result ≡ 34 - length name.now }
    ensures bound { result ≤ 34 }
{
    NAME_WIDTH.saturating_sub(name.len())
}

/// Whether a text begins with so many spaces.
fn has_spaces(text: &[u8], count: usize) -> bool
    requires { count ≤ 34 }
    ensures { result ≡ begins (spaces count) text.now }
{
    text.starts_with(&SPACES[..count])
}

/// What stands behind so many bytes.
fn behind(text: &[u8], count: usize) -> &[u8]
    ensures { result.now ≡ drop count text.now }
{
    &text[count.min(text.len())..]
}
