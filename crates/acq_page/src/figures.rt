//! Figures in the texts of a host.

ghost use Rattle.std.specs.Prelude.{◌≡◌, ◌++◌, IfOk, IfSome, List, map, option_map, ℕ};
ghost use Rattle.std.specs.Net.Grammar.{IsNumber};
ghost use Rattle.acq_page.specs.Figures.{all_behind, behind, first_behind, lines_of};

use crate::counted::Counted;
use std::alloc::{AllocError, Global};
use std::str;

/// The lines of a text.
pub fn lines_of(alloc: Global, text: &[u8]) -> Result<Vec<&[u8]>, AllocError>
    ensures { IfOk result (λ lines. map (λ line. line.now) lines.items ≡ lines_of text.now) }
{
    text.split(|byte| *byte == b'\n').collect(alloc)
}

/// What stands behind this beginning in the first line that begins so.
pub fn first_behind<'a>(lines: &[&'a [u8]], beginning: &[u8]) -> Option<&'a [u8]>
    ensures { option_map (λ rest. rest.now) result
        ≡ first_behind beginning.now (map (λ line. line.now) lines.entry.now) }
{
    for line in lines.iter() {
        if let Some(rest) = behind(line, beginning) {
            return Some(rest);
        }
    }
    None
}

/// And in all lines that do.
pub fn all_behind<'a>(
    alloc: Global,
    lines: &[&'a [u8]],
    beginning: &[u8],
) -> Result<Vec<&'a [u8]>, AllocError>
    ensures { IfOk result (λ found. map (λ rest. rest.now) found.items
        ≡ all_behind beginning.now (map (λ line. line.now) lines.entry.now)) }
{
    let mut found = Vec::new(alloc);
    for line in lines.iter() {
        if let Some(rest) = behind(line, beginning) {
            found.push(rest)?;
        }
    }
    Ok(found)
}

/// What stands behind the beginning of a line, if it begins so.
fn behind<'a>(line: &'a [u8], beginning: &[u8]) -> Option<&'a [u8]>
    ensures { option_map (λ rest. rest.now) result ≡ behind beginning.now line.entry.now }
{
    line.strip_prefix(beginning)
}

/// The number that a text spells.
pub(crate) fn number_of(text: &[u8]) -> Option<u64>
    ensures { IfSome result (λ number. IsNumber 10 text.now number) }
{
    if text.is_empty() || text[0] == b'+' {
        return None;
    }
    str::from_utf8(text).ok()?.parse::<u64>().ok()
}

/// The number behind this beginning in the first line that begins so.
pub(crate) fn number_behind(lines: &[&[u8]], beginning: &[u8]) -> Option<u64> {
    number_of(first_behind(lines, beginning)?)
}

/// What is counted in the lines with this beginning: a name, what stands behind it, and a number.
pub(crate) fn counted<'a>(
    alloc: Global,
    lines: &[&'a [u8]],
    beginning: &[u8],
    mark: &[u8],
) -> Result<Vec<Counted<'a>>, AllocError> {
    let mut found = Vec::new(alloc);
    for line in all_behind(alloc, lines, beginning)? {
        if let Some(counted) = counted_in(line, mark) {
            found.push(counted)?;
        }
    }
    Ok(found)
}

/// What is counted in a text.
fn counted_in<'a>(text: &'a [u8], mark: &[u8]) -> Option<Counted<'a>>
    ensures { IfSome result (λ counted. (digits : List ℕ)
        × (text.entry.now ≡ counted.name.now ++ mark.now ++ digits)
        × IsNumber 10 digits counted.count) }
{
    let (name, digits) = cut_at(text, mark)?;
    let count = number_of(digits)?;
    Some(Counted { name, count })
}

/// A text before and behind a mark that stands in it.
pub(crate) fn cut_at<'a>(text: &'a [u8], mark: &[u8]) -> Option<(&'a [u8], &'a [u8])>
    ensures { IfSome result (λ parts.
        text.entry.now ≡ parts.0.now ++ mark.now ++ parts.1.now) }
{
    for at in 0..text.len() {
        let (before, behind) = text.split_at(at);
        if let Some(rest) = rest_behind(behind, mark) {
            return Some((before, rest));
        }
    }
    None
}

/// What stands behind a mark, if a text begins with it.
fn rest_behind<'a>(text: &'a [u8], mark: &[u8]) -> Option<&'a [u8]>
    ensures { IfSome result (λ rest. text.entry.now ≡ mark.now ++ rest.now) }
{
    if text.len() < mark.len() {
        return None;
    }
    let (front, rest) = text.split_at(mark.len());
    if front == mark { Some(rest) } else { None }
}
