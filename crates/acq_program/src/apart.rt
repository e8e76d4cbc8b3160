//! Paths that one file can't have.

ghost use Rattle.std.specs.Prelude.{◌≡◌, option_map, string_bytes};
ghost use Rattle.acq_program.specs.Apart.{are_alike, clash_of, is_of_book, path_of};

use crate::option_name::OptionName;
use acq_faults::ListenOptions;

/// What stands behind a book's path in that of its log.
const LOG_OF_BOOK: &[u8] = b"-wal";

/// The first option that names the file of another one, or a file of the book, if one does: of the
/// gateway's socket, the log, the control socket and the issuers' file. Where there is an issuers'
/// file, it is the gateway's option, if there is one.
pub(crate) fn clash_in(asked: &ListenOptions) -> Option<OptionName>
    ensures { result ≡ clash_of asked.now }
{
    if asked.issuers.is_some() && asked.gateway.is_some() {
        return Some(OptionName::Gateway);
    }
    let book = asked.path.as_str();
    let log = text_of(&asked.log);
    let control = text_of(&asked.control);
    let issuers = text_of(&asked.issuers);
    let gateway = text_of(&asked.gateway);
    if is_of_book(book, gateway) || are_alike(gateway, log) || are_alike(gateway, control) {
        Some(OptionName::Gateway)
    } else if is_of_book(book, log) || are_alike(log, control) || are_alike(log, issuers) {
        Some(OptionName::Log)
    } else if is_of_book(book, control) || are_alike(control, issuers) {
        Some(OptionName::Control)
    } else if is_of_book(book, issuers) {
        Some(OptionName::Issuers)
    } else {
        None
    }
}

/// A path, where there is one.
fn text_of(path: &Option<String>) -> Option<&str>
    ensures { option_map (λ p. p.now) result ≡ path_of path.entry.now }
{
    match path {
        Some(path) => Some(path.as_str()),
        None => None,
    }
}

/// Whether both paths are there, and alike.
fn are_alike(one: Option<&str>, other: Option<&str>) -> bool
    ensures { result ≡ are_alike (option_map (λ p. p.now) one.entry)
        (option_map (λ p. p.now) other.entry) }
{
    match (one, other) {
        (Some(one), Some(other)) => one == other,
        _ => false,
    }
}

/// Whether a path is there, and is that of a book or of its log.
fn is_of_book(book: &str, path: Option<&str>) -> bool
    ensures { result ≡ is_of_book book.entry.now (option_map (λ p. p.now) path.entry) }
{
    let Some(path) = path else {
        return false;
    };
    let (book, path) = (book.as_bytes(), path.as_bytes());
    path == book || (path.starts_with(book) && &path[book.len()..] == LOG_OF_BOOK)
}
