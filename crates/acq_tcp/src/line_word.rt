//! The words that lines of control connections begin with.

/// These words: those of event lines, of texts, and the others.
const WORDS: [&str; 21] = [
    "frame",
    "answer",
    "cutover",
    "addrange",
    "droprange",
    "enrol",
    "terminal",
    "clearing",
    "report",
    "sums",
    "statement",
    "find",
    "holds",
    "pending",
    "explain",
    "list",
    "status",
    "metrics",
    "end",
    "reopen",
    "stop",
];

/// The word that the first line of these bytes begins with, if it is one of these words, and else
/// `other`: what else stands in a line may be a card number.
pub(crate) fn line_word(bytes: &[u8]) -> &'static str {
    let end = bytes
        .iter()
        .position(|byte| matches!(*byte, b',' | b'\r' | b'\n'));
    let first = match end {
        Some(end) => &bytes[..end],
        None => bytes,
    };
    for word in WORDS {
        if first == word.as_bytes() {
            return word;
        }
    }
    "other"
}
