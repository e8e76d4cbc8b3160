//! What is shown, on its way out.

ghost use Rattle.std.specs.Prelude.{◌≡◌, ℕ, false, string_bytes, IfOk};
ghost use Rattle.acq_show.specs.Lines.{message_lines};
ghost use Rattle.acq_ask.specs.Turns.{is_silent, outcome_lines, outcome_of, words_of};
ghost use Rattle.acq_ask.specs.Puts.{Puts};

use crate::ask_fault::AskFault;
use crate::no_reply::NoReply;
use acq_link::{Sink, write_out};
use acq_show::show_message;
use std::alloc::{AllocError, Global};

/// Writes a message as a person is shown it, and an empty line.
pub(crate) fn put_message<K: Sink>(
    alloc: Global,
    message: &[u8],
    output: &mut K,
) -> Result<(), AskFault>
    ensures { Puts (message_lines message.now) (K.sent output.old) (K.sent output.new) result }
{
    let text = entry_of(alloc, message)?;
    put_text(text.as_slice(), output)
}

/// Writes what came of a message: its reply, or in words why there is none.
pub(crate) fn put_outcome<K: Sink>(
    alloc: Global,
    outcome: &Result<Vec<u8>, NoReply>,
    within: u64,
    output: &mut K,
) -> Result<(), AskFault>
    ensures { Puts (outcome_lines within (outcome_of outcome.now)) (K.sent output.old)
        (K.sent output.new) result }
{
    match outcome {
        Ok(reply) => put_message(alloc, reply.as_slice(), output),
        Err(cause) => {
            let words = words_of(alloc, *cause, within)?;
            put_text(words.as_bytes(), output)
        }
    }
}

/// What a person is shown of a message, and an empty line.
fn entry_of(alloc: Global, message: &[u8]) -> Result<Vec<u8>, AllocError>
    ensures { IfOk result (λ text. text.items ≡ message_lines message.now) }
{
    let mut text = show_message(alloc, message)?;
    text.push(b'\n')?;
    Ok(text)
}

/// Why there is no reply, which was waited for so many seconds, and an empty line.
fn words_of(alloc: Global, cause: NoReply, within: u64) -> Result<String, AllocError>
    ensures { IfOk result (λ text. string_bytes text ≡ words_of within cause) }
{
    match cause {
        NoReply::Silent => format!(in alloc; "no reply within {within} s\n\n"),
        _ => String::from_str(alloc, fixed_words_of(cause)),
    }
}

/// The same of a cause that has no figure.
fn fixed_words_of(cause: NoReply) -> &'static str
    ensures { is_silent cause ≡ false → (within : ℕ) → result.now ≡ words_of within cause }
{
    match cause {
        NoReply::Memory => "no reply: out of memory\n\n",
        NoReply::Unsent(_) => "no reply: the host doesn't take the message\n\n",
        NoReply::Silent => "no reply in time\n\n",
        NoReply::Ended => "no reply: the host ended the connection\n\n",
        NoReply::BadLength => "no reply: what came is no frame\n\n",
        NoReply::Read => "no reply: the connection broke\n\n",
    }
}

/// Writes a text.
pub(crate) fn put_text<K: Sink>(text: &[u8], output: &mut K) -> Result<(), AskFault>
    ensures { Puts text.now (K.sent output.old) (K.sent output.new) result }
{
    match write_out(output, text) {
        Ok(()) => Ok(()),
        Err(bytes) => Err(AskFault::Write(bytes)),
    }
}
