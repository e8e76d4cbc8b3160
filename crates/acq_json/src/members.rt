//! Members of JSON objects.

ghost use Rattle.std.specs.Prelude.{◌≡◌, ◌∷◌, [], IfOk, decimal, string_bytes};
ghost use Rattle.json.specs.Token.{key, number, string};
ghost use Rattle.acq_json.specs.Written.{Puts, characters};

use json::Writer;
use std::alloc::{AllocError, Global};

/// Puts a member whose value is a text of these bytes, a character for each.
pub(crate) fn put_bytes(
    alloc: Global,
    writer: &mut Writer,
    name: &str,
    bytes: &[u8],
) -> Result<(), AllocError>
    ensures { Puts result writer.old writer.new
        (key name.now ∷ string (characters bytes.now) ∷ []) }
{
    let text = characters(alloc, bytes)?;
    put_text(writer, name, text.as_str())
}

/// Puts a member whose value is a text.
pub(crate) fn put_text(writer: &mut Writer, name: &str, text: &str) -> Result<(), AllocError>
    ensures { Puts result writer.old writer.new (key name.now ∷ string text.now ∷ []) }
{
    writer.key(name)?;
    writer.string(text)
}

/// Puts a member whose value is a number.
pub(crate) fn put_number(writer: &mut Writer, name: &str, value: u64) -> Result<(), AllocError>
    ensures { Puts result writer.old writer.new (key name.now ∷ number (decimal value) ∷ []) }
{
    writer.key(name)?;
    writer.u64(value)
}

/// A text of a character for each byte.
#[tactic(auto, using(crate::proofs::Characters::one_more_character))]
fn characters(alloc: Global, bytes: &[u8]) -> Result<String, AllocError>
    ensures { IfOk result (λ text. string_bytes text ≡ characters bytes.now) }
{
    let mut text = String::new(alloc);
    for byte in bytes {
        text.push(char::from(*byte))?;
    }
    Ok(text)
}
