//! One element of a text: the length before it, its content, and their faults.

ghost use Rattle.std.specs.Prelude.{◌≡◌, ◌⊎◌, ◌≤◌, length, IfOk, IfErr};
ghost use Rattle.std.specs.Char.{digit_value};
ghost use Rattle.std.specs.Int.{IsInRange};
ghost use Rattle.iso_codec.specs.Content.{prefix_size, length_of, stated};
ghost use Rattle.iso_codec.specs.Faults.{ContentFault, IsContent};

use crate::classes::{all_digits, fits_class};
use crate::decode_fault::DecodeFault;
use crate::element_format::ElementFormat;
use crate::form::Form;

/// How many digits of length a form has.
pub fn prefix_size_of(form: Form) -> usize
    ensures { result ≡ prefix_size form }
{
    match form {
        Form::Fixed(_) => 0,
        Form::Llvar(_) => 2,
        Form::Lllvar(_) => 3,
    }
}

/// The length that digits spell, where it may stand.
fn stated_length(greatest: usize, digits: &[u8]) -> Option<usize>
    requires { (length digits.now ≡ 2) ⊎ (length digits.now ≡ 3) }
    ensures { result ≡ stated greatest digits.now }
{
    if !all_digits(digits) {
        return None;
    }
    let number = match digits {
        [tens, ones] => value(*tens) * 10 + value(*ones),
        [hundreds, tens, ones] => value(*hundreds) * 100 + value(*tens) * 10 + value(*ones),
        _ => unreachable!(),
    };
    if number <= greatest {
        Some(number)
    } else {
        None
    }
}

/// The value of a digit.
fn value(digit: u8) -> usize
    ensures value { IsInRange 48 57 digit → result ≡ digit_value digit }
    ensures bound { result ≤ 255 }
{
    digit.saturating_sub(b'0') as usize
}

/// The length of an element's content, after its form and the digits before it.
pub fn content_length(form: Form, digits: &[u8]) -> Option<usize>
    requires { length digits.now ≡ prefix_size form }
    ensures { result ≡ length_of form digits.now }
{
    match form {
        Form::Fixed(length) => Some(length as usize),
        Form::Llvar(greatest) => stated_length(greatest as usize, digits),
        Form::Lllvar(greatest) => stated_length(greatest as usize, digits),
    }
}

/// The content of an element at the front, and what stands after it.
pub fn content_at(
    number: u8,
    format: ElementFormat,
    rest: &[u8],
) -> Result<(&[u8], &[u8]), DecodeFault>
    ensures found { IfOk result (λ x. IsContent format rest.now x.0.now x.1.now) }
    ensures fault { IfErr result (λ f. ContentFault number format rest.now f) }
{
    let prefix = prefix_size_of(format.form);
    if rest.len() < prefix {
        return Err(DecodeFault::Truncated(number));
    }
    let (digits, rest) = rest.split_at(prefix);
    let Some(len) = content_length(format.form, digits) else {
        return Err(DecodeFault::BadLength(number));
    };
    if rest.len() < len {
        return Err(DecodeFault::Truncated(number));
    }
    let (content, after) = rest.split_at(len);
    if !fits_class(format.class, content) {
        return Err(DecodeFault::BadContent(number));
    }
    Ok((content, after))
}
