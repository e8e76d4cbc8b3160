//! Counts of replies by response code.

ghost use Rattle.std.specs.Prelude.{◌≡◌, ◌<◌, IfSome};
ghost use Rattle.acq_status.specs.Replies.{no_replies};

/// How many response codes of two digits there are.
pub(crate) const CODES: usize = 100;

/// How many replies terminals got, by their response code (element 39).
#[derive(Clone, Copy)]
pub struct ReplyCounts {
    /// Those of each code of two digits, by its number.
    pub(crate) by_code: [u64; CODES],
    /// Those of any other code, as an issuer may give one, or of none.
    pub(crate) other: u64,
}

impl ReplyCounts {
    /// None yet.
    pub fn new() -> ReplyCounts
        ensures { result ≡ no_replies }
    {
        ReplyCounts {
            by_code: [0; CODES],
            other: 0,
        }
    }

    /// One reply more, with this code.
    pub fn count(&mut self, code: &[u8]) {
        match number_of(code) {
            Some(number) => self.by_code[number] = self.by_code[number].saturating_add(1),
            None => self.other = self.other.saturating_add(1),
        }
    }
}

/// The number of a code of two digits.
fn number_of(code: &[u8]) -> Option<usize>
    ensures { IfSome result (λ number. number < 100) }
{
    let Ok(digits) = <[u8; 2]>::try_from(code) else {
        return None;
    };
    let (tens, ones) = (digits[0], digits[1]);
    if tens.is_ascii_digit() && ones.is_ascii_digit() {
        Some(usize::from(tens - b'0') * 10 + usize::from(ones - b'0'))
    } else {
        None
    }
}
