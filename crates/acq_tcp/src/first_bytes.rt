//! The first bytes of what spells no message, in writing.

ghost use Rattle.std.specs.Prelude.{◌≤◌};

/// How many bytes are written at most.
const MOST: usize = 4;

/// How many characters they take.
const TEXT: usize = 2 * MOST;

const DIGITS: [u8; 16] = *b"0123456789abcdef";

/// A beginning by which it is known what is spoken: its first byte is one of these, and its second
/// one this one, if it is one alone; then so many bytes stand as they are.
struct Beginning {
    from: u8,
    to: u8,
    second: Option<u8>,
    shown: usize,
}

/// A type in ASCII and in EBCDIC, a record of TLS, a TPDU, and a type in packed digits.
const BEGINNINGS: [Beginning; 5] = [
    Beginning {
        from: b'0',
        to: b'0',
        second: None,
        shown: 4,
    },
    Beginning {
        from: 0xf0,
        to: 0xf0,
        second: None,
        shown: 4,
    },
    Beginning {
        from: 0x16,
        to: 0x16,
        second: Some(0x03),
        shown: 3,
    },
    Beginning {
        from: 0x60,
        to: 0x60,
        second: Some(0x00),
        shown: 3,
    },
    Beginning {
        from: 0x00,
        to: 0x09,
        second: None,
        shown: 2,
    },
];

/// The first bytes, at most four, of what spells no message.
#[derive(Clone, Copy)]
pub(crate) struct FirstBytes {
    text: [u8; TEXT],
    count: usize,
}

impl FirstBytes {
    /// Those of these bytes: two digits each, in hexadecimal, or `..` for one that may be digits of
    /// a card, in characters or packed, unless it stands in a beginning by which it is known what
    /// is spoken. Of a message whose type is spelled in characters that is all four.
    pub(crate) fn of(bytes: &[u8]) -> FirstBytes
        ensures { result.count ≤ 8 }
    {
        let shown = shown_in_front(bytes);
        let count = bytes.len().min(MOST);
        let mut text = [b'.'; TEXT];
        for place in 0..count {
            let byte = bytes[place];
            if place < shown || !may_be_digits(byte) {
                text[2 * place] = DIGITS[(byte / 16) as usize];
                text[2 * place + 1] = DIGITS[(byte % 16) as usize];
            }
        }
        FirstBytes {
            text,
            count: 2 * count,
        }
    }

    /// What is written of them.
    pub(crate) fn text(&self) -> &[u8] {
        self.text.get(..self.count).unwrap_or(&[])
    }
}

/// Whether a byte may be a digit, in ASCII or in EBCDIC, or two packed ones: its lower half is one
/// of ten, and its upper half, too, or 15.
fn may_be_digits(byte: u8) -> bool {
    let (upper, lower) = (byte / 16, byte % 16);
    lower < 10 && (upper < 10 || upper == 15)
}

/// How many bytes in front stand as they are.
fn shown_in_front(bytes: &[u8]) -> usize {
    for beginning in BEGINNINGS.iter() {
        if beginning.is_in_front(bytes) {
            return beginning.shown;
        }
    }
    0
}

impl Beginning {
    /// Whether these bytes begin so.
    fn is_in_front(&self, bytes: &[u8]) -> bool {
        let first_fits = match bytes.first() {
            Some(first) => self.from <= *first && *first <= self.to,
            None => false,
        };
        let second_fits = match self.second {
            Some(second) => bytes.get(1) == Some(&second),
            None => true,
        };
        first_fits && second_fits
    }
}
