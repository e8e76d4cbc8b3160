//! The element table: how each element is spelled.

ghost use Rattle.std.specs.Prelude.{◌≡◌};
ghost use Rattle.iso_codec.specs.Table.{format_of};

use crate::class::Class;
use crate::form::Form;

/// How an element is spelled: how long its content is, and of which bytes.
#[derive(Clone, Copy)]
pub struct ElementFormat {
    pub form: Form,
    pub class: Class,
}

/// A row of the table.
macro_rules! element {
    ($form:ident($length:literal), $class:ident) => {
        Some(ElementFormat {
            form: Form::$form($length),
            class: Class::$class,
        })
    };
}

/// The formats, each at its element's number.
static FORMATS: [Option<ElementFormat>; 129] = [
    // 0 to 1
    None,
    None,
    // 2
    element!(Llvar(19), Numeric),
    // 3
    element!(Fixed(6), Numeric),
    // 4
    element!(Fixed(12), Numeric),
    // 5 to 6
    None,
    None,
    // 7
    element!(Fixed(10), Numeric),
    // 8 to 10
    None,
    None,
    None,
    // 11
    element!(Fixed(6), Numeric),
    // 12
    element!(Fixed(6), Numeric),
    // 13
    element!(Fixed(4), Numeric),
    // 14
    element!(Fixed(4), Numeric),
    // 15
    element!(Fixed(4), Numeric),
    // 16 to 17
    None,
    None,
    // 18
    element!(Fixed(4), Numeric),
    // 19
    element!(Fixed(3), Numeric),
    // 20 to 21
    None,
    None,
    // 22
    element!(Fixed(3), Numeric),
    // 23
    element!(Fixed(3), Numeric),
    // 24
    element!(Fixed(3), Numeric),
    // 25
    element!(Fixed(2), Numeric),
    // 26
    element!(Fixed(2), Numeric),
    // 27 to 31
    None,
    None,
    None,
    None,
    None,
    // 32
    element!(Llvar(11), Numeric),
    // 33
    element!(Llvar(11), Numeric),
    // 34
    None,
    // 35
    element!(Llvar(37), Track),
    // 36
    None,
    // 37
    element!(Fixed(12), Alphanumeric),
    // 38
    element!(Fixed(6), Alphanumeric),
    // 39
    element!(Fixed(2), Alphanumeric),
    // 40
    None,
    // 41
    element!(Fixed(8), Printable),
    // 42
    element!(Fixed(15), Printable),
    // 43
    element!(Fixed(40), Printable),
    // 44
    None,
    // 45
    element!(Llvar(76), Printable),
    // 46 to 47
    None,
    None,
    // 48
    element!(Lllvar(999), Any),
    // 49
    element!(Fixed(3), Alphanumeric),
    // 50
    element!(Fixed(3), Alphanumeric),
    // 51
    None,
    // 52
    element!(Fixed(16), Hex),
    // 53
    element!(Fixed(16), Numeric),
    // 54
    element!(Lllvar(120), Printable),
    // 55
    element!(Lllvar(999), Any),
    // 56
    element!(Lllvar(999), Any),
    // 57
    element!(Lllvar(999), Any),
    // 58
    element!(Lllvar(999), Any),
    // 59
    element!(Lllvar(999), Any),
    // 60
    element!(Lllvar(999), Any),
    // 61
    element!(Lllvar(999), Any),
    // 62
    element!(Lllvar(999), Any),
    // 63
    element!(Lllvar(999), Any),
    // 64
    element!(Fixed(16), Hex),
    // 65
    None,
    // 66
    element!(Fixed(1), Numeric),
    // 67 to 69
    None,
    None,
    None,
    // 70
    element!(Fixed(3), Numeric),
    // 71 to 73
    None,
    None,
    None,
    // 74
    element!(Fixed(10), Numeric),
    // 75
    element!(Fixed(10), Numeric),
    // 76
    element!(Fixed(10), Numeric),
    // 77
    element!(Fixed(10), Numeric),
    // 78 to 85
    None,
    None,
    None,
    None,
    None,
    None,
    None,
    None,
    // 86
    element!(Fixed(16), Numeric),
    // 87
    element!(Fixed(16), Numeric),
    // 88
    element!(Fixed(16), Numeric),
    // 89
    element!(Fixed(16), Numeric),
    // 90
    element!(Fixed(42), Numeric),
    // 91 to 94
    None,
    None,
    None,
    None,
    // 95
    element!(Fixed(42), Alphanumeric),
    // 96
    None,
    // 97
    element!(Fixed(17), SignedNumeric),
    // 98 to 127
    None,
    None,
    None,
    None,
    None,
    None,
    None,
    None,
    None,
    None,
    None,
    None,
    None,
    None,
    None,
    None,
    None,
    None,
    None,
    None,
    None,
    None,
    None,
    None,
    None,
    None,
    None,
    None,
    None,
    None,
    // 128
    element!(Fixed(16), Hex),
];

/// The format of an element, or `None` where the profile doesn't have it.
pub fn format_at(number: u8) -> Option<ElementFormat>
    ensures { result ≡ format_of number }
{
    if number < 129 {
        FORMATS[number as usize]
    } else {
        None
    }
}
