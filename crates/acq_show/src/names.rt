//! The names of message types and of elements, in the words of ISO 8583:1987.

ghost use Rattle.std.specs.Prelude.{◌≡◌};
ghost use Rattle.acq_show.specs.Names.{name_in, classes, class_name, function_name, origin_name};
ghost use Rattle.acq_show.specs.Names.{is_named, element_name};

/// The name of a message class, the second digit of a type, or nothing. An advice of the financial
/// class is a completion here.
pub(crate) fn class_name(class: u8, function: u8) -> &'static str
    ensures { result.now ≡ class_name class function }
{
    if class == b'2' && (function == b'2' || function == b'3') {
        "completion"
    } else {
        name_of_class(class)
    }
}

fn name_of_class(class: u8) -> &'static str
    ensures { result.now ≡ name_in classes class }
{
    match class {
        b'1' => "authorization",
        b'2' => "financial",
        b'4' => "reversal",
        b'5' => "reconciliation",
        b'8' => "network management",
        _ => "",
    }
}

/// The name of a message function, the third digit of a type, or nothing.
pub(crate) fn function_name(function: u8) -> &'static str
    ensures { result.now ≡ function_name function }
{
    match function {
        b'0' => "request",
        b'1' => "response",
        b'2' => "advice",
        b'3' => "advice response",
        _ => "",
    }
}

/// What the last digit of a type adds to its name.
pub(crate) fn origin_name(origin: u8) -> &'static str
    ensures { result.now ≡ origin_name origin }
{
    if origin == b'1' { ", repeat" } else { "" }
}

/// Whether each digit of a type has a name.
pub(crate) fn is_named(version: u8, class: u8, function: u8, origin: u8) -> bool
    ensures { result ≡ is_named version class function origin }
{
    version == b'0'
        && !class_name(class, function).is_empty()
        && !function_name(function).is_empty()
        && (origin == b'0' || origin == b'1')
}

/// The name of an element, in the words of ISO 8583:1987, or nothing where the profile doesn't have
/// it. It takes no memory.
pub fn element_name(number: u8) -> &'static str
    ensures { result.now ≡ element_name number }
{
    match number {
        2 => "card number",
        3 => "processing code",
        4 => "amount",
        7 => "transmission date and time",
        11 => "trace number",
        12 => "local time",
        13 => "local date",
        14 => "expiry",
        15 => "settlement date",
        18 => "merchant type",
        19 => "acquiring country",
        22 => "entry mode",
        23 => "card sequence number",
        24 => "network international identifier",
        25 => "condition code",
        26 => "PIN capture code",
        32 => "acquirer",
        33 => "forwarder",
        35 => "track 2",
        37 => "retrieval reference",
        38 => "authorization id",
        39 => "response code",
        41 => "terminal",
        42 => "merchant",
        43 => "card acceptor name and place",
        45 => "track 1",
        48 => "additional data",
        49 => "currency",
        50 => "settlement currency",
        52 => "PIN block",
        53 => "security control",
        54 => "additional amounts",
        55 => "chip data",
        56..=59 => "reserved",
        60..=63 => "private",
        64 | 128 => "message authentication code",
        66 => "settlement code",
        70 => "network management code",
        74 => "number of credits",
        75 => "number of credit reversals",
        76 => "number of debits",
        77 => "number of debit reversals",
        86 => "amount of credits",
        87 => "amount of credit reversals",
        88 => "amount of debits",
        89 => "amount of debit reversals",
        90 => "original data elements",
        95 => "replacement amounts",
        97 => "net reconciliation amount",
        _ => "",
    }
}
