//! Why a command stopped.

ghost use Rattle.std.specs.Prelude.{◌≡◌};

use acq_book::BookFault;
use acq_front::FrontFault;
use acq_link::InputFault;
use acq_link::hex_frames::HexFault;
use acq_make::MakeFault;
use acq_out::OutFault;
use acq_out::records::RecordFault;
use acq_reports::{ReportFault, prefix_text};
use card_no::RangeFault;
use day_totals::Day;
use iso_codec::{DecodeFault, SetFault};
use std::alloc::AllocError;
use std::error::Error;
use std::{fmt, str};

/// Why a command stopped. Its text is its number, its name and its values, as printed lines have
/// them.
#[derive(Clone, Copy, Debug)]
pub enum Fault {
    /// 1: memory ran out.
    Memory,
    /// 2: a call of the store failed, or gave rows that break the bounds of their columns.
    Store,
    /// 20: a range of a list has a value out of its bounds.
    BadRange,
    /// 21: a range of a list overlaps this one of it, from its lower to its upper end.
    Overlap(u32, u32),
    /// 23: the record of the file of issuers' answers, or of a list of ranges, with this number,
    /// counted from 1, is out of its form.
    BadRecord(u64),
    /// 37: the merchant isn't enrolled.
    NoSuchMerchant,
    /// 40: the file is no book: for a new book it isn't empty, and for an old one it lacks the
    /// book's tables or its row.
    NotABook,
    /// 41: the book's tables are of this version.
    OtherVersion(u64),
    /// 50: a frame's length is 0 or above 4,096.
    BadLength,
    /// 51: the input ended inside a frame.
    Ended,
    /// 52: a frame spells no message, for this reason.
    Undecodable(DecodeFault),
    /// 53: a read failed.
    Read,
    /// 54: a write failed, and so many bytes of the piece in hand had been written.
    Write(u64),
    /// 55: a host gave no answer within the time.
    Silent,
    /// 56: a connection begins with no header of the PROXY protocol.
    NoProxyHeader,
    /// 60: the day that a report was asked for isn't over.
    DayNotOver,
    /// 61: so many requests of that day are pending.
    StillPending(u64),
    /// 62: the record of event lines, or the line of messages in hexadecimal or as text, with this
    /// number, counted from 1, is out of its form.
    BadLine(u64),
    /// 63: the day that was to be ended isn't the business day, which is this one.
    OtherDay(Day),
    /// 64: an element can't have the content that this line says, or no frame can have the message
    /// whose type it says; lines are counted from 1.
    BadMessage(u64, SetFault),
    /// 65: a gateway knows of more rows than the book has, whose number this is.
    RowsMissing(u64),
}

impl Fault {
    ghost use Rattle.acq_faults.specs.Faults.{status_of, heading_of};

    /// The status that the program ends with.
    pub fn status(&self) -> u8
        ensures { result ≡ status_of self.now }
    {
        match self {
            Fault::Memory | Fault::Store => 3,
            _ => 1,
        }
    }

    /// The fault's number and its name.
    pub(crate) fn heading(&self) -> &'static str
        ensures { result.now ≡ heading_of self.now }
    {
        match self {
            Fault::Memory => "1 Memory",
            Fault::Store => "2 Store",
            Fault::BadRange => "20 BadRange",
            Fault::Overlap(..) => "21 Overlap",
            Fault::BadRecord(_) => "23 BadLine",
            Fault::NoSuchMerchant => "37 NoSuchMerchant",
            Fault::NotABook => "40 NotABook",
            Fault::OtherVersion(_) => "41 OtherVersion",
            Fault::BadLength => "50 BadLength",
            Fault::Ended => "51 Ended",
            Fault::Undecodable(_) => "52 Undecodable",
            Fault::Read => "53 Read",
            Fault::Write(_) => "54 Write",
            Fault::Silent => "55 Silent",
            Fault::NoProxyHeader => "56 NoProxyHeader",
            Fault::DayNotOver => "60 DayNotOver",
            Fault::StillPending(_) => "61 StillPending",
            Fault::BadLine(_) => "62 BadLine",
            Fault::OtherDay(_) => "63 OtherDay",
            Fault::BadMessage(..) => "64 BadMessage",
            Fault::RowsMissing(_) => "65 RowsMissing",
        }
    }
}

impl fmt::Display for Fault {
    ghost use Rattle.std.specs.Prelude.{Some};
    ghost use Rattle.acq_faults.specs.Faults.{text_of};

    ghost output = { λ f. Some (text_of f) };

    fn fmt<W: fmt::Write>(&self, f: &mut fmt::Formatter<W>) -> fmt::Result {
        match self {
            Fault::Undecodable(cause) => {
                write!(f, "52 Undecodable {} {}", cause.number(), cause.element())
            }
            Fault::BadMessage(line, cause) => {
                let (number, element) = (cause.number(), cause.element());
                write!(f, "64 BadMessage {line} {number} {element}")
            }
            Fault::OtherVersion(n)
            | Fault::Write(n)
            | Fault::StillPending(n)
            | Fault::BadRecord(n)
            | Fault::BadLine(n)
            | Fault::RowsMissing(n) => write!(f, "{} {n}", self.heading()),
            Fault::OtherDay(day) => match str::from_utf8(&day.date_text()) {
                Ok(date) => write!(f, "{} {date}", self.heading()),
                Err(_) => Err(fmt::Error),
            },
            Fault::Overlap(low, high) => {
                let (low, high) = (prefix_text(*low), prefix_text(*high));
                match (str::from_utf8(&low), str::from_utf8(&high)) {
                    (Ok(low), Ok(high)) => write!(f, "{} {low} {high}", self.heading()),
                    _ => Err(fmt::Error),
                }
            }
            _ => f.write_str(self.heading()),
        }
    }
}

impl Error for Fault {}

impl From<AllocError> for Fault {
    ghost use Rattle.acq_faults.specs.declared.fault.Fault.TheVariants.{Memory};

    ghost from_gives = { λ _ f. f ≡ Memory };

    fn from(_e: AllocError) -> Fault {
        Fault::Memory
    }
}

impl From<BookFault> for Fault {
    ghost use Rattle.acq_faults.specs.Faults.{of_book};

    ghost from_gives = { λ e f. f ≡ of_book e };

    fn from(e: BookFault) -> Fault {
        match e {
            BookFault::Memory => Fault::Memory,
            BookFault::Store => Fault::Store,
        }
    }
}

impl From<InputFault> for Fault {
    ghost use Rattle.acq_faults.specs.Faults.{of_input};

    ghost from_gives = { λ e f. f ≡ of_input e };

    fn from(e: InputFault) -> Fault {
        match e {
            InputFault::Memory => Fault::Memory,
            InputFault::Read => Fault::Read,
        }
    }
}

impl From<FrontFault> for Fault {
    ghost use Rattle.acq_faults.specs.Faults.{of_front};

    ghost from_gives = { λ e f. f ≡ of_front e };

    fn from(e: FrontFault) -> Fault {
        match e {
            FrontFault::Memory => Fault::Memory,
            FrontFault::Store => Fault::Store,
            FrontFault::BadLength => Fault::BadLength,
            FrontFault::Ended => Fault::Ended,
            FrontFault::Undecodable(fault) => Fault::Undecodable(fault),
            FrontFault::Read => Fault::Read,
            FrontFault::Write(bytes) => Fault::Write(bytes),
        }
    }
}

impl From<OutFault> for Fault {
    ghost use Rattle.acq_faults.specs.Faults.{of_out};

    ghost from_gives = { λ e f. f ≡ of_out e };

    fn from(e: OutFault) -> Fault {
        match e {
            OutFault::Memory => Fault::Memory,
            OutFault::Read => Fault::Read,
            OutFault::Write(bytes) => Fault::Write(bytes),
            OutFault::BadLine(record) => Fault::BadLine(record),
        }
    }
}

impl From<HexFault> for Fault {
    ghost use Rattle.acq_faults.specs.Faults.{of_hex};

    ghost from_gives = { λ e f. f ≡ of_hex e };

    fn from(e: HexFault) -> Fault {
        match e {
            HexFault::Memory => Fault::Memory,
            HexFault::BadLine(line) => Fault::BadLine(line),
        }
    }
}

impl From<MakeFault> for Fault {
    ghost use Rattle.acq_faults.specs.Faults.{of_make};

    ghost from_gives = { λ e f. f ≡ of_make e };

    fn from(e: MakeFault) -> Fault {
        match e {
            MakeFault::Memory => Fault::Memory,
            MakeFault::BadLine(line) => Fault::BadLine(line),
            MakeFault::BadMessage(line, fault) => Fault::BadMessage(line, fault),
        }
    }
}

impl From<RecordFault> for Fault {
    ghost use Rattle.acq_faults.specs.Faults.{of_answers};

    ghost from_gives = { λ e f. f ≡ of_answers e };

    fn from(e: RecordFault) -> Fault {
        match e {
            RecordFault::Memory => Fault::Memory,
            RecordFault::Read => Fault::Read,
            RecordFault::BadRecord(record) => Fault::BadRecord(record),
        }
    }
}

impl From<RangeFault> for Fault {
    ghost use Rattle.acq_faults.specs.Faults.{of_ranges};

    ghost from_gives = { λ e f. f ≡ of_ranges e };

    fn from(e: RangeFault) -> Fault {
        match e {
            RangeFault::Memory => Fault::Memory,
            RangeFault::BadRange | RangeFault::NoSuchRange => Fault::BadRange,
            RangeFault::Overlap(other) => Fault::Overlap(other.low, other.high),
            RangeFault::BadLine(record) => Fault::BadRecord(record),
        }
    }
}

impl From<ReportFault> for Fault {
    ghost use Rattle.acq_faults.specs.Faults.{of_report};

    ghost from_gives = { λ e f. f ≡ of_report e };

    fn from(e: ReportFault) -> Fault {
        match e {
            ReportFault::Memory => Fault::Memory,
            ReportFault::Store => Fault::Store,
            ReportFault::NoSuchMerchant => Fault::NoSuchMerchant,
            ReportFault::Write(bytes) => Fault::Write(bytes),
            ReportFault::DayNotOver => Fault::DayNotOver,
            ReportFault::StillPending(requests) => Fault::StillPending(requests),
        }
    }
}
