//! Why the records of a range list file gave no list.

ghost use Rattle.std.specs.Prelude.{◌≡◌};

use crate::range_fault::RangeFault;

/// Why the records of a range list file gave no list.
#[derive(Drop)]
pub(crate) enum ReadStop {
    /// A record is refused, or memory ran out.
    Fault(RangeFault),
    /// The record with this number, counted from 1, could not be had.
    Unread(u64),
}

impl From<RangeFault> for ReadStop {
    ghost use Rattle.card_no.specs.declared.read_stop.ReadStop.TheVariants.{Fault};

    ghost from_gives = { λ fault stop. stop ≡ Fault fault };

    fn from(fault: RangeFault) -> ReadStop {
        ReadStop::Fault(fault)
    }
}
