//! How many terminals and ranges there are.

ghost use Rattle.std.specs.Prelude.{List};
ghost use Rattle.card_no.specs.declared.range.Range.{Range};
ghost use Rattle.acq_core.specs.declared.terminal.Terminal.{Terminal};
ghost use Rattle.acq_recall.specs.Enrolled.{RecallsEnrolled};

/// How many terminals and ranges there are, each if it is known. A status asks for both each time,
/// and a book counts them row by row.
#[derive(Clone, Copy)]
pub(crate) struct EnrolledCounts {
    pub(crate) terminals: Option<u64>,
    pub(crate) ranges: Option<u64>,
}

impl EnrolledCounts {
    /// Neither is known.
    pub fn nothing() -> EnrolledCounts
        ensures { (installed : List Terminal) (listed : List Range)
            → RecallsEnrolled result installed listed }
    {
        EnrolledCounts {
            terminals: None,
            ranges: None,
        }
    }
}
