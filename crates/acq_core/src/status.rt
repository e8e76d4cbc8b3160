//! Where a recorded request stands.

ghost use Rattle.std.specs.Prelude.{◌≡◌, IfSome};
ghost use Rattle.acq_core.specs.Statuses.{status_number, status_numbered};

/// Where a recorded request stands, with the number that the tables keep.
#[derive(Clone, Copy)]
pub enum Status {
    /// 0: it was refused.
    Refused,
    /// 1: its issuer hasn't answered.
    Pending,
    /// 2: its issuer declined, or gave no answer in time.
    Declined,
    /// 3: its issuer approved, or the host accepted it.
    Approved,
    /// 4: it is a hold that was completed.
    Completed,
    /// 5: it was reversed after it was approved or accepted.
    Reversed,
    /// 6: it was reversed while it was pending.
    ReversedPending,
    /// 7: it is a reconciliation that was made.
    Reconciled,
    /// 8: it is a hold that was approved and then lowered.
    Lowered,
}

impl Status {
    /// Its number in tables.
    pub fn number(self) -> u32
        ensures { result ≡ status_number self }
    {
        match self {
            Status::Refused => 0,
            Status::Pending => 1,
            Status::Declined => 2,
            Status::Approved => 3,
            Status::Completed => 4,
            Status::Reversed => 5,
            Status::ReversedPending => 6,
            Status::Reconciled => 7,
            Status::Lowered => 8,
        }
    }

    /// The status with this number.
    pub fn from_number(number: u32) -> Option<Status>
        ensures value { result ≡ status_numbered number }
        ensures number { IfSome result (λ status. status_number status ≡ number) }
    {
        match number {
            0 => Some(Status::Refused),
            1 => Some(Status::Pending),
            2 => Some(Status::Declined),
            3 => Some(Status::Approved),
            4 => Some(Status::Completed),
            5 => Some(Status::Reversed),
            6 => Some(Status::ReversedPending),
            7 => Some(Status::Reconciled),
            8 => Some(Status::Lowered),
            _ => None,
        }
    }
}
