//! Laws of what a host says, as it is told.

ghost use Rattle.std.specs.Prelude.{◌<◌, ◌^◌, ℕ, List, length};
ghost use Rattle.acq_faults.specs.declared.fault.Fault.TheVariants as fault;
ghost use Rattle.acq_control.specs.SaidAnswers.{ComesAsFault, ComesAsText};

/// What a host gives as a text comes as one, and its bytes alone are shown; and the fault of a bad
/// line or of a text that is refused comes as a fault's line, and is told as it came.
pub fn answers_are_told()
    ensures texts { (text : List ℕ) → length text < 10 ^ 16 → ComesAsText text }
    ensures bad_lines { (n : ℕ) → n < 2 ^ 64 → ComesAsFault (fault.BadLine n) }
    ensures merchants { ComesAsFault fault.NoSuchMerchant }
    ensures early { ComesAsFault fault.DayNotOver }
    ensures pending { (n : ℕ) → n < 2 ^ 64 → ComesAsFault (fault.StillPending n) }
{}
