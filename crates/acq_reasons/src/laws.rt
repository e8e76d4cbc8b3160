//! Laws of the reasons.

ghost use Rattle.acq_reasons.specs.Laws.{ReasonsGiveCodes, ReasonsAreTrue};

/// There is a reason exactly if the code that is decided isn't 00, and it gives that code.
pub fn reasons_give_codes()
    ensures { ReasonsGiveCodes }
{}

/// What a reason says is true of what is known.
pub fn reasons_are_true()
    ensures { ReasonsAreTrue }
{}
