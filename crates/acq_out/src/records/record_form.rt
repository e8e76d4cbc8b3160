//! The form of a record.

ghost use Rattle.std.specs.Prelude.{◌≡◌, IfOk};
ghost use Rattle.csv.specs.Records.{fields_of};
ghost use Rattle.acq_out.specs.Records.{Spelling};

use csv::ByteRecord;
use std::alloc::{AllocError, Global};

/// The form of a record: which fields spell a value, and which value.
pub trait RecordForm<V> {
    // What a record's fields spell.
    ghost spelled: { Spelling V };

    /// The value that a record spells, or `None` where it is out of its form.
    fn value(&self, alloc: Global, fields: &ByteRecord) -> Result<Option<V>, AllocError>
        ensures { IfOk result (λ value. value ≡ spelled (fields_of fields.now)) };
}
