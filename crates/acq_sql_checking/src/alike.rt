//! Whether two schemas are the same.

ghost use Rattle.std.specs.Prelude.{◌≡◌, ◌↔◌, [], true, IsTrue};
ghost use Rattle.std.specs.List.{AllByRecursion};
ghost use Rattle.sqlite_value.specs.declared.value.Value.TheVariants.{Null};
ghost use Rattle.acq_sql_checking.specs.Plain.{IsBare, HaveSameKeys, no_stamps};

use sqlite_items::Items;
use sqlite_schema::code::Terms;
use sqlite_schema::schema::{Column, Index, Schema, Stamps, Table};
use sqlite_value::keys::Order;
use sqlite_value::value::Value;

/// Part of a schema. It is alike another where they are the same and plain. What is not plain is
/// alike nothing, since the tables of a book have none of it.
pub trait Alike: Sized {
    ghost is_plain: { Self → Type 0 };

    fn is_alike(&self, other: &Self) -> bool
        ensures { (result ≡ true) ↔ ((self.now ≡ other.now) × is_plain self.now) };
}

/// Whether each is alike the other with its place.
fn are_alike<T: Alike>(mut first: &[T], mut second: &[T]) -> bool
    ensures { (result ≡ true) ↔ ((first.entry.now ≡ second.entry.now)
        × AllByRecursion T.Alike.is_plain first.entry.now) }
{
    while let [a, more @ ..] = first {
        let [b, others @ ..] = second else {
            return false;
        };
        if !a.is_alike(b) {
            return false;
        }
        first = more;
        second = others;
    }
    second.is_empty()
}

impl Alike for Column {
    ghost use Rattle.acq_sql_checking.specs.Plain.{IsPlainColumn};

    ghost is_plain = { IsPlainColumn };

    fn is_alike(&self, other: &Column) -> bool {
        self.name.as_slice() == other.name.as_slice()
            && self.kind == other.kind
            && self.is_strict == other.is_strict
            && self.not_null == other.not_null
            && is_null(&self.default)
            && is_null(&other.default)
            && self.collation == other.collation
    }
}

fn is_null(value: &Value) -> bool
    ensures { IsTrue result ↔ (value.now ≡ Null) }
{
    matches!(value, Value::Null)
}

impl Alike for Items<usize> {
    ghost is_plain = { λ _. Unit {0} };

    fn is_alike(&self, other: &Items<usize>) -> bool {
        self.as_slice() == other.as_slice()
    }
}

impl Alike for Order {
    ghost is_plain = { λ _. Unit {0} };

    fn is_alike(&self, other: &Order) -> bool {
        self.digits == other.digits
    }
}

impl Alike for Table {
    ghost use Rattle.acq_sql_checking.specs.Plain.{IsPlainTable};

    ghost is_plain = { IsPlainTable };

    fn is_alike(&self, other: &Table) -> bool {
        is_bare(self)
            && is_bare(other)
            && self.name.as_slice() == other.name.as_slice()
            && self.tree == other.tree
            && self.is_counted == other.is_counted
            && self.key == other.key
            && are_alike(self.columns.as_slice(), other.columns.as_slice())
            && have_same_keys(self, other)
    }
}

/// Whether two tables are the same but for their trees.
pub fn has_same_columns(a: &Table, b: &Table) -> bool {
    is_bare(a)
        && is_bare(b)
        && a.name.as_slice() == b.name.as_slice()
        && a.is_counted == b.is_counted
        && a.key == b.key
        && are_alike(a.columns.as_slice(), b.columns.as_slice())
        && have_same_keys(a, b)
}

#[tactic(auto, using(crate::proofs::AllPlain::all_plain))]
fn have_same_keys(a: &Table, b: &Table) -> bool
    ensures { IsTrue result ↔ HaveSameKeys a.now b.now }
{
    a.primary.is_alike(&b.primary)
        && are_alike(a.uniques.as_slice(), b.uniques.as_slice())
        && are_alike(a.orders.as_slice(), b.orders.as_slice())
}

/// Whether a table has nothing but its columns and keys.
fn is_bare(table: &Table) -> bool
    ensures { IsTrue result ↔ IsBare table.now }
{
    has_no_terms(&table.checks)
        && table.references.is_empty()
        && table.computed.is_empty()
        && has_no_stamps(&table.stamps)
}

fn has_no_terms(terms: &Terms) -> bool
    ensures { IsTrue result ↔ (terms.now ≡ []) }
{
    terms.roots.is_empty()
}

fn has_no_stamps(stamps: &Stamps) -> bool
    ensures { IsTrue result ↔ (stamps.now ≡ no_stamps) }
{
    stamps.places.is_empty() && has_no_terms(&stamps.terms) && stamps.formats.is_empty()
}

impl Alike for Index {
    ghost is_plain = { λ _. Unit {0} };

    fn is_alike(&self, other: &Index) -> bool {
        self.name.as_slice() == other.name.as_slice()
            && self.tree == other.tree
            && self.table == other.table
            && self.columns.is_alike(&other.columns)
            && self.order == other.order
            && self.is_unique == other.is_unique
    }
}

impl Alike for Schema {
    ghost use Rattle.acq_sql_checking.specs.Plain.{IsPlainSchema};

    ghost is_plain = { IsPlainSchema };

    #[tactic(auto, using(crate::proofs::AllPlain::all_plain))]
    fn is_alike(&self, other: &Schema) -> bool {
        self.views.is_empty()
            && other.views.is_empty()
            && are_alike(self.tables.as_slice(), other.tables.as_slice())
            && are_alike(self.indexes.as_slice(), other.indexes.as_slice())
    }
}
