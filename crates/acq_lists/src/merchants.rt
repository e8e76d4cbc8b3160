//! Enrolled merchants.

ghost use Rattle.std.specs.Prelude.{◌≡◌, ◌+◌, ◌<◌, ◌≤◌, ◌++◌, ◌∷◌, [], None, find, map, IfOk, OnOk};
ghost use Rattle.std.specs.Option.{option_copied};
ghost use Rattle.std.specs.Map.Iter.{deref};
ghost use Rattle.std.specs.Str.{bytes_eq};
ghost use Rattle.indexmap.specs.IndexMap.{get, spare};
ghost use Rattle.acq_book.specs.Keys.{merchant_eq};

use acq_core::{Merchant, MerchantId};
use indexmap::IndexMap;
use std::alloc::{AllocError, Global};
use std::hash::RandomState;
use std::marker::Model;

/// The merchants, in the order in which they came.
#[derive(Drop)]
pub struct Merchants {
    rows: IndexMap<MerchantId, Merchant, RandomState>,
    /// So many more take no memory.
    room: usize,
}

impl Model for Merchants {
    ghost use Rattle.acq_core.specs.declared.merchant.Merchant.{Merchant};
    ghost use Rattle.indexmap.specs.IndexMap.{values};
    ghost use Rattle.acq_lists.specs.Stored.{Stored};
    ghost use Rattle.acq_lists.specs.Indexes.{HasMerchants};

    ghost Value = { Stored Merchant };

    ghost view = { λ s. record { rows = values s.rows; room = s.room } };

    ghost invariant = { HasMerchants };
}

impl Merchants {
    /// No merchants. It takes no memory.
    pub fn new(alloc: Global, keys: RandomState) -> Merchants
        ensures { result.rows ≡ [] }
    {
        Merchants {
            rows: IndexMap::with_hasher(alloc, keys),
            room: 0,
        }
    }

    /// The merchant with this name.
    pub fn get(&self, id: MerchantId) -> Option<&Merchant>
        ensures { option_copied result ≡ find (λ row. bytes_eq row.id id) self.now.rows }
    {
        self.rows.get(&id)
    }

    /// All merchants, in the order in which they came.
    pub fn all(&self, alloc: Global) -> Result<Vec<&Merchant>, AllocError>
        ensures { IfOk result (λ rows. map deref rows.items ≡ self.now.rows) }
    {
        self.rows.values().collect(alloc)
    }

    /// Makes room for one more.
    pub fn reserve(&mut self) -> Result<(), AllocError>
        ensures rows { self.new.rows ≡ self.old.rows }
        ensures room { OnOk result (0 < self.new.room) }
    {
        self.rows.reserve(1)?;
        self.room = 1;
        Ok(())
    }

    /// One more merchant.
    pub fn push(&mut self, row: Merchant)
        requires room { 0 < self.old.room }
        requires new { find (λ old. bytes_eq old.id row.id) self.old.rows ≡ None }
        ensures rows { self.new.rows ≡ self.old.rows ++ row ∷ [] }
        ensures room { self.old.room ≤ self.new.room + 1 }
    {
        put_merchant(&mut self.rows, row);
        self.room -= 1;
    }
}

fn put_merchant(rows: &mut IndexMap<MerchantId, Merchant, RandomState>, row: Merchant)
    requires room { 0 < spare rows.old }
    requires new { get merchant_eq rows.old row.id ≡ None }
    ensures entries { rows.new.entries ≡ rows.old.entries ++ (row.id, row) ∷ [] }
    ensures spare { spare rows.old ≤ spare rows.new + 1 }
{
    rows.insert(row.id, row).unwrap();
}
