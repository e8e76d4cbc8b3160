//! Terminals at merchants.

ghost use Rattle.std.specs.Prelude.{◌≡◌, ◌+◌, ◌<◌, ◌≤◌, ◌++◌, ◌∷◌, [], ◌&&◌, false, None};
ghost use Rattle.std.specs.Prelude.{length, map, IfOk, OnOk};
ghost use Rattle.std.specs.Map.Iter.{deref};
ghost use Rattle.std.specs.List.{list_any};
ghost use Rattle.std.specs.Str.{bytes_eq};
ghost use Rattle.indexmap.specs.IndexMap.{get, spare};
ghost use Rattle.acq_lists.specs.Keys.{terminal_eq, key_of_terminal};

use crate::merchant_terminal::MerchantTerminal;
use acq_core::{MerchantId, Terminal, TerminalId};
use indexmap::IndexMap;
use std::alloc::{AllocError, Global};
use std::hash::RandomState;
use std::marker::Model;

/// The terminals, in the order in which they came.
#[derive(Drop)]
pub struct Terminals {
    rows: IndexMap<MerchantTerminal, Terminal, RandomState>,
    /// So many more take no memory.
    room: usize,
}

impl Model for Terminals {
    ghost use Rattle.acq_core.specs.declared.terminal.Terminal.{Terminal};
    ghost use Rattle.indexmap.specs.IndexMap.{values};
    ghost use Rattle.acq_lists.specs.Stored.{Stored};
    ghost use Rattle.acq_lists.specs.Indexes.{HasTerminals};

    ghost Value = { Stored Terminal };

    ghost view = { λ s. record { rows = values s.rows; room = s.room } };

    ghost invariant = { HasTerminals };
}

impl Terminals {
    /// No terminals. It takes no memory.
    pub fn new(alloc: Global, keys: RandomState) -> Terminals
        ensures { result.rows ≡ [] }
    {
        Terminals {
            rows: IndexMap::with_hasher(alloc, keys),
            room: 0,
        }
    }

    /// Whether the merchant has this terminal.
    pub fn has(&self, merchant: MerchantId, id: TerminalId) -> bool
        ensures { result
            ≡ list_any (λ row. bytes_eq row.merchant merchant && bytes_eq row.id id) self.now.rows }
    {
        self.rows.contains_key(&MerchantTerminal { merchant, id })
    }

    /// How many terminals there are, of all merchants.
    pub fn count(&self) -> u64
        ensures { result ≡ length self.now.rows }
    {
        self.rows.len() as u64
    }

    /// All terminals, in the order in which they came.
    pub fn all(&self, alloc: Global) -> Result<Vec<&Terminal>, AllocError>
        ensures { IfOk result (λ rows. map deref rows.items ≡ self.now.rows) }
    {
        self.rows.values().collect(alloc)
    }

    /// Makes room for one more.
    pub fn reserve(&mut self) -> Result<(), AllocError>
        ensures rows { self.new.rows ≡ self.old.rows }
        ensures room { OnOk result (0 < self.new.room) }
    {
        self.rows.reserve(1)?;
        self.room = 1;
        Ok(())
    }

    /// One more terminal.
    pub fn push(&mut self, row: Terminal)
        requires room { 0 < self.old.room }
        requires new { list_any
            (λ old. bytes_eq old.merchant row.merchant && bytes_eq old.id row.id)
            self.old.rows ≡ false }
        ensures rows { self.new.rows ≡ self.old.rows ++ row ∷ [] }
        ensures room { self.old.room ≤ self.new.room + 1 }
    {
        put_terminal(&mut self.rows, row);
        self.room -= 1;
    }
}

fn put_terminal(rows: &mut IndexMap<MerchantTerminal, Terminal, RandomState>, row: Terminal)
    requires room { 0 < spare rows.old }
    requires new { get terminal_eq rows.old (key_of_terminal row) ≡ None }
    ensures entries { rows.new.entries ≡ rows.old.entries ++ (key_of_terminal row, row) ∷ [] }
    ensures spare { spare rows.old ≤ spare rows.new + 1 }
{
    let key = MerchantTerminal {
        merchant: row.merchant,
        id: row.id,
    };
    rows.insert(key, row).unwrap();
}
