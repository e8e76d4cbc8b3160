//! What a reconciliation claimed.

ghost use Rattle.std.specs.Prelude.{◌≡◌, IfOk};
ghost use Rattle.iso_codec.specs.Reading.{reading_of};
ghost use Rattle.acq_statement.specs.Claims.{claim_on, claimed_by, day_reconciled};

use acq_core::{MerchantId, Request, TerminalId, Trace};
use acq_message::{claimed_in, settlement_date, text_at};
use day_totals::{Claimed, Day};
use iso_codec::{DecodeFault, decode};
use std::alloc::{AllocError, Global};

/// A reconciliation that was made: what the terminal claimed, and what the host had then.
#[derive(Clone, Copy)]
pub(crate) struct Claim {
    pub merchant: MerchantId,
    /// The day that was reconciled.
    pub day: Day,
    pub terminal: TerminalId,
    pub trace: Trace,
    pub claimed: Claimed,
    pub found: Claimed,
    pub in_balance: bool,
}

impl Claim {
    /// The claim of a reconciliation of a day.
    pub fn on(alloc: Global, row: &Request, day: Day) -> Result<Claim, AllocError>
        ensures { IfOk result (λ claim. claim ≡ claim_on row.now day) }
    {
        let claimed = claimed_by(alloc, row)?;
        Ok(Claim {
            merchant: row.key.merchant,
            day,
            terminal: row.key.terminal,
            trace: row.key.trace,
            claimed,
            found: claimed_in(&row.reply),
            in_balance: text_at(&row.reply, 66) == b"1".as_slice(),
        })
    }
}

/// What a request claims by its essence.
fn claimed_by(alloc: Global, row: &Request) -> Result<Claimed, AllocError>
    ensures { IfOk result (λ claimed. claimed ≡ claimed_by (reading_of row.now.essence)) }
{
    match decode(alloc, row.essence.as_bytes()) {
        Ok(message) => Ok(claimed_in(&message)),
        Err(DecodeFault::Memory) => Err(AllocError),
        Err(_) => Ok(Claimed {
            counts: [0; 4],
            amounts: [0; 4],
            net: 0,
        }),
    }
}

/// The day that a request reconciled.
pub(crate) fn day_reconciled(row: &Request) -> Option<Day>
    ensures { result ≡ day_reconciled row.now }
{
    match settlement_date(&row.reply) {
        Some(mmdd) => Day::resolve(mmdd, row.day),
        None => Some(row.day),
    }
}
