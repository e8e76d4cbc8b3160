//! The texts of messages.

use crate::sale::Sale;
use std::alloc::{AllocError, Global};

/// When each message was sent, by its terminal.
const SENT: &str = "0501093000";

/// A sale.
pub fn sale_text(alloc: Global, sale: &Sale) -> Result<String, AllocError> {
    let (card, terminal, merchant) = (
        sale.card_number(),
        sale.terminal_name(),
        sale.merchant_name(),
    );
    let (amount, trace) = (sale.amount, sale.trace);
    format!(in alloc;
        "02007220000000C0800016{card}000000{amount:012}{SENT}{trace:06}{terminal}{merchant}978"
    )
}

/// A hold.
pub fn hold_text(alloc: Global, sale: &Sale) -> Result<String, AllocError> {
    let (card, terminal, merchant) = (
        sale.card_number(),
        sale.terminal_name(),
        sale.merchant_name(),
    );
    let (amount, trace) = (sale.amount, sale.trace);
    format!(in alloc;
        "01003220000020C08000000000{amount:012}{SENT}{trace:06}21{card}=2912{terminal}{merchant}978"
    )
}

/// The completion of the hold with this reference.
pub fn completion_text(alloc: Global, sale: &Sale, reference: u64) -> Result<String, AllocError> {
    let (terminal, merchant) = (sale.terminal_name(), sale.merchant_name());
    let (amount, trace) = (sale.amount, sale.trace);
    format!(in alloc;
        "02203220000008C08000000000{amount:012}{SENT}{trace:06}{reference:012}{terminal}{merchant}978"
    )
}

/// The reversal of a sale, under this trace.
pub fn reversal_text(alloc: Global, sale: &Sale, trace: u64) -> Result<String, AllocError> {
    let (terminal, merchant) = (sale.terminal_name(), sale.merchant_name());
    let (amount, original) = (sale.amount, sale.trace);
    let (head, nobody) = (
        "04209220000000C000000000004000000000000000",
        "0000000000000000000000",
    );
    format!(in alloc;
        "{head}{amount:012}{SENT}{trace:06}{terminal}{merchant}0200{original:06}{SENT}{nobody}"
    )
}

/// An echo test.
pub fn echo_text(alloc: Global, trace: u64) -> Result<String, AllocError> {
    format!(in alloc; "080082200000000000000400000000000000{SENT}{trace:06}301")
}

/// A reconciliation of a day on which nothing was sold.
pub fn reconciliation_text(alloc: Global, sale: &Sale) -> Result<String, AllocError> {
    let (terminal, merchant, trace) = (sale.terminal_name(), sale.merchant_name(), sale.trace);
    let (head, count, sum) = (
        "05008220000000C000000078078080000000",
        "0000000000",
        "0000000000000000",
    );
    let counts = format!(in alloc; "{count}{count}{count}{count}")?;
    let sums = format!(in alloc; "{sum}{sum}{sum}{sum}D{sum}")?;
    format!(in alloc; "{head}{SENT}{trace:06}{terminal}{merchant}{counts}{sums}")
}

/// A message of a type that isn't served.
pub fn unserved_text(alloc: Global, sale: &Sale) -> Result<String, AllocError> {
    let (terminal, merchant, trace) = (sale.terminal_name(), sale.merchant_name(), sale.trace);
    format!(in alloc; "06000220000000C00000{SENT}{trace:06}{terminal}{merchant}")
}

/// What spells no message.
pub fn unread_text(alloc: Global) -> Result<String, AllocError> {
    String::from_str(alloc, "GET / HTTP/1.1")
}
