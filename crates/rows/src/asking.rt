//! What a book is asked for, with what is recalled of it.

use crate::asked_book::AskedBook;
use acq_book::Book;
use acq_core::{
    Amount, Change, MerchantId, MessageText, Reference, Request, RequestKey, Service, Status,
    Terminal, TerminalId, Trace, Transmission, Wanted,
};
use acq_recall::RecallingBook;
use card_no::{IssuerId, Prefix, Range};
use day_totals::{Day, Leg};
use iso_codec::Message;
use std::alloc::Global;
use std::hash::RandomState;

/// Puts what a book is asked for at each of these steps, which follow one another, and a bar behind
/// each: a `sale`, the `answer` to the last one, one of `another` merchant, a `range` or a `terminal`
/// that is added, a `cutover`, a `status`, `group`, `keep` and `give-up`. Behind `fault` changes and
/// groups fail, until it is said again.
pub fn put_asked(alloc: Global, keys: RandomState, text: &[u8], answer: &mut String) -> Option<()> {
    let mut asking = Asking {
        alloc,
        book: RecallingBook::new(alloc, keys, AskedBook::new(alloc)),
        day: Day::from_number(0)?,
        sales: 0,
        last: None,
    };
    for step in text.split(|byte| *byte == b' ') {
        asking.take(step)?;
        let _ = asking.book.used_on(asking.day);
    }
    answer.push_str(asking.book.into_book().asked.as_str()).ok()
}

/// A book that is asked.
#[derive(Drop)]
struct Asking {
    alloc: Global,
    book: RecallingBook<AskedBook>,
    day: Day,
    sales: u32,
    /// The last sale.
    last: Option<RequestKey>,
}

impl Asking {
    /// Takes a step.
    fn take(&mut self, step: &[u8]) -> Option<()> {
        match step {
            b"sale" => self.sell(b"MERCHANT0000001"),
            b"another" => self.sell(b"MERCHANT0000002"),
            b"answer" => self.answer(),
            b"range" => self.add_range(),
            b"terminal" => self.add_terminal(),
            b"cutover" => self.cut_over(),
            b"status" => {
                let _ = self.book.waiting_count();
                let _ = self.book.pending(self.day);
                let _ = self.book.terminal_count();
                let _ = self.book.range_count();
                Some(())
            }
            b"fault" => {
                let merchant = MerchantId::read(b"MERCHANT0000001")?;
                let _ = self.book.last_reconciliation(merchant, self.day);
                Some(())
            }
            b"group" => {
                let _ = self.book.begin();
                Some(())
            }
            b"keep" => {
                let _ = self.book.keep();
                Some(())
            }
            b"give-up" => {
                self.book.give_up();
                Some(())
            }
            _ => None,
        }
    }

    /// A range more.
    fn add_range(&mut self) -> Option<()> {
        let issuer = IssuerId::from_slice(self.alloc, b"67890").ok()?;
        self.change(Change::AddRange(Range {
            low: 50_000_000,
            high: 59_999_999,
            issuer,
            hold_days: 1,
        }))
    }

    /// A terminal more.
    fn add_terminal(&mut self) -> Option<()> {
        self.change(Change::AddTerminal(Terminal {
            merchant: MerchantId::read(b"MERCHANT0000001")?,
            id: TerminalId::read(b"TERM0002")?,
        }))
    }

    /// The next business day.
    fn cut_over(&mut self) -> Option<()> {
        self.day = self.day.next()?;
        self.change(Change::SetDay(self.day))
    }

    /// A sale at a merchant, which waits for its issuer.
    fn sell(&mut self, merchant: &[u8]) -> Option<()> {
        self.sales = self.sales.checked_add(1)?;
        let mut trace = String::new(self.alloc);
        write!(trace, "{:06}", self.sales).ok()?;
        let key = RequestKey {
            merchant: MerchantId::read(merchant)?,
            terminal: TerminalId::read(b"TERM0001")?,
            service: Service::Financial,
            trace: Trace::read(trace.as_bytes())?,
            transmission: Transmission::read(b"0501093000")?,
        };
        let looked = self.book.look_up(&Wanted {
            merchant: Some(key.merchant),
            terminal: Some(key.terminal),
            key: Some(key),
            prefix: Some(Prefix::read(b"41111111")?),
            admitted: true,
            used_day: Some(self.day),
            ..Wanted::nothing()
        });
        drop(looked);
        self.last = Some(key);
        let request = self.request(key)?;
        self.change(Change::AddRequest(request))
    }

    /// What is recorded of a sale.
    fn request(&self, key: RequestKey) -> Option<Request> {
        let (amount, reply) = (
            Amount::from_number(100)?,
            Message::new(self.alloc, *b"0210")?,
        );
        Some(Request {
            key,
            essence: MessageText::from_vec(Vec::new(self.alloc)),
            day: self.day,
            status: Status::Pending,
            admitted: true,
            reference: Reference::from_number(u64::from(self.sales)),
            follows: None,
            amount,
            leg: Leg::Debit,
            card: None,
            acquirer: None,
            hold_days: None,
            hold_end: None,
            reply,
        })
    }

    /// The answer to the last sale.
    fn answer(&mut self) -> Option<()> {
        let key = self.last?;
        let looked = self.book.look_up(&Wanted {
            merchant: Some(key.merchant),
            reference: Reference::from_number(u64::from(self.sales)),
            ..Wanted::nothing()
        });
        drop(looked);
        let reply = Message::new(self.alloc, *b"0210")?;
        self.change(Change::Answered {
            key,
            status: Status::Approved,
            reply,
            hold_end: None,
            posting: None,
        })
    }

    /// A change, which may fail.
    fn change(&mut self, change: Change) -> Option<()> {
        let made = self.book.apply(&change);
        drop(change);
        let _ = made;
        Some(())
    }
}
