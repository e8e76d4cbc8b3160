//! Scenes are drawn.

use crate::counting_clock::moment_at;
use crate::ending::Ending;
use crate::messages::{
    completion_text, echo_text, hold_text, reconciliation_text, reversal_text, sale_text,
    unread_text, unserved_text,
};
use crate::opening::{currency, first_reference, merchant_id, range, terminal_id};
use crate::sale::Sale;
use crate::scene::Scene;
use crate::script::Script;
use acq_core::Event;
use acq_memory_lines::{Chance, Habits, Manner};
use std::alloc::Global;

/// The scene of a seed; `None` where memory runs out.
pub fn draw_scene(alloc: Global, seed: u64) -> Option<Scene> {
    let mut chance = Chance::new(seed, 0);
    let mut drawing = Drawing {
        alloc,
        is_lively: chance.one_in(2),
        chance,
        sales: Vec::new(alloc),
    };
    let count = drawing.connection_count();
    let mut scripts = Vec::new(alloc);
    for _ in 0..count {
        scripts.push(drawing.script(count)?).ok()?;
    }
    Some(Scene {
        scripts,
        events: drawing.events()?,
        manner: drawing.manner(),
        refused: drawing.refused(),
    })
}

/// A scene that is being drawn.
#[derive(Drop)]
struct Drawing {
    alloc: Global,
    chance: Chance,
    /// Whether much comes at once, so that groups are large.
    is_lively: bool,
    /// The sales so far, of all connections: messages repeat and reverse them.
    sales: Vec<Sale>,
}

impl Drawing {
    /// Mostly few connections, and now and then hundreds.
    fn connection_count(&mut self) -> u64 {
        let count = match self.chance.below(20) {
            0..=9 => self.chance.below(6),
            10..=17 => self.chance.below(24),
            18 => self.chance.below(80),
            _ => self.chance.below(250).saturating_add(100),
        };
        count.saturating_add(1)
    }

    fn manner(&mut self) -> Manner {
        let ends = if self.chance.one_in(4) {
            self.chance.below(400).saturating_add(100)
        } else {
            u64::MAX
        };
        Manner {
            comes: self.chance.below(4).saturating_add(1),
            wakes: self.chance.below(3).saturating_add(1),
            asks: self.chance.below(40).saturating_add(1),
            ends,
        }
    }

    fn refused(&mut self) -> Option<u64> {
        if self.chance.one_in(4) {
            Some(self.chance.below(60))
        } else {
            None
        }
    }

    /// A terminal's end of one of so many connections.
    fn habits(&mut self, count: u64) -> Habits {
        let piece = match self.chance.below(4) {
            _ if self.is_lively => 5000,
            0 => 1,
            1 => self.chance.below(8),
            2 => self.chance.below(60),
            _ => self.chance.below(5000),
        };
        let room = if self.chance.one_in(8) {
            self.chance.place(600)
        } else {
            usize::MAX
        };
        Habits {
            piece: piece.max(count / 8),
            read_waits: self.chance.below(if self.is_lively { 2 } else { 6 }),
            write_waits: self.chance.below(if self.is_lively { 3 } else { 8 }),
            room,
            resets: false,
        }
    }

    /// What comes over one of so many connections.
    fn script(&mut self, count: u64) -> Option<Script> {
        let most = if count > 50 { 4 } else { 14 };
        let mut messages = Vec::new(self.alloc);
        for _ in 0..self.chance.below(most) {
            let text = self.message()?;
            let message = Vec::from_slice(self.alloc, text.as_bytes()).ok()?;
            messages.push(message).ok()?;
        }
        let ending = match self.chance.below(8) {
            0 => Ending::InsideFrame,
            1 => Ending::Reset,
            2 => Ending::BadLength,
            _ => Ending::Well,
        };
        let mut habits = self.habits(count);
        habits.resets = matches!(ending, Ending::Reset);
        Some(Script {
            messages,
            ending,
            habits,
        })
    }

    fn message(&mut self) -> Option<String> {
        let sale = self.sale();
        let kind = self.chance.below(100);
        let text = match kind {
            0..=49 => self.sold(sale),
            50..=57 => echo_text(self.alloc, sale.trace).ok(),
            58..=67 => hold_text(self.alloc, &sale).ok(),
            68..=75 => {
                let reference = self.chance.below(12).saturating_add(1);
                completion_text(self.alloc, &sale, reference).ok()
            }
            76..=83 => reversal_text(self.alloc, &self.earlier_sale(), sale.trace).ok(),
            84..=91 => sale_text(self.alloc, &self.earlier_sale()).ok(),
            92..=95 => reconciliation_text(self.alloc, &sale).ok(),
            96..=97 => unserved_text(self.alloc, &sale).ok(),
            98 => unread_text(self.alloc).ok(),
            _ => sale_text(self.alloc, &self.unknown_sale()).ok(),
        };
        text
    }

    /// A new sale, which is kept.
    fn sold(&mut self, sale: Sale) -> Option<String> {
        self.sales.push(sale).ok()?;
        sale_text(self.alloc, &sale).ok()
    }

    /// A sale of a merchant and a terminal that are enrolled, mostly.
    fn sale(&mut self) -> Sale {
        Sale {
            merchant: self.chance.place(Sale::ENROLLED),
            terminal: self.chance.place(Sale::FITTED),
            card: self.chance.place(Sale::COUNTS.2),
            amount: self.chance.below(5000).saturating_add(1),
            trace: self.chance.below(400).saturating_add(1),
        }
    }

    /// A sale of any merchant and any terminal.
    fn unknown_sale(&mut self) -> Sale {
        let mut sale = self.sale();
        sale.merchant = self.chance.place(Sale::COUNTS.0);
        sale.terminal = self.chance.place(Sale::COUNTS.1);
        sale
    }

    /// One of the sales so far, or else a new one.
    fn earlier_sale(&mut self) -> Sale {
        let place = self.chance.place(self.sales.len());
        match self.sales.get(place) {
            Some(sale) => *sale,
            None => self.sale(),
        }
    }

    /// What a control connection asks for.
    fn events(&mut self) -> Option<Vec<Event>> {
        let mut events = Vec::new(self.alloc);
        for _ in 0..self.chance.below(7) {
            events.push(self.event()?).ok()?;
        }
        Some(events)
    }

    fn event(&mut self) -> Option<Event> {
        let sale = self.unknown_sale();
        let (merchant, terminal) = (merchant_id(sale.merchant)?, terminal_id(sale.terminal)?);
        let event = match self.chance.below(6) {
            0 => Event::Cutover(moment_at(0)),
            1 => Event::Enrol(merchant, currency()?, first_reference()?),
            2 => Event::DropRange(50_000_000, 59_999_999),
            3 => Event::AddRange(range(self.alloc, 60_000_000, 64_999_999)?),
            _ => Event::AddTerminal(merchant, terminal),
        };
        Some(event)
    }
}
