//! What a terminal sells.

/// The names of the merchants; the last one isn't enrolled.
const MERCHANTS: [&str; 4] = [
    "MERCHANT0000001",
    "MERCHANT0000002",
    "MERCHANT0000003",
    "MERCHANT0000009",
];

/// The names of their terminals; the last two aren't enrolled at first.
const TERMINALS: [&str; 5] = ["TERM0001", "TERM0002", "TERM0003", "TERM0004", "TERM0005"];

/// Card numbers; the last one has a false check digit.
const CARDS: [&str; 5] = [
    "4111111111111111",
    "4242424242424242",
    "5500005555555559",
    "6011111111111117",
    "4111111111111112",
];

/// What a terminal sells, as the places of its parts in the tables above.
#[derive(Clone, Copy, Drop)]
pub struct Sale {
    pub merchant: usize,
    pub terminal: usize,
    pub card: usize,
    pub amount: u64,
    pub trace: u64,
}

impl Sale {
    /// How many merchants are enrolled.
    pub const ENROLLED: usize = 3;

    /// How many terminals each of them has at first.
    pub const FITTED: usize = 3;

    /// How many merchants, terminals and cards there are.
    pub const COUNTS: (usize, usize, usize) = (4, 5, 5);

    /// The name of the merchant.
    pub fn merchant_name(&self) -> &'static str {
        merchant_at(self.merchant)
    }

    /// The name of the terminal.
    pub fn terminal_name(&self) -> &'static str {
        terminal_at(self.terminal)
    }

    /// The card number.
    pub fn card_number(&self) -> &'static str {
        CARDS[self.card % 5]
    }
}

/// The name of a merchant.
pub fn merchant_at(place: usize) -> &'static str {
    MERCHANTS[place % 4]
}

/// The name of a terminal.
pub fn terminal_at(place: usize) -> &'static str {
    TERMINALS[place % 5]
}
