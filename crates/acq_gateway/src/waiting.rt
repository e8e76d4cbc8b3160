//! What lies at the desk.

use crate::asked::Asked;
use crate::brought::Brought;
use crate::sent_answer::SentAnswer;
use acq_core::{MerchantId, MessageText, Query, Reference, Verdict};
use acq_gateway_lines::{ToldQuery, WaitingMessage};
use std::alloc::{AllocError, Global};
use std::mem;
use std::time::Duration;

/// What lies at the desk: the requests whose issuers' answers are waited for, with what is known of
/// each.
#[derive(Drop)]
pub(crate) struct Waiting {
    alloc: Global,
    asked: Vec<Asked>,
    /// The messages of those that the gateway wasn't told yet.
    messages: Vec<WaitingMessage>,
    /// Rows of requests that it was told, and that ended without an answer.
    ended: Vec<u64>,
    /// Lines for the host, of answers that nobody waits for.
    lines: Vec<u8>,
    /// Whether a gateway is connected, and else how long it is waited for.
    is_connected: bool,
    patience: Duration,
    /// How many answers came, and weren't taken yet.
    answered: usize,
}

impl Waiting {
    /// Nothing is asked, and no gateway is connected.
    pub(crate) fn new(alloc: Global) -> Waiting {
        Waiting {
            alloc,
            asked: Vec::new(alloc),
            messages: Vec::new(alloc),
            ended: Vec::new(alloc),
            lines: Vec::new(alloc),
            is_connected: false,
            patience: Duration::ZERO,
            answered: 0,
        }
    }

    /// A gateway is waited for so long, where none is connected.
    pub(crate) fn set_patience(&mut self, patience: Duration) {
        self.patience = patience;
    }

    /// How long an answer may take at most, as far as that is known.
    pub(crate) fn takes(&self) -> Duration {
        if self.is_connected {
            Duration::MAX
        } else {
            self.patience
        }
    }

    /// A gateway is connected, which was told of nothing yet.
    pub(crate) fn connect(&mut self) {
        self.is_connected = true;
        self.forget_told();
    }

    /// It is gone, and with it the messages that it wasn't told.
    pub(crate) fn disconnect(&mut self) {
        self.is_connected = false;
        self.messages.clear();
        self.forget_told();
    }

    fn forget_told(&mut self) {
        for asked in self.asked.iter_mut() {
            asked.row = None;
        }
        self.ended.clear();
    }

    /// Where an answer may be there: how long to wait for it.
    pub(crate) fn next_within(&self) -> Option<Duration> {
        (self.answered > 0).then_some(Duration::ZERO)
    }

    /// Notes a query, if it is new, and returns whether its answer is there. Where memory runs out,
    /// it is: none.
    pub(crate) fn has_answer(&mut self, query: &Query) -> bool {
        if let Some(asked) = self.find(query.merchant, query.reference) {
            return asked.answer.is_some();
        }
        let asked = Asked {
            merchant: query.merchant,
            reference: query.reference,
            row: None,
            answer: None,
        };
        self.asked.push(asked).is_err()
    }

    /// What is asked about a request.
    fn find(&self, merchant: MerchantId, reference: Reference) -> Option<&Asked> {
        self.asked
            .iter()
            .find(|asked| asked.is(merchant, reference))
    }

    /// The answer to a query, which isn't waited for any more. One that the gateway was told of and
    /// that ends without an answer is to be advised.
    pub(crate) fn take(&mut self, query: &Query) -> Verdict {
        let (merchant, reference) = (query.merchant, query.reference);
        let Some(asked) = self.find(merchant, reference) else {
            return Verdict::NoAnswer;
        };
        let (row, answer) = (asked.row, asked.answer);
        self.asked.retain(|asked| !asked.is(merchant, reference));
        self.messages.retain(|message| message.reference != reference
            || message.merchant != merchant);
        match (answer, row) {
            (Some(verdict), _) => {
                self.answered = self.answered.saturating_sub(1);
                verdict
            }
            (None, Some(row)) => {
                // Without memory for it, it is advised to whoever asks for that row again.
                let _ = self.ended.push(row);
                Verdict::NoAnswer
            }
            (None, None) => Verdict::NoAnswer,
        }
    }

    /// The message of a query came so.
    pub(crate) fn note_message(&mut self, query: &Query, text: MessageText) {
        if self.find(query.merchant, query.reference).is_none() {
            return;
        }
        // Without memory for it, the gateway is told of the query without it.
        let _ = self.messages.push(WaitingMessage {
            merchant: query.merchant,
            reference: query.reference,
            text,
        });
    }

    /// The messages of what the gateway wasn't told yet.
    pub(crate) fn messages(&self) -> &[WaitingMessage] {
        self.messages.as_slice()
    }

    /// The gateway was told of these queries.
    pub(crate) fn told(&mut self, queries: &[ToldQuery]) {
        for told in queries {
            self.told_one(told);
        }
    }

    fn told_one(&mut self, told: &ToldQuery) {
        let (merchant, reference) = (told.merchant, told.reference);
        for asked in self.asked.iter_mut() {
            if asked.is(merchant, reference) {
                asked.row = Some(told.number);
            }
        }
        self.messages.retain(|message| message.reference != reference
            || message.merchant != merchant);
    }

    /// The next row that is to be advised, since it ended without an answer.
    pub(crate) fn next_ended(&mut self) -> Option<u64> {
        self.ended.pop()
    }

    /// Whether one is.
    pub(crate) fn has_ended(&self) -> bool {
        !self.ended.is_empty()
    }

    /// An answer came.
    pub(crate) fn bring(&mut self, answer: &SentAnswer) -> Brought {
        for asked in self.asked.iter_mut() {
            if asked.is(answer.merchant, answer.reference) {
                if asked.answer.is_some() {
                    return Brought::Behind;
                }
                asked.answer = Some(answer.verdict);
                self.answered = self.answered.saturating_add(1);
                return Brought::Waited;
            }
        }
        Brought::Unwaited
    }

    /// Whether an answer to this request is still to be taken.
    pub(crate) fn is_to_be_taken(&self, merchant: MerchantId, reference: Reference) -> bool {
        !self.lines.is_empty()
            || self
                .find(merchant, reference)
                .is_some_and(|asked| asked.answer.is_some())
    }

    /// A line for the host.
    pub(crate) fn hand_on(&mut self, line: &[u8]) -> Result<(), AllocError> {
        self.lines.reserve(line.len().saturating_add(1))?;
        self.lines.extend_from_slice(line)?;
        self.lines.push(b'\n')?;
        Ok(())
    }

    /// Whether there are lines for the host.
    pub(crate) fn has_lines(&self) -> bool {
        !self.lines.is_empty()
    }

    /// All lines for the host, which are handed on now.
    pub(crate) fn take_lines(&mut self) -> Vec<u8> {
        mem::replace(&mut self.lines, Vec::new(self.alloc))
    }
}
