//! A gateway's connection, without its socket.

ghost use Rattle.std.specs.Prelude.{◌≡◌, ◌++◌, ◌∷◌, ℕ, [], codes, drop, is_ok, IfOk, None};
ghost use Rattle.acq_book.specs.Calls.{Looks};
ghost use Rattle.acq_book.specs.Promise.{CountsFault};
ghost use Rattle.acq_gateway.specs.Telling.{AddsRows, Begins, IsHeld, IsNew, MayMiss, Says, Stays};
ghost use Rattle.acq_gateway.specs.Telling.{Takes, Tells, bad_line, missing_line, outcome_line};
ghost use Rattle.acq_gateway.specs.Telling.{unsent_of};
ghost use Rattle.acq_reports.specs.Marks.{csv_line};

use crate::brought::Brought;
use crate::gateway_desk::GatewayDesk;
use crate::gateway_line::GatewayLine;
use crate::sent_answer::SentAnswer;
use acq_book::{Book, BookFault};
use acq_core::{MerchantId, Moment, Reference, Verdict};
use acq_gateway_lines::AnswerOutcome;
use acq_host::Host;
use acq_reports::record_text;
use itoa::Buffer;
use std::alloc::{AllocError, Global};

/// The most bytes of lines that it keeps. A line is shorter by far.
const MOST_INPUT: usize = 65_536;

/// How many answers may be sent before the first of them is confirmed.
const MOST_ANSWERS: usize = 1024;

/// How many rows it is told at once.
const MOST_ROWS: u64 = 512;

/// How often an interval of row numbers can be halved.
const HALVES: u32 = 64;

/// A gateway's connection, without its socket: what came, and what is to be written. It is told of
/// rows once it asked for them, and then goes on live.
#[derive(Drop)]
pub struct Gateway {
    alloc: Global,
    desk: GatewayDesk,
    /// What came, and how much of it was taken.
    input: Vec<u8>,
    taken: usize,
    /// What is to be written, and how much of it was.
    output: Vec<u8>,
    gone: usize,
    /// How many lines were taken.
    lines: u64,
    /// How many rows it was told, once it asked for them.
    rows: Option<u64>,
    /// How many rows it says that it knows, where it wasn't looked yet whether there are so many.
    from: Option<u64>,
    /// It knows of more rows than these, which are all.
    missing: Option<u64>,
    /// The answers that came and aren't confirmed yet, in order.
    answers: Vec<SentAnswer>,
    /// Whether there may be rows that it wasn't told.
    is_behind: bool,
}

impl Gateway {
    /// One that connects to this desk now.
    pub fn connect(alloc: Global, desk: GatewayDesk) -> Gateway
        ensures { IsNew result }
    {
        if let Some(mut waiting) = desk.waiting() {
            waiting.connect();
        }
        Gateway {
            alloc,
            desk,
            input: Vec::new(alloc),
            taken: 0,
            output: Vec::new(alloc),
            gone: 0,
            lines: 0,
            rows: None,
            from: None,
            missing: None,
            answers: Vec::new(alloc),
            is_behind: true,
        }
    }

    /// There may be new rows.
    pub fn note_news(&mut self)
        ensures { Stays self.old self.new }
    {
        self.is_behind = true;
    }

    /// It is gone.
    pub fn disconnect(self) {
        if let Some(mut waiting) = self.desk.waiting() {
            waiting.disconnect();
        }
    }

    /// Whether it takes more of what comes: not where its lines can't be taken yet.
    pub fn has_room(&self) -> bool {
        self.input.len() < MOST_INPUT
    }

    /// Takes in the next piece of what comes.
    pub fn feed(&mut self, piece: &[u8]) -> Result<(), AllocError>
        ensures { Stays self.old self.new }
    {
        self.input.extend_from_slice(piece)
    }

    /// What is to be written.
    pub fn unsent(&self) -> &[u8]
        ensures { result.now ≡ unsent_of self.now }
    {
        self.output.get(self.gone..).unwrap_or(&[])
    }

    /// How many bytes of it were written.
    pub fn gone(&self) -> u64 {
        self.gone as u64
    }

    /// So many bytes more were written.
    pub fn advance(&mut self, n: usize)
        ensures unsent { unsent_of self.new ≡ drop n (unsent_of self.old) }
        ensures held { IsHeld self.new }
        ensures rows { self.new.rows ≡ self.old.rows }
        ensures from { self.new.from ≡ self.old.from }
    {
        self.gone = self.gone.saturating_add(n);
        if self.gone >= self.output.len() {
            self.output.clear();
            self.gone = 0;
        }
    }

    /// Whether what it sent is too long for a line.
    pub fn is_flooded(&self) -> bool {
        !self.has_room() && !self.has_line()
    }

    /// The number of the book's rows, where it knew of more: told once.
    pub fn take_missing(&mut self) -> Option<u64>
        ensures { Stays self.old self.new }
    {
        self.missing.take()
    }

    /// Whether it has something to do in the next round, though nothing comes.
    pub fn has_more(&self) -> bool {
        self.unsent().is_empty()
            && (!self.answers.is_empty()
                || self.from.is_some()
                || self.has_line()
                || self.rows.is_some() && self.is_behind
                || self.has_ended())
    }

    /// Whether a whole line is held that wasn't taken yet, since what was said before was still to
    /// be written.
    fn has_line(&self) -> bool {
        self.input.contains(&b'\n')
    }

    fn has_ended(&self) -> bool {
        match self.desk.waiting() {
            Some(waiting) => waiting.has_ended(),
            None => false,
        }
    }

    /// Takes the lines that are whole. Answers that nobody waits for are then the host's.
    #[tactic(auto, using(crate::proofs::Taking::takes_both, crate::proofs::Taking::takes_stays))]
    pub fn take_lines(&mut self) -> Result<(), AllocError>
        ensures { IfOk result (λ done. Takes self.old self.new) }
    {
        self.take_all()?;
        match self.discard_taken() {
            Ok(()) => Ok(()),
            Err(fault) => Err(fault),
        }
    }

    /// Takes them, up to the first that can't be taken yet.
    #[tactic(auto, using(crate::proofs::Taking::takes_both, crate::proofs::Taking::takes_none))]
    fn take_all(&mut self) -> Result<(), AllocError>
        ensures { IfOk result (λ done. Takes self.old self.new) }
    {
        for _ in 0..self.input.len() {
            if !self.take_next()? {
                return Ok(());
            }
        }
        Ok(())
    }

    /// Takes the next line that is whole, and returns whether it did: none where too many answers
    /// are to be confirmed, or something is to be written.
    #[tactic(auto, using(crate::proofs::Taking::takes_stays))]
    fn take_next(&mut self) -> Result<bool, AllocError>
        ensures { IfOk result (λ done. Takes self.old self.new) }
    {
        if self.answers.len() >= MOST_ANSWERS || !self.unsent().is_empty() {
            return Ok(false);
        }
        let Some((line, end)) = self.next_line()? else {
            return Ok(false);
        };
        if !self.take_line(line.as_slice())? {
            return Ok(false);
        }
        self.taken = end;
        self.lines = self.lines.saturating_add(1);
        Ok(true)
    }

    /// The next line that is whole, without its end, and where the one behind it begins.
    fn next_line(&self) -> Result<Option<(Vec<u8>, usize)>, AllocError> {
        let Some(rest) = self.input.get(self.taken..) else {
            return Ok(None);
        };
        let Some(length) = rest.iter().position(|byte| *byte == b'\n') else {
            return Ok(None);
        };
        let line = rest.get(..length).unwrap_or(&[]);
        let line = line.strip_suffix(b"\r").unwrap_or(line);
        let end = self.taken.saturating_add(length).saturating_add(1);
        Ok(Some((Vec::from_slice(self.alloc, line)?, end)))
    }

    /// Forgets the lines that were taken.
    fn discard_taken(&mut self) -> Result<(), AllocError>
        ensures { Stays self.old self.new }
    {
        let rest = self.input.get(self.taken..).unwrap_or(&[]);
        self.input = Vec::from_slice(self.alloc, rest)?;
        self.taken = 0;
        Ok(())
    }

    /// Takes a line, and returns whether it did: an answer behind another one for the same request
    /// is taken once that is.
    #[tactic(auto, using(crate::proofs::Taking::takes_stays, crate::proofs::Taking::takes_from))]
    fn take_line(&mut self, line: &[u8]) -> Result<bool, AllocError>
        ensures { IfOk result (λ done. Takes self.old self.new) }
    {
        match GatewayLine::read(self.alloc, line) {
            Ok(GatewayLine::From(rows)) => {
                self.from = Some(rows);
                self.rows = None;
                Ok(true)
            }
            Ok(GatewayLine::Answer(answer)) => self.take_answer(&answer, line),
            Ok(GatewayLine::Bad) => match self.put_bad_line(self.lines.saturating_add(1)) {
                Ok(()) => Ok(true),
                Err(fault) => Err(fault),
            },
            Err(fault) => Err(fault),
        }
    }

    /// Takes an answer, as a line does.
    fn take_answer(&mut self, answer: &SentAnswer, line: &[u8]) -> Result<bool, AllocError>
        ensures { Stays self.old self.new }
    {
        if self.answers.reserve(1).is_err() {
            return Err(AllocError);
        }
        let brought = self.bring(answer, line);
        if let Ok(true) = brought {
            self.note_answer(answer.merchant, answer.reference, answer.verdict);
        }
        brought
    }

    /// An answer is to be confirmed: room was made for it.
    fn note_answer(&mut self, merchant: MerchantId, reference: Reference, verdict: Verdict)
        ensures { Stays self.old self.new }
    {
        let _ = self.answers.push(SentAnswer {
            merchant,
            reference,
            verdict,
        });
    }

    /// Brings an answer to whoever waits for it, or else hands its line on to the host. Returns
    /// whether it did.
    fn bring(&self, answer: &SentAnswer, line: &[u8]) -> Result<bool, AllocError> {
        let Some(mut waiting) = self.desk.waiting() else {
            return Ok(false);
        };
        match waiting.bring(answer) {
            Brought::Behind => Ok(false),
            Brought::Waited => Ok(true),
            Brought::Unwaited => match waiting.hand_on(line) {
                Ok(()) => Ok(true),
                Err(fault) => Err(fault),
            },
        }
    }

    /// Says that the line with this number is out of its form.
    fn put_bad_line(&mut self, number: u64) -> Result<(), AllocError>
        ensures output { IfOk result (λ done.
            self.new.output.items ≡ self.old.output.items ++ bad_line number) }
        ensures rows { self.new.rows ≡ self.old.rows }
        ensures from { self.new.from ≡ self.old.from }
        ensures gone { self.new.gone ≡ self.old.gone }
    {
        let line = bad_text(self.alloc, number)?;
        self.output.extend_from_slice(line.as_slice())
    }

    /// Looks in the book what is to be said: whether answers were taken, and what rows there are.
    #[tactic(auto, using(acq_book::proofs::Chains::looks_more))]
    pub fn look<B: Book + Drop>(
        &mut self,
        host: &mut Host<B>,
        moment: Moment,
    ) -> Result<(), BookFault>
        ensures tells { B.is_honest host.new → B.is_open host.old → IfOk result (λ done.
            Tells (B.tables host.old) moment self.old self.new) }
        ensures looks { Looks B.Book host.old host.new (is_ok result) }
        ensures store { CountsFault result (B.failures host.old) (B.failures host.new) }
    {
        self.confirm_all(host)?;
        self.begin(host, moment)?;
        self.advise_ended(host, moment)?;
        self.tell_rows(host, moment)
    }

    /// Says what became of the answers that came, in order, to the first that isn't taken yet.
    #[tactic(auto, using(acq_book::proofs::Chains::looks_more))]
    fn confirm_all<B: Book + Drop>(&mut self, host: &mut Host<B>) -> Result<(), BookFault>
        ensures says { B.is_honest host.new → B.is_open host.old → IfOk result (λ done.
            (moment : ℕ) → Says (B.tables host.old) moment self.old self.new) }
        ensures looks { Looks B.Book host.old host.new (is_ok result) }
        ensures store { CountsFault result (B.failures host.old) (B.failures host.new) }
    {
        for _ in 0..self.answers.len() {
            let Some(answer) = self.next_taken() else {
                return Ok(());
            };
            let outcome = host.answer_outcome(answer.merchant, answer.reference, &answer.verdict)?;
            self.put_outcome(&answer, outcome)?;
        }
        Ok(())
    }

    /// The next answer that was taken, or refused.
    fn next_taken(&mut self) -> Option<SentAnswer>
        ensures output { self.new.output ≡ self.old.output }
        ensures rows { self.new.rows ≡ self.old.rows }
        ensures from { self.new.from ≡ self.old.from }
        ensures gone { self.new.gone ≡ self.old.gone }
    {
        let first = *self.answers.first()?;
        let waiting = self.desk.waiting()?;
        if waiting.is_to_be_taken(first.merchant, first.reference) {
            return None;
        }
        drop(waiting);
        drop(self.answers.remove(0));
        Some(first)
    }

    /// Says what became of an answer.
    fn put_outcome(&mut self, answer: &SentAnswer, outcome: AnswerOutcome) -> Result<(), AllocError>
        ensures output { IfOk result (λ done. self.new.output.items ≡ self.old.output.items
            ++ outcome_line answer.now.merchant answer.now.reference outcome) }
        ensures rows { self.new.rows ≡ self.old.rows }
        ensures from { self.new.from ≡ self.old.from }
        ensures gone { self.new.gone ≡ self.old.gone }
    {
        let line = outcome_text(self.alloc, answer, outcome)?;
        self.output.extend_from_slice(line.as_slice())
    }

    /// Begins where it asked for, if the book has so many rows.
    #[tactic(auto, using(acq_book::proofs::Chains::looks_more))]
    fn begin<B: Book + Drop>(&mut self, host: &mut Host<B>, moment: Moment) -> Result<(), BookFault>
        ensures output { IfOk result (λ done. MayMiss self.old self.new) }
        ensures begins { IfOk result (λ done. Begins self.old self.new.rows) }
        ensures taken { self.new.from ≡ None }
        ensures looks { Looks B.Book host.old host.new (is_ok result) }
        ensures store { CountsFault result (B.failures host.old) (B.failures host.new) }
    {
        let Some(rows) = self.from.take() else {
            return Ok(());
        };
        if has_row(host, moment, rows)? {
            self.rows = Some(rows);
            self.is_behind = true;
            return Ok(());
        }
        let last = last_row(host, moment, rows)?;
        self.put_missing(last)?;
        Ok(())
    }

    /// Says how many rows there are, since it knows of more.
    fn put_missing(&mut self, last: u64) -> Result<(), AllocError>
        ensures output { IfOk result (λ done.
            self.new.output.items ≡ self.old.output.items ++ missing_line last) }
        ensures rows { self.new.rows ≡ self.old.rows }
        ensures from { self.new.from ≡ self.old.from }
        ensures gone { self.new.gone ≡ self.old.gone }
    {
        self.missing = Some(last);
        let line = missing_text(self.alloc, last)?;
        self.output.extend_from_slice(line.as_slice())
    }

    /// Advises what ended without an answer, of what it was told.
    #[tactic(auto, using(acq_book::proofs::Chains::looks_more))]
    fn advise_ended<B: Book + Drop>(
        &mut self,
        host: &mut Host<B>,
        moment: Moment,
    ) -> Result<(), BookFault>
        ensures says { B.is_honest host.new → B.is_open host.old → IfOk result (λ done.
            Says (B.tables host.old) moment self.old self.new) }
        ensures looks { Looks B.Book host.old host.new (is_ok result) }
        ensures store { CountsFault result (B.failures host.old) (B.failures host.new) }
    {
        for _ in 0..MOST_ROWS {
            let Some(row) = self.next_ended() else {
                return Ok(());
            };
            let slice = host.gateway_slice(moment, &[], row.saturating_sub(1), 1)?;
            self.output.extend_from_slice(slice.text.as_slice())?;
        }
        Ok(())
    }

    /// The next row that is to be advised, where there is room to say so.
    fn next_ended(&self) -> Option<u64> {
        if !self.unsent().is_empty() {
            return None;
        }
        let mut waiting = self.desk.waiting()?;
        waiting.next_ended()
    }

    /// Tells the next rows, where what was said before is written.
    fn tell_rows<B: Book + Drop>(
        &mut self,
        host: &mut Host<B>,
        moment: Moment,
    ) -> Result<(), BookFault>
        ensures tells { B.is_honest host.new → B.is_open host.old → IfOk result (λ done.
            AddsRows (B.tables host.old) moment self.old self.new) }
        ensures looks { Looks B.Book host.old host.new (is_ok result) }
        ensures store { CountsFault result (B.failures host.old) (B.failures host.new) }
    {
        let Some(rows) = self.rows else {
            return Ok(());
        };
        if !self.is_behind || !self.unsent().is_empty() {
            return Ok(());
        }
        let Some(mut waiting) = self.desk.waiting() else {
            return Ok(());
        };
        let slice = host.gateway_slice(moment, waiting.messages(), rows, MOST_ROWS)?;
        self.output.extend_from_slice(slice.text.as_slice())?;
        waiting.told(slice.queries.as_slice());
        self.is_behind = slice.rows != rows;
        self.rows = Some(slice.rows);
        Ok(())
    }
}

/// The line that says what became of an answer.
fn outcome_text(
    alloc: Global,
    answer: &SentAnswer,
    outcome: AnswerOutcome,
) -> Result<Vec<u8>, AllocError>
    ensures { IfOk result (λ line.
        line.items ≡ outcome_line answer.now.merchant answer.now.reference outcome) }
{
    let merchant = answer.merchant.to_bytes();
    let reference = answer.reference.text();
    match outcome {
        AnswerOutcome::Done => done_text(alloc, &merchant, &reference),
        AnswerOutcome::Late => refused_text(alloc, b"33", &merchant, &reference),
        AnswerOutcome::UnknownReference => refused_text(alloc, b"34", &merchant, &reference),
        AnswerOutcome::AlreadyAnswered => refused_text(alloc, b"35", &merchant, &reference),
        AnswerOutcome::NoSuchMerchant => refused_text(alloc, b"37", &merchant, &reference),
    }
}

/// That an answer was taken; the fields are lent for one time.
fn done_text<'a>(
    alloc: Global,
    merchant: &'a [u8],
    reference: &'a [u8],
) -> Result<Vec<u8>, AllocError>
    ensures { IfOk result (λ line.
        line.items ≡ csv_line (codes "done" ∷ merchant.now ∷ reference.now ∷ [])) }
{
    let fields: [&[u8]; 3] = [b"done", merchant, reference];
    record_text(alloc, &fields)
}

/// That an answer was refused; the fields are lent for one time.
fn refused_text<'a>(
    alloc: Global,
    number: &'a [u8],
    merchant: &'a [u8],
    reference: &'a [u8],
) -> Result<Vec<u8>, AllocError>
    ensures { IfOk result (λ line. line.items
        ≡ csv_line (codes "refused" ∷ number.now ∷ merchant.now ∷ reference.now ∷ [])) }
{
    let fields: [&[u8]; 4] = [b"refused", number, merchant, reference];
    record_text(alloc, &fields)
}

/// The line that says which line was out of its form.
fn bad_text(alloc: Global, number: u64) -> Result<Vec<u8>, AllocError>
    ensures { IfOk result (λ line. line.items ≡ bad_line number) }
{
    let mut digits = Buffer::new();
    let mut line = Vec::from_slice(alloc, b"acqd: 62 BadLine ")?;
    line.extend_from_slice(digits.format(number).as_bytes())?;
    line.extend_from_slice(b"\n")?;
    Ok(line)
}

/// The line that says how many rows there are, since a gateway knows of more.
fn missing_text(alloc: Global, rows: u64) -> Result<Vec<u8>, AllocError>
    ensures { IfOk result (λ line. line.items ≡ missing_line rows) }
{
    let mut number = Buffer::new();
    let mut line = Vec::from_slice(alloc, b"acqd: 65 RowsMissing ")?;
    line.extend_from_slice(number.format(rows).as_bytes())?;
    line.extend_from_slice(b"\n")?;
    Ok(line)
}

/// Whether the book has a row with this number; 0 is none.
fn has_row<B: Book + Drop>(
    host: &mut Host<B>,
    moment: Moment,
    number: u64,
) -> Result<bool, BookFault>
    ensures looks { Looks B.Book host.old host.new (is_ok result) }
    ensures store { CountsFault result (B.failures host.old) (B.failures host.new) }
{
    let before = number.saturating_sub(1);
    let slice = host.gateway_slice(moment, &[], before, 1)?;
    Ok(number == 0 || slice.rows > before)
}

/// The number of the last row, which is below this one.
#[tactic(auto, using(acq_book::proofs::Chains::looks_more))]
fn last_row<B: Book + Drop>(
    host: &mut Host<B>,
    moment: Moment,
    above: u64,
) -> Result<u64, BookFault>
    ensures looks { Looks B.Book host.old host.new (is_ok result) }
    ensures store { CountsFault result (B.failures host.old) (B.failures host.new) }
{
    let (mut low, mut high): (u64, u64) = (0, above);
    for _ in 0..HALVES {
        let middle = low.saturating_add(high.saturating_sub(low) / 2);
        if has_row(host, moment, middle)? {
            low = middle;
        } else {
            high = middle;
        }
    }
    Ok(low)
}
