//! One event line.

ghost use Rattle.std.specs.Prelude.{◌≡◌, ◌≢◌, length, IfOk, IfSome, IfNone};
ghost use Rattle.csv.specs.Records.{fields_of};
ghost use Rattle.acq_out.specs.EventLines.{event_of_fields};
ghost use Rattle.acq_out.specs.Lines.{event_by, texts_of, ends_at_second};

use crate::fields::{
    currency_of, first_reference_of, merchant_of, message_of, moment_of, reference_of, terminal_of,
    verdict_of,
};
use crate::line_name::LineName;
use crate::records::field;
use acq_core::Event;
use card_no::{Prefix, Range};
use csv::ByteRecord;
use std::alloc::{AllocError, Global};

/// How many fields a line has.
const FIELDS: usize = 6;

/// The fields of a record of six: the line's name, and five more.
#[derive(Clone, Copy)]
pub(crate) struct EventLine<'a> {
    name: &'a [u8],
    first: &'a [u8],
    second: &'a [u8],
    third: &'a [u8],
    fourth: &'a [u8],
    fifth: &'a [u8],
}

impl<'a> EventLine<'a> {
    /// The line of a record, or `None` where it hasn't six fields.
    pub(crate) fn of(fields: &'a ByteRecord) -> Option<EventLine<'a>>
        ensures six { IfSome result (λ line. fields_of fields.now ≡ texts_of line) }
        ensures other { IfNone result (length (fields_of fields.now) ≢ 6) }
    {
        if fields.len() != FIELDS {
            return None;
        }
        Some(EventLine {
            name: field(fields, 0),
            first: field(fields, 1),
            second: field(fields, 2),
            third: field(fields, 3),
            fourth: field(fields, 4),
            fifth: field(fields, 5),
        })
    }

    /// The event that the line spells, or `None` where it is out of its form.
    pub(crate) fn event(&self, alloc: Global) -> Result<Option<Event>, AllocError>
        ensures { IfOk result (λ event. event ≡ event_of_fields (texts_of self.now)) }
    {
        match LineName::read(self.name) {
            Some(LineName::Frame) => self.frame(alloc),
            Some(LineName::Answer) => Ok(self.answer()),
            Some(LineName::Cutover) => Ok(self.cutover()),
            Some(LineName::AddRange) => self.add_range(alloc),
            Some(LineName::DropRange) => Ok(self.drop_range()),
            Some(LineName::Enrol) => Ok(self.enrol()),
            Some(LineName::Terminal) => Ok(self.terminal()),
            None => Ok(None),
        }
    }

    /// Whether nothing stands behind the second field.
    fn ends_at_second(&self) -> bool
        ensures { result ≡ ends_at_second self.now }
    {
        self.third.is_empty() && self.fourth.is_empty() && self.fifth.is_empty()
    }

    /// `frame,MOMENT,HEX,,,`
    fn frame(&self, alloc: Global) -> Result<Option<Event>, AllocError>
        ensures { IfOk result (λ event. event ≡ event_by LineName.Frame self.now) }
    {
        if !self.ends_at_second() {
            return Ok(None);
        }
        let Some(moment) = moment_of(self.first) else {
            return Ok(None);
        };
        let Some(message) = message_of(alloc, self.second)? else {
            return Ok(None);
        };
        Ok(Some(Event::Frame(moment, message)))
    }

    /// `answer,MOMENT,MERCHANT,REFERENCE,VERDICT,TEXT`
    fn answer(&self) -> Option<Event>
        ensures { result ≡ event_by LineName.Answer self.now }
    {
        let moment = moment_of(self.first)?;
        let merchant = merchant_of(self.second)?;
        let reference = reference_of(self.third)?;
        let verdict = verdict_of(self.fourth, self.fifth)?;
        Some(Event::Answer(moment, merchant, reference, verdict))
    }

    /// `cutover,MOMENT,,,,`
    fn cutover(&self) -> Option<Event>
        ensures { result ≡ event_by LineName.Cutover self.now }
    {
        if !self.second.is_empty() || !self.ends_at_second() {
            return None;
        }
        let moment = moment_of(self.first)?;
        Some(Event::Cutover(moment))
    }

    /// `addrange,LOW,HIGH,ISSUER,HOLD,`
    fn add_range(&self, alloc: Global) -> Result<Option<Event>, AllocError>
        ensures { IfOk result (λ event. event ≡ event_by LineName.AddRange self.now) }
    {
        if !self.fifth.is_empty() {
            return Ok(None);
        }
        let range = Range::from_texts(alloc, self.first, self.second, self.third, self.fourth)?;
        Ok(range.map(Event::AddRange))
    }

    /// `droprange,LOW,HIGH,,,`
    fn drop_range(&self) -> Option<Event>
        ensures { result ≡ event_by LineName.DropRange self.now }
    {
        if !self.ends_at_second() {
            return None;
        }
        let low = Prefix::read(self.first)?;
        let high = Prefix::read(self.second)?;
        Some(Event::DropRange(low.number(), high.number()))
    }

    /// `enrol,MERCHANT,CURRENCY,FIRST,,`
    fn enrol(&self) -> Option<Event>
        ensures { result ≡ event_by LineName.Enrol self.now }
    {
        if !self.fourth.is_empty() || !self.fifth.is_empty() {
            return None;
        }
        let merchant = merchant_of(self.first)?;
        let currency = currency_of(self.second)?;
        let first_reference = first_reference_of(self.third)?;
        Some(Event::Enrol(merchant, currency, first_reference))
    }

    /// `terminal,MERCHANT,TERMINAL,,,`
    fn terminal(&self) -> Option<Event>
        ensures { result ≡ event_by LineName.Terminal self.now }
    {
        if !self.ends_at_second() {
            return None;
        }
        let merchant = merchant_of(self.first)?;
        let terminal = terminal_of(self.second)?;
        Some(Event::AddTerminal(merchant, terminal))
    }
}
