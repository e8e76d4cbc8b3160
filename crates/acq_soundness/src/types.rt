//! What the host's types hold: every value is such as the laws take it.

ghost use Rattle.acq_core.specs.Tables.{Opening};
ghost use Rattle.acq_core.specs.Events.{IsVerdict, IsEvent, IsOpening};

use acq_core::{Event, Limit, Verdict};
use day_totals::Day;

/// Every verdict has an id or a code that an issuer may give.
pub fn every_verdict(verdict: &Verdict)
    ensures { IsVerdict verdict.now }
{
    match verdict {
        Verdict::Approved(id) => {
            let _text = id.to_bytes();
        }
        Verdict::Declined(code) => {
            let _text = code.to_bytes();
        }
        Verdict::NoAnswer => {}
    }
}

/// Every event is such as the laws take it.
pub fn every_event(event: &Event)
    ensures { IsEvent event.now }
{
    match event {
        Event::Frame(moment, _) | Event::Cutover(moment) => {
            let _seconds = moment.seconds();
        }
        Event::Answer(moment, merchant, reference, verdict) => {
            let _seconds = moment.seconds();
            let _name = merchant.to_bytes();
            let _number = reference.number();
            every_verdict(verdict);
        }
        Event::AddRange(_) | Event::DropRange(_, _) => {}
        Event::Enrol(merchant, currency, first) => {
            let _name = merchant.to_bytes();
            let _text = currency.to_bytes();
            let _number = first.number();
        }
        Event::AddTerminal(merchant, terminal) => {
            let _name = merchant.to_bytes();
            let _text = terminal.to_bytes();
        }
    }
}

/// Every limit and every day are an opening such as the laws take it.
pub fn every_opening(limit: Limit, first_day: Day)
    ensures { let opening : Opening = record { limit = limit; first_day = first_day } in
        IsOpening opening }
{
    let _number = limit.number();
    let _day = first_day.number();
}
