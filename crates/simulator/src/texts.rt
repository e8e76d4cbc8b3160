//! What a book says.

use crate::counting_clock::moment_at;
use crate::opening::{FIRST_DAY, merchant_id};
use crate::sale::Sale;
use crate::script::{Script, put_frame};
use acq_book::Book;
use acq_core::{Event, MessageText, Output};
use acq_host::Host;
use acq_link::MemorySink;
use day_totals::Day;
use std::alloc::Global;

/// How many days of a book are looked at: more than are cut over.
const DAYS: u32 = 9;

/// What a book says once a run is over and its day is: each day's clearing file and settlement
/// report, the merchants' open holds, and its replies to all that the terminals sent, most of which
/// repeats. Books that say the same have the same rows, as far as any message can tell. `None` where
/// memory runs out.
pub fn book_texts<B: Book + Drop>(
    alloc: Global,
    host: &mut Host<B>,
    scripts: &[Script],
) -> Option<Vec<u8>> {
    let over = Event::Cutover(moment_at(0));
    host.take(&over).ok()?;
    let mut sink = MemorySink::new(alloc);
    let mut day = Day::read(FIRST_DAY)?;
    for _ in 0..DAYS {
        // What is refused of a day that isn't over is refused of both books.
        let _ = host.write_clearing(day, &mut sink);
        let _ = host.write_settlement(day, &mut sink);
        day = day.next()?;
    }
    for place in 0..Sale::COUNTS.0 {
        let _ = host.write_holds(merchant_id(place)?, moment_at(0), &mut sink);
    }
    let mut text = Vec::from_slice(alloc, sink.as_bytes()).ok()?;
    for script in scripts {
        put_repeats(alloc, host, script, &mut text)?;
    }
    Some(text)
}

/// Puts the replies to what a terminal sent, as it comes again.
fn put_repeats<B: Book + Drop>(
    alloc: Global,
    host: &mut Host<B>,
    script: &Script,
    text: &mut Vec<u8>,
) -> Option<()> {
    for message in script.messages.iter() {
        put_repeat(alloc, host, message.as_slice(), text)?;
    }
    Some(())
}

/// Puts the reply to a message, if it gets one.
fn put_repeat<B: Book + Drop>(
    alloc: Global,
    host: &mut Host<B>,
    message: &[u8],
    text: &mut Vec<u8>,
) -> Option<()> {
    let message = MessageText::from_slice(alloc, message).ok()?;
    match host.take(&Event::Frame(moment_at(0), message)) {
        Ok(Output::Reply(_, reply)) => put_frame(text, reply.as_bytes()),
        Ok(_) => Some(()),
        Err(_) => None,
    }
}
