//! Plain runs.

use crate::counting_clock::CountingClock;
use crate::difference::Difference;
use crate::plain_connection::PlainConnection;
use crate::rule_issuer::RuleIssuer;
use crate::scene::Scene;
use crate::script::Script;
use acq_book::Book;
use acq_core::{Event, MessageText, Output, Query};
use acq_front::Clock;
use acq_host::Host;
use acq_memory_lines::{Noted, take_one_event};
use std::alloc::Global;

/// Has a host take the messages and events of a scene, one after the other in the order that was
/// noted, and returns what its connections are to have.
pub fn run_plainly<B: Book + Drop>(
    alloc: Global,
    host: &mut Host<B>,
    scene: &mut Scene,
    noted: &[Noted],
) -> Result<Vec<PlainConnection>, Difference> {
    let count = scene.scripts.len();
    let mut connections = new_connections(alloc, count).ok_or(Difference::NoMemory)?;
    let mut clock = CountingClock::new();
    for next in noted {
        match next {
            Noted::Taken(number) => {
                let place = *number as usize;
                let scripts = scene.scripts.as_slice();
                let (script, connection) = (scripts.get(place), connections.get_mut(place));
                let (Some(script), Some(connection)) = (script, connection) else {
                    return Err(Difference::Messages(*number));
                };
                let message = next_message(alloc, script, connection.taken);
                let message = message.ok_or(Difference::Messages(*number))?;
                take_plainly(host, &mut clock, message, connection).ok_or(Difference::Stopped)?;
            }
            Noted::Answered(number) => {
                let connection = connections.get_mut(*number as usize);
                let connection = connection.ok_or(Difference::Messages(*number))?;
                let query = connection.asked.take();
                let query = query.ok_or(Difference::Answered(*number))?;
                answer_plainly(host, &mut clock, query, connection).ok_or(Difference::Stopped)?;
            }
            Noted::Asked => ask_plainly(host, scene).ok_or(Difference::Stopped)?,
            Noted::Waited | Noted::Ended(_) | Noted::LeftOut(_) => {}
        }
    }
    Ok(connections)
}

/// So many connections, of which nothing was taken yet.
fn new_connections(alloc: Global, count: usize) -> Option<Vec<PlainConnection>> {
    let mut connections = Vec::new(alloc);
    for _ in 0..count {
        connections.push(PlainConnection::new(alloc)).ok()?;
    }
    Some(connections)
}

/// The message of a script behind so many, copied, if it has one more.
fn next_message(alloc: Global, script: &Script, taken: usize) -> Option<Vec<u8>> {
    match script.messages.get(taken) {
        Some(message) => Vec::from_slice(alloc, message.as_slice()).ok(),
        None => None,
    }
}

/// Has the host take a message, and its issuer's answer where it is asked and answers at once, and
/// holds what it said last.
fn take_plainly<B: Book + Drop>(
    host: &mut Host<B>,
    clock: &mut CountingClock,
    message: Vec<u8>,
    connection: &mut PlainConnection,
) -> Option<()> {
    let came = Event::Frame(clock.now(), MessageText::from_vec(message));
    let said = host.take(&came).ok()?;
    drop(came);
    connection.taken = connection.taken.saturating_add(1);
    match said {
        Output::Ask(query) => {
            if !RuleIssuer::is_late(&query) {
                return answer_plainly(host, clock, query, connection);
            }
            connection.asked = Some(query);
            Some(())
        }
        said => connection.hold(&said),
    }
}

/// Has the host take the issuer's answer to a query, and holds what it said.
fn answer_plainly<B: Book + Drop>(
    host: &mut Host<B>,
    clock: &mut CountingClock,
    query: Query,
    connection: &mut PlainConnection,
) -> Option<()> {
    let verdict = RuleIssuer::verdict_for(&query);
    let answer = Event::Answer(clock.now(), query.merchant, query.reference, verdict);
    let said = host.take(&answer).ok()?;
    drop(query);
    connection.hold(&said)
}

/// Has the host take the scene's next event.
fn ask_plainly<B: Book + Drop>(host: &mut Host<B>, scene: &mut Scene) -> Option<()> {
    let event = scene.events.pop()?;
    let taken = take_one_event(host, &event);
    drop(event);
    taken.ok()
}
