//! Connections are compared.

use crate::difference::Difference;
use crate::ending::Ending;
use crate::plain_connection::PlainConnection;
use crate::scene::Scene;
use crate::script::Script;
use acq_front::FrontFault;
use acq_memory_lines::{Noted, Parted};

/// Compares the connections that were parted with, each with what it is to have.
pub fn compare_connections(
    scene: &Scene,
    plain: &[PlainConnection],
    parted: &[Parted],
    noted: &[Noted],
    is_stopped: bool,
) -> Result<(), Difference> {
    for (place, connection) in plain.iter().enumerate() {
        let number = place as u64;
        let times = parted.iter().filter(|p| p.number == number).count();
        // One that didn't come before a fault has nothing to be parted with.
        if times != 1 && !(times == 0 && is_stopped && connection.taken == 0) {
            return Err(Difference::Parting(number));
        }
    }
    for connection in parted {
        let number = connection.number;
        let place = number as usize;
        let (Some(script), Some(plain)) = (scene.scripts.get(place), plain.get(place)) else {
            return Err(Difference::Parting(number));
        };
        if !plain
            .replies
            .as_slice()
            .starts_with(connection.went.as_slice())
        {
            return Err(Difference::Written(number));
        }
        if !is_stopped && !was_ended(noted, number) {
            compare_end(script, plain, connection)?;
        }
    }
    Ok(())
}

/// Whether the gate had a connection end.
fn was_ended(noted: &[Noted], number: u64) -> bool {
    noted.iter().any(|next| matches!(next, Noted::Ended(ended) if *ended == number))
}

/// Compares how a connection ended, and what it had until then, with its script and the plain run.
fn compare_end(
    script: &Script,
    plain: &PlainConnection,
    parted: &Parted,
) -> Result<(), Difference> {
    if parted.ended.is_none() {
        return Err(Difference::Forgotten(parted.number));
    }
    let went = parted.went.len();
    let is_cut = script.habits.room < plain.replies.len();
    if !is_cut && went != plain.replies.len() {
        return Err(Difference::Written(parted.number));
    }
    if !is_cut && !plain.is_unread && plain.taken != script.messages.len() {
        return Err(Difference::Messages(parted.number));
    }
    let is_so = match parted.ended {
        Some(Err(FrontFault::Write(gone))) => {
            let written = (plain.last as u64).checked_add(gone);
            is_cut && went == script.habits.room && written == Some(went as u64)
        }
        _ if is_cut => false,
        Some(Err(FrontFault::Undecodable(_))) => plain.is_unread,
        _ if plain.is_unread => false,
        Some(Ok(())) => matches!(script.ending, Ending::Well),
        Some(Err(FrontFault::Ended)) => matches!(script.ending, Ending::InsideFrame),
        Some(Err(FrontFault::Read)) => matches!(script.ending, Ending::Reset),
        Some(Err(FrontFault::BadLength)) => matches!(script.ending, Ending::BadLength),
        _ => false,
    };
    if is_so {
        Ok(())
    } else {
        let fault = fault_number(parted);
        Err(Difference::Ending(parted.number, script.ending, fault))
    }
}

/// The number of the fault that a connection ended with, or 0.
fn fault_number(parted: &Parted) -> u8 {
    match &parted.ended {
        Some(Err(fault)) => fault.number(),
        Some(Ok(())) | None => 0,
    }
}
