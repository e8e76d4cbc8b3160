//! What a host is asked beside its status.

use crate::figures::{counted, first_behind, lines_of};
use crate::waiting::MOST_NAMED;
use std::alloc::{AllocError, Global};

/// Of a day with more that waits, the host isn't asked which they are: it would write them all.
const MOST_WAITING: u64 = 1000;

/// What a host is asked beside its status: control lines, without their ends.
#[derive(Drop)]
pub struct Questions {
    /// For what waits, of one day each.
    pub pending: Vec<Vec<u8>>,
    /// For the sums of the business day, if the status says which it is.
    pub sums: Option<Vec<u8>>,
}

impl Questions {
    /// What is asked behind this status: of days of which something waits, the first, up to as many
    /// requests as are shown.
    pub fn behind(alloc: Global, status: &[u8]) -> Result<Questions, AllocError> {
        let lines = lines_of(alloc, status)?;
        let mut pending = Vec::new(alloc);
        let mut named = 0;
        for day in counted(alloc, lines.as_slice(), b"pending.", b" ")? {
            if named < MOST_NAMED as u64 && day.count > 0 && day.count <= MOST_WAITING {
                named += day.count;
                pending.push(question(alloc, b"pending,", day.name)?)?;
            }
        }
        let sums = match first_behind(lines.as_slice(), b"day ") {
            Some(day) => Some(question(alloc, b"sums,", day)?),
            None => None,
        };
        Ok(Questions { pending, sums })
    }
}

/// A control line about a day.
fn question(alloc: Global, word: &[u8], day: &[u8]) -> Result<Vec<u8>, AllocError> {
    let mut line = Vec::from_slice(alloc, word)?;
    line.extend_from_slice(day)?;
    Ok(line)
}
