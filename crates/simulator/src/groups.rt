//! Whom each group served.

use crate::difference::Difference;
use acq_memory_lines::Noted;
use std::alloc::Global;

/// How many groups there are, if none took two turns of a connection, or left one out that had
/// one ready.
pub fn check_groups(alloc: Global, noted: &[Noted]) -> Result<u64, Difference> {
    let mut taken = Vec::new(alloc);
    let mut groups = 0u64;
    for next in noted {
        match next {
            Noted::Taken(number) | Noted::Answered(number) => {
                if taken.as_slice().contains(number) {
                    return Err(Difference::Twice(*number));
                }
                if taken.is_empty() {
                    groups = groups.wrapping_add(1);
                }
                if taken.push(*number).is_err() {
                    return Err(Difference::NoMemory);
                }
            }
            Noted::Waited => taken.clear(),
            Noted::LeftOut(number) => return Err(Difference::LeftOut(*number)),
            Noted::Asked | Noted::Ended(_) => {}
        }
    }
    Ok(groups)
}
