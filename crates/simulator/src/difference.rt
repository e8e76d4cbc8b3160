//! What differs.

use crate::ending::Ending;
use std::fmt;

/// What differs between a run and the plain one.
#[derive(Clone, Copy, Drop)]
pub enum Difference {
    /// There was no memory for the run.
    NoMemory,
    /// The run ended by a fault without the book's refusing a call, or the other way round.
    Stopped,
    /// Of this connection a group took two turns.
    Twice(u64),
    /// A group left this connection out, though it had a turn ready.
    LeftOut(u64),
    /// Other groups were answered than the book kept.
    Kept,
    /// Connections were parted with twice, or not at all.
    Parting(u64),
    /// A connection was open, and nothing was to wake it any more.
    Forgotten(u64),
    /// What was written to a connection isn't what is to be.
    Written(u64),
    /// A connection had more or fewer messages taken than it sent.
    Messages(u64),
    /// A connection was given an answer that it didn't wait for.
    Answered(u64),
    /// A connection ended otherwise than by this: how, and the number of its fault, or 0.
    Ending(u64, Ending, u8),
    /// The books differ.
    Books,
}

impl fmt::Display for Difference {
    fn fmt<W: fmt::Write>(&self, f: &mut fmt::Formatter<W>) -> fmt::Result {
        match self {
            Difference::NoMemory => f.write_str("no memory"),
            Difference::Stopped => f.write_str("it stopped otherwise than the book refused"),
            Difference::Twice(n) => write!(f, "a group took two turns of connection {n}"),
            Difference::LeftOut(n) => write!(f, "a group left out connection {n}"),
            Difference::Kept => f.write_str("a group was answered that the book didn't keep"),
            Difference::Parting(n) => write!(f, "connection {n} wasn't parted with once"),
            Difference::Forgotten(n) => write!(f, "connection {n} was forgotten"),
            Difference::Written(n) => write!(f, "connection {n} got other bytes"),
            Difference::Messages(n) => write!(f, "connection {n} had other messages taken"),
            Difference::Answered(n) => write!(f, "connection {n} got another one's answer"),
            Difference::Ending(n, ending, fault) => {
                let ending = ending.word();
                write!(f, "connection {n}, which ends {ending}, ended with {fault}")
            }
            Difference::Books => f.write_str("the books differ"),
        }
    }
}
