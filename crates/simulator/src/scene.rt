//! What a seed draws.

use crate::script::Script;
use acq_core::Event;
use acq_memory_lines::Manner;

/// What a seed draws: the connections in the order in which they come, what a control connection
/// asks for, the last of it first, how the gate behaves, and which change, or beginning or end of a
/// group, the book refuses, if it refuses one.
#[derive(Drop)]
pub struct Scene {
    pub scripts: Vec<Script>,
    pub events: Vec<Event>,
    pub manner: Manner,
    pub refused: Option<u64>,
}
