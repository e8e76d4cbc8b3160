//! Control connections that are served beside those of terminals, without sockets.
//!
//! [`Controls`] are such connections, each in a place, over any streams: a round of one takes a
//! line that it asks by, does what that asks, and holds the answer. Each gets the answers to its
//! own lines, in order, over the tables behind all that the host did before, whatever terminals and
//! others do meanwhile (`ControlsFollow` in `specs/Following.antt`).
#![tactic(auto)]

mod control;
mod controls;

pub use controls::Controls;
