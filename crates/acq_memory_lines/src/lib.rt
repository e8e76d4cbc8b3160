//! Lines and a gate in memory, for runs of [`acq_rounds::Rounds`] without sockets.
//!
//! What happens at them is drawn by a [`Chance`], so a run comes again where its seed does: a
//! [`MemoryStream`] gives and takes bytes in pieces, waits, fails and ends by its [`Habits`], and a
//! [`MemoryGate`] lets connections come, wakes and ends them by its [`Manner`]. What happened, and
//! in which order, it notes.
#![tactic(auto)]

mod chance;
mod habits;
mod manner;
mod memory_gate;
mod memory_stream;
mod noted;
mod one_event;
mod parted;
mod watch;

pub use chance::Chance;
pub use habits::Habits;
pub use manner::Manner;
pub use memory_gate::MemoryGate;
pub use memory_stream::MemoryStream;
pub use noted::Noted;
pub use one_event::take_one_event;
pub use parted::Parted;
