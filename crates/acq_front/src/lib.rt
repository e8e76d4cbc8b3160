//! The front of the host: frames of a connection in, reply frames out, issuers asked in between.
//!
//! [`take_message`] has the host take one message. A [`Conversation`] is one end of a connection
//! without its reads and writes, for hosts that serve many at once: it is fed with what comes,
//! hands out the next message, and holds what is to be written. A [`Line`] is read and written
//! without waiting.
#![tactic(auto)]

mod clock;
mod conversation;
mod fixed_clock;
mod frame_buffer;
mod front_fault;
mod issuer;
mod line;
mod no_issuer;
mod outgoing;
mod slice_clock;
mod slice_issuer;
mod stream_line;
mod taking;
mod unanswered;

pub use clock::Clock;
pub use conversation::Conversation;
pub use fixed_clock::FixedClock;
pub use front_fault::FrontFault;
pub use issuer::Issuer;
pub use line::Line;
pub use no_issuer::NoIssuer;
pub use slice_clock::SliceClock;
pub use slice_issuer::SliceIssuer;
pub use stream_line::StreamLine;
pub use taking::take_message;
pub use unanswered::{Silence, Unanswered};
