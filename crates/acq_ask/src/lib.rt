//! A terminal for those who build one: messages go to a host, and what comes back is shown.
//!
//! [`ask`] sends the frames of an input, one after the other, and shows each message and its reply.
//! [`repeat`] sends one message many times, with its trace number counted up, and sums up what came
//! back and how long that took. Both speak to a host over a sink, a source and a [`Watch`].
#![tactic(auto)]

mod ask_fault;
mod asking;
mod counting;
mod counting_up;
mod exchanging;
mod first_frame;
mod load;
mod no_reply;
mod putting;
mod repeating;
mod reply_code;
mod times;
mod watch;

pub use ask_fault::AskFault;
pub use asking::ask;
pub use no_reply::NoReply;
pub use repeating::repeat;
pub use watch::Watch;
