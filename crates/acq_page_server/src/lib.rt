//! Serves the page of a host over HTTP: takes connections at a port of this machine, and asks the
//! host.
//!
//! It has one thread. No connection holds another up, and whoever asks, the host is asked for its
//! figures once a second at most. What is said to a request is `acq_page`'s.
#![tactic(auto)]

mod asked_host;
mod last_said;
mod no_answer;
mod open_page;
mod page_places;
mod page_server;
mod step;

pub use asked_host::AskedHost;
pub use no_answer::NoAnswer;
pub use page_server::PageServer;
