//! The host: it takes events, one whole after the other, over any book.
#![tactic(auto)]

mod book_look;
mod book_text;
mod deciding;
mod host;
mod looking_up;
mod run_fault;

pub use book_look::BookLook;
pub use book_text::BookText;
pub use host::Host;
pub use looking_up::look_up;
pub use run_fault::RunFault;
