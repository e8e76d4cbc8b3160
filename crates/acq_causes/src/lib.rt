//! Why a command failed, in words for a person, and what to do about it.
//!
//! The program tells a fault as one line, which is for scripts, too. Where a person reads it, on a
//! terminal, [`Explained`] puts a second line behind it: what the fault is about, by the options
//! that were given and by what is found on the machine now. The host's log gets the same.
#![tactic(auto)]

mod advice;
mod asked;
mod cause;
mod emptiness;
mod ended;
mod explained;
mod files;
mod finding;
mod lack;
mod signs;
mod told;

pub use asked::Asked;
pub use cause::Cause;
pub use emptiness::Emptiness;
pub use ended::Ended;
pub use explained::Explained;
pub use lack::Lack;
pub use signs::Signs;
