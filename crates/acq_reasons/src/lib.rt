//! Why a request gets another code than 00.
//!
//! [`reason_for`] gives the [`Reason`], over what was looked up for the decision: the check that
//! decides, and of what. The definitions stand beside those of the decision: the order of the
//! checks (`Reasons.antt`), what each reason says (`Truths.antt`) and the code that it gives
//! (`Codes.antt`). That a reason gives the decision's code, and that what it says is true, are laws
//! ([`laws`]).
#![tactic(auto)]

mod first_check;
pub mod laws;
mod reason;
mod reasons;
mod words;

pub use reason::Reason;
pub use reasons::reason_for;
