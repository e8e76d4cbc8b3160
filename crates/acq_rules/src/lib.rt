//! The single rules that a decision on an event is made of: what is looked up for it, which hold is
//! open, what may be reversed, what is a repeat, when a day is in balance, and what is posted.
//!
//! Each is a definition of `acq_core`, which the function of its name meets; `acq_deciding` puts
//! them together.
#![tactic(auto)]

mod balances;
mod days;
mod holds;
mod looking_up;
mod posted;
mod repeats;
mod reversals;

pub use balances::is_in_balance;
pub use days::reconciled_day;
pub use holds::is_open_at;
pub use looking_up::wanted_by;
pub use posted::{approval_posting, posted_leg, posting_today, reference_of};
pub use repeats::has_essence_of;
pub use reversals::{is_final_for, remains_of, reversal_posting, reversing_leg};
