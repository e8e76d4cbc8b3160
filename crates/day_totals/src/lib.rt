//! Business days, and the totals of a merchant's day.
#![tactic(auto)]

mod claimed;
mod day;
mod digits;
pub mod known;
pub mod laws;
mod leg;
mod leg_total;
mod totals;

pub use claimed::Claimed;
pub use day::Day;
pub use digits::write_digits;
pub use leg::Leg;
pub use totals::Totals;
