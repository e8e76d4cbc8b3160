//! What a host tells of itself: figures of its book and of what it serves, as lines of a key and a
//! value, or in Prometheus's text format.
//!
//! [`write_status`] looks the figures of a book up and writes them, with those of what is served
//! where a host is serving. The texts are defined over the tables in `specs/Figures.antt` and
//! `specs/Texts.antt`.
#![tactic(auto)]

mod book_figures;
mod figure;
mod first_waiting;
pub mod laws;
mod looking_up;
mod pending_day;
mod reading;
mod readings;
mod reply_counts;
mod reply_durations;
mod reply_texts;
mod serving;
mod status_form;
mod texts;
mod unanswered_counts;
mod waiting_name;
mod writing;

pub use book_figures::BookFigures;
pub use figure::Figure;
pub use pending_day::PendingDay;
pub use reply_counts::ReplyCounts;
pub use reply_durations::ReplyDurations;
pub use serving::Serving;
pub use status_form::StatusForm;
pub use texts::VERSION;
pub use unanswered_counts::UnansweredCounts;
pub use waiting_name::write_first_waiting;
pub use writing::write_status;
