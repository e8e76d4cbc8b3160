//! The commands of the host over any book: event lines in, output lines or reports out; frames in,
//! reply frames out, of one connection or of many; messages shown to a person, and made of text.
//! What they are given beside their streams: the moments of a machine's clock, how far a long run
//! is, and fault lines that hold up nobody. Their faults stand in `acq_faults`.
#![tactic(auto)]

mod book_commands;
mod book_report;
mod day_reports;
mod ending_waiting;
mod explain_options;
mod explaining;
mod group_size;
mod holds_options;
mod input_events;
mod input_form;
mod listening;
mod making;
mod new_book;
mod new_list_book;
mod once;
mod once_options;
mod progress;
mod prompt_lines;
mod replay_options;
mod replaying;
mod replaying_in_memory;
mod said_form;
mod setting_ranges;
mod showing;
mod shown_form;
mod system_clock;
mod taking_events;
mod terminal_progress;
mod text_sink;
mod widest_opening;

pub use book_commands::{holds_of, replay_on, report_on};
pub use book_report::BookReport;
pub use day_reports::write_reports;
pub use ending_waiting::end_waiting_on;
pub use explain_options::ExplainOptions;
pub use explaining::{explain_in_memory, explain_on};
pub use group_size::GroupSize;
pub use holds_options::HoldsOptions;
pub use input_form::InputForm;
pub use listening::{listen_on, listen_together_on};
pub use making::make;
pub use new_book::NewBook;
pub use once::{once_in_memory, once_on};
pub use once_options::OnceOptions;
pub use progress::Progress;
pub use prompt_lines::{Outlet, PromptLines};
pub use replay_options::ReplayOptions;
pub use replaying::replay;
pub use replaying_in_memory::replay_in_memory;
pub use said_form::SaidForm;
pub use setting_ranges::{set_ranges_on, write_range_changes};
pub use showing::show;
pub use shown_form::ShownForm;
pub use system_clock::{SystemClock, moment_near};
pub use taking_events::take_events;
pub use terminal_progress::TerminalProgress;
pub use text_sink::TextSink;
pub use widest_opening::{first_day_of_all, greatest_limit};
