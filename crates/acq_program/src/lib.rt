//! The program `acqd`, over any machine: what its arguments ask for is done, and a status returned.
//!
//! [`command`] is one run of it; [`action_of`] reads the arguments, the commands and their options
//! with their help. What a run finds on its machine, files and ports, stands behind [`Machine`].
#![tactic(auto)]

mod action;
mod apart;
mod arguments;
mod ask_options;
mod asking;
mod audit_options;
mod auditing;
mod bounds;
mod command_text;
mod csv_options;
mod explaining;
mod find_options;
mod finding;
mod help;
mod host_ranges_options;
mod list_options;
mod listing;
mod machine;
mod option_name;
mod option_values;
mod options;
mod page_options;
mod page_sums;
mod parameter;
mod pending;
mod pending_options;
mod program;
mod ranges_options;
mod running;
mod setting_host_ranges;
mod setting_ranges;
mod sought;
mod statement_options;
mod stating;
mod status;
mod tell_options;
mod telling;
mod usage_fault;
mod wanted_merchants;
mod wanted_reports;

pub use action::Action;
pub use arguments::action_of;
pub use ask_options::AskOptions;
pub use audit_options::AuditOptions;
pub use csv_options::CsvOptions;
pub use find_options::FindOptions;
pub use host_ranges_options::HostRangesOptions;
pub use list_options::ListOptions;
pub use machine::Machine;
pub use option_name::OptionName;
pub use page_options::PageOptions;
pub use page_sums::PageSums;
pub use pending_options::PendingOptions;
pub use ranges_options::RangesOptions;
pub use running::{command, memory_fault, read_fault, utf8_fault};
pub use statement_options::StatementOptions;
pub use tell_options::TellOptions;
pub use usage_fault::UsageFault;
