//! Why a command stopped, with the line that tells it, and what is asked of a host by a command and
//! by a control line alike: a report on a day, connections that are served, many at once, and how
//! long they may take.
#![tactic(auto)]

mod connection_end;
mod day_report;
mod fault;
mod fault_line;
mod listen_options;
mod patience;
mod report_kind;
mod server;

pub use connection_end::end_connection;
pub use day_report::DayReport;
pub use fault::Fault;
pub use fault_line::write_fault_line;
pub use listen_options::ListenOptions;
pub use patience::Patience;
pub use report_kind::ReportKind;
pub use server::Server;
