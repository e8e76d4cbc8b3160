//! Whether a book is what a host wrote.
//!
//! A file of a book is compared, row by row, with a book in memory that takes the events anew.
//! Where no row differs, the file's tables are those after these events (`specs/Audited.antt`), so
//! all that is proved of such books holds of it. What two databases are compared by stands in
//! `specs/Compared.antt`.
#![tactic(auto)]

mod audit_fault;
mod auditing;
mod comparing;
mod difference;
mod how;
mod laws;
mod releasing;
mod rows;
mod table;
mod taking;

pub use audit_fault::AuditFault;
pub use auditing::audit;
pub use comparing::first_difference;
pub use difference::Difference;
pub use how::How;
pub use laws::same_rows_hold_the_same;
pub use releasing::audit_file;
pub use table::Table;
