//! Why a database was not taken for a book, and its connection.

use acq_sql_checking::OpeningFault;
use sqlite::{Alter, Connection};

/// Why a database was not taken for a book. The connection is handed back.
#[derive(Drop)]
pub struct Refusal<S: Alter> {
    /// What was found.
    pub fault: OpeningFault,
    /// The connection.
    pub connection: Connection<S>,
}
