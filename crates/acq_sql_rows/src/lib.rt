//! The book in a file of SQL: its tables, and how they hold the host's.
//!
//! `specs` has the tables and the texts that make them (`Schema.antt`), the row of each element of
//! a list (`Rows.antt`), the running totals (`Tallies.antt`), what a database says of the host's
//! tables (`Relation.antt`), the tables that a database stands for (`ReadBack.antt`), and the texts
//! of the writes with their meaning (`Texts.antt`, `Queries.antt`). The functions give the values
//! that a row is written as.
#![tactic(auto)]

mod form;
pub mod tables;
pub mod texts;
mod values;

pub use form::Form;
pub use values::{
    amount_value, bit_value, day_value, first_reference_value, hold_days_value, hold_end_value,
    leg_value, number_value, reference_if, reference_value, short_value, status_value, text_if,
};
