//! The rows of the register's tables as values: the cells of a row, the row that stands for a value, what a tree keeps
//! as a list of rows in the order of their keys, and what one statement on such a table shows and does. `statements`
//! alone calls the database.
//!
//! `row_impls` is written by the program `tools/tables.py`.
#![tactic(auto)]

pub mod cells;
mod count_row;
pub mod from_row;
mod kinds;
pub mod numbers;
mod row_impls;
pub mod statements;
pub mod to_row;

pub use count_row::CountRow;
pub use kinds::Kind;
pub use row_impls::Version;
