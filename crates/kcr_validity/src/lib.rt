//! Which rows of a register's tables are invalid: those with a cell that is no value of its column. `first_invalid` finds
//! the first one of a table, after a reading met one and could not tell which.
#![tactic(auto)]

mod cells;
mod search;

pub use search::first_invalid;
