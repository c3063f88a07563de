//! Whether a register's tables are those of its own commands.
//!
//! The table of keys holds every accepted command as its text, with its number and its reply; all other rows follow
//! from these. Of all rows of a register, as `kcr_store` reads them, `verify` gives the commands, in the order of their
//! numbers, to an empty register in memory, compares each reply, and then compares the tables, one after the other, up to
//! the first row that differs.
//! Where it finds nothing that differs, the rows are the tables of a history that the machine leads to, whoever wrote
//! them. `rebuild` gives them to an empty register of the caller's, as `init` makes one: so one goes on from a file that
//! one has to doubt. Where rows cannot be read since one is invalid, `first_invalid_row` finds it.
#![tactic(auto)]

mod compare;
mod invalid;
mod new_register;
mod quoted;
mod replay;
mod seated;
mod sort;
mod verification;

pub use compare::{RowDifference, TableName};
pub use invalid::{InvalidRow, first_invalid_row};
pub use new_register::{CreateFault, init};
pub use verification::{Difference, Verification, rebuild, verify};
