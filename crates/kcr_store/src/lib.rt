//! The register kept in a database, in memory or in files: its accepted commands as the rows of tables.
//!
//! `Register::apply` takes a command through one transaction: the rows that the command asks for are read, the machine
//! decides over them, and the rows that it gives are put and committed before the reply is given. `Register::look`
//! answers a question in a transaction that is rolled back, and so does each step of the `Rows` that a report is made
//! of, which gives one row; `Register::audit` looks at all rows. A crash at any moment leaves the tables of the
//! commands that were accepted, or those with the command in hand.
//!
//! The history of accepted commands, of which the clauses speak, is ghost data: nothing in memory holds it.
#![tactic(auto)]

mod breakage;
mod database_rows;
mod full_view;
mod lists;
mod open;
mod register;
mod rows;
mod shown;
mod transaction;
mod unbroken;

pub use breakage::Breakage;
pub use database_rows::read_tables;
pub use open::{OpenFault, connect};
pub use register::{FileRegister, Register};
pub use rows::Rows;
pub use unbroken::Unbroken;
