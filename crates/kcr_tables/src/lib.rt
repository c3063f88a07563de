//! The tables of the register: their schema, and the calls that read and change them inside a transaction of the
//! caller.
//!
//! What a table is stands once, in `table`, with the calls for all of them. A table has a module of its own, which only
//! gives its SQL texts, and what it proves of them. These modules are written by the program `tools/tables.py`; the rows
//! as values, their cells, and what is general of them, stand in the crate `kcr_rows`.
#![tactic(auto)]

mod appointments;
mod bags;
mod boxes;
mod ceremonies;
mod changes;
mod create_sql;
mod creation;
mod exceptions;
mod items;
mod keys;
mod last;
mod marks;
mod people;
mod safes;
mod seatings;
mod select_appointments;
mod select_by_keys;
mod select_stays;
mod select_steps;
mod select_trainings;
mod sheet;
mod stays;
mod steps;
mod table;
mod trainings;
mod unique;
mod versions;
mod view;
mod withdrawals;

pub use changes::{change, change_all};
pub use create_sql::create_table_sql;
pub use creation::make;
pub use kcr_rows::Version;
pub use last::{last_key_row, last_stay_of};
pub use select_appointments::appointments_ending_after;
pub use select_stays::stays_ending_at_or_after;
pub use table::{AsCell, LookupBy, TableRow, all_rows, find_rows};
pub use unique::{UniqueBy, find_row};
pub use view::{read_early_rows, read_remaining_rows, rows_of};
