//! Readings that give the rows of the register's tables one at a time, each with what belongs to it: a step with the
//! people who filled its seats, a stay with the person's name, a bag with its items.
//!
//! A reading keeps the place that it has reached. Its step seeks the first row behind that place by an index; of steps
//! and stays it reads the first sixteen, and gives them one by one. So a reading of a thousand rows holds one of them
//! in memory, or sixteen, and may be stopped at any row.
#![tactic(auto)]

mod bags;
mod batched;
mod commands;
mod cursor;
mod exceptions;
mod loose_items;
mod names;
mod remaining;
mod safes;
mod seek;
mod stays;
mod steps;

pub use bags::{BagCursor, codes_of};
pub use commands::CommandCursor;
pub use cursor::Cursor;
pub use exceptions::ExceptionCursor;
pub use loose_items::LooseCursor;
pub use names::{NamesPerson, with_names};
pub use remaining::remaining_rows;
pub use safes::SafeCursor;
pub use stays::StayCursor;
pub use steps::StepCursor;
