//! The audit of a register's tables: what it finds in rows that no register has stored.
//!
//! A finding is a fact of the rows as they are, in whatever order, stored by a register or not: a step whose recorded
//! people are no seating of its seats, an item that is lost or doubled, a bag in a box that is not there, a key in two
//! rows, somebody alone in a room, too many in one.
#![tactic(auto)]

mod custody;
mod findings;
mod keys;
mod rooms;
mod seating;

pub use findings::audit;
pub use seating::{ceremony_in, is_seating};
