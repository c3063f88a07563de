//! The journal of a register: one line for each accepted command, for people to read. A line has the command's number,
//! its moment or day, and a sentence with names.
#![tactic(auto)]

mod ceremony_sentences;
mod comma_lists;
mod cursor;
mod custody_sentences;
mod line;
mod named;
mod people_sentences;
mod reply;
mod sentence;
mod texts;
mod when;

pub use cursor::{JournalCursor, JournalLine, kept_act};
pub use line::push_line;
pub use reply::seated_in;
