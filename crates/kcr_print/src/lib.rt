//! The reports of a register as text: the annotated script of a ceremony, its attendance, and custody; and its accepted
//! commands, as the stream of requests that makes it again and as a journal for people.
//!
//! A report is written line by line while the rows are read a few at a time, so that its length takes no memory. A
//! refusal in the middle leaves a prefix of it written.
#![tactic(auto)]

mod attendance_lines;
mod custody_lines;
mod fault;
mod journal_lines;
mod line;
mod parts;
mod print_lines;
mod reports;
mod requests;
mod script_lines;
mod write_rows;
mod writing;

pub use fault::{PrintFault, WriteFailed};
pub use reports::{annotated, attendance_csv, custody, export, journal};
pub use writing::write_whole;
