//! Why a task of the program was not done to its end, and the lines that tell it.
#![tactic(auto)]

mod fault;
mod lines;

pub use fault::{Call, Fault, Missing, Step, name_of, write_fault, write_line, write_missing};
pub use lines::{around, numbered, push_expected};
