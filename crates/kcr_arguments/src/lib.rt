//! The words of the command line: what `clap` takes, and the task and the files that they name.
#![tactic(auto)]

mod commands;
mod words;

pub use words::{Order, Report, Serving, Task, WordsFault, read_words};
