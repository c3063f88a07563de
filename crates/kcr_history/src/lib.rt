//! The register as a history of accepted commands: the commands, the rows of its tables, the changes of rows, which
//! rows a command asks for, and the texts of commands and of answers.
//!
//! What a register says at any time is defined over its history, the list of all commands accepted so far, the last one
//! first. Nothing stores that list; the clauses know it, and its definitions stand in `specs/`: who is trained and who
//! holds a place, who is in a room, where bags and items are, which step is next, who is eligible for a seat, when a
//! command is refused and for what, what the machine answers to it, and which rows the tables then hold.
#![tactic(auto)]

mod asks_by_kind;
mod comma_lists;
mod commands;
mod fitting;
mod lists;
mod paths;
mod questions;
mod refusals;
mod replies;
mod report_rows;
mod row_types;
mod steps_done;
mod telling;
mod texts;
mod views;

pub use asks_by_kind::asks;
pub use commands::{Act, Command, Deed, Entry, Reply, ReplyData};
pub use fitting::fits;
pub use kcr_base::Text;
pub use lists::{InitialsList, ItemList};
pub use paths::path_text;
pub use questions::{
    BagShown, CustodiansShown, CustodyShown, HolderShown, PersonShown, Question, RoleShown,
    RoomShown, Shown, StepsShown,
};
pub use refusals::{FixedText, fixed_text, refusal_text};
pub use replies::reply_text;
pub use report_rows::{BagWithItems, SeatedStep, StayWithName};
pub use row_types::{
    CeremonyRow, CeremonyState, ExceptionRow, KeyRow, MarkRow, SeatingRow, StepRow, StepState,
};
pub use steps_done::last_seated;
pub use telling::{Teller, tell};
pub use texts::command_text;
pub use views::{
    AppointmentFilter, Asks, Change, Finding, FullView, ItemFilter, Selection, StayFilter,
    StepFilter, TrainingFilter, Verdict, View,
};
