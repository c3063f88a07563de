//! Decides each of the 19 kinds of act by the rows of a view: which rows it puts, who is seated, and what it is
//! answered beside its number, or its first refusal.
//!
//! An act is decided in two stages. `check` tells what refuses it whoever is in the room; `evaluate` then looks at the
//! people, and tests nothing twice. Both choose among the kinds; each kind has its methods of `DecisionContext`, in
//! `people`, `ceremonies`, `closing`, `room`, `sheet`, `custody` and `signing`. The premises have the view of the rows
//! that a command asks for, in any order: `ceremony_status` reads the ceremony and its room, `steps` its steps and
//! exceptions, and `seating` joins the people in the room and the seats of a step to the search of `kcr_seats`. Nothing
//! here speaks of histories: `kcr_machine` joins the rows to them.
#![tactic(auto)]

mod ceremonies;
mod ceremony_status;
mod changes;
mod checks;
mod closing;
mod context;
mod custody;
mod effects;
mod people;
mod room;
mod seating;
mod sheet;
mod signing;
mod steps;

pub use checks::check;
pub use effects::{Effect, evaluate};
pub use signing::STAFF;
pub use steps::{seats_of, step_row};
