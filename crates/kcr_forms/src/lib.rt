//! The forms of the register: which text, which whole number and which list is which value (`forms`), and acts made of
//! a path and its members.
//!
//! `act_at` makes the act of a path and its members, whatever their source is: the JSON body of a request, or the text
//! that the register keeps of an accepted command, in which each member stands on a line of its own (`act_of_lines`). A
//! script is the last member of its act, so it may have lines of its own.
#![tactic(auto)]

mod act;
pub mod forms;
mod lines;
mod lists;
mod members;
mod post;
mod split;

pub use act::act_at;
pub use lines::act_of_lines;
pub use members::{Members, required};
pub use post::{BagPath, CeremonyPath, CollectionPath, PersonPath, PlacePath, Post};
pub use split::split_at_byte;
