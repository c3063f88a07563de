//! The seats of a step with their texts, and the scripts of ceremonies, as files of comma-separated values.
//! What is read of a text is what it stands for: the laws are lemmas in `proofs/Laws.antt`.
#![tactic(auto)]

pub mod csv_rows;
pub mod reader;
mod round_trips;
pub mod script;
pub mod seat;
pub mod seats;

pub use reader::read_script;
pub use round_trips::round_trip;
pub use script::{Script, Step};
pub use seat::Seat;
pub use seats::{Seats, read_seats, write_seats};
