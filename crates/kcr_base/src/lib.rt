//! The values of the register of root zone key ceremonies: short codes, lines of text, numbers,
//! days and moments, places, and why a request is refused.
#![tactic(auto)]

pub mod code;
pub mod counted;
pub mod day;
mod digits;
pub mod initials;
pub mod key;
pub mod limits;
pub mod line;
pub mod lists;
pub mod moment;
pub mod number;
pub mod place;
pub mod positions;
pub mod refusal;
pub mod same;
pub mod serial;
pub mod tally;
pub mod text;
pub mod written;

pub use code::Code;
pub use counted::Counted;
pub use day::Day;
pub use initials::Initials;
pub use key::Key;
pub use limits::{
    MAX_BOX, MAX_CEREMONY, MAX_COMMANDS, MAX_ENTRIES, MAX_EXCEPTIONS, MAX_PRESENT, MAX_REMARK,
    MAX_STEPS,
};
pub use line::{Activity, Line, Name, Remark};
pub use lists::{Items, People, is_among};
pub use moment::Moment;
pub use number::{BoxNumber, CeremonyNumber, StepNumber};
pub use place::{Facility, Place, PlaceNumber, Role, strip_prefix};
pub use positions::Positions;
pub use refusal::{Absentee, Member, Part, Refusal, Thing};
pub use same::{is_before, is_earlier, same_text};
pub use serial::{ItemCode, Serial};
pub use tally::Tally;
pub use text::Text;
pub use written::Written;
