//! The rooms of ceremonies: their entry and exit sheet, the stays that its rows tell of, who is in a
//! room at a moment, and what a request of the sheet adds, or the first reason why it is refused.
//!
//! A sheet answers as its stays do: the laws are lemmas in `proofs/Laws.antt`.
#![tactic(auto)]

mod occupancy;
pub mod presence;
pub mod requests;
pub mod sheet;
pub mod stays;

ghost use Rattle.std.specs.Prelude.{⊤, ◌≡◌, false};
ghost use Rattle.kcr_base.specs.Reads.{HasText, ReadsText};
ghost use Rattle.kcr_room.specs.{Forms.way_of, Room.way_text};

use kcr_base::{Initials, Moment, Written};
pub use presence::{ends_after, first_lone, is_crowded, present_in, stay_covers, stay_reaches};
pub use requests::add_stays;
pub use sheet::{add_rows, attendance, present};
pub use stays::stays_of;
use std::alloc::{AllocError, Global};

/// Whether people come into a room or go out of it.
#[derive(Clone, Copy, PartialEq, Eq)]
pub enum Way {
    /// `in`
    Enter,
    /// `out`
    Leave,
}

impl Way {
    /// The way with this text, or `None` if there is none.
    pub fn read(bytes: &[u8]) -> Option<Way>
        ensures found { HasText (λ _. ⊤) way_text bytes.now result }
        ensures only { ReadsText (λ _. ⊤) way_text bytes.now result }
    {
        match bytes {
            b"in" => Some(Way::Enter),
            b"out" => Some(Way::Leave),
            _ => None,
        }
    }

    /// Its text, `in` or `out`.
    pub fn text(self) -> &'static str
        ensures { result.now ≡ way_text self }
    {
        match self {
            Way::Enter => "in",
            Way::Leave => "out",
        }
    }
}

impl Written for Way {
    ghost is_value = { λ _. ⊤ };

    ghost text = { way_text };

    ghost form = { way_of };

    ghost allocates = { false };

    #[tactic(auto, using(crate::proofs::Ways::way_read))]
    fn from_text(_alloc: Global, bytes: &[u8]) -> Result<Option<Self>, AllocError> {
        Ok(Way::read(bytes))
    }
}

/// A row of the sheet: a person came into the room of a ceremony at a moment, or went out of it.
#[derive(Clone, Copy, PartialEq, Eq)]
pub struct SheetRow {
    /// The ceremony's number.
    pub ceremony: u32,
    pub who: Initials,
    pub way: Way,
    pub at: Moment,
}

/// A person was in the room of a ceremony from `since` on.
#[derive(Clone, Copy, PartialEq, Eq)]
pub struct Stay {
    /// The ceremony's number.
    pub ceremony: u32,
    pub who: Initials,
    pub since: Moment,
    /// The first moment at which the person is not there any more, or None while there is no end.
    pub until: Option<Moment>,
}

/// A request of the sheet: these people come into the room of a ceremony, or go out of it, at a
/// moment.
#[derive(Drop)]
pub struct SheetRequest<'a> {
    /// The ceremony's number.
    pub ceremony: u32,
    pub way: Way,
    pub people: &'a [Initials],
    pub at: Moment,
}
