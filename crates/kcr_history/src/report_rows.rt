//! Rows with what belongs to them, as reports have them: a step with the people who filled its seats, a stay with the
//! person's name, a bag with its items.
use crate::lists::{InitialsList, ItemList};
use crate::row_types::StepRow;
use kcr_base::Name;
use kcr_custody::Bag;
use kcr_room::Stay;

/// A step of a ceremony's script, with the people who filled its seats.
#[derive(Drop)]
pub struct SeatedStep {
    pub step: StepRow,
    /// The people, seat by seat; none of a step that is not done.
    pub seated: InitialsList,
}

/// A stay in a room, with the name of the person.
#[derive(Drop)]
pub struct StayWithName {
    pub stay: Stay,
    pub name: Name,
}

/// A bag with its items.
#[derive(Drop)]
pub struct BagWithItems {
    pub bag: Bag,
    /// The codes of the items, in byte order.
    pub codes: ItemList,
}
