//! Custody by rows: safes, the boxes in them, tamper-evident bags and the items that they hold.
//!
//! Each facility has safe 1 (equipment) and safe 2 (credentials), shut at first. A box lies in safe 2 and belongs to
//! one Crypto Officer's place of its facility. An item is loose at a facility or within a bag; a bag is on the
//! facility's table, in safe 1, in a box, or spent. The `check_` of an act answers the first refusal that it has whoever is
//! in the room, in the order of the refusals' numbers; `check_ca`, `check_keepers` and `check_operator` answer who is
//! missing there. Nothing is changed in place. Every act keeps balance: the laws are lemmas in
//! `proofs/Laws.antt`.
#![tactic(auto)]

use kcr_base::{BoxNumber, Facility, Initials, ItemCode, Moment, Place, Serial};
use std::marker::Model;

pub mod acts;
mod checks;
mod destinations;
pub mod queries;
pub mod spots;

pub use acts::{
    add_box, add_item, check_add_item, check_cut, check_put, check_seal, check_set_safe,
    check_take, cut, cut_rows, open_safe, put, seal, sealed_rows, shut_safe, take,
};
pub use checks::{check_ca, check_keepers, check_operator};
pub use queries::{place_for_put, place_for_take};

/// Which safe of a facility: safe 1 holds equipment, safe 2 credentials in deposit boxes.
#[derive(Clone, Copy, PartialEq, Eq)]
pub enum SafeNumber {
    One,
    Two,
}

/// A safe, and whether it is open.
#[derive(Clone, Copy, PartialEq, Eq)]
pub struct SafeRow {
    pub facility: Facility,
    pub safe: SafeNumber,
    pub is_open: bool,
}

/// A box: it lies in safe 2 of its facility, has a number of 1 to `MAX_BOX` there, and belongs to a place.
#[derive(Clone, Copy, PartialEq, Eq)]
pub struct BoxRow {
    pub facility: Facility,
    pub number: u32,
    pub place: Place,
}

/// Where a bag is.
#[derive(Clone, Copy, PartialEq, Eq)]
pub enum Spot {
    /// On the facility's table.
    Table(Facility),
    /// In its safe 1.
    Equipment(Facility),
    /// In its box with this number, in safe 2.
    InBox(Facility, u32),
    /// Cut open: it holds nothing any more.
    Spent,
}

/// Where an item is.
#[derive(Clone, Copy, PartialEq, Eq)]
pub enum Rest {
    /// At the facility, in no bag.
    Loose(Facility),
    /// In the bag with this serial.
    Within(Serial),
}

/// A tamper-evident bag, named by its serial, and where it is.
#[derive(Clone, Copy, PartialEq, Eq)]
pub struct Bag {
    pub serial: Serial,
    pub spot: Spot,
}

/// An item, named by its code, and where it is.
#[derive(Clone, Copy, PartialEq, Eq)]
pub struct Item {
    pub code: ItemCode,
    pub rest: Rest,
}

/// Where a bag is put, at the ceremony's facility.
#[derive(Clone, Copy, PartialEq, Eq)]
pub enum Destination {
    /// In safe 1.
    SafeOne,
    /// In the box with this number.
    DepositBox(BoxNumber),
}

/// What an act takes from elsewhere, whoever is in the room: its ceremony at its moment.
#[derive(Clone, Copy)]
pub struct CeremonyStatus {
    /// The number of the ceremony.
    pub ceremony: u32,
    /// Whether there is such a ceremony. If not, the fields of it below say nothing.
    pub is_known: bool,
    /// Where it takes place.
    pub facility: Facility,
    /// Whether it is open: opened and not closed.
    pub is_open: bool,
    /// The greatest moment of its acts so far, none before its opening.
    pub mark: Option<Moment>,
    /// The moment of the act.
    pub at: Moment,
    /// Whether the register has as many commands as it may have.
    pub is_full: bool,
}

/// Who opens or shuts a safe.
#[derive(Clone, Copy)]
pub struct SafeOperator {
    pub who: Initials,
    /// Whether the person is in the room at the moment.
    pub is_present: bool,
    /// Whether the person is trained as SSC1 on the day: for safe 1.
    pub has_ssc1: bool,
    /// Whether the person is trained as SSC2 on the day: for safe 2.
    pub has_ssc2: bool,
}

/// Rows of items, as a value of its own: contracts see the list alone.
#[derive(Drop)]
pub struct ItemRows {
    rows: Vec<Item>,
}

impl Model for ItemRows {
    ghost use Rattle.std.specs.Prelude.{List};
    ghost use Rattle.kcr_custody.specs.declared.Item.{Item};

    ghost Value = { List Item };

    ghost view = { λ s. s.rows.items };
}

impl ItemRows {
    ghost use Rattle.std.specs.Prelude.{◌≡◌};

    /// These rows.
    pub fn new(rows: Vec<Item>) -> ItemRows
        ensures { result ≡ rows.items }
    {
        ItemRows { rows }
    }

    /// The rows as a `Vec`.
    pub fn into_vec(self) -> Vec<Item>
        ensures { result.items ≡ self }
    {
        self.rows
    }

    /// The rows in order.
    pub fn as_slice(&self) -> &[Item]
        ensures { result.now ≡ self.now }
    {
        self.rows.as_slice()
    }
}

/// The rows that a seal or a cut changes.
#[derive(Drop)]
pub struct BagChange {
    pub bag: Bag,
    pub items: ItemRows,
}
