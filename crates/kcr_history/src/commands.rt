//! Commands, and what an accepted one is answered.
use crate::lists::InitialsList;
use kcr_base::{
    BoxNumber, CeremonyNumber, Day, Facility, Initials, ItemCode, Items, Key, Moment, Name, People,
    Place, Remark, Role, Serial, StepNumber, Text,
};
use kcr_custody::{Destination, SafeNumber};
use kcr_room::Way;

/// What a command does to the register. Days and moments are in UTC.
#[derive(Drop)]
pub enum Act {
    /// Enters a person under initials that nobody has yet.
    Enter {
        who: Initials,
        name: Name,
    },
    /// Trains a person for a role, from `since` until `until`, both days inclusive.
    Train {
        who: Initials,
        role: Role,
        since: Day,
        until: Day,
    },
    /// Withdraws every training that a person has for a role, from a day on. Later trainings are not withdrawn.
    Withdraw {
        who: Initials,
        role: Role,
        day: Day,
    },
    /// Puts a person in a vacant place, from a day on.
    Appoint {
        place: Place,
        who: Initials,
        day: Day,
    },
    /// Puts a person in a place that somebody holds, from a day on.
    Replace {
        place: Place,
        who: Initials,
        day: Day,
    },
    /// Makes a place vacant, from a day on.
    Release {
        place: Place,
        day: Day,
    },
    /// Adds the box of a Crypto Officer's place to safe 2 of its facility.
    AddBox {
        facility: Facility,
        number: BoxNumber,
        place: Place,
    },
    /// Plans a ceremony with the steps of its script, a CSV text.
    Plan {
        number: CeremonyNumber,
        facility: Facility,
        day: Day,
        script: Text,
    },
    /// Does something in a ceremony, at a moment.
    Ceremony {
        ceremony: CeremonyNumber,
        at: Moment,
        deed: Deed,
    },
}

/// What a command does in a ceremony.
#[derive(Drop)]
pub enum Deed {
    /// Opens the planned ceremony.
    Open,
    /// Closes the open ceremony, for good.
    Close,
    /// Lists people who come into the room, or go out of it, all at one moment.
    RecordSheet {
        way: Way,
        who: People,
    },
    /// Signs the next step: distinct people in the room fill its seats.
    Sign {
        step: StepNumber,
    },
    /// States a script exception. With `pass` it passes over the next step, and then a CA and an IW are needed.
    RecordException {
        text: Remark,
        pass: bool,
    },
    /// Adds an item, loose at the ceremony's facility.
    AddItem {
        item: ItemCode,
    },
    /// Opens or shuts a safe of the ceremony's facility.
    SetSafe {
        safe: SafeNumber,
        is_open: bool,
        by: Initials,
    },
    /// Seals loose items of the ceremony's facility into a bag with a new serial, on its table.
    Seal {
        serial: Serial,
        items: Items,
    },
    /// Takes a bag out of a safe, to the table.
    Take {
        serial: Serial,
    },
    /// Puts a bag from the table into safe 1 or into a box.
    Put {
        serial: Serial,
        to: Destination,
    },
    /// Cuts a bag on the table: its items are loose there, and the bag is spent.
    Cut {
        serial: Serial,
    },
}

/// A command: an act under a key of the caller's choice. The key makes it safe to send the command again: it is
/// accepted once, and a repeat gets the reply that the first one got.
#[derive(Drop)]
pub struct Command {
    pub key: Key,
    pub act: Act,
}

/// The reply to an accepted command, as data.
#[derive(Drop)]
pub struct ReplyData {
    /// How many commands have been accepted with this one, counted from 1.
    pub accepted: u32,
    /// The number of an exception in its ceremony, counted from 1.
    pub exception: Option<u32>,
    /// Of a signature or a passing exception: who sits in each seat, in the seats' order.
    pub seating: Option<InitialsList>,
    /// The step that is signed or passed, counted from 1.
    pub step: Option<u32>,
}

/// A command that was accepted, and its reply. The register's history is a list of these, the last one first.
#[derive(Drop)]
pub struct Entry {
    pub command: Command,
    pub reply: ReplyData,
}

/// A reply as it is sent: a JSON text (RFC 8259), compact, its members in byte order.
#[derive(Drop)]
pub struct Reply {
    pub text: Text,
}
