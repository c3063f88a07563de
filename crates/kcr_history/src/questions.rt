//! What can be asked of a register, and what it shows.
use crate::report_rows::{BagWithItems, SeatedStep, StayWithName};
use crate::row_types::{CeremonyRow, ExceptionRow};
use crate::views::FullView;
use kcr_base::{CeremonyNumber, Day, Initials, ItemCode, Moment, Name, Place, Role, Serial};
use kcr_custody::{Item, SafeRow, Spot};

/// A question about a register. It changes nothing.
#[derive(Clone, Copy)]
pub enum Question {
    /// Everybody who was entered, with their training.
    People,
    /// Who holds which custodian's place on the day.
    Custodians(Day),
    /// The bag with this serial: where it lies, and the items within. One that was never sealed is refused as unknown
    /// (12).
    Bag(Serial),
    /// Who is in the room of the ceremony at the moment. A ceremony that was never planned is refused as unknown (12).
    Room(CeremonyNumber, Moment),
    /// The script of the ceremony as it was done: its steps with who filled their seats, and its exceptions. A ceremony
    /// that was never planned is refused as unknown (12).
    Steps(CeremonyNumber),
    /// Who was in the room of the ceremony, from when and until when. A ceremony that was never planned is refused as
    /// unknown (12).
    Sheet(CeremonyNumber),
    /// The safes, the bags with their items, and the loose items.
    Custody,
    /// All rows of all tables. Memory grows with their number.
    All,
}

/// A training of a person as it is shown: for a role, from `since` until `until`, both days inclusive.
#[derive(Clone, Copy)]
pub struct RoleShown {
    pub since: Day,
    pub role: Role,
    pub until: Day,
    /// The day from which it is withdrawn, if it is.
    pub withdrawn: Option<Day>,
}

/// A person as they are shown, with their trainings by first day, then role, then last day.
#[derive(Drop)]
pub struct PersonShown {
    pub who: Initials,
    pub name: Name,
    pub roles: Vec<RoleShown>,
}

/// A custodian's place that is held, and who holds it.
#[derive(Clone, Copy)]
pub struct HolderShown {
    pub place: Place,
    pub who: Initials,
}

/// The holders of places on a day: those of CO-EAST-1 to 7, then CO-WEST-1 to 7, then RKSH-1 to 7. A place that
/// nobody holds that day is not among them.
#[derive(Drop)]
pub struct CustodiansShown {
    pub day: Day,
    pub holders: Vec<HolderShown>,
}

/// A bag as it is shown: where it lies, and its items in the order of the bytes of their codes. A bag that is cut open
/// has none.
#[derive(Drop)]
pub struct BagShown {
    pub serial: Serial,
    pub spot: Spot,
    pub items: Vec<ItemCode>,
}

/// Who is in a room at a moment, in the order of the bytes of their initials.
#[derive(Drop)]
pub struct RoomShown {
    pub at: Moment,
    pub people: Vec<Initials>,
}

/// The script of a ceremony as it was done.
#[derive(Drop)]
pub struct StepsShown {
    pub ceremony: CeremonyRow,
    /// The steps in their order, each with the people of its seating, seat by seat.
    pub steps: Vec<SeatedStep>,
    /// The exceptions in their order.
    pub exceptions: Vec<ExceptionRow>,
}

/// Where safes, bags and items are.
#[derive(Drop)]
pub struct CustodyShown {
    /// The four safes: those of EAST first, and by number.
    pub safes: Vec<SafeRow>,
    /// The bags by serial, each with the codes of its items.
    pub bags: Vec<BagWithItems>,
    /// The loose items by code.
    pub loose: Vec<Item>,
}

/// What a register shows in answer to a question.
#[derive(Drop)]
pub enum Shown {
    /// Everybody who was entered, in the order of the bytes of their initials.
    People(Vec<PersonShown>),
    Custodians(CustodiansShown),
    Bag(BagShown),
    Room(RoomShown),
    Steps(StepsShown),
    /// The stays of the ceremony by beginning, then initials, each with the person's name.
    Sheet(Vec<StayWithName>),
    Custody(CustodyShown),
    /// All rows, each table's in the order of their keys.
    All(FullView),
}
