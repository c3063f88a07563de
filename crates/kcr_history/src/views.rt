//! The rows that a decision reads, and those that it puts; all rows, which an audit reads.
use crate::commands::{Reply, ReplyData};
use crate::lists::{InitialsList, ItemList};
use crate::row_types::{CeremonyRow, ExceptionRow, KeyRow, MarkRow, SeatingRow, StepRow};
use kcr_base::{Day, Initials, Key, Moment, Place, Serial};
use kcr_custody::{Bag, BoxRow, Item, SafeRow};
use kcr_people::{Appointment, Person, Training, Withdrawal};
use kcr_room::{SheetRow, Stay};

// begin: written by tools/tables.py

/// Rows of the tables that decisions read, one list for each table, each in any order, and how many stays a ceremony
/// has.
#[derive(Drop)]
pub struct View {
    pub people: Vec<Person>,
    pub trainings: Vec<Training>,
    pub withdrawals: Vec<Withdrawal>,
    pub appointments: Vec<Appointment>,
    pub boxes: Vec<BoxRow>,
    pub safes: Vec<SafeRow>,
    pub bags: Vec<Bag>,
    pub items: Vec<Item>,
    pub ceremonies: Vec<CeremonyRow>,
    pub marks: Vec<MarkRow>,
    pub steps: Vec<StepRow>,
    pub seatings: Vec<SeatingRow>,
    pub stays: Vec<Stay>,
    /// How many stays the ceremony has of which that is asked, 0 if it is asked of none.
    pub stay_count: usize,
    pub exceptions: Vec<ExceptionRow>,
}

/// All rows of the register's tables, one list for each table, each in any order.
#[derive(Drop)]
pub struct FullView {
    /// Those of the tables that a decision may ask for.
    pub view: View,
    pub sheet: Vec<SheetRow>,
    pub keys: Vec<KeyRow>,
}

// end: written by tools/tables.py

/// Which rows of a table are asked for: none, those under `K`, or all.
#[derive(Drop)]
pub enum Selection<K> {
    Nothing,
    Matching(K),
    All,
}

/// Which trainings are asked for. A training counts on a day only if it lasts to it, so those that ended before need
/// not be read.
#[derive(Clone, Copy)]
pub enum TrainingFilter {
    /// Those of the person, whenever they end.
    Person(Initials),
    /// Those of anybody whose last day is this day or a later one.
    EndingOnOrAfter(Day),
}

/// Which appointments are asked for. To change one, the one to a place that began last and the one of a person that
/// began last are enough, since neither a place nor a person has two appointments at a time. An appointment counts on a
/// day only if it lasts beyond it, so those that ended before need not be read to tell who holds a place.
#[derive(Clone, Copy)]
pub enum AppointmentFilter {
    /// The last one to the place.
    Place(Place),
    /// The last one of the person.
    Person(Initials),
    /// The last one to the place, and the last one of the person.
    LastToPlaceAndOfPerson(Place, Initials),
    /// Those to whatever place that have no end, or end on a day after this one.
    EndingAfter(Day),
}

/// Which items are asked for.
#[derive(Drop)]
pub enum ItemFilter {
    /// These, by their codes.
    Codes(ItemList),
    /// Those within the bag.
    Bag(Serial),
}

/// Which step of a ceremony is asked for, with one row of the ceremony's last seating, which tells how many steps are
/// done.
#[derive(Clone, Copy)]
pub struct StepFilter {
    pub ceremony: u32,
    /// The step's number, or none for the step after the last one that has a seating.
    pub step: Option<u32>,
}

/// Which stays are asked for: those of the ceremony that have no end, or end at the moment or later, and of each of the
/// people the one that began last, in whatever ceremony. Whoever is in the room at the moment is there by one of the
/// former, so those that ended before need not be read.
#[derive(Drop)]
pub struct StayFilter {
    pub ceremony: u32,
    pub at: Moment,
    pub people: InitialsList,
}

/// Which rows a decision reads.
#[derive(Drop)]
pub struct Asks {
    /// People, under their initials.
    pub people: Selection<InitialsList>,
    /// Trainings of a person, or those of anybody that last to a day.
    pub trainings: Selection<TrainingFilter>,
    /// Withdrawals of a person's trainings.
    pub withdrawals: Selection<Initials>,
    pub appointments: Selection<AppointmentFilter>,
    /// Whether all boxes are read, of which a facility has at most seven.
    pub boxes: bool,
    /// Whether the four safes are read.
    pub safes: bool,
    /// A bag, under its serial.
    pub bags: Selection<Serial>,
    pub items: Selection<ItemFilter>,
    /// A ceremony, under its number.
    pub ceremonies: Selection<u32>,
    /// The mark of a ceremony.
    pub marks: Selection<u32>,
    /// A step of a ceremony, and how many are done.
    pub steps: Option<StepFilter>,
    /// The exceptions of a ceremony.
    pub exceptions: Selection<u32>,
    pub stays: Selection<StayFilter>,
    /// The ceremony of which it is asked how many stays it has.
    pub stay_count: Option<u32>,
}

// begin: written by tools/tables.py

/// A whole row that is put into its table, new or in place of the row that has its key. No row is ever removed.
#[derive(Drop)]
pub enum Change {
    PutPerson(Person),
    PutTraining(Training),
    PutWithdrawal(Withdrawal),
    PutAppointment(Appointment),
    PutBox(BoxRow),
    PutSafe(SafeRow),
    PutBag(Bag),
    PutItem(Item),
    PutCeremony(CeremonyRow),
    PutMark(MarkRow),
    PutStep(StepRow),
    PutSeating(SeatingRow),
    PutSheet(SheetRow),
    PutStay(Stay),
    PutException(ExceptionRow),
    PutKey(KeyRow),
}

// end: written by tools/tables.py

/// A command that is not refused: the rows to put, in this order, and the reply. `new_reply` is the reply as data if
/// the command is accepted now, and none if it was accepted before and only its kept reply is given again.
#[derive(Drop)]
pub struct Verdict {
    pub changes: Vec<Change>,
    pub reply: Reply,
    pub new_reply: Option<ReplyData>,
}

/// What an audit of the tables finds.
#[derive(Drop)]
pub enum Finding {
    /// A signed or passed step whose recorded people are no seating of its seats: the ceremony and the step.
    Seating(u32, u32),
    /// An item in two rows, or within a bag that is spent or not there.
    Custody(kcr_base::ItemCode),
    /// A serial in two rows, or a bag in a box that is not there.
    Bag(Serial),
    /// A key in two rows.
    Key(Key),
    /// A moment with exactly one person in the room of the ceremony.
    Lone(u32, Moment),
    /// A moment with more than `MAX_PRESENT` people in the room of the ceremony.
    Crowd(u32, Moment),
}
