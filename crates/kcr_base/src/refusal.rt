//! Why a request is refused.
ghost use Rattle.std.specs.Prelude.{◌≡◌, ◌++◌, IfOk, string_bytes};
ghost use Rattle.std.specs.Fmt.{decimal};
ghost use Rattle.kcr_base.specs.Refusal.{number_of, word_of, status_of, member_text, thing_text, absentee_text, part_text};

use crate::code::Code;
use crate::day::Day;
use crate::initials::Initials;
use crate::moment::Moment;
use crate::place::{Place, Role};
use crate::positions::Positions;
use crate::serial::{ItemCode, Serial};
use std::alloc::{AllocError, AllocFailed, Global};

/// A member of a command's JSON object.
#[derive(Clone, Copy, PartialEq, Eq)]
pub enum Member {
    Key,
    Who,
    Name,
    Role,
    From,
    Until,
    Day,
    Place,
    Facility,
    Box,
    Ceremony,
    Item,
    At,
    Number,
    Script,
    Way,
    Text,
    Pass,
    Open,
    By,
    Items,
    To,
}

/// A thing that a command names: a person, a ceremony, a step of one, a bag, a box of a facility, or an item.
#[derive(Clone, Copy, PartialEq, Eq)]
pub enum Thing {
    Person(Initials),
    Ceremony(u32),
    Step(u32),
    Bag(Serial),
    Box(u32),
    Item(ItemCode),
    Command(u32),
}

/// Who is not in the room: a person, the holder of a place, or anybody trained for a role.
#[derive(Clone, Copy, PartialEq, Eq)]
pub enum Absentee {
    Person(Initials),
    Place(Place),
    Role(Role),
}

/// What keeps a ceremony from closing: an open step, somebody in the room, an open safe, a bag on the table.
#[derive(Clone, Copy, PartialEq, Eq)]
pub enum Part {
    Steps,
    Room,
    Safes,
    Table,
}

/// Why a request is refused. The variants stand in the order of their numbers, 1 to 35, which is the order in which
/// the conditions are tested. A refusal takes no memory.
#[derive(Clone, Copy, PartialEq, Eq)]
pub enum Refusal {
    /// No message head stands at the front of the rest of the stream.
    Head,
    /// An HTTP/1.1 head has not exactly one Host field, or an HTTP/1.0 head has more than one.
    Host,
    /// The Content-Length is given twice, or is no number.
    Length,
    /// The message has a Transfer-Encoding.
    Coding,
    /// The body is longer than 131,072 bytes.
    Large,
    /// The input ends before the body does.
    Cut,
    /// No route has this path.
    Path,
    /// The path is known, and this method is not its own.
    Method,
    /// The body is no JSON text.
    Json,
    /// A member of the body, the first in their order, is missing or not of its form.
    Form { member: Member },
    /// The key was accepted with another command.
    Key,
    /// A thing that the command names, the first in their order, is not there.
    Unknown { thing: Thing },
    /// The thing to be made is there already.
    Taken,
    /// A day or a moment comes before the one that it has to follow, or a place is none of the facility.
    Range,
    /// Custodians are never people who were trained, and the other way round.
    Apart,
    /// The place has a holder, or the person holds a place, on the day or later.
    Held,
    /// There is nobody to replace or to release, or no training to withdraw.
    Vacant,
    /// The day is not after the settled day, which is carried.
    Settled { day: Day },
    /// The script breaks a rule in this row, counted from 1.
    Script { row: u32 },
    /// The ceremony is not in the state that the command needs.
    State,
    /// Another ceremony is open in the facility.
    Busy,
    /// The moment is before the mark of the ceremony, or for the sheet not after it; the mark is carried.
    Late { mark: Moment },
    /// The step is not the next one; the number of the next one is carried.
    Order { next: u32 },
    /// The first person of the request whose rows of the sheet would not go in and out in turn, in rising time.
    Turn { who: Initials },
    /// More than `MAX_PRESENT` people would be in the room.
    Crowd,
    /// Somebody would be alone in the room; the first such moment is carried.
    Lone { moment: Moment },
    /// A limit of the register is reached.
    Full,
    /// The safe is so already, or it is shut if the command needs it open.
    Safe,
    /// The item or the bag is not where it has to be.
    Elsewhere,
    /// Somebody who is needed is not in the room, or is not trained for the role.
    Absent { who: Absentee },
    /// Something keeps the ceremony from closing: the first of steps, room, safes and table.
    Unfinished { part: Part },
    /// Fewer people in the room fit these seats than there are seats; no proper subset has this property.
    Short { seats: Positions },
    /// Memory could not be had. Nothing changed.
    Memory,
    /// The database told an I/O error, or gave invalid rows. The register is broken.
    Disk,
    /// The register is broken since an earlier fault of its device, until it is opened anew.
    Broken,
}

impl Refusal {
    /// Its number, 1 to 35.
    pub fn number(&self) -> u8
        ensures { result ≡ number_of self.now }
    {
        match self {
            Refusal::Head => 1,
            Refusal::Host => 2,
            Refusal::Length => 3,
            Refusal::Coding => 4,
            Refusal::Large => 5,
            Refusal::Cut => 6,
            Refusal::Path => 7,
            Refusal::Method => 8,
            Refusal::Json => 9,
            Refusal::Form { .. } => 10,
            Refusal::Key => 11,
            Refusal::Unknown { .. } => 12,
            Refusal::Taken => 13,
            Refusal::Range => 14,
            Refusal::Apart => 15,
            Refusal::Held => 16,
            Refusal::Vacant => 17,
            Refusal::Settled { .. } => 18,
            Refusal::Script { .. } => 19,
            Refusal::State => 20,
            Refusal::Busy => 21,
            Refusal::Late { .. } => 22,
            Refusal::Order { .. } => 23,
            Refusal::Turn { .. } => 24,
            Refusal::Crowd => 25,
            Refusal::Lone { .. } => 26,
            Refusal::Full => 27,
            Refusal::Safe => 28,
            Refusal::Elsewhere => 29,
            Refusal::Absent { .. } => 30,
            Refusal::Unfinished { .. } => 31,
            Refusal::Short { .. } => 32,
            Refusal::Memory => 33,
            Refusal::Disk => 34,
            Refusal::Broken => 35,
        }
    }

    /// Its word.
    pub fn word(&self) -> &'static str
        ensures { result.now ≡ word_of self.now }
    {
        match self {
            Refusal::Head => "head",
            Refusal::Host => "host",
            Refusal::Length => "length",
            Refusal::Coding => "coding",
            Refusal::Large => "large",
            Refusal::Cut => "cut",
            Refusal::Path => "path",
            Refusal::Method => "method",
            Refusal::Json => "json",
            Refusal::Form { .. } => "form",
            Refusal::Key => "key",
            Refusal::Unknown { .. } => "unknown",
            Refusal::Taken => "taken",
            Refusal::Range => "range",
            Refusal::Apart => "apart",
            Refusal::Held => "held",
            Refusal::Vacant => "vacant",
            Refusal::Settled { .. } => "settled",
            Refusal::Script { .. } => "script",
            Refusal::State => "state",
            Refusal::Busy => "busy",
            Refusal::Late { .. } => "late",
            Refusal::Order { .. } => "order",
            Refusal::Turn { .. } => "turn",
            Refusal::Crowd => "crowd",
            Refusal::Lone { .. } => "lone",
            Refusal::Full => "full",
            Refusal::Safe => "safe",
            Refusal::Elsewhere => "where",
            Refusal::Absent { .. } => "absent",
            Refusal::Unfinished { .. } => "unfinished",
            Refusal::Short { .. } => "short",
            Refusal::Memory => "memory",
            Refusal::Disk => "disk",
            Refusal::Broken => "broken",
        }
    }

    /// The HTTP status of its answer (RFC 9110).
    pub fn status(&self) -> u16
        ensures { result ≡ status_of self.now }
    {
        match self {
            Refusal::Head => 400,
            Refusal::Host => 400,
            Refusal::Length => 400,
            Refusal::Coding => 501,
            Refusal::Large => 413,
            Refusal::Cut => 400,
            Refusal::Path => 404,
            Refusal::Method => 405,
            Refusal::Json => 400,
            Refusal::Form { .. } => 422,
            Refusal::Key => 409,
            Refusal::Unknown { .. } => 404,
            Refusal::Taken => 409,
            Refusal::Range => 422,
            Refusal::Apart => 409,
            Refusal::Held => 409,
            Refusal::Vacant => 409,
            Refusal::Settled { .. } => 409,
            Refusal::Script { .. } => 422,
            Refusal::State => 409,
            Refusal::Busy => 409,
            Refusal::Late { .. } => 409,
            Refusal::Order { .. } => 409,
            Refusal::Turn { .. } => 409,
            Refusal::Crowd => 409,
            Refusal::Lone { .. } => 409,
            Refusal::Full => 409,
            Refusal::Safe => 409,
            Refusal::Elsewhere => 409,
            Refusal::Absent { .. } => 409,
            Refusal::Unfinished { .. } => 409,
            Refusal::Short { .. } => 409,
            Refusal::Memory => 503,
            Refusal::Disk => 500,
            Refusal::Broken => 500,
        }
    }
}

impl From<AllocError> for Refusal {
    ghost use Rattle.std.specs.Prelude.{◌≡◌};
    ghost use Rattle.kcr_base.specs.declared.refusal.Refusal.TheVariants.{Memory};

    ghost from_gives = { λ error refusal. refusal ≡ Memory };

    fn from(_error: AllocError) -> Self {
        Refusal::Memory
    }
}

impl<T: Drop> From<AllocFailed<T>> for Refusal {
    ghost use Rattle.std.specs.Prelude.{◌≡◌};
    ghost use Rattle.kcr_base.specs.declared.refusal.Refusal.TheVariants.{Memory};

    ghost from_gives = { λ error refusal. refusal ≡ Memory };

    fn from(_error: AllocFailed<T>) -> Self {
        Refusal::Memory
    }
}

impl Member {
    /// Its name in the JSON object.
    pub fn text(self) -> &'static str
        ensures { result.now ≡ member_text self }
    {
        match self {
            Member::Key => "key",
            Member::Who => "who",
            Member::Name => "name",
            Member::Role => "role",
            Member::From => "from",
            Member::Until => "until",
            Member::Day => "day",
            Member::Place => "place",
            Member::Facility => "facility",
            Member::Box => "box",
            Member::Ceremony => "ceremony",
            Member::Item => "item",
            Member::At => "at",
            Member::Number => "number",
            Member::Script => "script",
            Member::Way => "way",
            Member::Text => "text",
            Member::Pass => "pass",
            Member::Open => "open",
            Member::By => "by",
            Member::Items => "items",
            Member::To => "to",
        }
    }
}

impl Part {
    /// Its word: `steps`, `room`, `safes` or `table`.
    pub fn text(self) -> &'static str
        ensures { result.now ≡ part_text self }
    {
        match self {
            Part::Steps => "steps",
            Part::Room => "room",
            Part::Safes => "safes",
            Part::Table => "table",
        }
    }
}

impl Thing {
    /// Its text, as `person AA`, `ceremony 61`, `step 3`, `bag BB51184287`, `box 3`, `item HSM4` or `command 7`. The
    /// error is out of memory.
    pub fn text(self, alloc: Global) -> Result<String, AllocError>
        ensures { IfOk result (λ text. string_bytes text ≡ thing_text self) }
    {
        match self {
            Thing::Person(who) => labelled(alloc, "person ", who.as_str()),
            Thing::Ceremony(number) => numbered(alloc, "ceremony ", number),
            Thing::Step(number) => numbered(alloc, "step ", number),
            Thing::Bag(serial) => labelled(alloc, "bag ", serial.as_str()),
            Thing::Box(number) => numbered(alloc, "box ", number),
            Thing::Item(code) => labelled(alloc, "item ", code.as_str()),
            Thing::Command(number) => numbered(alloc, "command ", number),
        }
    }
}

/// A word and a text in one.
fn labelled(alloc: Global, word: &str, text: &str) -> Result<String, AllocError>
    ensures { IfOk result (λ whole. string_bytes whole ≡ word.now ++ text.now) }
{
    let mut whole = String::from_str(alloc, word)?;
    whole.push_str(text)?;
    Ok(whole)
}

/// A word and a number in decimal.
fn numbered(alloc: Global, word: &str, number: u32) -> Result<String, AllocError>
    ensures { IfOk result (λ whole. string_bytes whole ≡ word.now ++ decimal number) }
{
    labelled(alloc, word, itoa::Buffer::new().format(number))
}

impl Absentee {
    /// Its text: the initials, the place or the role, which takes no memory.
    pub fn text(self) -> Code<9>
        ensures { result ≡ absentee_text self }
    {
        match self {
            Absentee::Person(who) => Code::new(who.as_bytes()),
            Absentee::Place(place) => place.text(),
            Absentee::Role(role) => Code::new(role.text().as_bytes()),
        }
    }
}
