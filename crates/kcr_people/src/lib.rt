//! People, their training and its withdrawals, and the custodians of places, by rows: what the rows
//! say of a day, and what each act makes of them, or the first reason why it is refused. The laws
//! are lemmas in `proofs/Laws.antt`.
#![tactic(auto)]

mod checks;
pub mod custodians;
pub mod people;
pub mod queries;
pub mod withdrawals;

pub use custodians::{appoint, release, replace};
use kcr_base::{Day, Initials, Name, Place, Role};
pub use people::{enter, train, withdraw};
pub use queries::{holder, trained};
pub use withdrawals::WithdrawalRows;

/// A person of the register.
#[derive(Clone, PartialEq, Eq, Drop)]
pub struct Person {
    /// The person's code, which nobody else has.
    pub who: Initials,
    pub name: Name,
}

/// A person is trained for a role, from `since` until `until`, both days inclusive.
#[derive(Clone, Copy, PartialEq, Eq)]
pub struct Training {
    pub who: Initials,
    pub role: Role,
    pub since: Day,
    pub until: Day,
}

/// The training with these four values is withdrawn from `day` on. The day is at most `until`; it
/// can be before `since`.
#[derive(Clone, Copy, PartialEq, Eq)]
pub struct Withdrawal {
    pub who: Initials,
    pub role: Role,
    pub since: Day,
    pub until: Day,
    /// The first day on which the training counts no more.
    pub day: Day,
}

/// A person holds a place from `since` on.
#[derive(Clone, Copy, PartialEq, Eq)]
pub struct Appointment {
    pub place: Place,
    pub who: Initials,
    pub since: Day,
    /// The first day on which the place is not held any more, or None while there is no end.
    pub until: Option<Day>,
}

/// What an act on people or places is decided by: the rows, in any order, and how the register stands.
#[derive(Drop)]
pub struct Roster<'a> {
    pub people: &'a [Person],
    pub trainings: &'a [Training],
    pub withdrawals: &'a [Withdrawal],
    pub appointments: &'a [Appointment],
    /// The settled day: the day of the greatest mark of all ceremonies.
    pub settled: Option<Day>,
    /// Whether the register takes no more commands.
    pub is_full: bool,
}

impl Appointment {
    ghost use Rattle.std.specs.Prelude.{◌≡◌, None};

    /// An appointment that has no end.
    pub fn new(place: Place, who: Initials, since: Day) -> Appointment
        ensures { result ≡ record { place = place; who = who; since = since; until = None } }
    {
        Appointment {
            place,
            who,
            since,
            until: None,
        }
    }
}
