//! Who fits a seat, by the rows.
ghost use Rattle.std.specs.Prelude.{◌≡◌, ◌&&◌, nat_le};
ghost use Rattle.std.specs.List.{list_any};
ghost use Rattle.kcr_base.specs.Same;
ghost use Rattle.kcr_base.specs.Same.{same_place};
ghost use Rattle.kcr_base.specs.declared.place.Place.TheVariants as Places;
ghost use Rattle.kcr_people.specs.People.{lasts_beyond, holder_by};
ghost use Rattle.kcr_history.specs.{Fitting.is_holder_by, Fitting.fits_by, Seating.one_to_seven};

use kcr_base::{Day, Facility, Initials, Place};
use kcr_people::{Appointment, Training, Withdrawal, trained};
use kcr_script::Seat;

/// The numbers of the places of one kind.
const NUMBERS: [u8; 7] = [1, 2, 3, 4, 5, 6, 7];

/// Whether the place is the facility's Crypto Officer's with this number.
fn is_co(place: Place, facility: Facility, number: u8) -> bool
    ensures { result ≡ same_place place (Places.Co facility number) }
{
    match place {
        Place::Co(other, n) => other == facility && n.get() == number,
        Place::Rksh(_) => false,
    }
}

/// Whether the place is the Recovery Key Share Holder's with this number.
fn is_rksh(place: Place, number: u8) -> bool
    ensures { result ≡ same_place place (Places.Rksh number) }
{
    match place {
        Place::Co(_, _) => false,
        Place::Rksh(n) => n.get() == number,
    }
}

/// Whether the appointment covers the day.
fn covers(row: &Appointment, day: Day) -> bool
    ensures { result ≡ (nat_le row.now.since day && lasts_beyond day row.now) }
{
    row.since <= day
        && match row.until {
            None => true,
            Some(end) => day < end,
        }
}

/// Who holds the facility's Crypto Officer's place with this number on the day.
fn co_holder(rows: &[Appointment], facility: Facility, number: u8, day: Day) -> Option<Initials>
    ensures { result ≡ holder_by rows.now (Places.Co facility number) day }
{
    rows.iter()
        .find(|row| is_co(row.place, facility, number) && covers(*row, day))
        .map(|row| row.who)
}

/// Who holds the Recovery Key Share Holder's place with this number on the day.
fn rksh_holder(rows: &[Appointment], number: u8, day: Day) -> Option<Initials>
    ensures { result ≡ holder_by rows.now (Places.Rksh number) day }
{
    rows.iter()
        .find(|row| is_rksh(row.place, number) && covers(*row, day))
        .map(|row| row.who)
}

/// Whether there is a holder, and it is this person.
fn is_this(held: Option<Initials>, who: Initials) -> bool
    ensures { result ≡ Same.is_this who held }
{
    match held {
        Some(other) => other == who,
        None => false,
    }
}

/// Whether the person holds the facility's Crypto Officer's place with this number on the day.
fn holds_co(rows: &[Appointment], facility: Facility, number: u8, day: Day, who: Initials) -> bool
    ensures { result ≡ is_holder_by rows.now (Places.Co facility number) day who }
{
    is_this(co_holder(rows, facility, number, day), who)
}

/// Whether the person holds the Recovery Key Share Holder's place with this number on the day.
fn holds_rksh(rows: &[Appointment], number: u8, day: Day, who: Initials) -> bool
    ensures { result ≡ is_holder_by rows.now (Places.Rksh number) day who }
{
    is_this(rksh_holder(rows, number, day), who)
}

/// Whether the person holds some Crypto Officer's place of the facility on the day.
fn holds_some_co(rows: &[Appointment], facility: Facility, day: Day, who: Initials) -> bool
    ensures { result ≡ list_any (λ n. is_holder_by rows.now (Places.Co facility n) day who) one_to_seven }
{
    NUMBERS
        .iter()
        .any(|number| holds_co(rows, facility, *number, day, who))
}

/// Whether the person holds some Recovery Key Share Holder's place on the day.
fn holds_some_rksh(rows: &[Appointment], day: Day, who: Initials) -> bool
    ensures { result ≡ list_any (λ n. is_holder_by rows.now (Places.Rksh n) day who) one_to_seven }
{
    NUMBERS
        .iter()
        .any(|number| holds_rksh(rows, *number, day, who))
}

/// Whether the person fits the seat on the day, in a ceremony of the facility, by the rows of trainings, of withdrawals
/// and of appointments.
pub fn fits(
    trainings: &[Training],
    withdrawals: &[Withdrawal],
    rows: &[Appointment],
    facility: Facility,
    day: Day,
    seat: Seat,
    who: Initials,
) -> bool
    ensures { result ≡ fits_by trainings.now withdrawals.now rows.now facility day seat who }
{
    match seat {
        Seat::Staff(role) => trained(trainings, withdrawals, who, role, day),
        Seat::AnyCo => holds_some_co(rows, facility, day, who),
        Seat::Co(number) => holds_co(rows, facility, number, day, who),
        Seat::AnyRksh => holds_some_rksh(rows, day, who),
        Seat::Rksh(number) => holds_rksh(rows, number, day, who),
    }
}
