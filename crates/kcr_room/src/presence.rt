//! Who is in a room at a moment, the first moment with one person alone there, and whether it is
//! ever too full.
ghost use Rattle.std.specs.Prelude.{◌==◌, nat_lt, ◌≡◌, ◌≤◌, ◌∷◌, ◌++◌, IfOk, length, take, drop};
ghost use Rattle.kcr_base.specs.declared.limits.TheConstants.{MAX_PRESENT};
ghost use Rattle.kcr_room.specs.Moments;
ghost use Rattle.kcr_room.specs.Room;
ghost use Rattle.kcr_room.specs.Stays;

use crate::occupancy::check_occupancy;
use crate::{SheetRow, Stay, stays_of};
use kcr_base::{Initials, Moment, is_before};
use std::alloc::{AllocError, Global};

/// Whether an end is none, or later than the moment.
pub fn ends_after(at: Moment, until: Option<Moment>) -> bool
    ensures { result ≡ Stays.ends_after at until }
{
    match until {
        None => true,
        Some(until) => at < until,
    }
}

/// Whether an end is none, or the moment itself, or later.
fn ends_at_or_after(at: Moment, until: Option<Moment>) -> bool
    ensures { result ≡ Stays.ends_at_or_after at until }
{
    match until {
        None => true,
        Some(until) => at <= until,
    }
}

/// Whether the stay is of the ceremony and has no end, or ends at the moment or later.
pub fn stay_reaches(ceremony: u32, at: Moment, stay: &Stay) -> bool
    ensures { result ≡ Stays.stay_reaches ceremony at stay.now }
{
    stay.ceremony == ceremony && ends_at_or_after(at, stay.until)
}

/// Whether the stay is of the ceremony, begins at the moment or before, and ends, if at all, later.
pub fn stay_covers(ceremony: u32, at: Moment, stay: Stay) -> bool
    ensures { result ≡ Stays.stay_covers ceremony at stay }
{
    stay.ceremony == ceremony && stay.since <= at && ends_after(at, stay.until)
}

// The place of a person in a list in byte order: behind all that are before it.
fn place_of(who: Initials, people: &[Initials]) -> usize
    ensures within { result ≤ length people.now }
    ensures placed { take result people.now ++ who ∷ drop result people.now ≡ Room.put_person who people.now }
{
    for (index, other) in people.iter().enumerate() {
        if !is_before(*other, who) {
            return index;
        }
    }
    people.len()
}

/// Those in the room of the ceremony at the moment, in byte order. The stays may hold more than the
/// ceremony's, in any order.
pub fn present_in(
    alloc: Global,
    stays: &[Stay],
    ceremony: u32,
    at: Moment,
) -> Result<Vec<Initials>, AllocError>
    ensures { IfOk result (λ people. people.items ≡ Stays.present_in_by stays.now ceremony at) }
{
    let mut people = Vec::new(alloc);
    for stay in stays {
        if stay_covers(ceremony, at, *stay) {
            let index = place_of(stay.who, &people);
            people.insert(index, stay.who)?;
        }
    }
    Ok(people)
}

/// The first of all moments at which exactly one person is in the room of the ceremony, or `None` if
/// there is none; exact for any rows, whether or not a request could have made them.
pub fn first_lone(
    alloc: Global,
    rows: &[SheetRow],
    ceremony: u32,
) -> Result<Option<Moment>, AllocError>
    ensures { IfOk result (Moments.IsFirstMoment (λ t. Room.headcount_by rows.now ceremony t == 1)) }
{
    let stays = stays_of(alloc, rows)?;
    let crowding = check_occupancy(alloc, &stays, ceremony)?;
    Ok(crowding.first_lone)
}

/// Whether at any moment more than `MAX_PRESENT` people are in the room of the ceremony; exact for any rows.
pub fn is_crowded(alloc: Global, rows: &[SheetRow], ceremony: u32) -> Result<bool, AllocError>
    ensures { IfOk result (Moments.IsEver (λ t. nat_lt MAX_PRESENT (Room.headcount_by rows.now ceremony t))) }
{
    let stays = stays_of(alloc, rows)?;
    let crowding = check_occupancy(alloc, &stays, ceremony)?;
    Ok(crowding.is_crowded)
}
