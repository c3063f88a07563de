//! What a request of the sheet changes, by stays, or the first reason why it is refused.
ghost use Rattle.std.specs.Prelude.{MatchResult, Some, ◌≢◌, ◌≡◌, IfOk, OnOk, None, map, ◌++◌};
ghost use Rattle.std.specs.List.{find, filter, list_any};
ghost use Rattle.kcr_base.specs.declared.refusal.Refusal.TheVariants.{Memory};
ghost use Rattle.kcr_room.specs.Requests;
ghost use Rattle.kcr_room.specs.declared.{SheetRequest.SheetRequest, Way.TheVariants.Enter, Way.TheVariants.Leave};

use crate::occupancy::check_occupancy;
use crate::{SheetRequest, Stay, Way};
use kcr_base::{Initials, MAX_ENTRIES, Moment, Refusal, is_among};
use std::alloc::{AllocError, Global};

fn has_no_end(until: Option<Moment>) -> bool
    ensures { result ≡ Requests.has_no_end until }
{
    match until {
        None => true,
        Some(_) => false,
    }
}

fn ends_from(at: Moment, until: Option<Moment>) -> bool
    ensures { result ≡ Requests.ends_from at until }
{
    match until {
        None => false,
        Some(until) => at <= until,
    }
}

fn reaches(who: Initials, at: Moment, stay: &Stay) -> bool
    ensures { result ≡ Requests.reaches who at stay.now }
{
    stay.who == who && (at <= stay.since || ends_from(at, stay.until))
}

fn is_inside(who: Initials, stay: &Stay) -> bool
    ensures { result ≡ Requests.is_inside who stay.now }
{
    stay.who == who && has_no_end(stay.until)
}

fn is_inside_of(ceremony: u32, who: Initials, stay: &Stay) -> bool
    ensures { result ≡ Requests.is_inside_of ceremony who stay.now }
{
    is_inside(who, stay) && stay.ceremony == ceremony
}

fn has_reached(stays: &[Stay], who: Initials, at: Moment) -> bool
    ensures { result ≡ list_any (Requests.reaches who at) stays.now }
{
    stays.iter().any(|stay| reaches(who, at, stay))
}

fn is_inside_some(stays: &[Stay], who: Initials) -> bool
    ensures { result ≡ list_any (Requests.is_inside who) stays.now }
{
    stays.iter().any(|stay| is_inside(who, stay))
}

fn is_inside_this(stays: &[Stay], ceremony: u32, who: Initials) -> bool
    ensures { result ≡ list_any (Requests.is_inside_of ceremony who) stays.now }
{
    stays.iter().any(|stay| is_inside_of(ceremony, who, stay))
}

// Whether it is not the person's turn: a row of the person is at the moment or later, or for `in` the
// person is in some room, or for `out` not in the room of the ceremony.
fn is_out_of_turn_in(stays: &[Stay], ceremony: u32, way: Way, at: Moment, who: Initials) -> bool
    ensures { result ≡ Requests.is_out_of_turn_in stays.now ceremony way at who }
{
    match way {
        Way::Enter => has_reached(stays, who, at) || is_inside_some(stays, who),
        Way::Leave => has_reached(stays, who, at) || !is_inside_this(stays, ceremony, who),
    }
}

// The first of the people whose turn it is not.
fn first_out_of_turn(stays: &[Stay], request: &SheetRequest<'_>) -> Option<Initials>
    ensures { let asked : SheetRequest = request.now in result
        ≡ find (Requests.is_out_of_turn_in stays.now asked.ceremony asked.way asked.at) asked.people.now }
{
    for who in request.people {
        if is_out_of_turn_in(stays, request.ceremony, request.way, request.at, *who) {
            return Some(*who);
        }
    }
    None
}

fn with_end(people: &[Initials], at: Moment, stay: &Stay) -> Stay
    ensures { result ≡ Requests.with_end people.now at stay.now }
{
    let until = if is_among(people, stay.who) && has_no_end(stay.until) {
        Some(at)
    } else {
        stay.until
    };
    Stay {
        ceremony: stay.ceremony,
        who: stay.who,
        since: stay.since,
        until,
    }
}

fn is_open_stay_of(ceremony: u32, people: &[Initials], stay: &Stay) -> bool
    ensures { result ≡ Requests.is_open_stay_of ceremony people.now stay.now }
{
    stay.ceremony == ceremony && is_among(people, stay.who) && has_no_end(stay.until)
}

// A stay of the ceremony after the request, from its moment on.
fn later_stay(request: &SheetRequest<'_>, stay: &Stay) -> Stay
    ensures { let asked : SheetRequest = request.now in
        result ≡ Requests.later_stay asked.way asked.people.now asked.at stay.now }
{
    match request.way {
        Way::Enter => clipped_to_moment(request.at, stay),
        Way::Leave => clipped_to_moment(request.at, &with_end(request.people, request.at, stay)),
    }
}

// The ceremony's stays after the request, from its moment on, without those of the people who come.
fn later_stays(
    alloc: Global,
    stays: &[Stay],
    request: &SheetRequest<'_>,
) -> Result<Vec<Stay>, AllocError>
    ensures { let asked : SheetRequest = request.now in IfOk result (λ later.
        later.items ≡ map (Requests.later_stay asked.way asked.people.now asked.at)
        (filter (Requests.of_ceremony asked.ceremony) stays.now)) }
{
    let mut later = Vec::new(alloc);
    for stay in stays {
        if stay.ceremony == request.ceremony {
            later.push(later_stay(request, stay))?;
        }
    }
    Ok(later)
}

// The ceremony's stays after the request, from its moment on.
fn stays_from_moment(
    alloc: Global,
    stays: &[Stay],
    request: &SheetRequest<'_>,
) -> Result<Vec<Stay>, AllocError>
    ensures { let asked : SheetRequest = request.now in IfOk result (λ later.
        later.items ≡ Requests.stays_from_moment stays.now asked.ceremony asked.way asked.people.now asked.at) }
{
    let mut later = later_stays(alloc, stays, request)?;
    if let Way::Enter = request.way {
        add_new_stays(&mut later, request)?;
    }
    Ok(later)
}

// Adds the stays of the people who come.
fn add_new_stays(stays: &mut Vec<Stay>, request: &SheetRequest<'_>) -> Result<(), AllocError>
    ensures { let asked : SheetRequest = request.now in OnOk result
        (stays.new.items ≡ stays.old.items ++ map (Requests.new_stay asked.ceremony asked.at) asked.people.now) }
{
    for who in request.people {
        stays.push(Stay {
            ceremony: request.ceremony,
            who: *who,
            since: request.at,
            until: None,
        })?;
    }
    Ok(())
}

fn ended_stays(
    alloc: Global,
    stays: &[Stay],
    request: &SheetRequest<'_>,
) -> Result<Vec<Stay>, AllocError>
    ensures { let asked : SheetRequest = request.now in IfOk result (λ changed.
        changed.items ≡ map (Requests.with_end asked.people.now asked.at)
        (filter (Requests.is_open_stay_of asked.ceremony asked.people.now) stays.now)) }
{
    let mut changed = Vec::new(alloc);
    for stay in stays {
        if is_open_stay_of(request.ceremony, request.people, stay) {
            changed.push(with_end(request.people, request.at, stay))?;
        }
    }
    Ok(changed)
}

// The stays that the request changes.
fn changed_stays(
    alloc: Global,
    stays: &[Stay],
    request: &SheetRequest<'_>,
) -> Result<Vec<Stay>, AllocError>
    ensures { let asked : SheetRequest = request.now in IfOk result (λ changed.
        changed.items ≡ Requests.changed_stays stays.now asked.ceremony asked.way asked.people.now asked.at) }
{
    match request.way {
        Way::Enter => {
            let mut changed = Vec::new(alloc);
            add_new_stays(&mut changed, request)?;
            Ok(changed)
        }
        Way::Leave => ended_stays(alloc, stays, request),
    }
}

// The stay from the moment on.
fn clipped_to_moment(at: Moment, stay: &Stay) -> Stay
    ensures { result ≡ Requests.clipped_to_moment at stay.now }
{
    let since = if stay.since < at { at } else { stay.since };
    Stay {
        ceremony: stay.ceremony,
        who: stay.who,
        since,
        until: stay.until,
    }
}

fn is_overfull(entered: usize, request: &SheetRequest<'_>) -> bool
    ensures { let asked : SheetRequest = request.now in
        result ≡ Requests.is_overfull entered asked.way asked.people.now }
{
    match request.way {
        Way::Enter => entered.saturating_add(request.people.len()) > MAX_ENTRIES,
        Way::Leave => false,
    }
}

// What these stays of the ceremony are refused for.
pub(crate) fn occupancy_refusal(
    alloc: Global,
    stays: &[Stay],
    ceremony: u32,
    full: bool,
) -> Result<Option<Refusal>, AllocError>
    ensures { IfOk result (λ refusal. refusal ≡ Requests.occupancy_refusal stays.now ceremony full) }
{
    let crowding = check_occupancy(alloc, stays, ceremony)?;
    if crowding.is_crowded {
        return Ok(Some(Refusal::Crowd));
    }
    if let Some(moment) = crowding.first_lone {
        return Ok(Some(Refusal::Lone { moment }));
    }
    if full {
        return Ok(Some(Refusal::Full));
    }
    Ok(None)
}

/// What a request of the sheet changes for a ceremony: for `in` a new stay for each person, for `out`
/// the open stays of the people with their end. `stays` are all stays of the register, or at least those
/// of the ceremony that last to the moment, and of each of the people the last one; `entered` is how many
/// stays the ceremony has in all, `mark` is its mark, and `full` says that the register takes no more
/// commands. The first refusal that holds, of: `Late` with the mark, the moment is not later than the
/// mark; `Turn` with the first of the people, in the order of the request, who has a row at the moment or
/// later, or who for `in` is in some room, or for `out` is not in the room of this ceremony; then, of the
/// room as it would be after the whole request, at its moment and at every later one: `Crowd`, more than
/// `MAX_PRESENT` people would be in it; `Lone` with the first moment at which exactly one would be; `Full`, for
/// `in` there would be more than `MAX_ENTRIES` `in` rows, or the register is full. What was before the moment the
/// request does not change. A refusal changes nothing. `Memory` comes if memory runs out.
pub fn add_stays(
    alloc: Global,
    stays: &[Stay],
    entered: usize,
    mark: Moment,
    full: bool,
    request: &SheetRequest<'_>,
) -> Result<Vec<Stay>, Refusal>
    ensures { let asked : SheetRequest = request.now in MatchResult result
        (λ changed. (Requests.stays_refusal
        stays.now entered asked.ceremony mark full asked.way asked.people.now asked.at ≡ None)
        × (changed.items ≡ Requests.changed_stays stays.now asked.ceremony asked.way asked.people.now asked.at))
        (λ refusal. refusal ≢ Memory
        → Requests.stays_refusal stays.now entered asked.ceremony mark full asked.way asked.people.now asked.at
        ≡ Some refusal) }
{
    if request.at <= mark {
        return Err(Refusal::Late { mark });
    }
    if let Some(who) = first_out_of_turn(stays, request) {
        return Err(Refusal::Turn { who });
    }
    let later = stays_from_moment(alloc, stays, request)?;
    let full = full || is_overfull(entered, request);
    if let Some(refusal) = occupancy_refusal(alloc, &later, request.ceremony, full)? {
        return Err(refusal);
    }
    let changed = changed_stays(alloc, stays, request)?;
    Ok(changed)
}
