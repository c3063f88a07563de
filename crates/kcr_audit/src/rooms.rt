//! Moments at which somebody is alone in a room, or too many are.
ghost use Rattle.std.specs.Prelude.{◌≡◌, ℕ, IfOk, map, find, option_map};
ghost use Rattle.std.specs.List.{Contains};
ghost use Rattle.kcr_room.specs.Stays;
ghost use Rattle.kcr_audit.specs.Kinds.{IsFindingOfKind};
ghost use Rattle.kcr_audit.specs.Rooms;

use kcr_base::{MAX_PRESENT, Moment};
use kcr_history::{Finding, FullView};
use kcr_room::{SheetRow, Stay, first_lone, is_crowded, stay_covers, stays_of};
use std::alloc::{AllocError, Global};

/// The ceremony of each row.
fn ceremony_of_each(alloc: Global, rows: &[SheetRow]) -> Result<Vec<u32>, AllocError>
    ensures { IfOk result (λ numbers. numbers.items ≡ map (λ row. row.ceremony) rows.now) }
{
    rows.iter().map(|row| row.ceremony).collect(alloc)
}

/// The numbers, each once.
fn each_once(mut numbers: Vec<u32>) -> Vec<u32>
    ensures { (c : ℕ) → Contains numbers.items c → Contains result.items c }
{
    numbers.sort_unstable();
    numbers.dedup();
    numbers
}

/// The ceremonies that have rows, each once.
fn ceremonies_of(alloc: Global, rows: &[SheetRow]) -> Result<Vec<u32>, AllocError>
    ensures { IfOk result (λ numbers. (c : ℕ) → Contains (map (λ row. row.ceremony) rows.now) c
        → Contains numbers.items c) }
{
    let numbers = ceremony_of_each(alloc, rows)?;
    Ok(each_once(numbers))
}

/// The first of these ceremonies in whose room somebody is ever alone, and the first moment of it.
fn lone_among(
    alloc: Global,
    rows: &[SheetRow],
    numbers: &[u32],
) -> Result<Option<(u32, Moment)>, AllocError>
    ensures { IfOk result (Rooms.IsSoughtAmong (Rooms.is_lone rows.now) numbers.now) }
{
    for number in numbers {
        if let Some(at) = first_lone(alloc, rows, *number)? {
            return Ok(Some((*number, at)));
        }
    }
    Ok(None)
}

/// A moment with exactly one person in the room of a ceremony.
pub(crate) fn find_lone_person(
    alloc: Global,
    view: &FullView,
) -> Result<Option<Finding>, AllocError>
    ensures { IfOk result (IsFindingOfKind view.now 4) }
{
    let numbers = ceremonies_of(alloc, &view.sheet)?;
    match lone_among(alloc, &view.sheet, &numbers)? {
        Some((ceremony, at)) => Ok(Some(Finding::Lone(ceremony, at))),
        None => Ok(None),
    }
}

/// How many people are in the room of the ceremony at the moment.
fn crowd(stays: &[Stay], ceremony: u32, at: Moment) -> usize
    ensures { result ≡ Stays.headcount_in_by stays.now ceremony at }
{
    stays
        .iter()
        .filter(|stay| stay_covers(ceremony, at, **stay))
        .count()
}

/// Whether with this stay of the ceremony too many people are in the room.
fn is_crowd_at(stays: &[Stay], ceremony: u32, stay: Stay) -> bool
    ensures { result ≡ Rooms.is_crowd_at stays.now ceremony stay }
{
    stay.ceremony == ceremony && crowd(stays, ceremony, stay.since) > MAX_PRESENT
}

/// When the first such stay begins.
fn first_crowd(stays: &[Stay], ceremony: u32) -> Option<Moment>
    ensures { result ≡ option_map (λ stay. stay.since) (find (Rooms.is_crowd_at stays.now ceremony) stays.now) }
{
    stays
        .iter()
        .find(|stay| is_crowd_at(stays, ceremony, **stay))
        .map(|stay| stay.since)
}

/// A moment with too many people in the room of the ceremony. It takes time in the order of n log n if there is
/// none.
fn crowded_at(alloc: Global, rows: &[SheetRow], ceremony: u32) -> Result<Option<Moment>, AllocError>
    ensures { IfOk result (Rooms.IsSometime (Rooms.is_crowd rows.now ceremony)) }
{
    if !is_crowded(alloc, rows, ceremony)? {
        return Ok(None);
    }
    let stays = stays_of(alloc, rows)?;
    Ok(first_crowd(&stays, ceremony))
}

/// The first of these ceremonies in whose room there are ever too many, and a moment of it.
fn crowd_among(
    alloc: Global,
    rows: &[SheetRow],
    numbers: &[u32],
) -> Result<Option<(u32, Moment)>, AllocError>
    ensures { IfOk result (Rooms.IsSoughtAmong (Rooms.is_crowd rows.now) numbers.now) }
{
    for number in numbers {
        if let Some(at) = crowded_at(alloc, rows, *number)? {
            return Ok(Some((*number, at)));
        }
    }
    Ok(None)
}

/// A moment with more than `MAX_PRESENT` people in the room of a ceremony.
pub(crate) fn find_crowded_room(
    alloc: Global,
    view: &FullView,
) -> Result<Option<Finding>, AllocError>
    ensures { IfOk result (IsFindingOfKind view.now 5) }
{
    let numbers = ceremonies_of(alloc, &view.sheet)?;
    match crowd_among(alloc, &view.sheet, &numbers)? {
        Some((ceremony, at)) => Ok(Some(Finding::Crowd(ceremony, at))),
        None => Ok(None),
    }
}
