//! The stays of a sheet: one for each `in` row.
ghost use Rattle.std.specs.Prelude.{◌≡◌, IfOk, length, map};
ghost use Rattle.kcr_room.specs.Events;
ghost use Rattle.kcr_room.specs.Room;
ghost use Rattle.kcr_room.specs.Stays;

use crate::{SheetRow, Stay, Way};
use kcr_base::{Initials, Moment};
use std::alloc::{AllocError, Global};
use std::collections::HashMap;

pub(crate) fn is_enter(way: Way) -> bool
    ensures { result ≡ Room.is_enter way }
{
    match way {
        Way::Enter => true,
        Way::Leave => false,
    }
}

/// A row of a sheet by its moment, its place among the rows, and its person. In this order each
/// person's rows come one after another, also if two are at one moment.
#[derive(Clone, Copy, PartialEq, Eq, PartialOrd, Ord)]
struct SheetEvent {
    at: Moment,
    place: usize,
    who: Initials,
}

// The steps of the rows, the first of them first.
fn sheet_events(alloc: Global, rows: &[SheetRow]) -> Result<Vec<SheetEvent>, AllocError>
    ensures { IfOk result (λ steps. steps.items ≡ Events.sheet_events_by rows.now) }
{
    let mut steps = Vec::new(alloc);
    for (place, row) in rows.iter().enumerate() {
        steps.push(SheetEvent {
            at: row.at,
            place,
            who: row.who,
        })?;
    }
    Ok(steps)
}

// The end of each row, if a stay began with it: the moment of the person's next row. It goes through
// the rows from the last moment back, and keeps for each person the row that comes next.
fn ends_of(alloc: Global, rows: &[SheetRow]) -> Result<Vec<Option<Moment>>, AllocError>
    ensures { IfOk result (λ ends. ends.items ≡ map Stays.next_of (Room.followed_rows rows.now)) }
{
    let mut steps = sheet_events(alloc, rows)?;
    steps.sort_unstable();
    let mut ends = vec![in alloc; None; rows.len()]?;
    let mut next = HashMap::new(alloc);
    while let Some(step) = steps.pop() {
        ends[step.place] = next.insert(step.who, step.at)?;
    }
    Ok(ends)
}

/// The stays of a sheet, of all ceremonies: one for each `in` row, in the order of the rows, its end
/// the moment of the person's next row, or `None` if there is none. The rows may come in any order
/// of moments; of two rows of one person at one moment the one that is listed later counts as the
/// later one. Any rows are taken, also such as do not alternate. Time is in the order of n log n.
pub fn stays_of(alloc: Global, rows: &[SheetRow]) -> Result<Vec<Stay>, AllocError>
    ensures { IfOk result (λ stays. stays.items ≡ Stays.stays_by rows.now) }
{
    let ends = ends_of(alloc, rows)?;
    stays_with(alloc, rows, &ends)
}

// The stays of the rows with these ends.
fn stays_with(
    alloc: Global,
    rows: &[SheetRow],
    ends: &[Option<Moment>],
) -> Result<Vec<Stay>, AllocError>
    requires { length ends.now ≡ length rows.now }
    ensures { IfOk result (λ stays. stays.items ≡ Events.stays_with rows.now ends.now) }
{
    let mut stays = Vec::new(alloc);
    for (index, row) in rows.iter().enumerate() {
        let until = ends[index];
        if is_enter(row.way) {
            stays.push(Stay {
                ceremony: row.ceremony,
                who: row.who,
                since: row.at,
                until,
            })?;
        }
    }
    Ok(stays)
}
