//! The calls over the rows of a sheet: what a request adds, who is in a room, and the attendance. They answer as those
//! over stays do.
ghost use Rattle.std.specs.Prelude.{◌≡◌, ◌≢◌, ◌≤◌, ◌∷◌, ◌++◌, IfOk, MatchResult, None, Some, length, map, take, drop};
ghost use Rattle.std.specs.List.{find};
ghost use Rattle.kcr_base.specs.declared.refusal.Refusal.TheVariants.{Memory};
ghost use Rattle.kcr_room.specs.Requests;
ghost use Rattle.kcr_room.specs.Room;
ghost use Rattle.kcr_room.specs.Stays;
ghost use Rattle.kcr_room.specs.declared.SheetRequest.{SheetRequest};

use crate::requests::occupancy_refusal;
use crate::stays::is_enter;
use crate::{SheetRequest, SheetRow, Stay, Way, present_in, stays_of};
use kcr_base::{Initials, MAX_ENTRIES, Moment, Refusal, is_before};
use std::alloc::{AllocError, Global};

// The later of two rows; of two with one moment the second.
fn later_row(last: Option<SheetRow>, row: SheetRow) -> Option<SheetRow>
    ensures { result ≡ Room.later_row last row }
{
    match last {
        None => Some(row),
        Some(other) => Some(if row.at < other.at { other } else { row }),
    }
}

// The person's last row.
fn last_row_of(rows: &[SheetRow], who: Initials) -> Option<SheetRow>
    ensures { result ≡ Room.last_row_of rows.now who }
{
    let mut last = None;
    for row in rows {
        if row.who == who {
            last = later_row(last, *row);
        }
    }
    last
}

fn is_no_turn(way: Way, ceremony: u32, row: SheetRow) -> bool
    ensures { result ≡ Requests.is_no_turn way ceremony row }
{
    match way {
        Way::Enter => is_enter(row.way),
        Way::Leave => !(is_enter(row.way) && row.ceremony == ceremony),
    }
}

fn is_out_of_turn(way: Way, ceremony: u32, at: Moment, last: Option<SheetRow>) -> bool
    ensures { result ≡ Requests.is_out_of_turn way ceremony at last }
{
    match last {
        None => !is_enter(way),
        Some(row) => at <= row.at || is_no_turn(way, ceremony, row),
    }
}

// The first of the people whose turn it is not.
fn first_out_of_turn(rows: &[SheetRow], request: &SheetRequest<'_>) -> Option<Initials>
    ensures { let asked : SheetRequest = request.now in result
        ≡ find (Requests.is_out_of_turn_by rows.now asked.ceremony asked.way asked.at) asked.people.now }
{
    for who in request.people {
        let last = last_row_of(rows, *who);
        if is_out_of_turn(request.way, request.ceremony, request.at, last) {
            return Some(*who);
        }
    }
    None
}

fn new_row(request: &SheetRequest<'_>, who: Initials) -> SheetRow
    ensures { let asked : SheetRequest = request.now in
        result ≡ Requests.new_row asked.ceremony asked.way asked.at who }
{
    SheetRow {
        ceremony: request.ceremony,
        who,
        way: request.way,
        at: request.at,
    }
}

// A row for each of the people.
fn new_rows(alloc: Global, request: &SheetRequest<'_>) -> Result<Vec<SheetRow>, AllocError>
    ensures { let asked : SheetRequest = request.now in IfOk result (λ added.
        added.items ≡ map (Requests.new_row asked.ceremony asked.way asked.at) asked.people.now) }
{
    request
        .people
        .iter()
        .map(|who| new_row(request, *who))
        .collect(alloc)
}

// The rows with the added ones behind them.
fn with_rows(
    alloc: Global,
    rows: &[SheetRow],
    added: &[SheetRow],
) -> Result<Vec<SheetRow>, AllocError>
    ensures { IfOk result (λ all. all.items ≡ rows.now ++ added.now) }
{
    let mut all = rows.to_vec(alloc)?;
    all.extend_from_slice(added)?;
    Ok(all)
}

// How many `in` rows the ceremony has, of each of which there is a stay.
fn stay_count(stays: &[Stay], ceremony: u32) -> usize
    ensures { result ≡ Requests.stay_count stays.now ceremony }
{
    stays
        .iter()
        .filter(|stay| stay.ceremony == ceremony)
        .count()
}

fn is_overfull(stays: &[Stay], request: &SheetRequest<'_>) -> bool
    ensures { let asked : SheetRequest = request.now in
        result ≡ Requests.is_overfull_by stays.now asked.ceremony asked.way }
{
    match request.way {
        Way::Enter => stay_count(stays, request.ceremony) > MAX_ENTRIES,
        Way::Leave => false,
    }
}

/// The rows that a request adds to the sheet, one for each person, behind all others. `rows` are all rows of the sheet,
/// of every ceremony; `mark` is the mark of the request's ceremony, and `full` says that the register takes no more
/// commands. The first refusal that holds, of: `Late` with the mark, the moment is not later than the mark; `Turn` with
/// the first of the people, in the order of the request, whose last row is not earlier, or who for `in` is in some room
/// by it, or for `out` is not in the room of this ceremony; then, of the room by all rows with the added ones, at every
/// moment: `Crowd`, more than `MAX_PRESENT` people would be in it; `Lone` with the first moment at which exactly one
/// would be; `Full`, for `in` there would be more than `MAX_ENTRIES` `in` rows, or the register is full. Any rows are
/// taken, also such as were not made in turn. A refusal changes nothing. `Memory` comes if memory runs out.
pub fn add_rows(
    alloc: Global,
    rows: &[SheetRow],
    mark: Moment,
    full: bool,
    request: &SheetRequest<'_>,
) -> Result<Vec<SheetRow>, Refusal>
    ensures { let asked : SheetRequest = request.now in MatchResult result
        (λ added. (Requests.rows_refusal rows.now asked.ceremony mark full asked.way asked.people.now asked.at ≡ None)
        × (added.items ≡ map (Requests.new_row asked.ceremony asked.way asked.at) asked.people.now))
        (λ refusal. refusal ≢ Memory
        → Requests.rows_refusal rows.now asked.ceremony mark full asked.way asked.people.now asked.at ≡ Some refusal) }
{
    if request.at <= mark {
        return Err(Refusal::Late { mark });
    }
    if let Some(who) = first_out_of_turn(rows, request) {
        return Err(Refusal::Turn { who });
    }
    let added = new_rows(alloc, request)?;
    let all = with_rows(alloc, rows, &added)?;
    let stays = stays_of(alloc, &all)?;
    let full = full || is_overfull(&stays, request);
    if let Some(refusal) = occupancy_refusal(alloc, &stays, request.ceremony, full)? {
        return Err(refusal);
    }
    Ok(added)
}

/// Those in the room of the ceremony at the moment, in byte order: of whose rows with moments at most this one the
/// greatest is `in` for the ceremony. Any rows are taken, in any order; of two rows of one person at one moment the one
/// that is listed later counts. The error is out of memory.
pub fn present(
    alloc: Global,
    rows: &[SheetRow],
    ceremony: u32,
    at: Moment,
) -> Result<Vec<Initials>, AllocError>
    ensures { IfOk result (λ people. people.items ≡ Room.present_by rows.now ceremony at) }
{
    let stays = stays_of(alloc, rows)?;
    present_in(alloc, &stays, ceremony, at)
}

// Whether the first stay begins before the second, or at its moment with initials before its.
fn is_listed_before(stay: &Stay, other: &Stay) -> bool
    ensures { result ≡ Stays.is_listed_before stay.now other.now }
{
    stay.since < other.since || (stay.since == other.since && is_before(stay.who, other.who))
}

// The place of a stay among others: behind all that are listed before it.
fn place_of(stay: &Stay, stays: &[Stay]) -> usize
    ensures within { result ≤ length stays.now }
    ensures placed { take result stays.now ++ stay.now ∷ drop result stays.now
        ≡ Stays.put_stay stay.now stays.now }
{
    for (index, other) in stays.iter().enumerate() {
        if !is_listed_before(other, stay) {
            return index;
        }
    }
    stays.len()
}

/// The stays of the ceremony by beginning, then initials: one for each of its `in` rows, its end the moment of the
/// person's next row, or `None` if there is none. Any rows are taken, in any order. The error is out of memory.
pub fn attendance(alloc: Global, rows: &[SheetRow], ceremony: u32) -> Result<Vec<Stay>, AllocError>
    ensures { IfOk result (λ stays. stays.items
        ≡ Stays.attendance_in_by (Stays.stays_by rows.now) ceremony) }
{
    let mut stays = stays_of(alloc, rows)?;
    let mut listed = Vec::new(alloc);
    while let Some(stay) = stays.pop() {
        if stay.ceremony == ceremony {
            let index = place_of(&stay, &listed);
            listed.insert(index, stay)?;
        }
    }
    Ok(listed)
}
