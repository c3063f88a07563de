//! The stays that are asked for: those of a ceremony that last to a moment, and of some people the one that began last;
//! and how many a ceremony has.

ghost use Rattle.std.specs.Prelude.{◌≡◌, not, List, filter, map, IsPermutation};
ghost use Rattle.kcr_history.specs.Views.{HasStayCount, IncludesStays, ShowsStaysOf};
ghost use Rattle.kcr_base.specs.Same.{same_text};
ghost use Rattle.kcr_room.specs.{declared.Stay.Stay as AnyStay, Requests.stay_count, Stays.stay_reaches};
ghost use Rattle.kcr_rows.specs.{Greatest.IsGreatest, Rows.stay_row};
ghost use Rattle.kcr_tables.specs.{Selected.asked_of, StoredTables.stays_place, Frame.OfTables, Frame.OfTrees, Frame.Reads};
ghost use Rattle.kcr_tables.specs.Exact.{rows_at, is_lasting_row, is_stay_row, AreShown};

use crate::last::last_stay_of;
use crate::table::{all_rows, shown_rows};
use kcr_base::{Initials, Moment, Refusal};
use kcr_history::{Selection, StayFilter};
use kcr_room::{Stay, stay_reaches};
use kcr_rows::CountRow;
use kcr_rows::cells::number_cell;
use kcr_rows::statements::query_rows;
use sqlite::{Alter, Transaction};
use std::alloc::Global;

/// The stays of the ceremony that have no end, or end at the moment or later, in the order in which they began, which
/// is that of an index. Nothing is changed. The error is `Memory` when out of memory, and else `Disk`: the device
/// failed, or a row that is shown is invalid.
pub fn stays_ending_at_or_after<S: Alter>(
    alloc: Global,
    tx: &mut Transaction<'_, S>,
    ceremony: u32,
    at: Moment,
) -> Result<Vec<Stay>, Refusal>
    ensures rows { OfTables S.Store tx.old tx.new result
        (λ t all. IsPermutation (filter (stay_reaches ceremony at) t.rows.stays) all.items) }
    ensures exact { OfTrees S.Store tx.old tx.new result
        (λ db all. IsPermutation (filter (is_lasting_row ceremony at) (rows_at stays_place db)) (map stay_row all.items)) }
    ensures frame { Reads S.Store tx.old tx.new result }
{
    shown_rows(
        alloc,
        tx,
        "SELECT who, since, ceremony, until FROM stays WHERE ceremony = ?1 AND (until IS NULL OR until >= ?2) ORDER BY since, who",
        &[number_cell(ceremony), number_cell(at)],
    )
}

/// The person's stay that began last, alone, unless it is of this ceremony and lasts to the moment.
fn last_elsewhere<S: Alter>(
    alloc: Global,
    tx: &mut Transaction<'_, S>,
    asked: &StayFilter,
    who: &Initials,
) -> Result<Vec<Stay>, Refusal>
    ensures rows { OfTables S.Store tx.old tx.new result
        (λ t all. (last : List AnyStay)
        × IsGreatest (λ x. x.since) (filter (λ x. same_text x.who who.now) t.rows.stays) last
        × (all.items ≡ filter (λ x. not (stay_reaches asked.now.ceremony asked.now.at x)) last)) }
    ensures frame { Reads S.Store tx.old tx.new result }
{
    let mut last = last_stay_of(alloc, tx, who)?;
    last.retain(|stay| !stay_reaches(asked.ceremony, asked.at, stay));
    Ok(last)
}

/// The stays of the ceremony that last to the moment, and of each of the people the one that began last, in whatever
/// ceremony.
fn stays_and_last<S: Alter>(
    alloc: Global,
    tx: &mut Transaction<'_, S>,
    asked: &StayFilter,
) -> Result<Vec<Stay>, Refusal>
    ensures rows { OfTables S.Store tx.old tx.new result (λ t all. ShowsStaysOf asked.now t.rows.stays all.items) }
    ensures exact { OfTrees S.Store tx.old tx.new result
        (λ db all. AreShown stay_row all.items (filter (is_stay_row asked.now) (rows_at stays_place db))) }
    ensures frame { Reads S.Store tx.old tx.new result }
{
    let mut rows = stays_ending_at_or_after(alloc, tx, asked.ceremony, asked.at)?;
    let people = asked.people.as_slice();
    for who in people {
        let mut last = last_elsewhere(alloc, tx, asked, who)?;
        rows.append(&mut last)?;
    }
    Ok(rows)
}

/// The stays that are asked for.
pub fn select_stays<S: Alter>(
    alloc: Global,
    tx: &mut Transaction<'_, S>,
    asked: &Selection<StayFilter>,
) -> Result<Vec<Stay>, Refusal>
    ensures rows { OfTables S.Store tx.old tx.new result (λ t all. IncludesStays asked.now t.rows.stays all.items) }
    ensures exact { OfTrees S.Store tx.old tx.new result
        (λ db all. AreShown stay_row all.items (asked_of is_stay_row asked.now (rows_at stays_place db))) }
    ensures frame { Reads S.Store tx.old tx.new result }
{
    match asked {
        Selection::Nothing => Ok(Vec::new(alloc)),
        Selection::Matching(asked) => stays_and_last(alloc, tx, asked),
        Selection::All => all_rows(alloc, tx),
    }
}

/// How many stays the ceremony has, counted along an index. Nothing is changed. The error is `Memory` when out of
/// memory, and else `Disk`: the device failed, or there are more than 4,294,967,295.
fn entries_of<S: Alter>(
    alloc: Global,
    tx: &mut Transaction<'_, S>,
    ceremony: u32,
) -> Result<usize, Refusal>
    ensures rows { OfTables S.Store tx.old tx.new result (λ t count. count ≡ stay_count t.rows.stays ceremony) }
    ensures frame { Reads S.Store tx.old tx.new result }
{
    let c0 = number_cell(ceremony);
    let counts: Vec<CountRow> = query_rows(
        alloc,
        tx,
        "SELECT (SELECT COUNT(*) FROM stays WHERE ceremony = ?1)",
        &[c0],
    )?;
    match counts.first() {
        Some(count) => Ok(count.number as usize),
        None => Err(Refusal::Disk),
    }
}

/// How many stays the ceremony has of which that is asked, 0 if it is asked of none.
pub fn select_stay_count<S: Alter>(
    alloc: Global,
    tx: &mut Transaction<'_, S>,
    asked: &Option<u32>,
) -> Result<usize, Refusal>
    ensures rows { OfTables S.Store tx.old tx.new result (λ t count. HasStayCount asked.now t.rows.stays count) }
    ensures frame { Reads S.Store tx.old tx.new result }
{
    match asked {
        None => Ok(0),
        Some(ceremony) => entries_of(alloc, tx, *ceremony),
    }
}
