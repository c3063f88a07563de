//! The stays in the room of a ceremony, each with the name of the person.

ghost use Rattle.std.specs.Prelude.{◌≡◌, ◌++◌, None, filter};
ghost use Rattle.sqlite.specs.{Value.owned, Values.bound_value, declared.types.Value.TheVariants.Int};
ghost use Rattle.kcr_room.specs.Stays.{attendance_in_by};
ghost use Rattle.kcr_history.specs.Tables as machine;
ghost use Rattle.kcr_rows.specs.Frame.{ImpliesOpen};
ghost use Rattle.kcr_tables.specs.Frame.{OfMachineTables, Reads};
ghost use Rattle.kcr_reading.specs.FirstRows.{bound_of};
ghost use Rattle.kcr_reading.specs.Remaining.{Begin, IsNextBatchOf, is_stay_in_range, since_of, listed_past, named_stays, read_ahead, stays_past};

use crate::batched::{BatchSource, Batched};
use crate::names::with_names;
use crate::seek::{first_rows, past_cell};
use kcr_base::Refusal;
use kcr_history::StayWithName;
use kcr_room::Stay;
use kcr_rows::cells::{number_cell, text_cell};
use sqlite::types::ValueRef;
use sqlite::{Alter, Transaction};
use std::alloc::Global;

/// The moment behind which the stays are sought; -1 before the first, which is below all.
fn past_moment(last: &Option<Stay>) -> ValueRef<'static>
    ensures { bound_value (owned result) ≡ Int (bound_of (since_of last.now)) }
{
    match last {
        Some(stay) => number_cell(stay.since),
        None => past_cell(None),
    }
}

/// Among which stays of a ceremony the next ones are sought.
#[derive(Clone, Copy)]
enum StayRange {
    /// Those that begin with this one, behind it by initials.
    SameStart(Stay),
    /// Those that begin later than this one; with none, all.
    LaterStart(Option<Stay>),
}

/// The first of the stays of the ceremony among which is sought, sixteen at most.
fn first_in_range<S: Alter>(
    alloc: Global,
    tx: &mut Transaction<'_, S>,
    ceremony: u32,
    sought: StayRange,
) -> Result<Vec<Stay>, Refusal>
    ensures first { OfMachineTables S.Store tx.old tx.new result
        (λ m found. Begin (filter (is_stay_in_range sought) (attendance_in_by m.stays ceremony)) found.items) }
    ensures opened { ImpliesOpen S.Store tx.old tx.new result }
    ensures frame { Reads S.Store tx.old tx.new result }
{
    match sought {
        StayRange::SameStart(last) => first_rows(
            alloc,
            tx,
            "SELECT who, since, ceremony, until FROM stays WHERE ceremony = ?1 AND since = ?2 AND who > ?3 ORDER BY who, since LIMIT 16",
            &[
                number_cell(ceremony),
                number_cell(last.since),
                text_cell(last.who.as_str()),
            ],
        ),
        StayRange::LaterStart(last) => first_rows(
            alloc,
            tx,
            "SELECT who, since, ceremony, until FROM stays WHERE ceremony = ?1 AND since > ?2 ORDER BY since, who LIMIT 16",
            &[number_cell(ceremony), past_moment(&last)],
        ),
    }
}

/// The first stays of the ceremony behind the last one; none if no more comes.
fn stays_after<S: Alter>(
    alloc: Global,
    tx: &mut Transaction<'_, S>,
    ceremony: u32,
    last: &Option<Stay>,
) -> Result<Vec<Stay>, Refusal>
    ensures first { OfMachineTables S.Store tx.old tx.new result
        (λ m found. Begin (listed_past last.now ceremony m) found.items) }
    ensures opened { ImpliesOpen S.Store tx.old tx.new result }
    ensures frame { Reads S.Store tx.old tx.new result }
{
    match last {
        None => first_in_range(alloc, tx, ceremony, StayRange::LaterStart(None)),
        Some(stay) => {
            let together = first_in_range(alloc, tx, ceremony, StayRange::SameStart(*stay))?;
            if together.is_empty() {
                first_in_range(alloc, tx, ceremony, StayRange::LaterStart(*last))
            } else {
                Ok(together)
            }
        }
    }
}

/// The first stays of the ceremony behind the last one, sixteen at most; the last of them becomes the last one. None
/// if no more comes.
fn next_stays<S: Alter>(
    alloc: Global,
    tx: &mut Transaction<'_, S>,
    ceremony: u32,
    last: &mut Option<Stay>,
) -> Result<Vec<Stay>, Refusal>
    ensures gives { OfMachineTables S.Store tx.old tx.new result
        (λ m found. IsNextBatchOf (listed_past last.old ceremony m) found.items (listed_past last.new ceremony m)) }
    ensures opened { ImpliesOpen S.Store tx.old tx.new result }
    ensures frame { Reads S.Store tx.old tx.new result }
{
    let found = stays_after(alloc, tx, ceremony, last)?;
    if let Some(stay) = found.last() {
        *last = Some(*stay);
    }
    Ok(found)
}

/// The stays of a ceremony behind the one that was read last.
#[derive(Drop)]
pub struct StayBatches {
    ceremony: u32,
    last: Option<Stay>,
}

impl BatchSource for StayBatches {
    type Row = StayWithName;

    ghost to_come = { λ p m. stays_past p.last p.ceremony m };

    fn next_batch<S: Alter>(
        &mut self,
        alloc: Global,
        tx: &mut Transaction<'_, S>,
    ) -> Result<Vec<StayWithName>, Refusal> {
        let stays = next_stays(alloc, tx, self.ceremony, &mut self.last)?;
        with_names(alloc, tx, stays.as_slice())
    }
}

/// The stays of a ceremony, each with the person's name.
pub type StayCursor = Batched<StayBatches>;

impl StayCursor {
    /// Before the first stay of the ceremony.
    pub fn new(ceremony: u32) -> StayCursor
        ensures { (m : machine.Tables) → read_ahead result.ready
            ++ stays_past result.source.last result.source.ceremony m ≡ named_stays ceremony m }
    {
        Batched::from_source(StayBatches {
            ceremony,
            last: None,
        })
    }
}
