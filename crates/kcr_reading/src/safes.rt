//! The four safes.

ghost use Rattle.std.specs.Prelude.{◌≡◌, None, find};
ghost use Rattle.kcr_history.specs.Tables as machine;
ghost use Rattle.kcr_rows.specs.Frame.{ImpliesOpen};
ghost use Rattle.kcr_tables.specs.Frame.{OfMachineTables, Reads};
ghost use Rattle.kcr_reading.specs.Remaining.{IsNextOf, is_past, safe_place, safes_in_order, safes_past};

use crate::cursor::Cursor;
use kcr_base::{Facility, Refusal};
use kcr_custody::{SafeNumber, SafeRow};
use kcr_tables::all_rows;
use sqlite::{Alter, Transaction};
use std::alloc::Global;

/// Where a safe stands among the four: those of EAST first, and by number.
fn place_of(row: &SafeRow) -> u32
    ensures { result ≡ safe_place row.now }
{
    let number = match row.safe {
        SafeNumber::One => 1,
        SafeNumber::Two => 2,
    };
    match row.facility {
        Facility::East => number,
        Facility::West => 2 + number,
    }
}

/// Whether a place stands past the last one.
fn is_past(last: Option<u32>, place: u32) -> bool
    ensures { result ≡ is_past last place }
{
    match last {
        Some(last) => last < place,
        None => true,
    }
}

/// The first of these safes past the place; with none, the first of all.
fn safe_past(rows: &[SafeRow], last: Option<u32>) -> Option<SafeRow>
    ensures { result ≡ find (λ row. is_past last (safe_place row)) rows.now }
{
    rows.iter()
        .copied()
        .find(|row| is_past(last, place_of(row)))
}

/// The first safe past the last one, which becomes the last; none if no more comes.
fn next_safe<S: Alter>(
    alloc: Global,
    tx: &mut Transaction<'_, S>,
    last: &mut Option<u32>,
) -> Result<Option<SafeRow>, Refusal>
    ensures gives { OfMachineTables S.Store tx.old tx.new result
        (λ m found. IsNextOf (safes_past last.old m) found (safes_past last.new m)) }
    ensures opened { ImpliesOpen S.Store tx.old tx.new result }
    ensures frame { Reads S.Store tx.old tx.new result }
{
    let rows: Vec<SafeRow> = all_rows(alloc, tx)?;
    let found = safe_past(rows.as_slice(), *last);
    if let Some(row) = &found {
        *last = Some(place_of(row));
    }
    Ok(found)
}

/// Behind the safe at the place that was read last.
#[derive(Drop)]
pub struct SafeCursor {
    last: Option<u32>,
}

impl SafeCursor {
    /// Before the first safe.
    pub fn new() -> SafeCursor
        ensures { (m : machine.Tables) → safes_past result.last m ≡ safes_in_order m }
    {
        SafeCursor { last: None }
    }
}

impl Cursor for SafeCursor {
    type Row = SafeRow;

    ghost to_come = { λ p m. safes_past p.last m };

    fn next<S: Alter>(
        &mut self,
        alloc: Global,
        tx: &mut Transaction<'_, S>,
    ) -> Result<Option<SafeRow>, Refusal> {
        next_safe(alloc, tx, &mut self.last)
    }
}
