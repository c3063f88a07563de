//! The loose items.

ghost use Rattle.std.specs.Prelude.{◌≡◌, None, slice_get};
ghost use Rattle.kcr_history.specs.Tables as machine;
ghost use Rattle.kcr_rows.specs.Frame.{ImpliesOpen};
ghost use Rattle.kcr_tables.specs.Frame.{OfMachineTables, Reads};
ghost use Rattle.kcr_reading.specs.Remaining.{IsNextOf, loose_items, loose_past};

use crate::cursor::Cursor;
use crate::seek::first_row;
use kcr_base::{ItemCode, Refusal};
use kcr_custody::Item;
use kcr_rows::cells::text_cell;
use sqlite::{Alter, Transaction};
use std::alloc::Global;

/// The first loose item behind this code; with none, the first of all.
fn first_loose_after<S: Alter>(
    alloc: Global,
    tx: &mut Transaction<'_, S>,
    last: &Option<ItemCode>,
) -> Result<Option<Item>, Refusal>
    ensures first { OfMachineTables S.Store tx.old tx.new result
        (λ m found. found ≡ slice_get (loose_past last.now m) 0) }
    ensures opened { ImpliesOpen S.Store tx.old tx.new result }
    ensures frame { Reads S.Store tx.old tx.new result }
{
    match last {
        Some(code) => first_row(
            alloc,
            tx,
            "SELECT code, facility, serial FROM items WHERE serial IS NULL AND code > ?1 ORDER BY code LIMIT 1",
            &[text_cell(code.as_str())],
        ),
        None => first_row(
            alloc,
            tx,
            "SELECT code, facility, serial FROM items WHERE serial IS NULL ORDER BY code LIMIT 1",
            &[],
        ),
    }
}

/// The first loose item behind the last one, which becomes the last; none if no more comes.
fn next_loose<S: Alter>(
    alloc: Global,
    tx: &mut Transaction<'_, S>,
    last: &mut Option<ItemCode>,
) -> Result<Option<Item>, Refusal>
    ensures gives { OfMachineTables S.Store tx.old tx.new result
        (λ m found. IsNextOf (loose_past last.old m) found (loose_past last.new m)) }
    ensures opened { ImpliesOpen S.Store tx.old tx.new result }
    ensures frame { Reads S.Store tx.old tx.new result }
{
    let found = first_loose_after(alloc, tx, last)?;
    if let Some(item) = &found {
        *last = Some(item.code);
    }
    Ok(found)
}

/// Behind the item that was read last.
#[derive(Drop)]
pub struct LooseCursor {
    last: Option<ItemCode>,
}

impl LooseCursor {
    /// Before the first loose item.
    pub fn new() -> LooseCursor
        ensures { (m : machine.Tables) → loose_past result.last m ≡ loose_items m }
    {
        LooseCursor { last: None }
    }
}

impl Cursor for LooseCursor {
    type Row = Item;

    ghost to_come = { λ p m. loose_past p.last m };

    fn next<S: Alter>(
        &mut self,
        alloc: Global,
        tx: &mut Transaction<'_, S>,
    ) -> Result<Option<Item>, Refusal> {
        next_loose(alloc, tx, &mut self.last)
    }
}
