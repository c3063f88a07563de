//! The bags, each with its items.

ghost use Rattle.std.specs.Prelude.{◌≡◌, None, IfOk, map, filter, slice_get};
ghost use Rattle.kcr_custody.specs.Custody.{lies_in};
ghost use Rattle.kcr_history.specs.Tables as machine;
ghost use Rattle.kcr_rows.specs.Frame.{ImpliesOpen};
ghost use Rattle.kcr_tables.specs.Frame.{OfMachineTables, Reads};
ghost use Rattle.kcr_reading.specs.Remaining.{IsNextOf, serials_past, items_by_code, packed_bags, bags_past};

use crate::cursor::Cursor;
use crate::seek::first_row;
use kcr_base::{ItemCode, Refusal, Serial};
use kcr_custody::{Bag, Item};
use kcr_history::{BagWithItems, ItemList};
use kcr_rows::cells::text_cell;
use kcr_tables::find_rows;
use sqlite::{Alter, Transaction};
use std::alloc::{AllocError, Global};

/// The first bag behind this serial; with none, the first of all.
fn first_bag_after<S: Alter>(
    alloc: Global,
    tx: &mut Transaction<'_, S>,
    last: &Option<Serial>,
) -> Result<Option<Bag>, Refusal>
    ensures first { OfMachineTables S.Store tx.old tx.new result
        (λ m found. found ≡ slice_get (serials_past last.now m) 0) }
    ensures opened { ImpliesOpen S.Store tx.old tx.new result }
    ensures frame { Reads S.Store tx.old tx.new result }
{
    match last {
        Some(serial) => first_row(
            alloc,
            tx,
            "SELECT serial, spot FROM bags WHERE serial > ?1 ORDER BY serial LIMIT 1",
            &[text_cell(serial.as_str())],
        ),
        None => first_row(
            alloc,
            tx,
            "SELECT serial, spot FROM bags ORDER BY serial LIMIT 1",
            &[],
        ),
    }
}

/// The first bag behind the last one, which becomes the last; none if no more comes.
fn next_bag<S: Alter>(
    alloc: Global,
    tx: &mut Transaction<'_, S>,
    last: &mut Option<Serial>,
) -> Result<Option<Bag>, Refusal>
    ensures gives { OfMachineTables S.Store tx.old tx.new result
        (λ m found. IsNextOf (serials_past last.old m) found (serials_past last.new m)) }
    ensures opened { ImpliesOpen S.Store tx.old tx.new result }
    ensures frame { Reads S.Store tx.old tx.new result }
{
    let found = first_bag_after(alloc, tx, last)?;
    if let Some(bag) = &found {
        *last = Some(bag.serial);
    }
    Ok(found)
}

/// The items in the bag, by code.
fn items_within<S: Alter>(
    alloc: Global,
    tx: &mut Transaction<'_, S>,
    serial: &Serial,
) -> Result<Vec<Item>, Refusal>
    ensures rows { OfMachineTables S.Store tx.old tx.new result
        (λ m rows. rows.items ≡ filter (lies_in serial.now) (items_by_code m)) }
    ensures opened { ImpliesOpen S.Store tx.old tx.new result }
    ensures frame { Reads S.Store tx.old tx.new result }
{
    find_rows(alloc, tx, serial)
}

/// The codes of these items, in their order.
pub fn codes_of(alloc: Global, items: &[Item]) -> Result<Vec<ItemCode>, AllocError>
    ensures { IfOk result (λ codes. codes.items ≡ map (λ item. item.code) items.now) }
{
    items.iter().map(|item| item.code).collect(alloc)
}

/// Behind the bag that was read last.
#[derive(Drop)]
pub struct BagCursor {
    last: Option<Serial>,
}

impl BagCursor {
    /// Before the first bag.
    pub fn new() -> BagCursor
        ensures { (m : machine.Tables) → bags_past result.last m ≡ packed_bags m }
    {
        BagCursor { last: None }
    }
}

impl Cursor for BagCursor {
    type Row = BagWithItems;

    ghost to_come = { λ p m. bags_past p.last m };

    fn next<S: Alter>(
        &mut self,
        alloc: Global,
        tx: &mut Transaction<'_, S>,
    ) -> Result<Option<BagWithItems>, Refusal> {
        let Some(bag) = next_bag(alloc, tx, &mut self.last)? else {
            return Ok(None);
        };
        let items = items_within(alloc, tx, &bag.serial)?;
        let list = codes_of(alloc, items.as_slice())?;
        let codes = ItemList::new(list);
        Ok(Some(BagWithItems { bag, codes }))
    }
}
