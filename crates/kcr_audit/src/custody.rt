//! Items and bags that are not where one can find them.
ghost use Rattle.std.specs.Prelude.{◌≡◌, Some, find, option_map};
ghost use Rattle.kcr_custody.specs.Balance;
ghost use Rattle.kcr_history.specs.Audit;
ghost use Rattle.kcr_history.specs.declared.views.Finding.TheVariants as Findings;
ghost use Rattle.kcr_audit.specs.Kinds.{IsFindingOfKind};
ghost use Rattle.kcr_audit.specs.Defects;

use kcr_base::{ItemCode, Serial};
use kcr_custody::queries::has_box;
use kcr_custody::{Bag, Item, Rest, Spot};
use kcr_history::{Finding, FullView};

/// Whether a bag at this spot can hold items: a spent one holds none.
fn holds_items(spot: Spot) -> bool
    ensures { result ≡ Balance.holds_items (Some spot) }
{
    match spot {
        Spot::Spent => false,
        Spot::Table(_) | Spot::Equipment(_) | Spot::InBox(_, _) => true,
    }
}

/// Whether some row of the bag says that it is not spent.
fn is_bag_there(view: &FullView, serial: Serial) -> bool
    ensures { result ≡ Audit.is_bag_there view.now serial }
{
    view.view
        .bags
        .iter()
        .any(|bag| bag.serial == serial && holds_items(bag.spot))
}

/// Whether an item that rests there is within a bag that is spent or not there.
fn is_lost(view: &FullView, rest: Rest) -> bool
    ensures { result ≡ Audit.is_lost view.now rest }
{
    match rest {
        Rest::Loose(_) => false,
        Rest::Within(serial) => !is_bag_there(view, serial),
    }
}

/// Whether the item stands in more than one row.
fn is_item_duplicate(rows: &[Item], code: ItemCode) -> bool
    ensures { result ≡ Defects.is_item_duplicate rows.now code }
{
    rows.iter().filter(|row| row.code == code).count() > 1
}

/// Whether the item is lost by one of its rows.
fn is_item_lost(view: &FullView, code: ItemCode) -> bool
    ensures { result ≡ Defects.is_item_lost view.now code }
{
    view.view
        .items
        .iter()
        .any(|row| row.code == code && is_lost(view, row.rest))
}

/// Whether the item stands in more than one row, or is lost by one.
fn is_item_wrong(view: &FullView, code: ItemCode) -> bool
    ensures { result ≡ Defects.is_item_wrong view.now code }
{
    is_item_duplicate(&view.view.items, code) || is_item_lost(view, code)
}

/// The first row whose item stands in another one too, or is lost.
fn first_lost(view: &FullView) -> Option<Finding>
    ensures { result ≡ option_map (λ row. Findings.Custody row.code)
        (find (λ row. Defects.is_item_wrong view.now row.code) view.now.view.items.items) }
{
    view.view
        .items
        .iter()
        .find(|row| is_item_wrong(view, row.code))
        .map(|row| Finding::Custody(row.code))
}

/// An item that stands in two rows, or lies within a bag that is spent or not there.
#[tactic(auto, using(crate::proofs::Found::items))]
pub(crate) fn find_lost_item(view: &FullView) -> Option<Finding>
    ensures { IsFindingOfKind view.now 1 result }
{
    first_lost(view)
}

/// Whether the spot is in a box that is not there.
fn is_unboxed(view: &FullView, spot: Spot) -> bool
    ensures { result ≡ Audit.is_in_missing_box view.now spot }
{
    match spot {
        Spot::InBox(facility, number) => !has_box(&view.view.boxes, facility, number),
        Spot::Table(_) | Spot::Equipment(_) | Spot::Spent => false,
    }
}

/// Whether the serial stands in more than one row.
fn is_bag_duplicate(rows: &[Bag], serial: Serial) -> bool
    ensures { result ≡ Defects.is_bag_duplicate rows.now serial }
{
    rows.iter().filter(|row| row.serial == serial).count() > 1
}

/// Whether by one of its rows the bag is in a box that is not there.
fn is_bag_in_missing_box(view: &FullView, serial: Serial) -> bool
    ensures { result ≡ Defects.is_bag_in_missing_box view.now serial }
{
    view.view
        .bags
        .iter()
        .any(|row| row.serial == serial && is_unboxed(view, row.spot))
}

/// Whether the serial stands in more than one row, or is in a box that is not there by one.
fn is_bag_wrong(view: &FullView, serial: Serial) -> bool
    ensures { result ≡ Defects.is_bag_wrong view.now serial }
{
    is_bag_duplicate(&view.view.bags, serial) || is_bag_in_missing_box(view, serial)
}

/// The first row whose serial stands in another one too, or whose box is not there.
fn first_boxless(view: &FullView) -> Option<Finding>
    ensures { result ≡ option_map (λ row. Findings.Bag row.serial)
        (find (λ row. Defects.is_bag_wrong view.now row.serial) view.now.view.bags.items) }
{
    view.view
        .bags
        .iter()
        .find(|row| is_bag_wrong(view, row.serial))
        .map(|row| Finding::Bag(row.serial))
}

/// A serial that stands in two rows, or a bag in a box that is not there.
#[tactic(auto, using(crate::proofs::Found::bags))]
pub(crate) fn find_misplaced_bag(view: &FullView) -> Option<Finding>
    ensures { IsFindingOfKind view.now 2 result }
{
    first_boxless(view)
}
