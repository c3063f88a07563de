//! The kinds of finding, one after the other.
ghost use Rattle.std.specs.Prelude.{IfOk};
ghost use Rattle.kcr_history.specs.Audit.{IsAudit};

use crate::custody::{find_lost_item, find_misplaced_bag};
use crate::keys::find_duplicate_key;
use crate::rooms::{find_crowded_room, find_lone_person};
use crate::seating::find_invalid_seating;
use kcr_history::{Finding, FullView};
use std::alloc::{AllocError, Global};

/// What an audit of the rows finds: a finding of the first kind that has one, or `None` if nothing is to be found. Of
/// two rows of the sheet with one person and moment the later listed counts.
pub fn audit(alloc: Global, view: &FullView) -> Result<Option<Finding>, AllocError>
    ensures { IfOk result (IsAudit view.now) }
{
    if let Some(found) = find_invalid_seating(alloc, view)? {
        return Ok(Some(found));
    }
    if let Some(found) = find_lost_item(view) {
        return Ok(Some(found));
    }
    if let Some(found) = find_misplaced_bag(view) {
        return Ok(Some(found));
    }
    if let Some(found) = find_duplicate_key(alloc, view)? {
        return Ok(Some(found));
    }
    if let Some(found) = find_lone_person(alloc, view)? {
        return Ok(Some(found));
    }
    find_crowded_room(alloc, view)
}
