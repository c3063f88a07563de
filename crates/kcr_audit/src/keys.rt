//! Keys that stand in two rows.
ghost use Rattle.std.specs.Prelude.{IfOk};
ghost use Rattle.kcr_audit.specs.Kinds.{IsFindingOfKind};
ghost use Rattle.kcr_audit.specs.Defects;

use kcr_base::Key;
use kcr_history::{Finding, FullView, KeyRow};
use std::alloc::{AllocError, Global};
use std::collections::HashSet;

/// The key of the first row whose key an earlier row has too.
fn repeated(alloc: Global, rows: &[KeyRow]) -> Result<Option<Key>, AllocError>
    ensures { IfOk result (Defects.IsRepeated rows.now) }
{
    let mut seen = HashSet::new(alloc);
    for row in rows {
        if !seen.insert(row.key)? {
            return Ok(Some(row.key));
        }
    }
    Ok(None)
}

/// A key that stands in two rows.
pub(crate) fn find_duplicate_key(
    alloc: Global,
    view: &FullView,
) -> Result<Option<Finding>, AllocError>
    ensures { IfOk result (IsFindingOfKind view.now 3) }
{
    match repeated(alloc, &view.keys)? {
        Some(key) => Ok(Some(Finding::Key(key))),
        None => Ok(None),
    }
}
